//! Want of memory.
ghost use Rattle.std.specs.Prelude.{⊤};

use std::alloc::{AllocError, AllocFailed};

/// Memory was wanted and none was given. What the refused call was to change is as it was before.
#[derive(Clone, Copy, Debug, PartialEq, Eq)]
pub struct NoMemory;

impl From<AllocError> for NoMemory {
    // A type of one value: there is nothing to say of which one comes.
    ghost from_gives = { λ _ _. ⊤ };

    fn from(_: AllocError) -> Self {
        NoMemory
    }
}

/// Drops the value that the refused call hands back.
impl<T: Drop> From<AllocFailed<T>> for NoMemory {
    ghost from_gives = { λ _ _. ⊤ };

    fn from(_: AllocFailed<T>) -> Self {
        NoMemory
    }
}

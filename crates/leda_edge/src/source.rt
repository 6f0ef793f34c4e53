//! What a script is read from.
ghost use Rattle.std.specs.Prelude.{ℕ, ◌<◌, List, length, Option};
ghost use Rattle.std.specs.Io.{ReadsAtMost};
ghost use Rattle.std.specs.Io.KnownBytes.{ReadConsumes};
ghost use Rattle.leda_edge.specs.Causes.{HasCause};
ghost use Rattle.leda_edge.specs.Parts.{StaysTold};

/// A read or a write failed, and the object that it was asked of has counted it.
#[derive(Clone, Copy, Debug, PartialEq, Eq)]
pub struct Failed;

/// Bytes to be read, from the first to the last.
pub trait Source {
    /// The bytes that are left, where they are told.
    ghost left: { Self → Option (List ℕ) };

    /// How many reads have failed.
    ghost faults: { Self → ℕ };

    /// Puts the next bytes at the front of `buf`, which isn't empty, and answers how many: 0
    /// exactly at the end.
    ///
    /// # Errors
    /// `Failed` only where the count of faults rose. Nothing was taken then.
    fn read(&mut self, buf: &mut [u8]) -> Result<usize, Failed>
        requires { 0 < length buf.old }
        ensures bound { ReadsAtMost result buf.new }
        ensures bytes { ReadConsumes (left self.old) (left self.new) result buf.new }
        ensures told { StaysTold (left self.old) (left self.new) }
        ensures cause { HasCause (faults self.old) (faults self.new) result };
}

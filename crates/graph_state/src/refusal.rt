//! Why an edit or a look was refused.

use item_pool::Gone;
use leda_base::{ItemName, NoMemory};

/// Why an edit was refused. All is then as before.
#[derive(Clone, Copy, Debug, PartialEq, Eq)]
pub enum EditRefusal {
    /// The item is dead, or was never made.
    Gone(ItemName, Gone),
    /// The item isn't visible.
    Hidden(ItemName),
    /// There are as many nodes as there may be.
    FullNodes,
    /// There are as many edges as there may be.
    FullEdges,
    /// Each number has been given.
    Spent,
    /// There was no memory.
    NoMemory,
}

/// Why a look, or an edit that takes no memory, was refused. All is then as before.
#[derive(Clone, Copy, Debug, PartialEq, Eq)]
pub enum LookRefusal {
    /// The item is dead, or was never made.
    Gone(ItemName, Gone),
    /// The item isn't visible.
    Hidden(ItemName),
}

impl From<LookRefusal> for EditRefusal {
    ghost use Rattle.std.specs.Prelude.{◌≡◌};
    ghost use Rattle.graph_state.specs.Refused.{edit_of};

    ghost from_gives = { λ why refusal. refusal ≡ edit_of why };

    fn from(why: LookRefusal) -> EditRefusal {
        match why {
            LookRefusal::Gone(item, gone) => EditRefusal::Gone(item, gone),
            LookRefusal::Hidden(item) => EditRefusal::Hidden(item),
        }
    }
}

impl From<NoMemory> for EditRefusal {
    ghost use Rattle.std.specs.Prelude.{◌≡◌};
    ghost use Rattle.graph_state.specs.Refused.{no_memory};

    ghost from_gives = { λ _ refusal. refusal ≡ no_memory };

    fn from(_: NoMemory) -> EditRefusal {
        EditRefusal::NoMemory
    }
}

//! What replies are written to.
ghost use Rattle.std.specs.Prelude.{ℕ, ◌<◌, List, length, Option, IfOk};
ghost use Rattle.std.specs.Io.{WritesAtMost};
ghost use Rattle.std.specs.Io.KnownBytes.{WriteAppends};
ghost use Rattle.leda_edge.specs.Causes.{HasCause};
ghost use Rattle.leda_edge.specs.Parts.{StaysTold};

use crate::source::Failed;

/// A place for bytes, which it holds in the order in which they were written.
pub trait Sink {
    /// The bytes that were taken, where they are told.
    ghost held: { Self → Option (List ℕ) };

    /// How many writes have failed.
    ghost faults: { Self → ℕ };

    /// Takes the first bytes of `piece`, which isn't empty, and answers how many: at least 1.
    ///
    /// # Errors
    /// `Failed` only where the count of faults rose. Nothing was taken then.
    fn write(&mut self, piece: &[u8]) -> Result<usize, Failed>
        requires { 0 < length piece.now }
        ensures some { IfOk result (λ count. 0 < count) }
        ensures bound { WritesAtMost result piece.now }
        ensures bytes { WriteAppends (held self.old) (held self.new) result piece.now }
        ensures told { StaysTold (held self.old) (held self.new) }
        ensures cause { HasCause (faults self.old) (faults self.new) result };
}

//! Writing a whole piece.
ghost use Rattle.std.specs.Prelude.{◌≡◌, [], OnOk, OnErr};
ghost use Rattle.std.specs.Io.KnownBytes.{Appends};
ghost use Rattle.leda_edge.specs.Causes.{HasCause};
ghost use Rattle.leda_edge.specs.Parts.{StaysTold, TookPart};

use crate::sink::Sink;
use crate::source::Failed;

/// Offers the piece, then what is left of it, until all of it is taken. Of an empty piece nothing
/// is offered.
///
/// # Errors
/// `Failed` only where the sink's count of faults rose. A prefix of the piece that isn't all of it
/// was taken then.
pub fn put_all<K: Sink>(sink: &mut K, piece: &[u8]) -> Result<(), Failed>
    ensures whole { OnOk result (Appends (K.held sink.old) (K.held sink.new) piece.now) }
    ensures part { OnErr result (TookPart (K.held sink.old) (K.held sink.new) piece.now) }
    ensures empty { piece.now ≡ [] → sink.new ≡ sink.old }
    ensures told { StaysTold (K.held sink.old) (K.held sink.new) }
    ensures cause { HasCause (K.faults sink.old) (K.faults sink.new) result }
{
    let mut taken = 0;
    while taken < piece.len() {
        taken += sink.write(&piece[taken..])?;
    }
    Ok(())
}

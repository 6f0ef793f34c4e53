//! A line of a script, and what it says.
ghost use Rattle.std.specs.Prelude.{◌≡◌, IfOk};
ghost use Rattle.script_text.specs.declared.line.LineRefusal.TheVariants as faults;
ghost use Rattle.script_text.specs.Line.{line_of, Reads, IsWholeLine};

use crate::command::Command;
use crate::reading::read_line;
use crate::table::table;
use leda_base::NoMemory;
use std::alloc::Global;
use thiserror::Error;

/// How many bytes a line may have, without its LF.
pub const LINE_LIMIT: usize = 65_536;

/// What a line says.
#[derive(Drop)]
pub enum Line {
    Command(Command),
    /// The line has no token, or is a comment: its first token begins with `#`.
    Nothing,
}

/// Why a line is no command. Columns count bytes from 1.
#[derive(Clone, Copy, Debug, PartialEq, Eq, Error)]
pub enum LineRefusal {
    /// The line has more than [`LINE_LIMIT`] bytes, whatever it holds.
    #[error("the line is too long")]
    LongLine,
    /// The column of the first token that isn't of the wanted form: an unknown word, an argument of
    /// another form, or a token too many. Where an argument is missing, the column behind the last
    /// token.
    #[error("syntax fault in column {0}")]
    Syntax(u32),
    /// The column of the first number outside the range of 64 bits, in a line without a syntax
    /// fault.
    #[error("number out of range in column {0}")]
    Number(u32),
    /// There is no memory for the arguments of a command.
    #[error("out of memory")]
    NoMemory,
}

impl From<NoMemory> for LineRefusal {
    ghost from_gives = { λ _ refusal. refusal ≡ faults.NoMemory };

    fn from(_: NoMemory) -> Self {
        LineRefusal::NoMemory
    }
}

/// Reads a line, which is given without its LF.
///
/// The answer is what the line means, but for a command that finds no memory for the bytes of its
/// arguments: that is [`LineRefusal::NoMemory`], which never hides another refusal.
#[tactic(auto, unfolding(crate::specs::Line::line_of))]
pub fn parse_line(alloc: Global, line: &[u8]) -> Result<Line, LineRefusal>
    ensures reads { Reads (line_of line.now) result }
    ensures whole { IfOk result IsWholeLine }
{
    match read_line(alloc, table(), line)? {
        Some(reading) => Ok(Line::Command(reading.own(alloc)?)),
        None => Ok(Line::Nothing),
    }
}

#[cfg(test)]
mod tests;

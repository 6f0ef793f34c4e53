//! The arguments of commands, as they stand in a line and as a command keeps them.
ghost use Rattle.std.specs.Prelude.{◌≡◌, true, IfOk, OnErr};
ghost use Rattle.script_text.specs.Borrowed.{arg_seen, has_bytes};

use graph_defs::{Kept, Mode};
use leda_base::{NoMemory, Row};
use std::alloc::Global;

/// An argument of a command.
#[derive(Drop)]
pub enum Arg {
    /// The number of a node's name, 7 for `n7`: from 1 to 4,294,967,295.
    Node(u32),
    /// The number of an edge's name, 3 for `e3`.
    Edge(u32),
    /// The number of the name of a container's item, 5 for `i5`.
    Cell(u32),
    /// The name of an object.
    Name(Row<u8>),
    Num(i64),
    /// What stands between `|{` and `}|`.
    Label(Row<u8>),
    /// The word `labels` in the place of a number.
    Labels,
    /// The name of a file.
    File(Row<u8>),
    Mode(Mode),
    Kept(Kept),
}

/// What stands in an unused place of a command's arguments.
impl Default for Arg {
    fn default() -> Self {
        Arg::Labels
    }
}

/// An argument as it stands in a line, which owns nothing.
#[derive(Clone, Copy, Debug, PartialEq, Eq)]
pub(crate) enum ArgRef<'a> {
    Node(u32),
    Edge(u32),
    Cell(u32),
    Name(&'a [u8]),
    Num(i64),
    Label(&'a [u8]),
    Labels,
    File(&'a [u8]),
    Mode(Mode),
    Kept(Kept),
}

/// What stands in an unused place of a line's arguments.
impl Default for ArgRef<'_> {
    fn default() -> Self {
        ArgRef::Labels
    }
}

impl ArgRef<'_> {
    /// The argument with bytes of its own.
    ///
    /// # Errors
    /// `NoMemory`, only for an argument that has bytes.
    pub(crate) fn own(self, alloc: Global) -> Result<Arg, NoMemory>
        ensures ok { IfOk result (λ arg. arg ≡ arg_seen self.entry) }
        ensures err { OnErr result (has_bytes (arg_seen self.entry) ≡ true) }
    {
        match self {
            ArgRef::Node(number) => Ok(Arg::Node(number)),
            ArgRef::Edge(number) => Ok(Arg::Edge(number)),
            ArgRef::Cell(number) => Ok(Arg::Cell(number)),
            ArgRef::Name(name) => Ok(Arg::Name(row_of(alloc, name)?)),
            ArgRef::Num(value) => Ok(Arg::Num(value)),
            ArgRef::Label(label) => Ok(Arg::Label(row_of(alloc, label)?)),
            ArgRef::Labels => Ok(Arg::Labels),
            ArgRef::File(file) => Ok(Arg::File(row_of(alloc, file)?)),
            ArgRef::Mode(mode) => Ok(Arg::Mode(mode)),
            ArgRef::Kept(sort) => Ok(Arg::Kept(sort)),
        }
    }
}

fn row_of(alloc: Global, bytes: &[u8]) -> Result<Row<u8>, NoMemory>
    ensures { IfOk result (λ row. row ≡ bytes.now) }
{
    Ok(Row::from_vec(Vec::from_slice(alloc, bytes)?))
}

/// Why a token is no argument of the form that is asked for.
#[derive(Clone, Copy, Debug, PartialEq, Eq)]
pub(crate) enum Misfit {
    /// The token is of another form.
    OtherForm,
    /// The token is a number outside the range of 64 bits.
    OutOfRange,
}

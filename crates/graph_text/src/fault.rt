//! Why a text isn't read.
ghost use Rattle.std.specs.Prelude.{◌≡◌};
ghost use Rattle.graph_text.specs.declared.fault.TextRefusal.TheVariants as refusals;

use graph_defs::TextKind;
use leda_base::NoMemory;
use std::alloc::{AllocError, AllocFailed};
use thiserror::Error;

/// What is wrong with a text, and in which line, counted from 1.
#[derive(Clone, Copy, Debug, PartialEq, Eq)]
pub(crate) struct Fault {
    pub kind: TextKind,
    pub line: u32,
}

impl Fault {
    pub fn at(line: u32, kind: TextKind) -> Self
        ensures { result ≡ record { kind = kind; line = line } }
    {
        Fault { kind, line }
    }
}

/// Why a text isn't read as a graph.
#[derive(Clone, Copy, Debug, PartialEq, Eq, Error)]
pub enum TextRefusal {
    /// The text stands for no graph: what is wrong with the first line that is wrong, and the
    /// number of that line, from 1.
    #[error("{0:?} in line {1}")]
    At(TextKind, u32),
    /// There is no memory for the graph.
    #[error("out of memory")]
    NoMemory,
}

impl From<Fault> for TextRefusal {
    ghost from_gives = { λ fault refusal. refusal ≡ refusals.At fault.kind fault.line };

    fn from(fault: Fault) -> Self {
        TextRefusal::At(fault.kind, fault.line)
    }
}

impl From<NoMemory> for TextRefusal {
    ghost from_gives = { λ _ refusal. refusal ≡ refusals.NoMemory };

    fn from(_: NoMemory) -> Self {
        TextRefusal::NoMemory
    }
}

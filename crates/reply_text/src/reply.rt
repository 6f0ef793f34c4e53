//! What a command is answered with.

use crate::refusal::Refusal;
use graph_defs::{FlowAnswer, MatchAnswer, Reach, SpAnswer, Verdict};
use leda_base::{ItemName, Row};

/// What a command is answered with.
#[derive(Drop)]
pub enum Reply {
    /// The command was done.
    Line(ReplyLine),
    /// The query is answered.
    Query(Named),
    /// The command was refused, and nothing has changed.
    Refused(Refusal),
}

/// What the line of a command that was done tells.
#[derive(Drop)]
pub enum ReplyLine {
    /// Nothing: the command was done.
    Empty,
    /// There is no such item.
    Nil,
    Num(i64),
    /// Two counts, of nodes and of edges.
    Two(u32, u32),
    Name(ItemName),
    Names(Row<ItemName>),
    /// The items of a container, in its order.
    Cells(Row<CellShow>),
    /// The bytes of a label.
    Label(Row<u8>),
}

/// An item of a container, as it is shown: its number, and what it holds.
#[derive(Drop)]
pub struct CellShow {
    pub number: u32,
    /// The value; or the key and the information; or the priority and the information.
    pub values: Row<i64>,
}

/// The answer to a query, and the names of what it numbers.
#[derive(Drop)]
pub struct Named {
    /// The number of the node that the net numbers k, at place k.
    pub nodes: Row<u32>,
    /// The number of the edge that the net numbers k, at place k.
    pub edges: Row<u32>,
    pub answer: Answer,
}

/// The answer to a query, which numbers nodes and arcs as the net does.
#[derive(Drop)]
pub enum Answer {
    Reach(Reach),
    /// Shortest paths from one node.
    Sp(SpAnswer),
    /// A maximum flow, and a cut of its value.
    Flow(FlowAnswer),
    Matching(MatchAnswer),
    /// What a checker says of an answer. It names the node or the edge at the verdict's place; for
    /// an item that is gone, or a node without a value, that one is the only name there is.
    Verdict(Verdict),
}

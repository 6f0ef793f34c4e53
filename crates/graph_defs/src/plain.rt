//! A graph as a file has it: nodes and edges by their places.

use leda_base::Row;

/// How many bytes the name of a type of labels may have.
pub const TYPE_LIMIT: usize = 255;

/// What is wrong with a line of a graph file.
#[derive(Clone, Copy, Debug, PartialEq, Eq)]
pub enum TextKind {
    /// The first line isn't `LEDA.GRAPH`.
    Header,
    /// The line of the direction begins with `-`, and is neither `-1` nor `-2`.
    Kind,
    /// A count isn't digits alone.
    Count,
    /// A label isn't of the form `|{text}|`, or isn't empty under the type `void`.
    Label,
    /// An end of an edge isn't the number of a node.
    Ends,
    /// A reversal isn't 0 or the number of an edge, or the two edges don't name each other.
    Reversal,
    /// A line is missing.
    Truncated,
    /// A line comes behind the last edge.
    Trailing,
    /// A line, a type, a label or a count is above its limit.
    Limit,
}

/// An edge of a plain graph. Its ends and its reversal are places, from 0.
#[derive(Drop)]
pub struct PlainEdge {
    pub from: u32,
    pub to: u32,
    /// The edge between the same nodes the other way that was paired with this one.
    pub rev: Option<u32>,
    pub label: Row<u8>,
}

/// A graph as a file has it: the types of its labels, the labels of its nodes, and its edges, both
/// by their places.
#[derive(Drop)]
pub struct PlainGraph {
    pub directed: bool,
    pub node_type: Row<u8>,
    pub edge_type: Row<u8>,
    pub nodes: Row<Row<u8>>,
    pub edges: Row<PlainEdge>,
}

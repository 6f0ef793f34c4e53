//! The answer to a question on shortest paths from one node.

use leda_base::Row;

/// What is told of each node of a net: its distance from the source, or that walks to it weigh less
/// than any number, or that no walk leads to it.
#[derive(Drop)]
pub struct SpAnswer {
    /// The nodes that have a distance, each behind the one that it is reached from.
    pub finite: Row<Finite>,
    /// Walks to closed walks of negative weight.
    pub seeds: Row<Seed>,
    /// The nodes with walks below every number, each behind the one that it is reached from.
    pub low: Row<Low>,
    /// The nodes to which no walk leads, in the order of the nodes.
    pub unreached: Row<u32>,
}

/// A node with its distance.
#[derive(Clone, Copy, Debug, PartialEq, Eq)]
pub struct Finite {
    pub node: u32,
    pub dist: i64,
    /// The last arc of a shortest walk, which none has at the source.
    pub pred: Option<u32>,
}

/// A walk from the source or from a finite node, and a closed walk of negative weight at its end.
#[derive(Drop)]
pub struct Seed {
    pub start: u32,
    /// The arcs of the walk.
    pub walk: Row<u32>,
    /// The arcs of the closed walk.
    pub cycle: Row<u32>,
}

/// Why the walks to a node have no least weight.
#[derive(Clone, Copy, Debug, PartialEq, Eq)]
pub enum Why {
    /// It lies on the closed walk of the seed of this number.
    Seed(u32),
    /// This arc leads to it from such a node.
    Arc(u32),
}

/// A node with walks below every number, and the reason.
#[derive(Clone, Copy, Debug, PartialEq, Eq)]
pub struct Low {
    pub node: u32,
    pub why: Why,
}

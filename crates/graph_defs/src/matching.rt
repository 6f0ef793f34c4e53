//! The answer to the question for a maximum matching.

use leda_base::Row;

/// A matching, and labels of the nodes that show that none has more edges.
#[derive(Drop)]
pub struct MatchAnswer {
    /// The chosen arcs, in the order of the arcs.
    pub edges: Row<u32>,
    /// A label for each node: an odd-set cover.
    pub cover: Row<u32>,
}

//! The answers to questions on nets.

use leda_base::Row;

/// Whether a walk leads from a node v to a node w.
#[derive(Drop)]
pub enum Reach {
    /// The arcs of a walk from v to w, in the order of the walk.
    Walk(Row<u32>),
    /// A set of nodes with v and without w that no arc leaves, in the order of the nodes.
    Closed(Row<u32>),
}

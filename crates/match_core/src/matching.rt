//! Matchings and blossoms by their numbers.

use leda_base::Row;

/// A matching: arcs without loops, no two of which share an end, in any order.
#[derive(Drop)]
pub struct Matching {
    pub edges: Row<u32>,
}

/// An odd cycle of at least three nodes, which are all different. Its edges are alternately outside
/// and in a matching, the first and the last one outside.
#[derive(Drop)]
pub struct Blossom {
    /// The nodes round the cycle, the base first.
    pub nodes: Row<u32>,
    /// Edge k joins nodes k and k + 1, and the last edge the last node and the base.
    pub edges: Row<u32>,
}

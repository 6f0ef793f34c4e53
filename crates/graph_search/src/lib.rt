//! Searches over a net: whether a walk leads from one node to another.
//!
//! Each answer shows that it is true: a walk by its arcs, and that there is none by a set of nodes
//! that no arc leaves.
#![tactic(auto)]

mod breadth_first;
mod reachability;

pub use reachability::reach;

//! Searches over a net: shortest paths from one node.
//!
//! A search answers what shows by itself that its distances are least: each node behind the one
//! that it is reached from, with the arc that leads there.
#![tactic(auto)]

mod any_costs;
mod distances;
mod finding;
mod forest;
mod labels;
mod lows;
mod refusals;
mod rounds;
mod settling;
mod tags;
mod telling;
mod walks;

pub use any_costs::{WIDE_ARC_LIMIT, WIDE_NODE_LIMIT, shortest, shortest_wide};
pub use distances::dijkstra;
pub use refusals::{SpRefusal, is_within_bound};

#[cfg(test)]
mod tests;

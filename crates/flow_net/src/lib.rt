//! Maximum flows in a net.
//!
//! An answer shows that it is right: a flow, and a cut of its value. It is found by augmenting paths
//! (L. R. Ford and D. R. Fulkerson, Maximal flow through a network, 1956), shortest ones first
//! (J. Edmonds and R. M. Karp, Theoretical improvements in algorithmic efficiency for network flow
//! problems, 1972): a breadth first search over the arcs that have room left, in both directions.
#![tactic(auto)]

mod augmenting;
mod breadth_first;
mod darts;
mod maximum;
mod refusals;

pub use maximum::max_flow;
pub use refusals::{FlowRefusal, cause_against};

#[cfg(test)]
mod tests;

//! A fast search for a maximum flow, of which only is claimed that it is safe and ends, and the call
//! that checks what it finds.
//!
//! `preflow` proposes an answer, and gives it where it is found to be right; else it asks a search
//! that is known to be complete. So the contract of the call doesn't lean on the fast search.
//!
//! The search first fills shortest paths that are found from both ends (E. A. Dinic, Algorithm for
//! solution of a problem of maximum flow in networks with power estimation, 1970), until there are no
//! more or that has taken much work. In the second case it goes on from there and pushes a preflow
//! along the hops that lead down by one label (A. V. Goldberg, R. E. Tarjan, A new approach to the
//! maximum-flow problem, 1988), from a node with the greatest label. Labels are found anew from time
//! to time by a breadth first search from the sink, and where no node has a label, those above it are
//! cut off (B. V. Cherkassky, A. V. Goldberg, On implementing the push-relabel method for the maximum
//! flow problem, 1997). What can't come to the sink goes back to the source along the arcs that it
//! came by, without labels.
#![tactic(auto)]

mod back;
mod fast;
mod join;
mod levels;
mod meet;
mod paths;
mod residual;
mod search;

pub use flow_net::FlowRefusal;
pub use join::preflow;

#[cfg(test)]
mod tests;

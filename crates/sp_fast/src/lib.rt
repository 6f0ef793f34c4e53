//! A fast search for shortest paths from one node, of which only is claimed that it is safe and
//! ends, and the call that checks what it finds.
//!
//! `shortest` proposes an answer, and gives it where it is found to be right; else it asks a search
//! that is known to be complete. So the contract of the call doesn't lean on the fast search.
//!
//! The search corrects labels in the order in which they fall (R. Bellman, On a routing problem,
//! 1958). Where that takes long it begins anew, and corrects them with a tree of last arcs (R. E.
//! Tarjan, Shortest paths, 1981). Where that takes long too, or finds a closed walk of negative
//! weight, it begins anew once more and goes through the strong components in the order in which
//! arcs lead from one to another (R. E. Tarjan, Depth-first search and linear graph algorithms,
//! 1972), and corrects labels within each: with a tree, and where that takes long in passes (A. V.
//! Goldberg, T. Radzik, A heuristic improvement of the Bellman-Ford algorithm, 1993). A component in
//! which last arcs make a closed walk is low, with all that is reached from it. The time is linear
//! in the nodes and arcs where no arc lies on a closed walk, and O(n m) at worst, also where there
//! are many closed walks of negative weight.
#![tactic(auto)]

mod components;
mod fast;
mod graph;
mod join;
mod labels;
mod lows;
mod passes;
mod rows;
mod scans;
mod trees;
mod waiting;

pub use join::shortest;
pub use sp_search::SpRefusal;

#[cfg(test)]
mod tests;

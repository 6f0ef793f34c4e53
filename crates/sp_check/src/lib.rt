//! Checks answers on shortest paths: whether all conditions of a right answer hold, or which is
//! broken first, and where.
//!
//! A node's place in the list of all nodes of an answer (finite, then low, then unreached ones)
//! tells what it is told as, so one row of places serves every condition. Each condition is a
//! function that tests it at one place and a pass that looks for the first place where it is
//! broken, so a check takes time and memory linear in the net and the answer.
#![tactic(auto)]

mod cycles;
mod kind;
mod nodes;
mod paths;
mod range;
mod read;
mod top;

pub use top::check_sp;

#[cfg(test)]
mod tests;

//! Checks answers on flows: whether all conditions of a right answer hold, or which is broken
//! first, and where.
//!
//! What leaves each node less what enters it is summed in one pass over the arcs, and a set of
//! nodes becomes a row of marks, so a check takes time and memory linear in the net and the answer.
//! Sums are exact, in 128 bits.
#![tactic(auto)]

mod balances;
mod cut;
mod read;
mod top;

pub use top::check_flow;

#[cfg(test)]
mod tests;

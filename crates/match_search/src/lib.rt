//! The search for a maximum matching: the fast one, and the complete one behind it.
//!
//! `max_matching` takes the answer of the fast search where that is found to be right, and asks the
//! complete search else. So it has the complete search's contract and mostly the fast one's time.
#![tactic(auto)]

mod search;
#[cfg(test)]
mod tests;

pub use search::max_matching;

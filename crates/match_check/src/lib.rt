//! Checks answers on maximum matchings: whether all conditions of a right answer hold, or which is
//! broken first, and where.
//!
//! The edges are counted at their ends, the labels of each arc's ends are compared, and the size of
//! the cover is counted in one pass over the labels.
#![tactic(auto)]

mod cover;
mod top;

pub use top::check_matching;

#[cfg(test)]
mod tests;

//! A list of values by items.
//!
//! An item names a value by its serial number for as long as the value is in the list, wherever the
//! value is moved to, and isn't given again (the type `list` of Mehlhorn and Naeher, LEDA,
//! Cambridge 1999, section 3.2).
//!
//! - `node`: what is kept for an item.
//! - `side`: the two sides of a chain, and what a ring does towards either.
//! - `chain`: a ring of members gives the order, and a pool of nodes has the values.
//! - `list`: a chain, and the direction in which it is read.
#![tactic(auto)]

mod chain;
mod list;
mod node;
mod side;
#[cfg(test)]
mod tests;

pub use item_pool::{Gone, InsertRefusal, Item};
pub use list::List;
pub use node::BesideRefusal;

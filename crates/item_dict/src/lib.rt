//! A dictionary: entries of a key and its information, each named by an item, no two with one key.
//!
//! It is LEDA's dictionary (Mehlhorn and Naeher, LEDA, Cambridge 1999) with items that are told
//! apart for ever: an item that outlived its entry is refused as dead, and one that never was as
//! unknown.
//!
//! The entries lie in a `Pool`, and a `BTreeMap` has the serial of each key. Every call is
//! logarithmic in the number of entries. (The pool's table answers in constant expected time.)
//!
//! Contracts see a dictionary as the list of its triples of key, item and information in the order
//! of the keys, that is as a finite map from keys, with the number of serials made. `len` says that
//! no two keys have one item.
#![tactic(auto)]

mod dict;
#[cfg(test)]
mod runs;
#[cfg(test)]
mod tests;

pub use dict::Dict;
pub use item_pool::{Gone, InsertRefusal, Item};

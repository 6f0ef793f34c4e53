//! A complete search for a maximum matching and an odd-set cover that shows it is one.
//!
//! `max_matching` augments a matching until a cover shows that there is no more. One forest of
//! alternating paths is grown from all free nodes; a blossom in it is contracted, and the search goes
//! on in the smaller net. The laws say where a search may end and what the cover there says of a
//! stem.
#![tactic(auto)]

mod augmenting;
mod forest;
mod found;
mod laws;
mod levels;
mod maximum;
mod stem;

pub use augmenting::augment;
pub use laws::{closed_sets_give_covers, stem_ends_are_not_labelled_1, stems_go_on};
pub use maximum::max_matching;

#[cfg(test)]
mod tests;

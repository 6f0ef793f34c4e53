//! What searches find.

use leda_base::Row;
use match_core::Blossom;

/// How the search of a net for an augmenting path ends.
#[derive(Drop)]
pub enum Outcome {
    /// The edges of an augmenting path.
    Path(Row<u32>),
    /// A cover of the matching's size.
    Cover(Row<u32>),
}

/// What a forest of alternating paths comes to.
#[derive(Drop)]
pub enum Found {
    End(Outcome),
    /// A blossom with a stem, which has to be contracted.
    Flower(Blossom),
}

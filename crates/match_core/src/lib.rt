//! Matchings, and whether some arcs are one.
//!
//! `graph_defs/specs/Matching.antt` says what a matching, an odd-set cover and its size are, and
//! `graph_defs` has the law that no matching is larger than a cover. `specs/Path.antt` has the
//! words of a search for a larger matching: alternating and augmenting paths, stems and blossoms.
#![tactic(auto)]

mod edges;
mod matching;

pub use edges::{are_edges, ends_of, first_loop, first_shared, is_matching};
pub use matching::{Blossom, Matching};

#[cfg(test)]
mod tests;

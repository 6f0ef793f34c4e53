//! Nets, the answers to questions on them, and what makes an answer true.
//!
//! Nothing here knows of commands or items: a net is a number of nodes and a list of arcs, both
//! numbered from 0, and an answer names nodes and arcs by these numbers. `specs/` has the words
//! that every search, checker and law is stated with, in the field's terms:
//!
//! - `Net.antt`: valid nets, the source and the target of an arc;
//! - `Count.antt` and `Sum.antt`: how often a number stands in a list; sums below a number;
//! - `Set.antt`: sets of nodes with a test that computes, the arcs that leave them, cuts;
//! - `Walk.antt`: walks along any steps, those along arcs, and the sets that no arc leaves;
//! - `Dart.antt`: the two halves of an edge by their numbers, and walks along darts;
//! - `Grouped.antt`: pairs of numbers in rows by their keys, which searches go over;
//! - `Plain.antt`: graphs as files have them, and which of them are valid;
//! - `Query.antt`: the words of the sorts of kept answers;
//! - `Verdict.antt`: what the verdict of a checker says, whatever its conditions are.
//!
//! A new kind of answer gets a type in `answer`, a file of `specs/` that says when it is right of a
//! net, and, where it is more than a fact that can be read off, a law in `laws`: a function with an
//! empty body whose contract says what the answer shows.
#![tactic(auto)]

mod answer;
mod dart;
mod flow;
mod grouped;
mod laws;
mod matching;
mod net;
mod plain;
mod query;
mod shortest;
mod verdict;

pub use answer::Reach;
pub use dart::Dart;
pub use flow::{FlowAnswer, McfAnswer, MinMax};
pub use grouped::{Grouped, Incidence};
pub use laws::{
    closed_set_excludes_walks, covers_bound_matchings, cuts_bound_flows, reduced_is_cheapest,
    reduced_is_cheapest_of_its_value, set_excludes_flows, shortest_gives_least_weights,
    yes_gives_greatest, yes_gives_largest, yes_gives_least_weights,
};
pub use matching::MatchAnswer;
pub use net::{ARC_LIMIT, NODE_LIMIT, Net};
pub use plain::{PlainEdge, PlainGraph, TYPE_LIMIT, TextKind};
pub use query::{Kept, Mode};
pub use shortest::{Finite, Low, Seed, SpAnswer, Why};
pub use verdict::{Cond, Verdict};

//! The lists of a graph, each kept as two rings: one of all that stands in the list, and one of
//! what shows.
//!
//! A list has a name, and so has what stands in it; each element stands in at most one list. An
//! element is given two members of one `Rings`, and a list two heads, which the caller keeps and
//! hands back with the name. Hiding an element takes its second member out of the ring of what
//! shows, and leaves the list as it is. Contracts see the lists by names: nothing in them speaks of
//! rings. So where every edge of a graph comes to go the other way, only names change.
//!
//! - `token`: the two heads of a list, and the two members of an element.
//! - `seen`: what contracts see of the lists.
//! - `lists`: the lists.
#![tactic(auto)]

mod lists;
mod seen;
mod token;

pub use item_ring::{Head, Member};
pub use lists::Lists;
pub use token::{Hook, ListHead};

//! A fast search for maximum matchings, of which only is claimed that it is safe and ends, and the
//! call that checks what it finds.
//!
//! `max_matching` proposes an answer, and gives it where it is found to be right; else it asks a
//! search that is known to be complete. So the contract of the call doesn't lean on the fast
//! search.
//!
//! The search begins with a matching by the rules for nodes of degree one and two (R. M. Karp and
//! M. Sipser, Maximum matchings in sparse random graphs, 1981), and grows one forest of alternating
//! trees from all free nodes, with blossoms shrunk by union-find (J. Edmonds, Paths, trees, and
//! flowers, 1965; H. N. Gabow, An efficient implementation of Edmonds' algorithm, 1976). After a
//! round only the trees that were used up are grown anew. A round takes time almost linear in the
//! nodes and arcs, and seldom are there more than a few.
#![tactic(auto)]

mod blossoms;
mod fast;
mod forest;
mod graph;
mod join;
mod rows;
mod start;

pub use join::{MatchingSearch, max_matching};

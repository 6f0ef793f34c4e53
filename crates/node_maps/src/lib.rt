//! Arrays and maps over the nodes and the edges of a graph.
//!
//! They are LEDA's `node_array`, `edge_array`, `node_map` and `edge_map` (Mehlhorn and Naeher,
//! LEDA, Cambridge 1999). An array has a value for each element that was live when it was made, and
//! doesn't cover those that were made later. A map covers each element: one whose value wasn't set
//! has the map's default. Hidden elements are served like others, and a dead or unknown item is
//! refused exactly.
//!
//! An array is one dense row, in which a value lies where its element lies in the graph, so that a
//! look is one step. A map has a hash table of the values that were set.
//!
//! - `item`: what nodes and edges have in common here, so that all else is written once.
//! - `row`: the dense rows. `array`: the arrays. `labels`: the integers that labels write.
//! - `map`: the maps. `laws`: that an array serves each later state of its graph.
#![tactic(auto)]

mod array;
mod item;
mod labels;
mod laws;
mod map;
mod row;
#[cfg(test)]
mod tests;

pub use array::{EdgeArray, ElementArray, LabelRefusal, NodeArray, ValueRefusal};
pub use item::GraphItem;
pub use laws::later_states_are_served;
pub use map::{EdgeMap, ElementMap, MapRefusal, NodeMap};

//! Graphs: nodes and edges by items, with edits, looks, and elements that can be hidden.
//!
//! A graph is two pools, of node cells and of edge cells, and the lists of `graph_lists`: each list
//! is a ring of all that stands in it and a ring of what shows. So an edit, the hiding of an edge
//! and a look at a neighbour each take constant time, and a look at a list takes time linear in
//! what shows of it. An element that is hidden keeps its place. Contracts see a graph as
//! its state, `GraphState` of `graph_state`, whose well-formedness is an invariant of the type.
//!
//! - `cell`: what is kept for a node, and for an edge.
//! - `graph`: the graph, with its edits and looks.
#![tactic(auto)]

mod cell;
mod graph;
mod seen;

pub use graph::Graph;
pub use graph_state::{
    Dart, EdgeItem, EditRefusal, Gone, Item, ItemName, Kind, LookRefusal, NodeItem, Side,
};

#[cfg(test)]
mod tests;

//! What is kept for a node, and for an edge.

use graph_lists::{Hook, ListHead};
use leda_base::Row;

/// The heads of the node list and of the edge list.
#[derive(Drop)]
pub struct Heads {
    pub nodes: ListHead,
    pub edges: ListHead,
}

/// What is kept for a node.
#[derive(Drop)]
pub struct NodeCell {
    pub label: Row<u8>,
    pub is_hidden: bool,
    pub hook: Hook,
    pub outs: ListHead,
    pub ins: ListHead,
}

/// What is kept for an edge. Nodes and edges stand as their numbers.
#[derive(Drop)]
pub struct EdgeCell {
    pub label: Row<u8>,
    pub from: u32,
    pub to: u32,
    pub reversal: Option<u32>,
    pub is_hidden: bool,
    pub hook: Hook,
    pub front: Hook,
    pub back: Hook,
}

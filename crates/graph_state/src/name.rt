//! The lists of a graph, and what stands in them.

use graph_defs::Dart;

/// A list of a graph: that of its nodes, that of its edges, or the out list or in list of a node.
#[derive(Clone, Copy, Debug, PartialEq, Eq)]
pub enum ListName {
    Nodes,
    Edges,
    Out(u32),
    In(u32),
}

/// What stands in a list: a node, an edge, or one of the two ends of an edge.
#[derive(Clone, Copy, Debug, PartialEq, Eq)]
pub enum Element {
    Node(u32),
    Edge(u32),
    End(Dart),
}

//! The answers to questions on flows.

use leda_base::Row;

/// A flow from a source to a sink, and a cut of its value, which shows that no flow has a greater
/// one.
#[derive(Drop)]
pub struct FlowAnswer {
    /// The flow along each arc.
    pub flow: Row<i64>,
    /// What leaves the source less what enters it.
    pub value: i64,
    /// The nodes on the source's side of the cut, in the order of the nodes.
    pub cut: Row<u32>,
}

/// A maximum flow of least cost, with the cut that shows the one and the potentials that show the
/// other.
#[derive(Drop)]
pub struct MinMax {
    pub flow: Row<i64>,
    pub value: i64,
    /// The sum of flow times cost over the arcs.
    pub cost: i128,
    pub cut: Row<u32>,
    /// A potential for each node.
    pub pot: Row<i64>,
}

/// A feasible flow of least cost, or what shows that there is no feasible one.
#[derive(Drop)]
pub enum McfAnswer {
    Best {
        flow: Row<i64>,
        cost: i128,
        pot: Row<i64>,
    },
    /// A set of nodes whose supply, with the lower bounds of the arcs that enter it, exceeds the
    /// upper bounds of the arcs that leave it.
    Infeasible {
        set: Row<u32>,
    },
}

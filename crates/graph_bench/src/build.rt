//! A graph: nodes and edges come in, and each edge is asked for its source.
use crate::{EDGES, NODES, report};
use anyhow::Context;
use graph_core::{EdgeItem, Graph, Kind, NodeItem};
use leda_base::Row;
use std::alloc::Global;
use std::time::Instant;

/// How far apart the ends of an edge are.
const STRIDE: u32 = 7919;

fn fill_nodes(alloc: Global, graph: &mut Graph, nodes: &mut Vec<NodeItem>) -> anyhow::Result<()> {
    for _ in 0..NODES {
        let node = graph.new_node(Row::new(alloc)).ok().context("no room")?;
        nodes.push(node)?;
    }
    Ok(())
}

fn fill_edges(
    alloc: Global,
    graph: &mut Graph,
    nodes: &[NodeItem],
    edges: &mut Vec<EdgeItem>,
) -> anyhow::Result<()> {
    for k in 0..EDGES {
        let from = nodes.get((k % NODES) as usize).context("a node")?;
        let to = nodes
            .get(((k + STRIDE) % NODES) as usize)
            .context("a node")?;
        let edge = graph
            .new_edge(*from, *to, Row::new(alloc))
            .ok()
            .context("no room")?;
        edges.push(edge)?;
    }
    Ok(())
}

fn look(graph: &Graph, edges: &[EdgeItem]) -> u64 {
    let mut sum = 0u64;
    for edge in edges {
        if let Ok(node) = graph.source(*edge) {
            sum = sum.wrapping_mul(31).wrapping_add(u64::from(node.0.serial));
        }
    }
    sum
}

fn steps(rt: &HostRuntime, graph: &mut Graph) -> anyhow::Result<u64> {
    let mut nodes = Vec::new(rt.alloc());
    let mut edges = Vec::new(rt.alloc());
    let start = Instant::now(rt)?;
    fill_nodes(rt.alloc(), graph, &mut nodes)?;
    report(rt, "nodes", start.elapsed(rt)?)?;
    let start = Instant::now(rt)?;
    fill_edges(rt.alloc(), graph, &nodes, &mut edges)?;
    report(rt, "edges", start.elapsed(rt)?)?;
    let start = Instant::now(rt)?;
    let sum = look(graph, &edges);
    report(rt, "sources", start.elapsed(rt)?)?;
    Ok(sum)
}

pub fn time(rt: &HostRuntime) -> anyhow::Result<u64> {
    let mut graph = Graph::new(rt.alloc(), Kind::Directed);
    steps(rt, &mut graph)
}

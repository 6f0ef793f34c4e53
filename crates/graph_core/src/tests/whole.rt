//! Edits of the whole graph, and looks at all of it.

use super::{add_edges, add_nodes, edge_numbers, numbers_in, numbers_out};
use crate::{Graph, Kind, NodeItem};
use leda_base::Row;
use std::alloc::Global;
use std::process::Abort;
use std::test::Fail;

/// Three edges from the first node to the second, and a loop at the second.
fn build(alloc: Global, g: &mut Graph) -> Option<[NodeItem; 2]> {
    let nodes = add_nodes(alloc, g, 2)?;
    let (v, w) = (*nodes.get(0)?, *nodes.get(1)?);
    add_edges(alloc, g, v, w)?;
    g.new_edge(w, w, Row::new(alloc)).ok()?;
    Some([v, w])
}

/// A directed graph whose edges are turned, and turned back.
fn see_turned(rt: &impl Abort, alloc: Global, g: &mut Graph) -> Result<(), Fail> {
    let [v, w] = build(alloc, g).ok_or("no graph")?;
    let first = g.edge_item(1).ok().ok_or("no edge")?;
    let second = g.edge_item(2).ok().ok_or("no edge")?;
    let fourth = g.edge_item(4).ok().ok_or("no edge")?;
    g.rev_all();
    assert_eq!(rt; g.source(second), Ok(w));
    assert_eq!(rt; g.target(second), Ok(v));
    assert_eq!(rt; g.source(fourth), Ok(w));
    let outs = numbers_out(alloc, g, w).ok_or("no list")?;
    assert_eq!(rt; outs.as_slice(), [1, 2, 3, 4].as_slice());
    let ins = numbers_in(alloc, g, w).ok_or("no list")?;
    assert_eq!(rt; ins.as_slice(), [4].as_slice());
    let ins = numbers_in(alloc, g, v).ok_or("no list")?;
    assert_eq!(rt; ins.as_slice(), [1, 2, 3].as_slice());
    assert_eq!(rt; g.out_first(v), Ok(None));
    assert_eq!(rt; g.cyclic_adj_pred(first), Ok(fourth));
    g.rev_all();
    assert_eq!(rt; g.source(second), Ok(v));
    let outs = numbers_out(alloc, g, v).ok_or("no list")?;
    assert_eq!(rt; outs.as_slice(), [1, 2, 3].as_slice());
    assert_eq!(rt; g.kind(), Kind::Directed);
    Ok(())
}

#[test]
fn all_edges_turn_and_their_darts_stay_in_place(rt: HostRuntime) -> Result<(), Fail> {
    let mut g = Graph::new(rt.alloc(), Kind::Directed);
    see_turned(&rt, rt.alloc(), &mut g)
}

/// An undirected graph whose edges are turned.
fn see_undirected(rt: &impl Abort, alloc: Global, g: &mut Graph) -> Result<(), Fail> {
    let [v, w] = build(alloc, g).ok_or("no graph")?;
    let first = g.edge_item(1).ok().ok_or("no edge")?;
    let fourth = g.edge_item(4).ok().ok_or("no edge")?;
    g.rev_all();
    assert_eq!(rt; g.source(first), Ok(w));
    let outs = numbers_out(alloc, g, w).ok_or("no list")?;
    assert_eq!(rt; outs.as_slice(), [1, 2, 3, 4, 4].as_slice());
    let outs = numbers_out(alloc, g, v).ok_or("no list")?;
    assert_eq!(rt; outs.as_slice(), [1, 2, 3].as_slice());
    assert_eq!(rt; g.cyclic_adj_succ(fourth), Ok(first));
    assert_eq!(rt; g.adj_pred(fourth), Ok(Some(fourth)));
    assert_eq!(rt; g.kind(), Kind::Undirected);
    Ok(())
}

#[test]
fn the_lists_of_an_undirected_graph_stay(rt: HostRuntime) -> Result<(), Fail> {
    let mut g = Graph::new(rt.alloc(), Kind::Undirected);
    see_undirected(&rt, rt.alloc(), &mut g)
}

/// All nodes and all edges.
fn see_all(rt: &impl Abort, alloc: Global, g: &mut Graph) -> Result<(), Fail> {
    let none = g.live_nodes(alloc).ok().ok_or("no nodes")?;
    assert_eq!(rt; none.as_slice().len(), 0);
    let none = g.live_edges(alloc).ok().ok_or("no edges")?;
    assert_eq!(rt; none.as_slice().len(), 0);
    let [v, w] = build(alloc, g).ok_or("no graph")?;
    let nodes = g.live_nodes(alloc).ok().ok_or("no nodes")?;
    assert_eq!(rt; nodes.as_slice(), [v, w].as_slice());
    let edges = g.live_edges(alloc).ok().ok_or("no edges")?;
    let numbers = edge_numbers(alloc, edges.as_slice()).ok_or("no numbers")?;
    assert_eq!(rt; numbers.as_slice(), [1, 2, 3, 4].as_slice());
    assert_eq!(rt; g.node_type().len(), 0);
    assert_eq!(rt; g.edge_type().len(), 0);
    Ok(())
}

#[test]
fn all_nodes_and_edges_stand_in_list_order(rt: HostRuntime) -> Result<(), Fail> {
    let mut g = Graph::new(rt.alloc(), Kind::Directed);
    see_all(&rt, rt.alloc(), &mut g)
}

//! Edges and nodes that go.

use super::{add_edges, add_nodes, edge_numbers, numbers_in, numbers_out};
use crate::{EdgeItem, Gone, Graph, ItemName, Kind, LookRefusal, NodeItem};
use leda_base::Row;
use std::alloc::Global;
use std::process::Abort;
use std::test::Fail;

/// The numbers of the visible edges.
fn numbers_of_edges(alloc: Global, g: &Graph) -> Option<Vec<u32>> {
    edge_numbers(alloc, g.edges(alloc).ok()?.as_slice())
}

/// Three parallel edges, of which the second goes. The next edge takes a number of its own.
fn see_deleted_edge(rt: &impl Abort, alloc: Global, g: &mut Graph) -> Result<(), Fail> {
    let nodes = add_nodes(alloc, g, 2).ok_or("no nodes")?;
    assert_eq!(rt; nodes.len(), 2);
    let (v, w) = (nodes[0], nodes[1]);
    let [first, second, third] = add_edges(alloc, g, v, w).ok_or("no edges")?;
    assert_eq!(rt; g.del_edge(second), Ok(()));
    let dead = LookRefusal::Gone(ItemName::Edge(2), Gone::Dead);
    assert_eq!(rt; g.del_edge(second), Err(dead));
    assert_eq!(rt; g.edge_item(2), Err(Gone::Dead));
    assert_eq!(rt; g.adj_succ(first), Ok(Some(third)));
    let outs = numbers_out(alloc, g, v).ok_or("no list")?;
    assert_eq!(rt; outs.as_slice(), [1, 3].as_slice());
    let ins = numbers_in(alloc, g, w).ok_or("no list")?;
    assert_eq!(rt; ins.as_slice(), [1, 3].as_slice());
    let last = g.new_edge(w, v, Row::new(alloc)).ok().ok_or("no edge")?;
    assert_eq!(rt; last.0.serial, 4);
    let edges = numbers_of_edges(alloc, g).ok_or("no list")?;
    assert_eq!(rt; edges.as_slice(), [1, 3, 4].as_slice());
    Ok(())
}

#[test]
fn a_deleted_edge_leaves_its_lists(rt: HostRuntime) -> Result<(), Fail> {
    let mut g = Graph::new(rt.alloc(), Kind::Directed);
    see_deleted_edge(&rt, rt.alloc(), &mut g)
}

/// Hides the edge of a number.
fn hide(g: &mut Graph, number: u32) -> Option<EdgeItem> {
    let e = g.edge_item(number).ok()?;
    if g.is_hidden(ItemName::Edge(number)) {
        return None;
    }
    g.hide_edge(e);
    Some(e)
}

/// Of three parallel edges the second is hidden.
fn see_hidden_edge(rt: &impl Abort, alloc: Global, g: &mut Graph) -> Result<(), Fail> {
    let nodes = add_nodes(alloc, g, 2).ok_or("no nodes")?;
    assert_eq!(rt; nodes.len(), 2);
    add_edges(alloc, g, nodes[0], nodes[1]).ok_or("no edges")?;
    let second = hide(g, 2).ok_or("not hidden")?;
    let hidden = LookRefusal::Hidden(ItemName::Edge(2));
    assert_eq!(rt; g.del_edge(second), Err(hidden));
    assert_eq!(rt; g.edge_item(2), Ok(second));
    let edges = numbers_of_edges(alloc, g).ok_or("no list")?;
    assert_eq!(rt; edges.as_slice(), [1, 3].as_slice());
    Ok(())
}

#[test]
fn a_hidden_edge_is_not_deleted(rt: HostRuntime) -> Result<(), Fail> {
    let mut g = Graph::new(rt.alloc(), Kind::Undirected);
    see_hidden_edge(&rt, rt.alloc(), &mut g)
}

/// An edge, one back that is hidden, and a loop, with a third node beside. The first node goes.
fn see_deleted_node(rt: &impl Abort, alloc: Global, g: &mut Graph) -> Result<(), Fail> {
    let nodes = add_nodes(alloc, g, 3).ok_or("no nodes")?;
    assert_eq!(rt; nodes.len(), 3);
    let (v, w, u) = (nodes[0], nodes[1], nodes[2]);
    add_path(alloc, g, &[(v, w), (w, v), (v, v), (w, u)]).ok_or("no edges")?;
    hide(g, 2).ok_or("not hidden")?;
    assert_eq!(rt; g.del_node(v), Ok(()));
    assert_eq!(rt; g.node_item(1), Err(Gone::Dead));
    assert_eq!(rt; g.edge_item(2), Err(Gone::Dead));
    let edges = numbers_of_edges(alloc, g).ok_or("no list")?;
    assert_eq!(rt; edges.as_slice(), [4].as_slice());
    let outs = numbers_out(alloc, g, w).ok_or("no list")?;
    assert_eq!(rt; outs.as_slice(), [4].as_slice());
    let left = g.nodes(alloc).ok().ok_or("no nodes")?;
    assert_eq!(rt; left.as_slice(), [w, u].as_slice());
    Ok(())
}

/// An edge for each of the pairs.
fn add_path(alloc: Global, g: &mut Graph, pairs: &[(NodeItem, NodeItem)]) -> Option<()> {
    for (v, w) in pairs {
        g.new_edge(*v, *w, Row::new(alloc)).ok()?;
    }
    Some(())
}

#[test]
fn a_deleted_node_takes_its_edges_along(rt: HostRuntime) -> Result<(), Fail> {
    let mut g = Graph::new(rt.alloc(), Kind::Directed);
    see_deleted_node(&rt, rt.alloc(), &mut g)
}

#[test]
fn so_it_does_in_an_undirected_graph(rt: HostRuntime) -> Result<(), Fail> {
    let mut g = Graph::new(rt.alloc(), Kind::Undirected);
    see_deleted_node(&rt, rt.alloc(), &mut g)
}

/// Two nodes and three edges, of which one is hidden, all go. Numbers go on.
fn see_cleared(rt: &impl Abort, alloc: Global, g: &mut Graph) -> Result<(), Fail> {
    let nodes = add_nodes(alloc, g, 2).ok_or("no nodes")?;
    assert_eq!(rt; nodes.len(), 2);
    add_edges(alloc, g, nodes[0], nodes[1]).ok_or("no edges")?;
    hide(g, 2).ok_or("not hidden")?;
    g.clear();
    assert_eq!(rt; g.kind(), Kind::Undirected);
    assert_eq!(rt; g.node_item(1), Err(Gone::Dead));
    assert_eq!(rt; g.edge_item(2), Err(Gone::Dead));
    assert_eq!(rt; g.made_edges(), 3);
    let next = g.new_node(Row::new(alloc)).ok().ok_or("no node")?;
    assert_eq!(rt; next.0.serial, 3);
    let left = g.nodes(alloc).ok().ok_or("no nodes")?;
    assert_eq!(rt; left.as_slice(), [next].as_slice());
    Ok(())
}

#[test]
fn a_cleared_graph_keeps_its_numbers(rt: HostRuntime) -> Result<(), Fail> {
    let mut g = Graph::new(rt.alloc(), Kind::Undirected);
    see_cleared(&rt, rt.alloc(), &mut g)
}

//! Graphs built and looked at.

mod kinds;
mod moving;
mod removal;
mod replacing;
mod whole;

use crate::{EdgeItem, Gone, Graph, Kind, NodeItem};
use leda_base::Row;
use std::alloc::Global;
use std::process::Abort;
use std::test::Fail;

/// So many nodes.
fn add_nodes(alloc: Global, g: &mut Graph, count: u32) -> Option<Vec<NodeItem>> {
    let mut nodes = Vec::new(alloc);
    for _ in 0..count {
        let node = g.new_node(Row::new(alloc)).ok()?;
        nodes.push(node).ok()?;
    }
    Some(nodes)
}

/// The numbers of the items.
fn edge_numbers(alloc: Global, items: &[EdgeItem]) -> Option<Vec<u32>> {
    let mut numbers = Vec::new(alloc);
    for item in items {
        numbers.push(item.0.serial).ok()?;
    }
    Some(numbers)
}

fn numbers_out(alloc: Global, g: &Graph, v: NodeItem) -> Option<Vec<u32>> {
    edge_numbers(alloc, g.out_edges(alloc, v).ok()?.as_slice())
}

fn numbers_in(alloc: Global, g: &Graph, v: NodeItem) -> Option<Vec<u32>> {
    edge_numbers(alloc, g.in_edges(alloc, v).ok()?.as_slice())
}

/// An edge and a loop.
fn see_loop(rt: &impl Abort, alloc: Global, g: &mut Graph) -> Result<(), Fail> {
    let nodes = add_nodes(alloc, g, 2).ok_or("no nodes")?;
    assert_eq!(rt; nodes.len(), 2);
    let (v, w) = (nodes[0], nodes[1]);
    let first = g.new_edge(v, w, Row::new(alloc)).ok().ok_or("no edge")?;
    let second = g.new_edge(v, v, Row::new(alloc)).ok().ok_or("no loop")?;
    let outs = numbers_out(alloc, g, v).ok_or("no list")?;
    assert_eq!(rt; outs.as_slice(), [1, 2, 2].as_slice());
    let ins = numbers_in(alloc, g, v).ok_or("no list")?;
    assert_eq!(rt; ins.len(), 0);
    assert_eq!(rt; g.adj_succ(first), Ok(Some(second)));
    assert_eq!(rt; g.kind(), Kind::Undirected);
    Ok(())
}

#[test]
fn a_loop_stands_twice_in_an_undirected_list(rt: HostRuntime) -> Result<(), Fail> {
    let mut g = Graph::new(rt.alloc(), Kind::Undirected);
    see_loop(&rt, rt.alloc(), &mut g)
}

/// Three edges from one node to another.
fn add_edges(alloc: Global, g: &mut Graph, v: NodeItem, w: NodeItem) -> Option<[EdgeItem; 3]> {
    let first = g.new_edge(v, w, Row::new(alloc)).ok()?;
    let second = g.new_edge(v, w, Row::new(alloc)).ok()?;
    let third = g.new_edge(v, w, Row::new(alloc)).ok()?;
    Some([first, second, third])
}

/// Three parallel edges.
fn see_neighbours(rt: &impl Abort, alloc: Global, g: &mut Graph) -> Result<(), Fail> {
    let nodes = add_nodes(alloc, g, 2).ok_or("no nodes")?;
    assert_eq!(rt; nodes.len(), 2);
    let (v, w) = (nodes[0], nodes[1]);
    let [first, second, third] = add_edges(alloc, g, v, w).ok_or("no edges")?;
    assert_eq!(rt; g.out_first(v), Ok(Some(first)));
    assert_eq!(rt; g.out_last(v), Ok(Some(third)));
    assert_eq!(rt; g.out_first(w), Ok(None));
    assert_eq!(rt; g.adj_succ(third), Ok(None));
    assert_eq!(rt; g.adj_pred(second), Ok(Some(first)));
    assert_eq!(rt; g.cyclic_adj_succ(third), Ok(first));
    assert_eq!(rt; g.cyclic_adj_pred(first), Ok(third));
    assert_eq!(rt; g.source(second), Ok(v));
    assert_eq!(rt; g.target(second), Ok(w));
    let ins = numbers_in(alloc, g, w).ok_or("no list")?;
    assert_eq!(rt; ins.as_slice(), [1, 2, 3].as_slice());
    Ok(())
}

#[test]
fn neighbours_stand_in_the_order_of_making(rt: HostRuntime) -> Result<(), Fail> {
    let mut g = Graph::new(rt.alloc(), Kind::Directed);
    see_neighbours(&rt, rt.alloc(), &mut g)
}

/// Nodes and edges by their numbers.
fn see_items(rt: &impl Abort, alloc: Global, g: &mut Graph) -> Result<(), Fail> {
    let nodes = add_nodes(alloc, g, 2).ok_or("no nodes")?;
    assert_eq!(rt; nodes.len(), 2);
    let [first, _, _] = add_edges(alloc, g, nodes[0], nodes[1]).ok_or("no edges")?;
    assert_eq!(rt; g.made_nodes(), 2);
    assert_eq!(rt; g.made_edges(), 3);
    assert_eq!(rt; g.node_item(1), Ok(nodes[0]));
    assert_eq!(rt; g.node_item(3), Err(Gone::Unknown));
    assert_eq!(rt; g.edge_item(1), Ok(first));
    let text = g.edge_label(first).ok().ok_or("no label")?;
    assert_eq!(rt; text.len(), 0);
    let text = g.node_label(nodes[0]).ok().ok_or("no label")?;
    assert_eq!(rt; text.len(), 0);
    let text = g.live_edge_label(first).ok().ok_or("no label")?;
    assert_eq!(rt; text.len(), 0);
    let text = g.live_node_label(nodes[0]).ok().ok_or("no label")?;
    assert_eq!(rt; text.len(), 0);
    let all = g.nodes(alloc).ok().ok_or("no nodes")?;
    assert_eq!(rt; all.as_slice(), nodes.as_slice());
    let edges = g.edges(alloc).ok().ok_or("no edges")?;
    assert_eq!(rt; edges.as_slice().len(), 3);
    Ok(())
}

#[test]
fn items_and_labels_are_found_by_number(rt: HostRuntime) -> Result<(), Fail> {
    let mut g = Graph::new(rt.alloc(), Kind::Directed);
    see_items(&rt, rt.alloc(), &mut g)
}

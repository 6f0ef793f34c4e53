//! Edges that go elsewhere.

use super::{add_edges, add_nodes, edge_numbers, numbers_in, numbers_out};
use crate::{Gone, Graph, ItemName, Kind, LookRefusal};
use std::alloc::Global;
use std::process::Abort;
use std::test::Fail;

/// Of three parallel edges the first is moved to where it was, and the second is reversed.
fn see_moved(rt: &impl Abort, alloc: Global, g: &mut Graph) -> Result<(), Fail> {
    let nodes = add_nodes(alloc, g, 2).ok_or("no nodes")?;
    assert_eq!(rt; nodes.len(), 2);
    let (v, w) = (nodes[0], nodes[1]);
    let [first, second, _] = add_edges(alloc, g, v, w).ok_or("no edges")?;
    assert_eq!(rt; g.move_edge(first, v, w), Ok(()));
    let outs = numbers_out(alloc, g, v).ok_or("no list")?;
    assert_eq!(rt; outs.as_slice(), [2, 3, 1].as_slice());
    assert_eq!(rt; g.rev_edge(second), Ok(()));
    assert_eq!(rt; g.source(second), Ok(w));
    assert_eq!(rt; g.target(second), Ok(v));
    let outs = numbers_out(alloc, g, w).ok_or("no list")?;
    assert_eq!(rt; outs.as_slice(), [2].as_slice());
    let ins = numbers_in(alloc, g, w).ok_or("no list")?;
    assert_eq!(rt; ins.as_slice(), [3, 1].as_slice());
    let edges = g.edges(alloc).ok().ok_or("no edges")?;
    let numbers = edge_numbers(alloc, edges.as_slice()).ok_or("no list")?;
    assert_eq!(rt; numbers.as_slice(), [1, 2, 3].as_slice());
    Ok(())
}

#[test]
fn a_moved_edge_goes_to_the_rear_of_its_lists(rt: HostRuntime) -> Result<(), Fail> {
    let mut g = Graph::new(rt.alloc(), Kind::Directed);
    see_moved(&rt, rt.alloc(), &mut g)
}

/// An edge is moved to a loop, in an undirected graph, and then its end is gone.
fn see_refused(rt: &impl Abort, alloc: Global, g: &mut Graph) -> Result<(), Fail> {
    let nodes = add_nodes(alloc, g, 3).ok_or("no nodes")?;
    assert_eq!(rt; nodes.len(), 3);
    let (v, w, u) = (nodes[0], nodes[1], nodes[2]);
    let [first, _, _] = add_edges(alloc, g, v, w).ok_or("no edges")?;
    assert_eq!(rt; g.move_edge(first, w, w), Ok(()));
    let outs = numbers_out(alloc, g, w).ok_or("no list")?;
    assert_eq!(rt; outs.as_slice(), [2, 3, 1, 1].as_slice());
    assert_eq!(rt; g.del_node(u), Ok(()));
    let dead = LookRefusal::Gone(ItemName::Node(3), Gone::Dead);
    assert_eq!(rt; g.move_edge(first, v, u), Err(dead));
    assert_eq!(rt; g.source(first), Ok(w));
    Ok(())
}

#[test]
fn an_edge_is_not_moved_to_a_dead_node(rt: HostRuntime) -> Result<(), Fail> {
    let mut g = Graph::new(rt.alloc(), Kind::Undirected);
    see_refused(&rt, rt.alloc(), &mut g)
}

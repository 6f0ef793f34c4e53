//! Changes of a graph's kind.

use super::{add_nodes, numbers_in, numbers_out};
use crate::{Graph, Kind, NodeItem};
use leda_base::Row;
use std::alloc::Global;
use std::process::Abort;
use std::test::Fail;

/// Two nodes, with an edge in each direction, a loop at the second, and an edge more to it.
fn build(alloc: Global, g: &mut Graph) -> Option<[NodeItem; 2]> {
    let nodes = add_nodes(alloc, g, 2)?;
    let (v, w) = (*nodes.get(0)?, *nodes.get(1)?);
    g.new_edge(v, w, Row::new(alloc)).ok()?;
    g.new_edge(w, v, Row::new(alloc)).ok()?;
    g.new_edge(w, w, Row::new(alloc)).ok()?;
    g.new_edge(v, w, Row::new(alloc)).ok()?;
    Some([v, w])
}

/// A directed graph made undirected, and directed again.
fn see_joined(rt: &impl Abort, alloc: Global, g: &mut Graph) -> Result<(), Fail> {
    let [v, w] = build(alloc, g).ok_or("no graph")?;
    g.make_directed();
    let outs = numbers_out(alloc, g, w).ok_or("no list")?;
    assert_eq!(rt; outs.as_slice(), [2, 3].as_slice());
    g.make_undirected();
    assert_eq!(rt; g.kind(), Kind::Undirected);
    let outs = numbers_out(alloc, g, w).ok_or("no list")?;
    assert_eq!(rt; outs.as_slice(), [2, 3, 1, 3, 4].as_slice());
    let outs = numbers_out(alloc, g, v).ok_or("no list")?;
    assert_eq!(rt; outs.as_slice(), [1, 4, 2].as_slice());
    let ins = numbers_in(alloc, g, w).ok_or("no list")?;
    assert_eq!(rt; ins.len(), 0);
    g.make_undirected();
    let outs = numbers_out(alloc, g, v).ok_or("no list")?;
    assert_eq!(rt; outs.as_slice(), [1, 4, 2].as_slice());
    g.make_directed();
    assert_eq!(rt; g.kind(), Kind::Directed);
    let outs = numbers_out(alloc, g, w).ok_or("no list")?;
    assert_eq!(rt; outs.as_slice(), [2, 3].as_slice());
    let ins = numbers_in(alloc, g, w).ok_or("no list")?;
    assert_eq!(rt; ins.as_slice(), [1, 3, 4].as_slice());
    let first = g.edge_item(1).ok().ok_or("no edge")?;
    assert_eq!(rt; g.source(first), Ok(v));
    Ok(())
}

#[test]
fn lists_are_joined_and_parted_in_order(rt: HostRuntime) -> Result<(), Fail> {
    let mut g = Graph::new(rt.alloc(), Kind::Directed);
    see_joined(&rt, rt.alloc(), &mut g)
}

/// A graph that begins as an undirected one.
fn see_parted(rt: &impl Abort, alloc: Global, g: &mut Graph) -> Result<(), Fail> {
    let [v, w] = build(alloc, g).ok_or("no graph")?;
    let outs = numbers_out(alloc, g, w).ok_or("no list")?;
    assert_eq!(rt; outs.as_slice(), [1, 2, 3, 3, 4].as_slice());
    g.make_directed();
    let outs = numbers_out(alloc, g, w).ok_or("no list")?;
    assert_eq!(rt; outs.as_slice(), [2, 3].as_slice());
    let ins = numbers_in(alloc, g, w).ok_or("no list")?;
    assert_eq!(rt; ins.as_slice(), [1, 3, 4].as_slice());
    let ins = numbers_in(alloc, g, v).ok_or("no list")?;
    assert_eq!(rt; ins.as_slice(), [2].as_slice());
    Ok(())
}

#[test]
fn back_darts_move_to_the_in_lists(rt: HostRuntime) -> Result<(), Fail> {
    let mut g = Graph::new(rt.alloc(), Kind::Undirected);
    see_parted(&rt, rt.alloc(), &mut g)
}

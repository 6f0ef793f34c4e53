//! An edge hidden and restored.

mod canon;
mod mixed;
mod nodes;
mod shown;

use crate::{HideRefusal, RestoreRefusal, hide_edge, restore_edge};
use graph_core::{EdgeItem, Graph, Kind, NodeItem};
use leda_base::Row;
use std::alloc::Global;
use std::process::Abort;
use std::test::Fail;

/// Two nodes, and three edges from the first to the second.
fn build(alloc: Global, g: &mut Graph) -> Option<(NodeItem, [EdgeItem; 3])> {
    let v = g.new_node(Row::new(alloc)).ok()?;
    let w = g.new_node(Row::new(alloc)).ok()?;
    let first = g.new_edge(v, w, Row::new(alloc)).ok()?;
    let second = g.new_edge(v, w, Row::new(alloc)).ok()?;
    let third = g.new_edge(v, w, Row::new(alloc)).ok()?;
    Some((v, [first, second, third]))
}

/// Hides the second edge and restores it.
fn see_place(rt: &impl Abort, alloc: Global, g: &mut Graph) -> Result<(), Fail> {
    let (v, [first, second, third]) = build(alloc, g).ok_or("no graph")?;
    assert_eq!(rt; restore_edge(g, second), Err(RestoreRefusal::NotHidden));
    assert_eq!(rt; hide_edge(g, second), Ok(()));
    assert_eq!(rt; hide_edge(g, second), Err(HideRefusal::AlreadyHidden));
    assert_eq!(rt; g.adj_succ(first), Ok(Some(third)));
    assert_eq!(rt; restore_edge(g, second), Ok(()));
    assert_eq!(rt; g.adj_succ(first), Ok(Some(second)));
    assert_eq!(rt; g.out_first(v), Ok(Some(first)));
    Ok(())
}

#[test]
fn an_edge_comes_back_to_its_place(rt: HostRuntime) -> Result<(), Fail> {
    let mut g = Graph::new(rt.alloc(), Kind::Directed);
    see_place(&rt, rt.alloc(), &mut g)
}

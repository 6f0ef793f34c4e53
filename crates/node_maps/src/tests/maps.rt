//! Maps with their defaults.

use super::{add_node, add_three, edge, hide, label, node};
use crate::{EdgeMap, MapRefusal, NodeMap};
use graph_core::{Gone, Graph, Kind};
use std::alloc::Global;
use std::process::Abort;
use std::test::Fail;

/// A map over three nodes, of which one is hidden and one goes, while a fourth comes.
fn see_nodes(rt: &impl Abort, alloc: Global, g: &mut Graph) -> Result<(), Fail> {
    let mut map = NodeMap::make(alloc, 4);
    let [first, second, third] = add_three(alloc, g).ok_or("no nodes")?;
    assert_eq!(rt; map.set(g, first, 1), Ok(()));
    assert_eq!(rt; map.set(g, second, 2), Ok(()));
    assert_eq!(rt; map.set(g, second, 3), Ok(()));
    hide(g, 2).ok_or("not hidden")?;
    let fourth = add_node(alloc, g, "").ok_or("no node")?;
    assert_eq!(rt; map.get(g, second), Ok(3));
    assert_eq!(rt; map.get(g, third), Ok(4));
    assert_eq!(rt; map.get(g, fourth), Ok(4));
    g.del_node(first).ok().ok_or("not deleted")?;
    assert_eq!(rt; map.get(g, first), Err(Gone::Dead));
    assert_eq!(rt; map.set(g, first, 5), Err(MapRefusal::Gone(Gone::Dead)));
    assert_eq!(rt; map.get(g, node(5)), Err(Gone::Unknown));
    assert_eq!(rt;
        map.set(g, node(0), 5),
        Err(MapRefusal::Gone(Gone::Unknown))
    );
    Ok(())
}

#[test]
fn a_map_has_its_default_where_nothing_was_set(rt: HostRuntime) -> Result<(), Fail> {
    let mut g = Graph::new(rt.alloc(), Kind::Directed);
    see_nodes(&rt, rt.alloc(), &mut g)
}

/// A map over one edge.
fn see_edge(rt: &impl Abort, alloc: Global, g: &mut Graph) -> Result<(), Fail> {
    let [v, w, _] = add_three(alloc, g).ok_or("no nodes")?;
    let row = label(alloc, "x").ok_or("no label")?;
    let e = g.new_edge(v, w, row).ok().ok_or("no edge")?;
    let mut map = EdgeMap::make(alloc, -1);
    assert_eq!(rt; map.get(g, e), Ok(-1));
    assert_eq!(rt; map.set(g, e, 6), Ok(()));
    assert_eq!(rt; map.get(g, edge(1)), Ok(6));
    assert_eq!(rt; map.get(g, edge(2)), Err(Gone::Unknown));
    Ok(())
}

#[test]
fn a_map_over_edges_serves_like_one_over_nodes(rt: HostRuntime) -> Result<(), Fail> {
    let mut g = Graph::new(rt.alloc(), Kind::Undirected);
    see_edge(&rt, rt.alloc(), &mut g)
}

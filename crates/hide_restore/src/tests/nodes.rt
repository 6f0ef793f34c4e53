//! Nodes hidden and restored.

use super::shown::{build, see_net};
use crate::{HideRefusal, RestoreRefusal, hide_edge, hide_node, net, restore_all, restore_node};
use graph_core::{EdgeItem, Graph, Kind, NodeItem};
use std::alloc::Global;
use std::process::Abort;
use std::test::Fail;

/// The net without the second node, and without the edges that have an end there.
fn see_hidden(
    rt: &impl Abort,
    alloc: Global,
    g: &mut Graph,
    nodes: [NodeItem; 3],
    edges: [EdgeItem; 4],
) -> Result<(), Fail> {
    assert_eq!(rt; hide_node(g, nodes[1]), Ok(()));
    assert_eq!(rt; hide_node(g, nodes[1]), Err(HideRefusal::AlreadyHidden));
    let rest = net(alloc, g).ok().ok_or("no net")?;
    see_net(
        rt,
        &rest,
        &[nodes[0], nodes[2]],
        &[edges[2], edges[3]],
        &[(1, 1), (1, 0)],
    );
    assert_eq!(rt; rest.places.place(3), Some(1));
    assert_eq!(rt; rest.places.place(2), None);
    Ok(())
}

/// The net with the second node again, but without the first edge, which is hidden by itself.
fn see_restored(
    rt: &impl Abort,
    alloc: Global,
    g: &mut Graph,
    nodes: [NodeItem; 3],
    edges: [EdgeItem; 4],
) -> Result<(), Fail> {
    assert_eq!(rt; hide_edge(g, edges[0]), Ok(()));
    assert_eq!(rt; restore_node(g, nodes[1]), Ok(()));
    assert_eq!(rt; restore_node(g, nodes[1]), Err(RestoreRefusal::NotHidden));
    let rest = net(alloc, g).ok().ok_or("no net")?;
    let shown = [edges[1], edges[2], edges[3]];
    see_net(
        rt,
        &rest,
        nodes.as_slice(),
        shown.as_slice(),
        &[(1, 2), (2, 2), (2, 0)],
    );
    Ok(())
}

/// Hides the second node and restores it.
fn see_node(rt: &impl Abort, alloc: Global, g: &mut Graph) -> Result<(), Fail> {
    let (nodes, edges) = build(alloc, g).ok_or("no graph")?;
    see_hidden(rt, alloc, g, nodes, edges)?;
    see_restored(rt, alloc, g, nodes, edges)
}

#[test]
fn a_node_comes_back_with_the_edges_that_are_not_hidden(rt: HostRuntime) -> Result<(), Fail> {
    let mut g = Graph::new(rt.alloc(), Kind::Directed);
    see_node(&rt, rt.alloc(), &mut g)
}

/// Hides two nodes, and restores the one and the other.
fn see_ends(rt: &impl Abort, alloc: Global, g: &mut Graph) -> Result<(), Fail> {
    let (nodes, edges) = build(alloc, g).ok_or("no graph")?;
    assert_eq!(rt; hide_node(g, nodes[0]), Ok(()));
    assert_eq!(rt; hide_node(g, nodes[2]), Ok(()));
    assert_eq!(rt; restore_node(g, nodes[2]), Ok(()));
    let rest = net(alloc, g).ok().ok_or("no net")?;
    see_net(
        rt,
        &rest,
        &[nodes[1], nodes[2]],
        &[edges[1], edges[2]],
        &[(0, 1), (1, 1)],
    );
    assert_eq!(rt; restore_node(g, nodes[0]), Ok(()));
    assert_eq!(rt; g.out_first(nodes[0]), Ok(Some(edges[0])));
    Ok(())
}

#[test]
fn an_edge_waits_for_both_its_ends(rt: HostRuntime) -> Result<(), Fail> {
    let mut g = Graph::new(rt.alloc(), Kind::Undirected);
    see_ends(&rt, rt.alloc(), &mut g)
}

/// Hides nodes and an edge, and restores all.
fn see_all(rt: &impl Abort, alloc: Global, g: &mut Graph) -> Result<(), Fail> {
    let (nodes, edges) = build(alloc, g).ok_or("no graph")?;
    assert_eq!(rt; hide_node(g, nodes[1]), Ok(()));
    assert_eq!(rt; hide_edge(g, edges[3]), Ok(()));
    restore_all(g);
    assert_eq!(rt; restore_node(g, nodes[1]), Err(RestoreRefusal::NotHidden));
    let whole = net(alloc, g).ok().ok_or("no net")?;
    let arcs = [(0, 1), (1, 2), (2, 2), (2, 0)];
    see_net(
        rt,
        &whole,
        nodes.as_slice(),
        edges.as_slice(),
        arcs.as_slice(),
    );
    Ok(())
}

#[test]
fn all_comes_back_in_order(rt: HostRuntime) -> Result<(), Fail> {
    let mut g = Graph::new(rt.alloc(), Kind::Directed);
    see_all(&rt, rt.alloc(), &mut g)
}

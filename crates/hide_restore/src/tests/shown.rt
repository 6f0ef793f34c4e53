//! The visible graph as a net.

use crate::{Shown, hide_edge, net};
use graph_core::{EdgeItem, Graph, Kind, NodeItem};
use leda_base::Row;
use std::alloc::Global;
use std::process::Abort;
use std::test::Fail;

/// Three nodes, an edge from the first to the second, one from the second to the third, a loop at
/// the third and an edge from there to the first.
pub(super) fn build(alloc: Global, g: &mut Graph) -> Option<([NodeItem; 3], [EdgeItem; 4])> {
    let v = g.new_node(Row::new(alloc)).ok()?;
    let w = g.new_node(Row::new(alloc)).ok()?;
    let u = g.new_node(Row::new(alloc)).ok()?;
    let first = g.new_edge(v, w, Row::new(alloc)).ok()?;
    let second = g.new_edge(w, u, Row::new(alloc)).ok()?;
    let third = g.new_edge(u, u, Row::new(alloc)).ok()?;
    let fourth = g.new_edge(u, v, Row::new(alloc)).ok()?;
    Some(([v, w, u], [first, second, third, fourth]))
}

/// Compares the net with what it should be.
pub(super) fn see_net(
    rt: &impl Abort,
    shown: &Shown,
    nodes: &[NodeItem],
    edges: &[EdgeItem],
    arcs: &[(u32, u32)],
) {
    assert_eq!(rt; shown.net.n as usize, nodes.len());
    assert_eq!(rt; shown.net.arcs.as_slice(), arcs);
    assert_eq!(rt; shown.nodes.as_slice(), nodes);
    assert_eq!(rt; shown.edges.as_slice(), edges);
}

/// The net of the whole graph.
fn see_whole(
    rt: &impl Abort,
    alloc: Global,
    g: &Graph,
    nodes: [NodeItem; 3],
    edges: [EdgeItem; 4],
) -> Result<(), Fail> {
    let whole = net(alloc, g).ok().ok_or("no net")?;
    let arcs = [(0, 1), (1, 2), (2, 2), (2, 0)];
    see_net(
        rt,
        &whole,
        nodes.as_slice(),
        edges.as_slice(),
        arcs.as_slice(),
    );
    Ok(())
}

/// The net without the first edge.
fn see_rest(
    rt: &impl Abort,
    alloc: Global,
    g: &mut Graph,
    nodes: [NodeItem; 3],
    edges: [EdgeItem; 4],
) -> Result<(), Fail> {
    assert_eq!(rt; hide_edge(g, edges[0]), Ok(()));
    let rest = net(alloc, g).ok().ok_or("no net")?;
    let shown = [edges[1], edges[2], edges[3]];
    see_net(
        rt,
        &rest,
        nodes.as_slice(),
        shown.as_slice(),
        &[(1, 2), (2, 2), (2, 0)],
    );
    assert_eq!(rt; rest.places.place(3), Some(2));
    assert_eq!(rt; rest.places.place(0), None);
    assert_eq!(rt; rest.places.place(4), None);
    Ok(())
}

/// The nets of no graph, of a whole one and of a part of it.
fn see_edges(rt: &impl Abort, alloc: Global, g: &mut Graph) -> Result<(), Fail> {
    let empty = net(alloc, g).ok().ok_or("no net")?;
    see_net(rt, &empty, &[], &[], &[]);
    let (nodes, edges) = build(alloc, g).ok_or("no graph")?;
    see_whole(rt, alloc, g, nodes, edges)?;
    see_rest(rt, alloc, g, nodes, edges)
}

#[test]
fn a_net_numbers_what_shows_in_order(rt: HostRuntime) -> Result<(), Fail> {
    let mut g = Graph::new(rt.alloc(), Kind::Directed);
    see_edges(&rt, rt.alloc(), &mut g)
}

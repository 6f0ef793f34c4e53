//! A matching and a flow that are kept, and the verdicts on them once the graph is another.

use crate::{KeptFlow, KeptMatching};
use graph_core::{EdgeItem, Graph, Kind, NodeItem};
use graph_defs::{Cond, FlowAnswer, MatchAnswer, Verdict};
use hide_restore::{hide_edge, hide_node, net, restore_all};
use leda_base::{NoMemory, Row};
use reply_text::{Answer, Named};
use std::alloc::Global;
use std::process::Abort;
use std::test::Fail;

/// Four nodes, an edge from the first to the second and one from there to the third.
fn build(alloc: Global, g: &mut Graph) -> Option<([NodeItem; 4], [EdgeItem; 2])> {
    let v = g.new_node(Row::new(alloc)).ok()?;
    let w = g.new_node(Row::new(alloc)).ok()?;
    let u = g.new_node(Row::new(alloc)).ok()?;
    let alone = g.new_node(Row::new(alloc)).ok()?;
    let first = g.new_edge(v, w, Row::new(alloc)).ok()?;
    let second = g.new_edge(w, u, Row::new(alloc)).ok()?;
    Some(([v, w, u, alone], [first, second]))
}

/// The second edge is chosen, and the label of its first end covers both.
fn keep(alloc: Global) -> Result<KeptMatching, NoMemory> {
    let nodes = Row::from_slice(alloc, [1, 2, 3, 4].as_slice())?;
    let edges = Row::from_slice(alloc, [1, 2].as_slice())?;
    let answer = MatchAnswer {
        edges: Row::from_slice(alloc, [1].as_slice())?,
        cover: Row::from_slice(alloc, [0, 1, 0, 0].as_slice())?,
    };
    Ok(KeptMatching::new(nodes, edges, answer))
}

fn no(cond: Cond, place: u32) -> Verdict {
    Verdict::No { cond, place }
}

/// Compares the verdict and the names with what they should be.
fn same(
    rt: &impl Abort,
    named: &Named,
    want: Verdict,
    nodes: &[u32],
    edges: &[u32],
) -> Result<(), Fail> {
    let Answer::Verdict(verdict) = &named.answer else {
        return Err("no verdict")?;
    };
    assert_eq!(rt; *verdict, want);
    assert_eq!(rt; named.nodes.as_slice(), nodes);
    assert_eq!(rt; named.edges.as_slice(), edges);
    Ok(())
}

/// Checks the matching that is kept.
fn see(
    rt: &impl Abort,
    alloc: Global,
    g: &Graph,
    want: Verdict,
    nodes: &[u32],
    edges: &[u32],
) -> Result<(), Fail> {
    let shown = net(alloc, g)?;
    same(
        rt,
        &keep(alloc)?.check(alloc, g, &shown)?,
        want,
        nodes,
        edges,
    )
}

/// What is named isn't visible, or what is visible isn't named.
fn see_absent(
    rt: &impl Abort,
    alloc: Global,
    g: &mut Graph,
    alone: NodeItem,
    edges: [EdgeItem; 2],
) -> Result<(), Fail> {
    let all = [1, 2, 3, 4].as_slice();
    assert_eq!(rt; hide_edge(g, edges[0]), Ok(()));
    see(rt, alloc, g, Verdict::Yes, all, &[2])?;
    assert_eq!(rt; hide_node(g, alone), Ok(()));
    see(rt, alloc, g, no(Cond::Gone, 0), &[4], &[])?;
    assert_eq!(rt; hide_edge(g, edges[1]), Ok(()));
    see(rt, alloc, g, no(Cond::Gone, 0), &[], &[2])?;
    restore_all(g);
    let other = g.new_node(Row::new(alloc)).ok().ok_or("no node")?;
    see(rt, alloc, g, no(Cond::Missing, 0), &[5], &[])?;
    assert_eq!(rt; g.del_node(other), Ok(()));
    see(rt, alloc, g, Verdict::Yes, all, &[1, 2])
}

/// An edge that isn't covered, one that is, a chosen one that is a loop, and none.
fn see_edges(
    rt: &impl Abort,
    alloc: Global,
    g: &mut Graph,
    [v, w, u, _]: [NodeItem; 4],
    chosen: EdgeItem,
) -> Result<(), Fail> {
    let all = [1, 2, 3, 4].as_slice();
    let third = g.new_edge(v, u, Row::new(alloc)).ok().ok_or("no edge")?;
    see(rt, alloc, g, no(Cond::Label, 2), all, &[1, 2, 3])?;
    assert_eq!(rt; g.move_edge(third, u, w), Ok(()));
    see(rt, alloc, g, Verdict::Yes, all, &[1, 2, 3])?;
    assert_eq!(rt; g.move_edge(chosen, u, u), Ok(()));
    see(rt, alloc, g, no(Cond::SelfLoop, 1), all, &[1, 2, 3])?;
    assert_eq!(rt; g.del_edge(chosen), Ok(()));
    see(rt, alloc, g, no(Cond::Gone, 0), &[], &[2])
}

#[test]
fn a_kept_matching_is_checked_on_the_graph_as_it_is(rt: HostRuntime) -> Result<(), Fail> {
    let alloc = rt.alloc();
    let mut g = Graph::new(alloc, Kind::Directed);
    let (nodes, edges) = build(alloc, &mut g).ok_or("no graph")?;
    see(&rt, alloc, &g, Verdict::Yes, &[1, 2, 3, 4], &[1, 2])?;
    see_absent(&rt, alloc, &mut g, nodes[3], edges)?;
    see_edges(&rt, alloc, &mut g, nodes, edges[1])
}

/// Two units flow from the first node to the third, and the first alone is the cut.
fn keep_flow(alloc: Global) -> Result<KeptFlow, NoMemory> {
    let capacities = Row::from_slice(alloc, b"c".as_slice())?;
    let nodes = Row::from_slice(alloc, [1, 2, 3, 4].as_slice())?;
    let edges = Row::from_slice(alloc, [1, 2].as_slice())?;
    let answer = FlowAnswer {
        flow: Row::from_slice(alloc, [2, 2].as_slice())?,
        value: 2,
        cut: Row::from_slice(alloc, [0].as_slice())?,
    };
    Ok(KeptFlow::new(1, 3, capacities, nodes, edges, answer))
}

/// Checks the flow that is kept, by these capacities.
fn see_flow(
    rt: &impl Abort,
    alloc: Global,
    g: &Graph,
    capacities: &[i64],
    want: Verdict,
    nodes: &[u32],
    edges: &[u32],
) -> Result<(), Fail> {
    let shown = net(alloc, g)?;
    let named = keep_flow(alloc)?.check(alloc, g, &shown, capacities)?;
    same(rt, &named, want, nodes, edges)
}

#[test]
fn a_kept_flow_is_checked_by_the_capacities_as_they_are(rt: HostRuntime) -> Result<(), Fail> {
    let alloc = rt.alloc();
    let mut g = Graph::new(alloc, Kind::Directed);
    let ([v, w, u, _], [_, second]) = build(alloc, &mut g).ok_or("no graph")?;
    let all = [1, 2, 3, 4].as_slice();
    see_flow(&rt, alloc, &g, &[2, 5], Verdict::Yes, all, &[1, 2])?;
    see_flow(&rt, alloc, &g, &[3, 5], no(Cond::Value, 0), all, &[1, 2])?;
    see_flow(&rt, alloc, &g, &[2, 1], no(Cond::Bounds, 1), all, &[1, 2])?;
    // An edge that wasn't there has no flow, and its capacity counts where it leaves the cut.
    let third = g.new_edge(v, u, Row::new(alloc)).ok().ok_or("no edge")?;
    see_flow(&rt, alloc, &g, &[2, 5, 0], Verdict::Yes, all, &[1, 2, 3])?;
    see_flow(
        &rt,
        alloc,
        &g,
        &[2, 5, 1],
        no(Cond::Value, 0),
        all,
        &[1, 2, 3],
    )?;
    assert_eq!(rt; g.move_edge(third, w, u), Ok(()));
    see_flow(&rt, alloc, &g, &[2, 5, 1], Verdict::Yes, all, &[1, 2, 3])?;
    assert_eq!(rt; g.move_edge(second, v, u), Ok(()));
    see_flow(
        &rt,
        alloc,
        &g,
        &[2, 5, 1],
        no(Cond::Balance, 1),
        all,
        &[1, 2, 3],
    )
}

#[test]
fn what_a_kept_flow_names_may_be_gone(rt: HostRuntime) -> Result<(), Fail> {
    let alloc = rt.alloc();
    let mut g = Graph::new(alloc, Kind::Directed);
    let ([v, w, u, alone], [first, second]) = build(alloc, &mut g).ok_or("no graph")?;
    assert_eq!(rt; hide_node(&mut g, alone), Ok(()));
    see_flow(&rt, alloc, &g, &[2, 5], Verdict::Yes, &[1, 2, 3], &[1, 2])?;
    assert_eq!(rt; hide_node(&mut g, w), Ok(()));
    see_flow(&rt, alloc, &g, &[], no(Cond::Gone, 0), &[], &[1])?;
    assert_eq!(rt; hide_node(&mut g, u), Ok(()));
    see_flow(&rt, alloc, &g, &[], no(Cond::Gone, 0), &[3], &[])?;
    assert_eq!(rt; hide_node(&mut g, v), Ok(()));
    see_flow(&rt, alloc, &g, &[], no(Cond::Gone, 0), &[1], &[])?;
    restore_all(&mut g);
    assert_eq!(rt; hide_edge(&mut g, second), Ok(()));
    see_flow(&rt, alloc, &g, &[2], no(Cond::Gone, 0), &[], &[2])?;
    assert_eq!(rt; g.del_edge(first), Ok(()));
    see_flow(&rt, alloc, &g, &[], no(Cond::Gone, 0), &[], &[1])
}

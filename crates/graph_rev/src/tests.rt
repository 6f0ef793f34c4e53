//! Reversals, and the edges round a face.

use crate::{FaceRefusal, RevRefusal, face_succ, make_map, set_reversal};
use graph_core::{EdgeItem, Gone, Graph, Item, ItemName, Kind, LookRefusal};
use leda_base::Row;
use std::alloc::Global;
use std::process::Abort;
use std::test::Fail;

/// Two nodes, an edge from the first to the second, and three edges back.
fn build(alloc: Global, g: &mut Graph) -> Option<[EdgeItem; 4]> {
    let v = g.new_node(Row::new(alloc)).ok()?;
    let w = g.new_node(Row::new(alloc)).ok()?;
    let first = g.new_edge(v, w, Row::new(alloc)).ok()?;
    let second = g.new_edge(w, v, Row::new(alloc)).ok()?;
    let third = g.new_edge(w, v, Row::new(alloc)).ok()?;
    let fourth = g.new_edge(w, v, Row::new(alloc)).ok()?;
    Some([first, second, third, fourth])
}

/// The first edge is paired with one edge back, and then with another one.
fn see_reversals(rt: &impl Abort, alloc: Global, g: &mut Graph) -> Result<(), Fail> {
    let [first, second, third, _] = build(alloc, g).ok_or("no graph")?;
    assert_eq!(rt; set_reversal(g, first, second), Ok(()));
    assert_eq!(rt; set_reversal(g, third, first), Ok(()));
    assert_eq!(rt; g.partner(first), Ok(Some(third)));
    assert_eq!(rt; g.partner(second), Ok(None));
    assert_eq!(rt;
        set_reversal(g, second, third),
        Err(RevRefusal::NotOpposite)
    );
    assert_eq!(rt; set_reversal(g, first, first), Err(RevRefusal::NotOpposite));
    Ok(())
}

#[test]
fn former_partners_lose_their_reversal(rt: HostRuntime) -> Result<(), Fail> {
    let mut g = Graph::new(rt.alloc(), Kind::Undirected);
    see_reversals(&rt, rt.alloc(), &mut g)
}

/// Before the second edge, in the cyclic order, stands the fourth.
fn see_faces(rt: &impl Abort, alloc: Global, g: &mut Graph) -> Result<(), Fail> {
    let [first, second, third, fourth] = build(alloc, g).ok_or("no graph")?;
    assert_eq!(rt; set_reversal(g, first, second), Ok(()));
    assert_eq!(rt; face_succ(g, first), Ok(fourth));
    assert_eq!(rt; face_succ(g, second), Ok(first));
    assert_eq!(rt; face_succ(g, third), Err(FaceRefusal::NoReversal));
    Ok(())
}

#[test]
fn a_face_goes_on_before_the_reversal(rt: HostRuntime) -> Result<(), Fail> {
    let mut g = Graph::new(rt.alloc(), Kind::Directed);
    see_faces(&rt, rt.alloc(), &mut g)
}

/// Edges that aren't there, and a graph without directions.
fn see_refusals(rt: &impl Abort, alloc: Global, g: &mut Graph) -> Result<(), Fail> {
    let [first, _, _, _] = build(alloc, g).ok_or("no graph")?;
    let other = EdgeItem(Item { slot: 0, serial: 9 });
    let gone = LookRefusal::Gone(ItemName::Edge(9), Gone::Unknown);
    assert_eq!(rt; set_reversal(g, first, other), Err(RevRefusal::Look(gone)));
    assert_eq!(rt; face_succ(g, other), Err(FaceRefusal::Look(gone)));
    assert_eq!(rt; face_succ(g, first), Err(FaceRefusal::Undirected));
    Ok(())
}

#[test]
fn an_unknown_edge_is_refused(rt: HostRuntime) -> Result<(), Fail> {
    let mut g = Graph::new(rt.alloc(), Kind::Undirected);
    see_refusals(&rt, rt.alloc(), &mut g)
}

/// Of one edge and three edges back one pair is made.
fn see_map(rt: &impl Abort, alloc: Global, g: &mut Graph) -> Result<(), Fail> {
    let [first, second, third, _] = build(alloc, g).ok_or("no graph")?;
    assert_eq!(rt; make_map(g), 2);
    assert_eq!(rt; g.partner(first), Ok(Some(second)));
    assert_eq!(rt; g.partner(third), Ok(None));
    assert_eq!(rt; make_map(g), 2);
    Ok(())
}

#[test]
fn an_edge_is_paired_with_the_first_one_back(rt: HostRuntime) -> Result<(), Fail> {
    let mut g = Graph::new(rt.alloc(), Kind::Undirected);
    see_map(&rt, rt.alloc(), &mut g)
}

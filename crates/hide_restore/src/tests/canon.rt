//! The visible graph as a plain graph.
ghost use Rattle.std.specs.Prelude.{◌≡◌, [], ◌∷◌, Some, None, IfSome};
ghost use Rattle.graph_defs.specs.Plain.{IsPlainGraph};

use crate::{hide_edge, plain};
use graph_core::{Graph, Kind};
use graph_defs::{PlainEdge, PlainGraph};
use leda_base::Row;
use std::alloc::Global;
use std::process::Abort;
use std::test::Fail;

/// An edge without a label.
fn edge(alloc: Global, from: u32, to: u32, rev: Option<u32>) -> PlainEdge
    ensures { result ≡ record { from = from; to = to; rev = rev; label = [] } }
{
    PlainEdge {
        from,
        to,
        rev,
        label: Row::new(alloc),
    }
}

/// An edge from the second node to the first, one the other way that is its reversal, and a loop.
fn edges(alloc: Global) -> Option<Row<PlainEdge>>
    ensures { IfSome result (λ edges. edges ≡
        record { from = 1; to = 0; rev = Some 1; label = [] }
        ∷ record { from = 0; to = 1; rev = Some 0; label = [] }
        ∷ record { from = 1; to = 1; rev = None; label = [] } ∷ []) }
{
    let mut edges = Row::new(alloc);
    edges.push(edge(alloc, 1, 0, Some(1))).ok()?;
    edges.push(edge(alloc, 0, 1, Some(0))).ok()?;
    edges.push(edge(alloc, 1, 1, None)).ok()?;
    Some(edges)
}

/// The labels of two nodes.
fn labels(alloc: Global) -> Option<Row<Row<u8>>>
    ensures { IfSome result (λ labels. labels ≡ (97 ∷ []) ∷ [] ∷ []) }
{
    let mut labels = Row::new(alloc);
    labels
        .push(Row::from_slice(alloc, b"a".as_slice()).ok()?)
        .ok()?;
    labels.push(Row::new(alloc)).ok()?;
    Some(labels)
}

/// A graph of these.
fn given(alloc: Global, directed: bool) -> Option<PlainGraph>
    ensures { IfSome result IsPlainGraph }
{
    Some(PlainGraph {
        directed,
        node_type: Row::from_slice(alloc, b"string".as_slice()).ok()?,
        edge_type: Row::from_slice(alloc, b"void".as_slice()).ok()?,
        nodes: labels(alloc)?,
        edges: edges(alloc)?,
    })
}

/// Compares the edges with what they should be.
fn see_edges(rt: &impl Abort, plain: &PlainGraph, edges: &[(u32, u32, Option<u32>)]) {
    assert_eq!(rt; plain.edges.as_slice().len(), edges.len());
    for (edge, (from, to, rev)) in plain.edges.as_slice().iter().zip(edges) {
        assert_eq!(rt; edge.from, *from);
        assert_eq!(rt; edge.to, *to);
        assert_eq!(rt; edge.rev, *rev);
    }
}

/// The plain graph of a whole graph.
fn see_whole(rt: &impl Abort, alloc: Global, g: &Graph) -> Result<(), Fail> {
    let whole = plain(alloc, g).ok().ok_or("no plain graph")?;
    assert_eq!(rt; whole.node_type.as_slice(), b"string".as_slice());
    assert_eq!(rt; whole.edge_type.as_slice(), b"void".as_slice());
    let label = whole.nodes.as_slice().get(0).ok_or("no label")?;
    assert_eq!(rt; label.as_slice(), b"a".as_slice());
    see_edges(
        rt,
        &whole,
        &[(0, 1, Some(1)), (1, 0, Some(0)), (1, 1, None)],
    );
    Ok(())
}

/// The plain graph without the first edge, which is the reversal of the second.
fn see_rest(rt: &impl Abort, alloc: Global, g: &mut Graph) -> Result<(), Fail> {
    let first = g.edge_item(1).ok().ok_or("no edge")?;
    assert_eq!(rt; hide_edge(g, first), Ok(()));
    let rest = plain(alloc, g).ok().ok_or("no plain graph")?;
    see_edges(rt, &rest, &[(0, 1, None), (1, 1, None)]);
    Ok(())
}

/// Both of a graph of this kind.
fn see_plain(rt: &impl Abort, alloc: Global, directed: bool) -> Result<(), Fail> {
    let mut g = Graph::new(alloc, Kind::Directed);
    assert_eq!(rt;
        g.replace(given(alloc, directed).ok_or("no graph")?),
        Ok(())
    );
    see_whole(rt, alloc, &g)?;
    see_rest(rt, alloc, &mut g)
}

#[test]
fn edges_stand_by_their_sources(rt: HostRuntime) -> Result<(), Fail> {
    see_plain(&rt, rt.alloc(), true)?;
    see_plain(&rt, rt.alloc(), false)
}

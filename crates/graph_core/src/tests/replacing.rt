//! A plain graph in place of a graph.
ghost use Rattle.std.specs.Prelude.{◌≡◌, [], ◌∷◌, Some, None, IfSome};
ghost use Rattle.graph_defs.specs.Plain.{IsPlainGraph};

use super::{add_nodes, numbers_out};
use crate::{Gone, Graph, Kind};
use graph_defs::{PlainEdge, PlainGraph};
use leda_base::Row;
use std::alloc::Global;
use std::process::Abort;
use std::test::Fail;

/// An edge without a label.
fn edge(alloc: Global, from: u32, to: u32, rev: Option<u32>) -> PlainEdge
    ensures { result ≡ record { from = from; to = to; rev = rev; label = [] } }
{
    PlainEdge {
        from,
        to,
        rev,
        label: Row::new(alloc),
    }
}

/// The labels of two nodes.
fn labels(alloc: Global) -> Option<Row<Row<u8>>>
    ensures { IfSome result (λ labels. labels ≡ (97 ∷ []) ∷ [] ∷ []) }
{
    let mut labels = Row::new(alloc);
    labels
        .push(Row::from_slice(alloc, b"a".as_slice()).ok()?)
        .ok()?;
    labels.push(Row::new(alloc)).ok()?;
    Some(labels)
}

/// An edge in each direction, which are each other's reversal, and a loop.
fn edges(alloc: Global) -> Option<Row<PlainEdge>>
    ensures { IfSome result (λ edges. edges ≡
        record { from = 0; to = 1; rev = Some 1; label = [] }
        ∷ record { from = 1; to = 0; rev = Some 0; label = [] }
        ∷ record { from = 1; to = 1; rev = None; label = [] } ∷ []) }
{
    let mut edges = Row::new(alloc);
    edges.push(edge(alloc, 0, 1, Some(1))).ok()?;
    edges.push(edge(alloc, 1, 0, Some(0))).ok()?;
    edges.push(edge(alloc, 1, 1, None)).ok()?;
    Some(edges)
}

/// A graph of these.
fn plain(alloc: Global) -> Option<PlainGraph>
    ensures { IfSome result IsPlainGraph }
{
    Some(PlainGraph {
        directed: false,
        node_type: Row::from_slice(alloc, b"string".as_slice()).ok()?,
        edge_type: Row::from_slice(alloc, b"void".as_slice()).ok()?,
        nodes: labels(alloc)?,
        edges: edges(alloc)?,
    })
}

/// The graph had two nodes and an edge.
fn see_replaced(rt: &impl Abort, alloc: Global, g: &mut Graph) -> Result<(), Fail> {
    let nodes = add_nodes(alloc, g, 2).ok_or("no nodes")?;
    let (v, w) = (
        *nodes.get(0).ok_or("no node")?,
        *nodes.get(1).ok_or("no node")?,
    );
    assert!(rt; g.new_edge(v, w, Row::new(alloc)).is_ok());
    assert_eq!(rt; g.replace(plain(alloc).ok_or("no plain graph")?), Ok(()));
    assert_eq!(rt; g.kind(), Kind::Undirected);
    assert_eq!(rt; g.node_type(), b"string".as_slice());
    assert_eq!(rt; g.edge_type().len(), 0);
    assert_eq!(rt; g.node_item(1), Err(Gone::Dead));
    let first = g.node_item(3).ok().ok_or("no node")?;
    assert_eq!(rt; g.node_label(first), Ok(b"a".as_slice()));
    let outs = numbers_out(alloc, g, first).ok_or("no list")?;
    assert_eq!(rt; outs.as_slice(), [2, 3].as_slice());
    let edge = g.edge_item(2).ok().ok_or("no edge")?;
    let back = g.edge_item(3).ok().ok_or("no edge")?;
    assert_eq!(rt; g.partner(edge), Ok(Some(back)));
    assert_eq!(rt; g.count_edges(), 3);
    Ok(())
}

#[test]
fn numbers_go_on_behind_those_that_were_given(rt: HostRuntime) -> Result<(), Fail> {
    let mut g = Graph::new(rt.alloc(), Kind::Directed);
    see_replaced(&rt, rt.alloc(), &mut g)
}

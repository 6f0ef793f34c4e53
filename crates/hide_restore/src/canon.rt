//! The visible graph as a plain graph, which a file can hold.
ghost use Rattle.std.specs.Prelude.{◌≡◌, ℕ, [], ◌∷◌, ◌++◌, map, option_map, IfOk, OnOk};
ghost use Rattle.std.specs.List.{list_all, flat_map};
ghost use Rattle.leda_base.specs.declared.name.ItemName.TheVariants as names;
ghost use Rattle.graph_defs.specs.declared.plain.PlainEdge.{PlainEdge};
ghost use Rattle.graph_defs.specs.Plain.{IsPlainGraph};
ghost use Rattle.graph_state.specs.State.{node_label, visible_nodes};
ghost use Rattle.graph_state.specs.Names.{Has};
ghost use Rattle.graph_state.specs.Formed.{IsFormed};
ghost use Rattle.graph_state.specs.Refusals.{AreVisible};
ghost use Rattle.graph_state.specs.Reversals.{visible_reversal};
ghost use Rattle.hide_restore.specs.Net.{numbers_of_nodes, place_of};
ghost use Rattle.hide_restore.specs.Canon.{fronts, edges_from, ordered_edges, plain_edge, is_empty, file_type, plain_of};

use crate::places::Places;
use crate::shown::arc;
use graph_core::{Dart, EdgeItem, Graph, Kind, NodeItem};
use graph_defs::{PlainEdge, PlainGraph};
use leda_base::{NoMemory, Row};
use std::alloc::Global;

/// Appends the edge of the dart, where it is a front dart.
fn add_front(dart: Dart, edges: &mut Row<u32>) -> Result<(), NoMemory>
    ensures { OnOk result (edges.new ≡ edges.old ++ fronts (dart ∷ [])) }
{
    if dart.back {
        return Ok(());
    }
    edges.push(dart.edge)
}

/// Appends the edges of the front darts, in their order.
fn add_fronts(darts: &[Dart], edges: &mut Row<u32>) -> Result<(), NoMemory>
    ensures { OnOk result (edges.new ≡ edges.old ++ fronts darts.now) }
{
    for dart in darts {
        add_front(*dart, edges)?;
    }
    Ok(())
}

/// Appends the visible edges that begin at the node, in the order of its out list.
fn add_from(alloc: Global, g: &Graph, v: NodeItem, edges: &mut Row<u32>) -> Result<(), NoMemory>
    requires { AreVisible g.now (names.Node v.0.serial ∷ []) }
    ensures { OnOk result (edges.new ≡ edges.old ++ edges_from g.now v.0.serial) }
{
    // The node is visible, so that only memory can be wanting.
    let Ok(darts) = g.out_darts(alloc, v) else {
        return Err(NoMemory);
    };
    add_fronts(darts.as_slice(), edges)
}

/// The visible edges that begin at the nodes, in the order of these and of the out lists.
fn edges_of(alloc: Global, g: &Graph, nodes: &[NodeItem]) -> Result<Row<u32>, NoMemory>
    requires { (v : ℕ) → Has v (numbers_of_nodes nodes.now) → AreVisible g.now (names.Node v ∷ []) }
    ensures { IfOk result
        (λ edges. edges ≡ flat_map (edges_from g.now) (numbers_of_nodes nodes.now)) }
{
    let mut edges = Row::new(alloc);
    for node in nodes {
        add_from(alloc, g, *node, &mut edges)?;
    }
    Ok(edges)
}

/// The place of the reversal of a visible edge, and none exactly where it has none that is visible.
fn place_of_partner(g: &Graph, edges: &Places, e: EdgeItem) -> Option<u32>
    requires formed { IsFormed g.now }
    requires edges { edges.now ≡ ordered_edges g.now }
    requires visible { AreVisible g.now (names.Edge e.0.serial ∷ []) }
    ensures { result
        ≡ option_map (λ f. place_of f edges.now) (visible_reversal g.now e.0.serial) }
{
    let Ok(partner) = g.partner(e) else {
        unreachable!()
    };
    match partner {
        Some(f) => edges.place(f.0.serial),
        None => None,
    }
}

/// The edge of the number, as a file has it.
fn plain_edge(
    alloc: Global,
    g: &Graph,
    nodes: &Places,
    edges: &Places,
    number: u32,
) -> Result<PlainEdge, NoMemory>
    requires formed { IsFormed g.now }
    requires nodes { nodes.now ≡ visible_nodes g.now }
    requires edges { edges.now ≡ ordered_edges g.now }
    requires visible { AreVisible g.now (names.Edge number ∷ []) }
    ensures { IfOk result (λ edge. edge ≡ plain_edge g.now (ordered_edges g.now) number) }
{
    let Ok(e) = g.edge_item(number) else {
        unreachable!()
    };
    let Ok(label) = g.edge_label(e) else {
        unreachable!()
    };
    let (from, to) = arc(g, nodes, e);
    Ok(PlainEdge {
        from,
        to,
        rev: place_of_partner(g, edges, e),
        label: Row::from_slice(alloc, label)?,
    })
}

/// The edges in their order, as a file has them.
fn plain_edges(
    alloc: Global,
    g: &Graph,
    nodes: &Places,
    edges: &Places,
) -> Result<Row<PlainEdge>, NoMemory>
    requires formed { IsFormed g.now }
    requires nodes { nodes.now ≡ visible_nodes g.now }
    requires edges { edges.now ≡ ordered_edges g.now }
    ensures { IfOk result
        (λ row. row ≡ map (plain_edge g.now (ordered_edges g.now)) edges.now) }
{
    let numbers = edges.numbers();
    let mut row = Row::with_room(alloc, numbers.len())?;
    for number in numbers {
        row.push(plain_edge(alloc, g, nodes, edges, *number)?)?;
    }
    Ok(row)
}

/// The label of the node, which is visible.
fn label_of(alloc: Global, g: &Graph, v: NodeItem) -> Result<Row<u8>, NoMemory>
    requires { AreVisible g.now (names.Node v.0.serial ∷ []) }
    ensures { IfOk result (λ label. label ≡ node_label g.now v.0.serial) }
{
    let Ok(label) = g.node_label(v) else {
        unreachable!()
    };
    Row::from_slice(alloc, label)
}

/// The labels of the nodes, in their order.
fn labels_of(alloc: Global, g: &Graph, nodes: &[NodeItem]) -> Result<Row<Row<u8>>, NoMemory>
    requires { (v : ℕ) → Has v (numbers_of_nodes nodes.now) → AreVisible g.now (names.Node v ∷ []) }
    ensures { IfOk result
        (λ labels. labels ≡ map (node_label g.now) (numbers_of_nodes nodes.now)) }
{
    let mut labels = Row::with_room(alloc, nodes.len())?;
    for node in nodes {
        labels.push(label_of(alloc, g, *node)?)?;
    }
    Ok(labels)
}

/// Whether each of the labels is empty.
fn have_no_bytes(labels: &[Row<u8>]) -> bool
    ensures { result ≡ list_all is_empty labels.now }
{
    labels.iter().all(|label| label.as_slice().is_empty())
}

/// Whether the label of each of the edges is empty.
fn are_bare(edges: &[PlainEdge]) -> bool
    ensures { result ≡ list_all (λ (e : PlainEdge). is_empty e.label) edges.now }
{
    edges.iter().all(|edge| edge.label.as_slice().is_empty())
}

/// A type of labels as a file names it. Without bytes it is `void`, but `string` where some label
/// isn't empty.
fn file_type(alloc: Global, are_empty: bool, name: &[u8]) -> Result<Row<u8>, NoMemory>
    ensures { IfOk result (λ kept. kept ≡ file_type are_empty name.now) }
{
    if !name.is_empty() {
        Row::from_slice(alloc, name)
    } else if are_empty {
        Row::from_slice(alloc, b"void".as_slice())
    } else {
        Row::from_slice(alloc, b"string".as_slice())
    }
}

/// Whether the graph is directed.
fn is_directed(g: &Graph) -> bool
    ensures { result ≡ g.now.directed }
{
    match g.kind() {
        Kind::Directed => true,
        Kind::Undirected => false,
    }
}

/// The visible graph as a plain graph: the labels of the visible nodes in their order, and the
/// visible edges by the places of their sources, those of one source in the order of its out list.
/// A type of labels without bytes is written `void`, but `string` where some label isn't empty. In
/// time linear in the visible graph, but for tables of 4 bytes for each node and each edge ever
/// made, which are zeroed.
///
/// # Errors
///
/// `NoMemory` where there is no memory.
pub fn plain(alloc: Global, g: &Graph) -> Result<PlainGraph, NoMemory>
    ensures graph { IfOk result (λ plain. plain ≡ plain_of g.now) }
    ensures valid { IfOk result IsPlainGraph }
{
    let made = g.made_nodes();
    let nodes = g.nodes(alloc)?;
    let order = edges_of(alloc, g, nodes.as_slice())?;
    let labels = labels_of(alloc, g, nodes.as_slice())?;
    let places = Places::of(alloc, made, nodes.as_slice())?;
    let edge_places = Places::of_numbers(alloc, g.made_edges(), order)?;
    let edges = plain_edges(alloc, g, &places, &edge_places)?;
    let node_type = file_type(alloc, have_no_bytes(labels.as_slice()), g.node_type())?;
    let edge_type = file_type(alloc, are_bare(edges.as_slice()), g.edge_type())?;
    Ok(PlainGraph {
        directed: is_directed(g),
        node_type,
        edge_type,
        nodes: labels,
        edges,
    })
}

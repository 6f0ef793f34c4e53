//! The visible graph as a net, which the algorithms take.
ghost use Rattle.std.specs.Prelude.{◌≡◌, ℕ, [], ◌∷◌, map, IfOk};
ghost use Rattle.leda_base.specs.declared.name.ItemName.TheVariants as names;
ghost use Rattle.graph_defs.specs.Net.{IsValid};
ghost use Rattle.graph_state.specs.Names.{Has};
ghost use Rattle.graph_state.specs.Formed.{IsFormed};
ghost use Rattle.graph_state.specs.Refusals.{AreVisible};
ghost use Rattle.hide_restore.specs.Net.{numbers_of_nodes, numbers_of_edges, node_numbers, edge_numbers, arc_of, shown_net};

use crate::places::Places;
use graph_core::{EdgeItem, Graph, NodeItem};
use graph_defs::Net;
use leda_base::{NoMemory, Row};
use std::alloc::Global;

/// The visible graph as a net, and what its numbers stand for.
#[derive(Drop)]
pub struct Shown {
    /// The nodes and the arcs by numbers from 0.
    pub net: Net,
    /// Which node of the graph each node of the net is.
    pub nodes: Row<NodeItem>,
    /// Which edge of the graph each arc is.
    pub edges: Row<EdgeItem>,
    /// Which node of the net a node of the graph is, by its number.
    pub places: Places,
}

/// The visible nodes and edges of the graph, numbered in the order of their lists. In time linear
/// in these, but for a table of 4 bytes for each node ever made, which is zeroed.
///
/// # Errors
///
/// `NoMemory` where there is no memory.
pub fn net(alloc: Global, g: &Graph) -> Result<Shown, NoMemory>
    ensures net { IfOk result (λ shown. shown.net ≡ shown_net g.now) }
    ensures valid { IfOk result (λ shown. IsValid shown.net) }
    ensures nodes { IfOk result (λ shown. numbers_of_nodes shown.nodes ≡ node_numbers g.now) }
    ensures edges { IfOk result (λ shown. numbers_of_edges shown.edges ≡ edge_numbers g.now) }
    ensures places { IfOk result (λ shown. shown.places ≡ node_numbers g.now) }
{
    let made = g.made_nodes();
    let nodes = g.nodes(alloc)?;
    let edges = g.edges(alloc)?;
    let places = Places::of(alloc, made, nodes.as_slice())?;
    let arcs = arcs_of(alloc, g, &places, edges.as_slice())?;
    let n = nodes.as_slice().len() as u32;
    Ok(Shown {
        net: Net { n, arcs },
        nodes,
        edges,
        places,
    })
}

/// The arcs that stand for the edges, which are visible.
fn arcs_of(
    alloc: Global,
    g: &Graph,
    places: &Places,
    edges: &[EdgeItem],
) -> Result<Row<(u32, u32)>, NoMemory>
    requires formed { IsFormed g.now }
    requires places { places.now ≡ node_numbers g.now }
    requires visible { (e : ℕ) → Has e (numbers_of_edges edges.now)
        → AreVisible g.now (names.Edge e ∷ []) }
    ensures { IfOk result (λ arcs. arcs ≡ map (arc_of g.now) (numbers_of_edges edges.now)) }
{
    let mut arcs = Row::with_room(alloc, edges.len())?;
    for edge in edges {
        arcs.push(arc(g, places, *edge))?;
    }
    Ok(arcs)
}

/// The arc that stands for the edge, which is visible.
pub(crate) fn arc(g: &Graph, places: &Places, e: EdgeItem) -> (u32, u32)
    requires formed { IsFormed g.now }
    requires places { places.now ≡ node_numbers g.now }
    requires visible { AreVisible g.now (names.Edge e.0.serial ∷ []) }
    ensures { result ≡ arc_of g.now e.0.serial }
{
    let (Ok(from), Ok(to)) = (g.source(e), g.target(e)) else {
        unreachable!()
    };
    let Some(source) = places.place(from.0.serial) else {
        unreachable!()
    };
    let Some(target) = places.place(to.0.serial) else {
        unreachable!()
    };
    (source, target)
}

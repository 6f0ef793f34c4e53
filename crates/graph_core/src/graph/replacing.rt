//! A graph in place of another one.
ghost use Rattle.std.specs.Prelude.{◌≡◌, ◌+◌, ◌≤◌, ◌<◌, ◌↔◌, [], ◌∷◌, IsTrue, IfOk, IfErr, IfSome, OnOk, OnErr};
ghost use Rattle.graph_defs.specs.declared.net.TheConstants.{NODE_LIMIT};
ghost use Rattle.leda_base.specs.declared.name.ItemName.TheVariants as names;
ghost use Rattle.graph_defs.specs.Plain.{IsPlainGraph};
ghost use Rattle.graph_state.specs.State.{new_graph};
ghost use Rattle.graph_state.specs.Formed.{IsLabel, IsKeptType};
ghost use Rattle.graph_state.specs.Built.{kept_type, with_nodes, with_plain_edge, with_plain_edges, built, HasNumbers, RefusesPlain};
ghost use Rattle.graph_state.specs.Refusals.{AreVisible};
ghost use Rattle.graph_core.specs.Replaces.{AreLabels, LeadsBack, CanBuild};

use super::Graph;
use crate::seen::begin;
use graph_defs::{PlainEdge, PlainGraph};
use graph_lists::Lists;
use graph_state::EditRefusal;
use item_pool::{MOST_SERIALS, Pool};
use leda_base::{NoMemory, Row};

/// The type of labels as a graph keeps it: without bytes where it is `void`.
fn kept_type(name: Row<u8>) -> Row<u8>
    ensures { result ≡ kept_type name }
{
    if name.as_slice() == b"void".as_slice() {
        Row::new(name.alloc())
    } else {
        name
    }
}

/// Whether so many numbers more can be given.
fn has_numbers(made: u32, more: usize) -> bool
    requires { made ≤ MOST_SERIALS }
    ensures { IsTrue result ↔ (made + more ≤ MOST_SERIALS) }
{
    more <= (MOST_SERIALS - made) as usize
}

impl Graph {
    /// A graph of no nodes and no edges, with these types of labels, behind so many nodes and edges
    /// that were made. It takes no memory.
    pub(super) fn begin(
        directed: bool,
        node_type: Row<u8>,
        edge_type: Row<u8>,
        made_nodes: u32,
        made_edges: u32,
    ) -> Graph
        requires nodes { made_nodes ≤ MOST_SERIALS }
        requires edges { made_edges ≤ MOST_SERIALS }
        requires types { IsKeptType node_type × IsKeptType edge_type }
        ensures { result ≡ new_graph directed node_type edge_type made_nodes made_edges }
    {
        let alloc = node_type.alloc();
        let seen = begin(directed, &node_type, &edge_type, made_nodes, made_edges);
        Graph {
            lists: Lists::new(alloc),
            heads: None,
            nodes: Pool::behind(alloc, made_nodes),
            edges: Pool::behind(alloc, made_edges),
            directed,
            node_type,
            edge_type,
            seen,
        }
    }

    /// A new node for each of the labels, in their order.
    ///
    /// # Errors
    ///
    /// `NoMemory`; some of the nodes may be there then.
    fn add_nodes(&mut self, labels: Row<Row<u8>>) -> Result<(), NoMemory>
        requires { AreLabels labels }
        ensures { OnOk result (self.new ≡ with_nodes labels self.old) }
    {
        for label in labels.into_vec() {
            // There are few enough, so that only memory can be wanting.
            let Ok(_node) = self.new_node(label) else {
                return Err(NoMemory);
            };
        }
        Ok(())
    }

    /// A new edge where the node of place k has the number `nodes + k + 1`, and the edge of place k
    /// the number `edges + k + 1`. It is paired with its reversal where that came before it.
    fn add_edge(&mut self, nodes: u32, edges: u32, edge: PlainEdge) -> Result<(), NoMemory>
        requires numbers { (nodes ≤ MOST_SERIALS) × (edges ≤ MOST_SERIALS) }
        requires few { (edge.from < NODE_LIMIT) × (edge.to < NODE_LIMIT) }
        requires from { AreVisible self.old (names.Node (nodes + edge.from + 1) ∷ []) }
        requires to { AreVisible self.old (names.Node (nodes + edge.to + 1) ∷ []) }
        requires label { IsLabel edge.label }
        requires back { IfSome edge.rev (LeadsBack self.old nodes edges edge) }
        ensures { OnOk result (self.new ≡ with_plain_edge nodes edges edge self.old) }
    {
        let (Ok(from), Ok(to)) = (
            self.node_item(nodes + edge.from + 1),
            self.node_item(nodes + edge.to + 1),
        ) else {
            unreachable!()
        };
        // There are few enough, so that only memory can be wanting.
        let Ok(new) = self.new_edge(from, to, edge.label) else {
            return Err(NoMemory);
        };
        if let Some(place) = edge.rev {
            let number = edges + place + 1;
            if number < new.0.serial {
                let Ok(back) = self.edge_item(number) else {
                    unreachable!()
                };
                self.pair(new, back);
            }
        }
        Ok(())
    }

    /// New edges, in their order, where the node of place k has the number `nodes + k + 1`.
    ///
    /// # Errors
    ///
    /// `NoMemory`; some of the edges may be there then.
    fn add_edges(&mut self, nodes: u32, edges: Row<PlainEdge>) -> Result<(), NoMemory>
        requires { CanBuild self.old nodes edges }
        ensures { OnOk result
            (self.new ≡ with_plain_edges nodes self.old.made_edges edges self.old) }
    {
        let made = self.made_edges();
        for edge in edges.into_vec() {
            self.add_edge(nodes, made, edge)?;
        }
        Ok(())
    }

    /// The graph that a valid plain graph describes, behind so many nodes and edges that were made.
    fn build(plain: PlainGraph, made_nodes: u32, made_edges: u32) -> Result<Graph, NoMemory>
        requires plain { IsPlainGraph plain }
        requires nodes { made_nodes ≤ MOST_SERIALS }
        requires edges { made_edges ≤ MOST_SERIALS }
        ensures { IfOk result (λ graph. graph ≡ built plain made_nodes made_edges) }
    {
        let mut graph = Graph::begin(
            plain.directed,
            kept_type(plain.node_type),
            kept_type(plain.edge_type),
            made_nodes,
            made_edges,
        );
        graph.add_nodes(plain.nodes)?;
        graph.add_edges(made_nodes, plain.edges)?;
        Ok(graph)
    }

    /// The graph becomes the one that a valid plain graph describes, of its kind and with its
    /// types. All nodes and edges that were there are gone; those of the plain graph get the next
    /// numbers, and nothing is hidden. Where a graph is refused, all is as before.
    ///
    /// # Errors
    ///
    /// `Spent` exactly where more than 16,777,215 nodes or edges would have been made, and
    /// `NoMemory` where there is no memory for the new graph beside the old one.
    pub fn replace(&mut self, plain: PlainGraph) -> Result<(), EditRefusal>
        requires { IsPlainGraph plain }
        ensures numbers { OnOk result (HasNumbers plain self.old) }
        ensures state { OnOk result
            (self.new ≡ built plain self.old.made_nodes self.old.made_edges) }
        ensures err { IfErr result (RefusesPlain plain self.old) }
        ensures same { OnErr result (self.new ≡ self.old) }
    {
        let (made_nodes, made_edges) = (self.made_nodes(), self.made_edges());
        if !has_numbers(made_nodes, plain.nodes.as_slice().len())
            || !has_numbers(made_edges, plain.edges.as_slice().len())
        {
            return Err(EditRefusal::Spent);
        }
        *self = Graph::build(plain, made_nodes, made_edges)?;
        Ok(())
    }
}

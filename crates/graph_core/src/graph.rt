//! The graph.
ghost use Rattle.std.specs.Prelude.{◌≡◌, MatchResult};
ghost use Rattle.leda_base.specs.declared.name.ItemName.TheVariants as names;
ghost use Rattle.graph_state.specs.State.{kind_of, empty_graph};
ghost use Rattle.graph_state.specs.Formed.{IsFormed};
ghost use Rattle.graph_state.specs.Refusals.{IsGone, IsThere};
ghost use Rattle.graph_core.specs.Kept.{is_directed};

mod beside;
mod checks;
mod counts;
mod darts;
mod growth;
mod kinds;
mod labels;
mod looks;
mod marks;
mod moving;
mod opposite;
mod pairs;
mod removal;
mod replacing;
mod walks;
mod whole;

use crate::cell::{EdgeCell, Heads, NodeCell};
use crate::seen::GraphView;
use graph_lists::Lists;
use graph_state::{EdgeItem, Gone, Kind, NodeItem};
use item_pool::Pool;
use leda_base::{Row, Seen};
use std::alloc::Global;
use std::marker::Model;

/// A graph. A contract sees its state.
#[derive(Drop)]
pub struct Graph {
    lists: Lists,
    /// The heads of the node list and the edge list, which are made with the first node.
    heads: Option<Heads>,
    nodes: Pool<NodeCell>,
    edges: Pool<EdgeCell>,
    directed: bool,
    /// The types of the labels. The type `void` has no bytes here.
    node_type: Row<u8>,
    edge_type: Row<u8>,
    seen: Seen<GraphView>,
}

impl Model for Graph {
    ghost use Rattle.graph_state.specs.State.{GraphState, state_code};

    ghost Value = { GraphState };

    ghost coded = { state_code };

    ghost use Rattle.graph_core.specs.Kept.{state_of, IsGraph};

    ghost view = { state_of };

    ghost invariant = { IsGraph };
}

impl Graph {
    /// A graph of no nodes and no edges, whose labels have the type `void`. It takes no memory.
    pub fn new(alloc: Global, kind: Kind) -> Graph
        ensures { result ≡ empty_graph (is_directed kind) }
    {
        let directed = matches!(kind, Kind::Directed);
        Graph::begin(directed, Row::new(alloc), Row::new(alloc), 0, 0)
    }

    /// The kind of the graph.
    pub fn kind(&self) -> Kind
        ensures kind { result ≡ kind_of self.now }
        ensures formed { IsFormed self.now }
    {
        if self.directed {
            Kind::Directed
        } else {
            Kind::Undirected
        }
    }

    /// The type of the labels of nodes. The type `void` has no bytes.
    pub fn node_type(&self) -> &[u8]
        ensures { result.now ≡ self.now.node_type }
    {
        self.node_type.as_slice()
    }

    /// The type of the labels of edges. The type `void` has no bytes.
    pub fn edge_type(&self) -> &[u8]
        ensures { result.now ≡ self.now.edge_type }
    {
        self.edge_type.as_slice()
    }

    /// How many nodes were made, which is also the last number.
    pub fn made_nodes(&self) -> u32
        ensures made { result ≡ self.now.made_nodes }
        ensures formed { IsFormed self.now }
    {
        self.nodes.made()
    }

    /// How many edges were made, which is also the last number.
    pub fn made_edges(&self) -> u32
        ensures { result ≡ self.now.made_edges }
    {
        self.edges.made()
    }

    /// The node of a number, hidden or not.
    ///
    /// # Errors
    ///
    /// `Dead` where the number was given and the node is gone, and `Unknown` where it wasn't given.
    pub fn node_item(&self, number: u32) -> Result<NodeItem, Gone>
        ensures formed { IsFormed self.now }
        ensures item { MatchResult result
            (λ v. (v.0.serial ≡ number) × IsThere self.now (names.Node number))
            (IsGone self.now (names.Node number)) }
    {
        match self.nodes.item(number) {
            Ok(item) => Ok(NodeItem(item)),
            Err(why) => Err(why),
        }
    }

    /// The edge of a number, hidden or not.
    ///
    /// # Errors
    ///
    /// As those of `node_item`.
    pub fn edge_item(&self, number: u32) -> Result<EdgeItem, Gone>
        ensures formed { IsFormed self.now }
        ensures item { MatchResult result
            (λ e. (e.0.serial ≡ number) × IsThere self.now (names.Edge number))
            (IsGone self.now (names.Edge number)) }
    {
        match self.edges.item(number) {
            Ok(item) => Ok(EdgeItem(item)),
            Err(why) => Err(why),
        }
    }
}

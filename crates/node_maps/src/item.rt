//! What nodes and edges have in common.
ghost use Rattle.std.specs.Prelude.{◌≡◌, ℕ, ◌<◌, List, map, OnOk, IfOk, MatchResult};
ghost use Rattle.leda_base.specs.declared.name.ItemName.{ItemName};
ghost use Rattle.leda_base.specs.declared.name.ItemName.TheVariants as names;
ghost use Rattle.graph_state.specs.State.{GraphState, node_label, edge_label};
ghost use Rattle.graph_state.specs.Names.{Has, IsOnce};
ghost use Rattle.graph_state.specs.Formed.{IsFormed};
ghost use Rattle.node_maps.specs.Contents.{IsGone};

use graph_core::Graph;
use graph_state::{EdgeItem, Gone, Item, ItemName, NodeItem};
use leda_base::{NoMemory, Row};
use std::alloc::Global;

/// An item of one sort of elements of a graph: of its nodes, or of its edges.
pub trait GraphItem: Copy + Drop {
    ghost number: { Self → ℕ };

    ghost made: { GraphState → ℕ };

    ghost live: { GraphState → List ℕ };

    ghost label: { GraphState → ℕ → List ℕ };

    ghost name: { ℕ → ItemName };

    /// The item of what the graph keeps for the element.
    fn item(self) -> Item
        ensures { result.serial ≡ number self };

    /// What the element is called.
    fn name(self) -> ItemName
        ensures { result ≡ name (number self) };

    /// How many elements of the sort were made, which is also the last number.
    fn made_in(g: &Graph) -> u32
        ensures { result ≡ made g.now };

    /// Every element of the sort in the order of its list, hidden ones too.
    fn all_in(alloc: Global, g: &Graph) -> Result<Row<Self>, NoMemory>
        ensures { IfOk result (λ row. map number row ≡ live g.now) };

    /// The label of the element, hidden or not.
    fn label_in(self, g: &Graph) -> Result<&[u8], Gone>
        ensures { MatchResult result
            (λ text. Has (number self) (live g.now) × (text.now ≡ label g.now (number self)))
            (IsGone (live g.now) (made g.now) (number self)) };

    ghost once: { (s : GraphState) → IsFormed s → IsOnce (live s) };

    ghost given: { (s : GraphState) → IsFormed s → (n : ℕ) → Has n (live s) → 0 < n };
}

/// Says what holds of every graph: its state is well-formed.
#[inline]
pub fn see_formed(g: &Graph)
    ensures { IsFormed g.now }
{
    let _kind = g.kind();
}

/// Every element of the sort in the order of its list, hidden ones too. Their numbers differ, and
/// none is 0.
pub fn all_items<E: GraphItem>(alloc: Global, g: &Graph) -> Result<Row<E>, NoMemory>
    ensures items { IfOk result (λ row. map E.number row ≡ E.live g.now) }
    ensures once { IfOk result (λ row. IsOnce (map E.number row)) }
    ensures given { IfOk result (λ row. (n : ℕ) → Has n (map E.number row) → 0 < n) }
{
    see_formed(g);
    let items = E::all_in(alloc, g)?;
    Ok(items)
}

/// Refuses an item that isn't live. It is one look at what the graph keeps for the element.
#[inline]
pub fn see_live<E: GraphItem>(g: &Graph, v: E) -> Result<(), Gone>
    ensures given { OnOk result (0 < E.number v) }
    ensures live { MatchResult result
        (λ _. Has (E.number v) (E.live g.now))
        (IsGone (E.live g.now) (E.made g.now) (E.number v)) }
{
    see_formed(g);
    match v.label_in(g) {
        Ok(_) => Ok(()),
        Err(why) => Err(why),
    }
}

impl GraphItem for NodeItem {
    ghost use Rattle.node_maps.specs.PrivateOnce.{nodes_once};

    ghost number = { λ v. v.0.serial };

    ghost made = { λ s. s.made_nodes };

    ghost live = { λ s. s.nodes };

    ghost label = { node_label };

    ghost name = { names.Node };

    #[inline]
    fn item(self) -> Item {
        self.0
    }

    fn name(self) -> ItemName {
        ItemName::Node(self.0.serial)
    }

    fn made_in(g: &Graph) -> u32 {
        g.made_nodes()
    }

    fn all_in(alloc: Global, g: &Graph) -> Result<Row<NodeItem>, NoMemory> {
        g.live_nodes(alloc)
    }

    #[inline]
    fn label_in(self, g: &Graph) -> Result<&[u8], Gone> {
        g.live_node_label(self)
    }

    ghost once = { nodes_once };

    ghost given = { λ s formed n has. (formed.given_nodes n has).0 };
}

impl GraphItem for EdgeItem {
    ghost use Rattle.node_maps.specs.PrivateOnce.{edges_once};

    ghost number = { λ e. e.0.serial };

    ghost made = { λ s. s.made_edges };

    ghost live = { λ s. s.edges };

    ghost label = { edge_label };

    ghost name = { names.Edge };

    #[inline]
    fn item(self) -> Item {
        self.0
    }

    fn name(self) -> ItemName {
        ItemName::Edge(self.0.serial)
    }

    fn made_in(g: &Graph) -> u32 {
        g.made_edges()
    }

    fn all_in(alloc: Global, g: &Graph) -> Result<Row<EdgeItem>, NoMemory> {
        g.live_edges(alloc)
    }

    #[inline]
    fn label_in(self, g: &Graph) -> Result<&[u8], Gone> {
        g.live_edge_label(self)
    }

    ghost once = { edges_once };

    ghost given = { λ s formed n has. (formed.given_edges n has).0 };
}

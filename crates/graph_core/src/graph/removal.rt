//! Edges and nodes that go.
ghost use Rattle.std.specs.Prelude.{◌≡◌, true, [], ◌∷◌, Some, IfErr, OnOk, OnErr, MatchOption};
ghost use Rattle.leda_base.specs.declared.name.ItemName.TheVariants as names;
ghost use Rattle.graph_state.specs.declared.name.ListName.{ListName};
ghost use Rattle.graph_state.specs.Names.{Has};
ghost use Rattle.graph_state.specs.Formed.{IsFormed};
ghost use Rattle.graph_state.specs.Parts.{is_part, IsAlone};
ghost use Rattle.graph_state.specs.Edits.{without_edge, without_node, has_end, cleared};
ghost use Rattle.graph_state.specs.Refusals.{IsThere, AreVisible, RefusesLook};
ghost use Rattle.graph_lists.specs.Named.{hook_at, list_at};
ghost use Rattle.graph_core.specs.Marks.{HasParts};
ghost use Rattle.graph_core.specs.Removal.{is_it, Drops, HasNodeParts, DropsNode};

use super::Graph;
use super::pairs::unpair;
use crate::cell::{EdgeCell, NodeCell};
use crate::seen::show;
use graph_lists::{Hook, Lists};
use graph_state::{Dart, EdgeItem, Element, ListName, LookRefusal, NodeItem};
use item_pool::Item;

/// The element leaves its list, and is gone.
fn drop_part(lists: &mut Lists, x: Element, hook: &Hook)
    requires hook { hook_at lists.old.named x ≡ Some hook.now }
    requires there { (l : ListName) × Has x (list_at lists.old.named l) }
    ensures { Drops lists.old lists.new (is_it x) 2 }
{
    lists.unlink(x, hook);
    lists.drop_element(x, hook);
}

/// The edge and its darts leave their lists, and are gone.
fn drop_parts(lists: &mut Lists, e: u32, cell: &EdgeCell)
    requires { (l m n : ListName) × HasParts lists.old.named e cell.now l m n }
    ensures { Drops lists.old lists.new (is_part e) 6 }
{
    let front = Dart {
        edge: e,
        back: false,
    };
    let back = Dart {
        edge: e,
        back: true,
    };
    drop_part(lists, Element::Edge(e), &cell.hook);
    drop_part(lists, Element::End(front), &cell.front);
    drop_part(lists, Element::End(back), &cell.back);
}

/// The node leaves the node list, and is gone with its lists, in which nothing stands.
fn drop_node_parts(lists: &mut Lists, v: u32, cell: &NodeCell)
    requires { HasNodeParts lists.old.named v cell.now }
    ensures { DropsNode lists.old lists.new v }
{
    drop_part(lists, Element::Node(v), &cell.hook);
    lists.drop_list(ListName::Out(v), &cell.outs);
    lists.drop_list(ListName::In(v), &cell.ins);
}

impl Graph {
    /// An edge, hidden or not, goes. Its reversal, where it has one, loses its own.
    fn remove_edge(&mut self, e: u32)
        requires { IsThere self.old (names.Edge e) }
        ensures { self.new ≡ without_edge e self.old }
    {
        unpair(&mut self.edges, e);
        let Ok(cell) = self.edges.remove(Item { slot: 0, serial: e }) else {
            unreachable!()
        };
        drop_parts(&mut self.lists, e, &cell);
        show(&mut self.seen, e, 0, 0);
    }

    /// The number of an edge with an end at the node, hidden or not, where there is one.
    fn incident_edge(&self, v: u32) -> Option<u32>
        requires { IsThere self.now (names.Node v) }
        ensures edge { MatchOption result (IsAlone self.now v)
            (λ e. IsThere self.now (names.Edge e) × (has_end self.now v e ≡ true)) }
        ensures formed { IsFormed self.now }
    {
        let Ok(cell) = self.nodes.get(Item { slot: 0, serial: v }) else {
            unreachable!()
        };
        if let Some(m) = self.lists.first(cell.outs.full) {
            return Some(self.lists.number(m));
        }
        match self.lists.first(cell.ins.full) {
            Some(m) => Some(self.lists.number(m)),
            None => None,
        }
    }

    /// The edges with an end at the node go, hidden or not.
    fn remove_incident_edges(&mut self, v: u32)
        requires { IsThere self.old (names.Node v) }
        ensures there { IsThere self.new (names.Node v) }
        ensures alone { IsAlone self.new v }
        ensures state { without_node v self.new ≡ without_node v self.old }
    {
        while let Some(e) = self.incident_edge(v) {
            self.remove_edge(e);
        }
    }

    /// A node, hidden or not, at which no edge has an end, goes.
    fn remove_node(&mut self, v: u32)
        requires there { IsThere self.old (names.Node v) }
        requires alone { IsAlone self.old v }
        ensures { self.new ≡ without_node v self.old }
    {
        let Ok(cell) = self.nodes.remove(Item { slot: 0, serial: v }) else {
            unreachable!()
        };
        drop_node_parts(&mut self.lists, v, &cell);
        show(&mut self.seen, v, 0, 0);
    }

    /// The number of the first node, hidden or not, where there is one.
    fn first_node(&self) -> Option<u32>
        ensures node { MatchOption result (self.now.nodes ≡ [])
            (λ v. IsThere self.now (names.Node v)) }
        ensures formed { IsFormed self.now }
    {
        let Some(heads) = &self.heads else {
            return None;
        };
        match self.lists.first(heads.nodes.full) {
            Some(m) => Some(self.lists.number(m)),
            None => None,
        }
    }

    /// Deletes an edge. Its reversal, where it has one, loses its own. It takes no memory, and
    /// constant time.
    ///
    /// # Errors
    ///
    /// `Gone` where the edge is dead or unknown, and `Hidden` where it isn't visible. All is then
    /// as before.
    pub fn del_edge(&mut self, e: EdgeItem) -> Result<(), LookRefusal>
        ensures visible { OnOk result (AreVisible self.old (names.Edge e.0.serial ∷ [])) }
        ensures state { OnOk result (self.new ≡ without_edge e.0.serial self.old) }
        ensures err { IfErr result (RefusesLook self.old (names.Edge e.0.serial ∷ [])) }
        ensures same { OnErr result (self.new ≡ self.old) }
    {
        self.see_edge(e)?;
        self.remove_edge(e.0.serial);
        Ok(())
    }

    /// Deletes a node, with every edge that has an end at it, hidden ones too. It takes no memory,
    /// and time linear in the number of these edges.
    ///
    /// # Errors
    ///
    /// `Gone` where the node is dead or unknown, and `Hidden` where it isn't visible. All is then
    /// as before.
    pub fn del_node(&mut self, v: NodeItem) -> Result<(), LookRefusal>
        ensures visible { OnOk result (AreVisible self.old (names.Node v.0.serial ∷ [])) }
        ensures state { OnOk result (self.new ≡ without_node v.0.serial self.old) }
        ensures err { IfErr result (RefusesLook self.old (names.Node v.0.serial ∷ [])) }
        ensures same { OnErr result (self.new ≡ self.old) }
    {
        self.see_node(v)?;
        self.remove_incident_edges(v.0.serial);
        self.remove_node(v.0.serial);
        Ok(())
    }

    /// Deletes every node and every edge, hidden ones too. The kind, the types and the numbers that
    /// were given stay. It takes no memory, and time linear in the numbers of nodes and edges.
    pub fn clear(&mut self)
        ensures { self.new ≡ cleared self.old }
    {
        while let Some(v) = self.first_node() {
            self.remove_incident_edges(v);
            self.remove_node(v);
        }
        show(&mut self.seen, 0, 0, 0);
    }
}

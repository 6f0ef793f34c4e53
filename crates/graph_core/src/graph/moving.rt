//! Edges that go elsewhere.
ghost use Rattle.std.specs.Prelude.{◌≡◌, ℕ, true, [], ◌∷◌, Some, IfErr, OnOk, OnErr, MatchResult};
ghost use Rattle.std.specs.FinMap as map;
ghost use Rattle.item_pool.specs.Contents.{HasLive};
ghost use Rattle.leda_base.specs.declared.name.ItemName.TheVariants as names;
ghost use Rattle.graph_state.specs.declared.name.ListName.{ListName};
ghost use Rattle.graph_state.specs.declared.name.ListName.TheVariants.{Out};
ghost use Rattle.graph_state.specs.declared.name.Element.TheVariants.{End};
ghost use Rattle.graph_state.specs.State.{front, back};
ghost use Rattle.graph_state.specs.Edits.{moved, reversed};
ghost use Rattle.graph_state.specs.Refusals.{AreVisible, RefusesLook};
ghost use Rattle.graph_lists.specs.Named.{head_at, shows_at};
ghost use Rattle.graph_core.specs.declared.cell.EdgeCell.{EdgeCell};
ghost use Rattle.graph_core.specs.Marks.{HasParts};
ghost use Rattle.graph_core.specs.Moves.{MovesDarts};

use super::Graph;
use super::growth::{back_head, back_name};
use super::pairs::unpair;
use crate::cell::EdgeCell;
use crate::seen::show;
use graph_lists::{ListHead, Lists};
use graph_state::{Dart, EdgeItem, Element, ItemName, ListName, LookRefusal, NodeItem};
use item_pool::{Item, Pool};

/// The darts of an edge leave their lists. The front one goes to the rear of the out list of a
/// node, and then the back one to the rear of another list.
fn move_darts(
    lists: &mut Lists,
    e: u32,
    cell: &EdgeCell,
    from: u32,
    outs: &ListHead,
    row: ListName,
    ins: &ListHead,
)
    requires parts { (l m n : ListName) × HasParts lists.old.named e cell.now l m n }
    requires outs { head_at lists.old.named (Out from) ≡ Some outs.now }
    requires ins { head_at lists.old.named row ≡ Some ins.now }
    requires front { shows_at lists.old.named (End (front e)) ≡ true }
    requires back { shows_at lists.old.named (End (back e)) ≡ true }
    ensures { MovesDarts lists.old lists.new e from row }
{
    let front = Element::End(Dart {
        edge: e,
        back: false,
    });
    let back = Element::End(Dart {
        edge: e,
        back: true,
    });
    lists.unlink(front, &cell.front);
    lists.unlink(back, &cell.back);
    lists.push_back(ListName::Out(from), outs, front, &cell.front, true);
    lists.push_back(row, ins, back, &cell.back, true);
}

/// Sets the ends in the cell of an edge.
fn set_ends(edges: &mut Pool<EdgeCell>, e: u32, from: u32, to: u32)
    requires { HasLive edges.old e }
    ensures live { (c : EdgeCell) → map.get edges.old.live e ≡ Some c
        → edges.new.live ≡ map.insert edges.old.live e (record c { from = from; to = to }) }
    ensures made { edges.new.made ≡ edges.old.made }
{
    if let Ok(cell) = edges.get_mut(Item { slot: 0, serial: e }) {
        cell.from = from;
        cell.to = to;
    }
}

impl Graph {
    /// Refuses an edge and two nodes of which one isn't visible.
    fn see_edge_and_ends(&self, e: EdgeItem, v: NodeItem, w: NodeItem) -> Result<(), LookRefusal>
        ensures { MatchResult result
            (λ _. AreVisible self.now
            (names.Edge e.0.serial ∷ names.Node v.0.serial ∷ names.Node w.0.serial ∷ []))
            (RefusesLook self.now
            (names.Edge e.0.serial ∷ names.Node v.0.serial ∷ names.Node w.0.serial ∷ [])) }
    {
        self.live_edge(e)?;
        let from = self.live_node(v)?;
        let to = self.live_node(w)?;
        if self.see_edge(e).is_err() {
            return Err(LookRefusal::Hidden(ItemName::Edge(e.0.serial)));
        }
        if from.is_hidden {
            return Err(LookRefusal::Hidden(ItemName::Node(v.0.serial)));
        }
        if to.is_hidden {
            return Err(LookRefusal::Hidden(ItemName::Node(w.0.serial)));
        }
        Ok(())
    }

    /// A visible edge goes from one visible node to another from here on, with its darts at the
    /// rear of their lists. It and its reversal, where it has one, lose each other.
    fn relocate(&mut self, e: u32, v: u32, w: u32)
        requires { AreVisible self.old (names.Edge e ∷ names.Node v ∷ names.Node w ∷ []) }
        ensures { self.new ≡ moved e v w self.old }
    {
        unpair(&mut self.edges, e);
        let (Ok(cell), Ok(from), Ok(to)) = (
            self.edges.get(Item { slot: 0, serial: e }),
            self.nodes.get(Item { slot: 0, serial: v }),
            self.nodes.get(Item { slot: 0, serial: w }),
        ) else {
            unreachable!()
        };
        let row = back_name(self.directed, w);
        let ins = back_head(self.directed, to);
        move_darts(&mut self.lists, e, cell, v, &from.outs, row, ins);
        set_ends(&mut self.edges, e, v, w);
        show(&mut self.seen, e, v, w);
    }

    /// Moves an edge, so that it goes from v to w. It keeps its place in the edge list; its front
    /// dart goes to the rear of the out list of v, and its back dart to the rear of the in list of
    /// w, or of the out list in an undirected graph. It and its reversal, where it has one, lose
    /// each other. It takes no memory, and constant time.
    ///
    /// # Errors
    ///
    /// `Gone` for the leftmost of e, v and w that is dead or unknown, and else `Hidden` for the
    /// leftmost one that isn't visible. All is then as before.
    pub fn move_edge(&mut self, e: EdgeItem, v: NodeItem, w: NodeItem) -> Result<(), LookRefusal>
        ensures visible { OnOk result (AreVisible self.old
            (names.Edge e.0.serial ∷ names.Node v.0.serial ∷ names.Node w.0.serial ∷ [])) }
        ensures state { OnOk result
            (self.new ≡ moved e.0.serial v.0.serial w.0.serial self.old) }
        ensures err { IfErr result (RefusesLook self.old
            (names.Edge e.0.serial ∷ names.Node v.0.serial ∷ names.Node w.0.serial ∷ [])) }
        ensures same { OnErr result (self.new ≡ self.old) }
    {
        self.see_edge_and_ends(e, v, w)?;
        self.relocate(e.0.serial, v.0.serial, w.0.serial);
        Ok(())
    }

    /// Reverses an edge: it goes from its target to its source from here on, as if it were moved
    /// so. It takes no memory, and constant time.
    ///
    /// # Errors
    ///
    /// `Gone` where the edge is dead or unknown, and `Hidden` where it isn't visible. All is then
    /// as before.
    pub fn rev_edge(&mut self, e: EdgeItem) -> Result<(), LookRefusal>
        ensures visible { OnOk result (AreVisible self.old (names.Edge e.0.serial ∷ [])) }
        ensures state { OnOk result (self.new ≡ reversed e.0.serial self.old) }
        ensures err { IfErr result (RefusesLook self.old (names.Edge e.0.serial ∷ [])) }
        ensures same { OnErr result (self.new ≡ self.old) }
    {
        self.see_edge(e)?;
        let Ok(cell) = self.edges.get(e.0) else {
            unreachable!()
        };
        let (from, to) = (cell.from, cell.to);
        self.relocate(e.0.serial, to, from);
        Ok(())
    }
}

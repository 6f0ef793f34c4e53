//! New edges next to others.
ghost use Rattle.std.specs.Prelude.{◌≡◌, ◌+◌, [], ◌∷◌, Some, IfOk, IfErr, OnOk, OnErr, MatchResult};
ghost use Rattle.leda_base.specs.declared.name.ItemName.TheVariants as names;
ghost use Rattle.graph_state.specs.declared.name.ListName.TheVariants.{Edges};
ghost use Rattle.graph_state.specs.State.{GraphState};
ghost use Rattle.graph_state.specs.Formed.{IsLabel};
ghost use Rattle.graph_state.specs.Beside.{with_edge_beside};
ghost use Rattle.graph_state.specs.Refusals.{AreVisible, RefusesLook, EdgeRoom, RefusesEdge};
ghost use Rattle.graph_lists.specs.Named.{head_at};
ghost use Rattle.graph_core.specs.Steps.{CanEnterEdge};
ghost use Rattle.graph_core.specs.Beside.{CanPutFront, PutsFront, CanEnterBeside, EntersBeside};

use super::Graph;
use super::growth::{Ends, back_head, back_name, make_room};
use crate::cell::EdgeCell;
use crate::seen::GraphView;
use graph_lists::{Hook, ListHead, Lists};
use graph_state::{
    Dart, EdgeItem, EditRefusal, Element, ItemName, ListName, LookRefusal, NodeItem, Side,
};
use item_pool::{Item, Pool};
use leda_base::{Row, Seen};

/// The edge that a new one goes next to, and on which side.
#[derive(Clone, Copy)]
struct Spot {
    edge: u32,
    side: Side,
}

/// From here on `to` is seen, where an edge comes next to another one.
fn show_beside(seen: &mut Seen<GraphView>, spot: Spot, w: u32, label: &Row<u8>)
    ghost to: { GraphState }
    ensures { seen.new.view ≡ to }
{
    seen.becomes();
}

/// The front dart of a new edge goes next to that of another one.
fn put_front(lists: &mut Lists, edges: &Pool<EdgeCell>, spot: Spot, front: Element, hook: &Hook)
    requires { CanPutFront lists.old edges.now spot.edge front hook.now }
    ensures { PutsFront lists.old lists.new spot.side spot.edge front }
{
    let beside = Item {
        slot: 0,
        serial: spot.edge,
    };
    let Ok(cell) = edges.get(beside) else {
        unreachable!()
    };
    let dart = Element::End(Dart {
        edge: spot.edge,
        back: false,
    });
    lists.put_beside(spot.side, dart, &cell.front, front, hook);
}

/// Takes an edge in under the next number, with its front dart next to that of another edge, and
/// its back dart at the rear of its list.
fn enter_beside(
    lists: &mut Lists,
    edges: &mut Pool<EdgeCell>,
    spot: Spot,
    ends: Ends,
    head: &ListHead,
    ins: &ListHead,
    label: Row<u8>,
) -> Item
    requires room { CanEnterEdge lists.old edges.old }
    requires spot { CanEnterBeside lists.old edges.old spot.edge }
    requires edges { head_at lists.old.named Edges ≡ Some head.now }
    requires ins { head_at lists.old.named ends.row ≡ Some ins.now }
    ensures { EntersBeside lists.old lists.new edges.old edges.new
        spot.side spot.edge ends.row ends.from ends.to label result }
{
    let e = edges.made() + 1;
    let front = Element::End(Dart {
        edge: e,
        back: false,
    });
    let back = Element::End(Dart {
        edge: e,
        back: true,
    });
    let hook = lists.add_element(Element::Edge(e));
    let first = lists.add_element(front);
    let second = lists.add_element(back);
    lists.push_back(ListName::Edges, head, Element::Edge(e), &hook, true);
    put_front(lists, edges, spot, front, &first);
    lists.push_back(ends.row, ins, back, &second, true);
    edges.insert_reserved(EdgeCell {
        label,
        from: ends.from,
        to: ends.to,
        reversal: None,
        is_hidden: false,
        hook,
        front: first,
        back: second,
    })
}

impl Graph {
    /// Refuses an edge and a node of which one isn't visible.
    fn see_edge_and_node(&self, e: EdgeItem, w: NodeItem) -> Result<(), LookRefusal>
        ensures { MatchResult result
            (λ _. AreVisible self.now (names.Edge e.0.serial ∷ names.Node w.0.serial ∷ []))
            (RefusesLook self.now (names.Edge e.0.serial ∷ names.Node w.0.serial ∷ [])) }
    {
        self.live_edge(e)?;
        let to = self.live_node(w)?;
        self.see_edge(e)?;
        if to.is_hidden {
            return Err(LookRefusal::Hidden(ItemName::Node(w.0.serial)));
        }
        Ok(())
    }

    /// A new edge from the source of e to w with the label, at the rear of the edge list. Its front
    /// dart goes right before that of e, or right behind it, and its back dart to the rear of the
    /// in list of w, or of the out list in an undirected graph.
    ///
    /// # Errors
    ///
    /// `Gone` for e where it is dead or unknown, else for w; else `Hidden` for e where it isn't
    /// visible, else for w. Else `FullEdges` exactly where there are 400,000 edges, else `Spent`
    /// exactly where 16,777,215 were made, and `NoMemory` where there is no memory. The label is
    /// then dropped.
    pub fn new_edge_at(
        &mut self,
        e: EdgeItem,
        w: NodeItem,
        side: Side,
        label: Row<u8>,
    ) -> Result<EdgeItem, EditRefusal>
        requires { IsLabel label }
        ensures visible { OnOk result
            (AreVisible self.old (names.Edge e.0.serial ∷ names.Node w.0.serial ∷ [])) }
        ensures room { OnOk result (EdgeRoom self.old) }
        ensures item { IfOk result (λ f. f.0.serial ≡ self.old.made_edges + 1) }
        ensures state { OnOk result
            (self.new ≡ with_edge_beside side e.0.serial w.0.serial label self.old) }
        ensures err { IfErr result
            (RefusesEdge self.old (names.Edge e.0.serial ∷ names.Node w.0.serial ∷ [])) }
        ensures same { OnErr result (self.new ≡ self.old) }
    {
        self.see_edge_and_node(e, w)?;
        self.check_edges()?;
        if make_room(&mut self.lists, &mut self.edges, 0, 3).is_err() {
            return Err(EditRefusal::NoMemory);
        }
        let (Some(heads), Ok(cell), Ok(to)) = (
            &self.heads,
            self.edges.get(e.0),
            self.nodes.get(w.0),
        ) else {
            unreachable!()
        };
        let spot = Spot {
            edge: e.0.serial,
            side,
        };
        show_beside(&mut self.seen, spot, w.0.serial, &label);
        let ends = Ends {
            from: cell.from,
            to: w.0.serial,
            row: back_name(self.directed, w.0.serial),
        };
        let ins = back_head(self.directed, to);
        let item = enter_beside(
            &mut self.lists,
            &mut self.edges,
            spot,
            ends,
            &heads.edges,
            ins,
            label,
        );
        Ok(EdgeItem(item))
    }
}

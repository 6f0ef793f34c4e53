//! Out lists, dart by dart.
ghost use Rattle.std.specs.Prelude.{◌≡◌, true, map, IfOk, IfErr, OnOk, [], ◌∷◌};
ghost use Rattle.leda_base.specs.declared.name.ItemName.TheVariants as names;
ghost use Rattle.graph_state.specs.declared.name.ListName.{ListName};
ghost use Rattle.graph_state.specs.declared.name.Element.{Element};
ghost use Rattle.graph_state.specs.declared.name.Element.TheVariants.{End};
ghost use Rattle.graph_state.specs.State.{visible_out};
ghost use Rattle.graph_state.specs.Refusals.{AreVisible, RefusesList};
ghost use Rattle.graph_lists.specs.Named.{seen_list};
ghost use Rattle.graph_lists.specs.Heads.{IsHeadOf, IsMemberOf};
ghost use Rattle.graph_core.specs.Darts.{HasDart, HasDarts};

use super::Graph;
use crate::cell::EdgeCell;
use graph_lists::{Head, Lists, Member};
use graph_state::{Dart, EditRefusal, NodeItem};
use item_pool::{Item, Pool};
use leda_base::{NoMemory, Row};
use std::alloc::Global;

/// The dart that the member of a ring of what shows is of.
fn dart_at(lists: &Lists, edges: &Pool<EdgeCell>, m: Member) -> Dart
    requires { HasDart lists.now.named edges.now m }
    ensures { (x : Element) → IsMemberOf lists.now.named true x m → End result ≡ x }
{
    let edge = lists.number(m);
    let Ok(cell) = edges.get(Item {
        slot: 0,
        serial: edge,
    }) else {
        unreachable!()
    };
    Dart {
        edge,
        back: cell.front.shown != m,
    }
}

/// The darts in a ring of what shows, in their order.
fn darts_in(
    alloc: Global,
    lists: &Lists,
    edges: &Pool<EdgeCell>,
    head: Head,
) -> Result<Row<Dart>, NoMemory>
    requires { HasDarts lists.now.named edges.now head }
    ensures { IfOk result (λ row. (l : ListName) → IsHeadOf lists.now.named true l head
        → map End row ≡ seen_list lists.now.named true l) }
{
    let count = lists.len(head);
    let mut row = Row::with_room(alloc, count as usize)?;
    let mut at = lists.first(head);
    for _turn in 0..count {
        let Some(m) = at else { unreachable!() };
        row.push(dart_at(lists, edges, m))?;
        at = lists.next(m);
    }
    Ok(row)
}

impl Graph {
    /// The darts of the visible out list of the node: in a directed graph those of the edges that
    /// begin there, and in an undirected graph those of the edges that end there too. It takes time
    /// linear in their number.
    ///
    /// # Errors
    ///
    /// `Gone` where the node is dead or unknown, `Hidden` where it isn't visible, and `NoMemory`
    /// where there is no memory.
    pub fn out_darts(&self, alloc: Global, v: NodeItem) -> Result<Row<Dart>, EditRefusal>
        ensures visible { OnOk result (AreVisible self.now (names.Node v.0.serial ∷ [])) }
        ensures darts { IfOk result (λ row. row ≡ visible_out self.now v.0.serial) }
        ensures err { IfErr result (RefusesList self.now (names.Node v.0.serial ∷ [])) }
    {
        self.see_node(v)?;
        let Ok(cell) = self.nodes.get(v.0) else {
            unreachable!()
        };
        Ok(darts_in(alloc, &self.lists, &self.edges, cell.outs.shown)?)
    }
}

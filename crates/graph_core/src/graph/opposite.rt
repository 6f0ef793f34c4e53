//! The edge list, edge by edge, and opposite edges in it.
ghost use Rattle.std.specs.Prelude.{◌≡◌, ℕ, Bool, [], ◌∷◌, ◌++◌, List, length, Option, Some, None, map, option_map, IfSome, MatchResult};
ghost use Rattle.std.specs.FinMap as fin;
ghost use Rattle.item_pool.specs.Contents.{HasLive};
ghost use Rattle.leda_base.specs.declared.name.ItemName.TheVariants as names;
ghost use Rattle.graph_state.specs.declared.item.EdgeItem.{EdgeItem};
ghost use Rattle.graph_state.specs.declared.name.ListName.{ListName};
ghost use Rattle.graph_state.specs.Names.{number, first_of};
ghost use Rattle.graph_state.specs.Refusals.{AreVisible, IsGone, IsThere};
ghost use Rattle.graph_state.specs.Reversals.{AreOpposite};
ghost use Rattle.graph_lists.specs.Named.{seen_list};
ghost use Rattle.graph_lists.specs.Heads.{IsHeadOf};
ghost use Rattle.graph_core.specs.Members.{HaveValues};
ghost use Rattle.graph_core.specs.Least.{IsLeast, is_free};
ghost use Rattle.graph_core.specs.Opposite.{IsNextEdge, IsFirstOpposite};

use super::Graph;
use super::looks::may_edge_at;
use super::pairs::item_of;
use crate::cell::EdgeCell;
use graph_lists::{Head, Lists};
use graph_state::{EdgeItem, Gone};
use item_pool::{Item, Pool};

/// An edge for which an opposite one is sought: its number, and where it begins and ends.
#[derive(Clone, Copy)]
struct Sought {
    edge: u32,
    from: u32,
    to: u32,
}

/// Whether the edge f has no reversal, comes behind the edge that is sought for, and runs the other
/// way between the same nodes.
fn is_free_opposite(edges: &Pool<EdgeCell>, sought: Sought, f: u32) -> bool
    requires { HasLive edges.now f }
    ensures { result ≡ is_free sought.edge sought.from sought.to f (fin.get edges.now.live f) }
{
    let Ok(cell) = edges.get(Item { slot: 0, serial: f }) else {
        unreachable!()
    };
    sought.edge < f && cell.reversal.is_none() && cell.from == sought.to && cell.to == sought.from
}

/// The less of two numbers, where the second fits at all.
fn keep_less(least: Option<u32>, f: u32, fits: bool) -> Option<u32>
    ensures { (P : ℕ → Bool) (xs : List ℕ) → P f ≡ fits → IsLeast P xs least
        → IsLeast P (xs ++ f ∷ []) result }
{
    if !fits {
        return least;
    }
    match least {
        Some(b) if b <= f => Some(b),
        _ => Some(f),
    }
}

/// The least number of an edge in the ring that is opposite, and free.
fn least_opposite(lists: &Lists, edges: &Pool<EdgeCell>, head: Head, sought: Sought) -> Option<u32>
    requires { HaveValues lists.now edges.now head }
    ensures { (b : Bool) (l : ListName) → IsHeadOf lists.now.named b l head
        → IsLeast (λ f. is_free sought.edge sought.from sought.to f (fin.get edges.now.live f))
        (map number (seen_list lists.now.named b l)) result }
{
    let mut least = None;
    let mut at = lists.first(head);
    for _turn in 0..lists.len(head) {
        let Some(m) = at else { unreachable!() };
        let f = lists.number(m);
        least = keep_less(least, f, is_free_opposite(edges, sought, f));
        at = lists.next(m);
    }
    least
}

impl Graph {
    /// How many edges there are, hidden ones too.
    pub fn edge_count(&self) -> u32
        ensures { result ≡ length self.now.edges }
    {
        self.edges.len()
    }

    /// The first edge of the edge list, hidden or not, and none exactly where there are no edges.
    pub fn first_edge(&self) -> Option<EdgeItem>
        ensures { option_map (λ (e : EdgeItem). e.0.serial) result ≡ first_of self.now.edges }
    {
        match &self.heads {
            Some(heads) => {
                may_edge_at(&self.lists, &self.edges, self.lists.first(heads.edges.full))
            }
            None => None,
        }
    }

    /// The next edge of the edge list, hidden or not, and none exactly behind the last one.
    ///
    /// # Errors
    ///
    /// `Dead` where the number was given and the edge is gone, and `Unknown` where it wasn't given.
    pub fn next_edge(&self, e: EdgeItem) -> Result<Option<EdgeItem>, Gone>
        ensures { MatchResult result
            (λ f. IsThere self.now (names.Edge e.0.serial) × IsNextEdge self.now e.0.serial f)
            (IsGone self.now (names.Edge e.0.serial)) }
    {
        match self.edges.get(e.0) {
            Ok(cell) => Ok(may_edge_at(&self.lists, &self.edges, self.lists.next(cell.hook.full))),
            Err(why) => Err(why),
        }
    }

    /// The first visible edge behind e in the edge list that is opposite to it and has no reversal.
    /// It takes time linear in the visible out list of the target.
    pub fn first_opposite(&self, e: EdgeItem) -> Option<EdgeItem>
        requires { AreVisible self.now (names.Edge e.0.serial ∷ []) }
        ensures first { IsFirstOpposite self.now e.0.serial result }
        ensures opposite { IfSome result (λ f. IsThere self.now (names.Edge f.0.serial)
            × AreOpposite self.now e.0.serial f.0.serial) }
    {
        let Ok(cell) = self.edges.get(e.0) else {
            unreachable!()
        };
        let target = Item {
            slot: 0,
            serial: cell.to,
        };
        let Ok(to) = self.nodes.get(target) else {
            unreachable!()
        };
        let sought = Sought {
            edge: e.0.serial,
            from: cell.from,
            to: cell.to,
        };
        match least_opposite(&self.lists, &self.edges, to.outs.shown, sought) {
            Some(f) => Some(item_of(&self.edges, f)),
            None => None,
        }
    }
}

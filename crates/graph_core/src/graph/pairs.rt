//! Reversals of edges.
ghost use Rattle.std.specs.Prelude.{◌≡◌, [], ◌∷◌, Some, option_map, OnOk, IfOk, IfErr, MatchResult};
ghost use Rattle.std.specs.FinMap as map;
ghost use Rattle.item_pool.specs.Contents.{HasLive};
ghost use Rattle.leda_base.specs.declared.name.ItemName.TheVariants as names;
ghost use Rattle.graph_state.specs.declared.item.EdgeItem.{EdgeItem};
ghost use Rattle.graph_state.specs.Edits.{paired};
ghost use Rattle.graph_state.specs.Refusals.{AreVisible, IsGone, IsThere, RefusesLook};
ghost use Rattle.graph_state.specs.Reversals.{AreOpposite, if_shown, visible_reversal};
ghost use Rattle.graph_core.specs.declared.cell.EdgeCell.{EdgeCell};
ghost use Rattle.graph_core.specs.Pairs.{CanUnpair, Unpairs, Pairs};

use super::Graph;
use crate::cell::EdgeCell;
use crate::seen::show;
use graph_state::{EdgeItem, Gone, LookRefusal};
use item_pool::{Item, Pool};

/// Sets the reversal in the cell of an edge, and answers the one that was there.
fn put_reversal(edges: &mut Pool<EdgeCell>, e: u32, reversal: Option<u32>) -> Option<u32>
    requires { HasLive edges.old e }
    ensures live { (c : EdgeCell) → map.get edges.old.live e ≡ Some c
        → edges.new.live ≡ map.insert edges.old.live e (record c { reversal = reversal }) }
    ensures before { (c : EdgeCell) → map.get edges.old.live e ≡ Some c → result ≡ c.reversal }
    ensures made { edges.new.made ≡ edges.old.made }
{
    let Ok(cell) = edges.get_mut(Item { slot: 0, serial: e }) else {
        unreachable!()
    };
    let before = cell.reversal;
    cell.reversal = reversal;
    before
}

/// The edge and its reversal, where it has one, lose each other in both cells.
pub(super) fn unpair(edges: &mut Pool<EdgeCell>, e: u32)
    requires { CanUnpair edges.old e }
    ensures { Unpairs edges.old edges.new e }
{
    if let Some(f) = put_reversal(edges, e, None) {
        put_reversal(edges, f, None);
    }
}

/// The two edges become each other's reversal in their cells, and former partners lose theirs.
fn pair_cells(edges: &mut Pool<EdgeCell>, e: u32, f: u32)
    requires first { CanUnpair edges.old e }
    requires second { CanUnpair edges.old f }
    ensures { Pairs edges.old edges.new e f }
{
    unpair(edges, e);
    unpair(edges, f);
    put_reversal(edges, e, Some(f));
    put_reversal(edges, f, Some(e));
}

/// The item of an edge that is there.
pub(super) fn item_of(edges: &Pool<EdgeCell>, e: u32) -> EdgeItem
    requires { HasLive edges.now e }
    ensures { result.0.serial ≡ e }
{
    match edges.item(e) {
        Ok(item) => EdgeItem(item),
        Err(_) => unreachable!(),
    }
}

impl Graph {
    /// The edge, where it shows.
    fn shown_edge(&self, e: EdgeItem) -> Option<EdgeItem>
        requires { IsThere self.now (names.Edge e.0.serial) }
        ensures { option_map (λ (e : EdgeItem). e.0.serial) result
            ≡ if_shown self.now (Some e.0.serial) }
    {
        match self.see_edge(e) {
            Ok(_) => Some(e),
            Err(_) => None,
        }
    }

    /// The reversal of the edge, and none exactly where it has none that is visible.
    ///
    /// # Errors
    ///
    /// `Gone` where the edge is dead or unknown, and `Hidden` where it isn't visible.
    pub fn partner(&self, e: EdgeItem) -> Result<Option<EdgeItem>, LookRefusal>
        ensures visible { OnOk result (AreVisible self.now (names.Edge e.0.serial ∷ [])) }
        ensures partner { IfOk result (λ f. option_map (λ (e : EdgeItem). e.0.serial) f
            ≡ visible_reversal self.now e.0.serial) }
        ensures err { IfErr result (RefusesLook self.now (names.Edge e.0.serial ∷ [])) }
    {
        let cell = self.see_edge(e)?;
        match cell.reversal {
            Some(f) => Ok(self.shown_edge(item_of(&self.edges, f))),
            None => Ok(None),
        }
    }

    /// The reversal of the edge, hidden or not, and none exactly where it has none. The edge may be
    /// hidden too.
    ///
    /// # Errors
    ///
    /// `Dead` where the number was given and the edge is gone, and `Unknown` where it wasn't given.
    pub fn live_partner(&self, e: EdgeItem) -> Result<Option<EdgeItem>, Gone>
        ensures { MatchResult result
            (λ f. IsThere self.now (names.Edge e.0.serial)
            × (option_map (λ (e : EdgeItem). e.0.serial) f
            ≡ map.get self.now.reversals e.0.serial))
            (IsGone self.now (names.Edge e.0.serial)) }
    {
        match self.edges.get(e.0) {
            Ok(cell) => match cell.reversal {
                Some(f) => Ok(Some(item_of(&self.edges, f))),
                None => Ok(None),
            },
            Err(why) => Err(why),
        }
    }

    /// Makes two opposite edges, hidden or not, each other's reversal. Former partners of both lose
    /// theirs. It takes no memory.
    pub fn pair(&mut self, e: EdgeItem, f: EdgeItem)
        requires first { IsThere self.old (names.Edge e.0.serial) }
        requires second { IsThere self.old (names.Edge f.0.serial) }
        requires opposite { AreOpposite self.old e.0.serial f.0.serial }
        ensures { self.new ≡ paired e.0.serial f.0.serial self.old }
    {
        pair_cells(&mut self.edges, e.0.serial, f.0.serial);
        show(&mut self.seen, e.0.serial, f.0.serial, 0);
    }
}

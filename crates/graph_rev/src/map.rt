//! Pairing the edges of a whole graph.
ghost use Rattle.std.specs.Prelude.{◌≡◌, ℕ, cond, List, ◌∷◌, ◌++◌, is_some, not};
ghost use Rattle.std.specs.FinMap as map;
ghost use Rattle.leda_base.specs.declared.name.ItemName.TheVariants as names;
ghost use Rattle.graph_state.specs.State.{shows_edge};
ghost use Rattle.graph_state.specs.Refusals.{IsThere};
ghost use Rattle.graph_rev.specs.Pairing.{lacks_reversal, pair_first, map_made, unpaired_count};

use graph_core::{EdgeItem, Graph};

/// Whether the edge, which is there, is visible and has no reversal.
fn is_unpaired(g: &Graph, e: EdgeItem) -> bool
    requires { IsThere g.now (names.Edge e.0.serial) }
    ensures { result ≡ lacks_reversal g.now e.0.serial }
{
    let Ok(partner) = g.live_partner(e) else {
        unreachable!()
    };
    g.source(e).is_ok() && partner.is_none()
}

/// Pairs an edge of the edge list, where it is visible and has no reversal, with the first visible
/// opposite edge behind it that has none either.
fn pair_one(g: &mut Graph, e: EdgeItem)
    requires { IsThere g.old (names.Edge e.0.serial) }
    ensures { (before behind : List ℕ) → g.old.edges ≡ before ++ e.0.serial ∷ behind
        → g.new ≡ pair_first e.0.serial behind g.old }
{
    if is_unpaired(g, e) {
        if let Some(f) = g.first_opposite(e) {
            g.pair(e, f);
        }
    }
}

/// How many visible edges have no reversal, visible or not.
fn count_unpaired(g: &Graph) -> u32
    ensures { result ≡ unpaired_count g.now }
{
    let mut count = 0;
    let mut at = g.first_edge();
    for _turn in 0..g.edge_count() {
        let Some(e) = at else { unreachable!() };
        if is_unpaired(g, e) {
            count += 1;
        }
        at = match g.next_edge(e) {
            Ok(next) => next,
            Err(_) => unreachable!(),
        };
    }
    count
}

/// Goes through the visible edges in order, pairs each one that has no reversal, visible or not,
/// with the first later visible opposite edge that has none, and answers how many visible edges are
/// left without one. It takes no memory, and time linear in the edge list and, for each edge that
/// is to be paired, in the visible out list of its target.
pub fn make_map(g: &mut Graph) -> u32
    ensures state { g.new ≡ map_made g.old }
    ensures count { result ≡ unpaired_count g.new }
{
    let mut at = g.first_edge();
    for _turn in 0..g.edge_count() {
        let Some(e) = at else { unreachable!() };
        pair_one(g, e);
        at = match g.next_edge(e) {
            Ok(next) => next,
            Err(_) => unreachable!(),
        };
    }
    count_unpaired(g)
}

//! Edges become each other's reversal.
ghost use Rattle.std.specs.Prelude.{◌≡◌, [], ◌∷◌, ◌↔◌, IsTrue, MatchResult, IfErr, OnOk, OnErr};
ghost use Rattle.leda_base.specs.declared.name.ItemName.TheVariants as names;
ghost use Rattle.graph_state.specs.Edits.{paired};
ghost use Rattle.graph_state.specs.Refusals.{AreVisible, IsGoneOf, IsThere, RefusesLook};
ghost use Rattle.graph_state.specs.Reversals.{AreOpposite};
ghost use Rattle.graph_rev.specs.Reversals.{RefusesReversal};

use graph_core::{EdgeItem, Graph, ItemName, LookRefusal};

/// Why two edges didn't become each other's reversal. All is then as before.
#[derive(Clone, Copy, Debug, PartialEq, Eq)]
pub enum RevRefusal {
    /// An edge is dead or was never made, or isn't visible.
    Look(LookRefusal),
    /// The edges are one, or one doesn't begin where the other ends.
    NotOpposite,
}

impl From<LookRefusal> for RevRefusal {
    ghost use Rattle.std.specs.Prelude.{◌≡◌};
    ghost use Rattle.graph_rev.specs.declared.reversal.RevRefusal.TheVariants as rev;

    ghost from_gives = { λ why refusal. refusal ≡ rev.Look why };

    fn from(why: LookRefusal) -> RevRefusal {
        RevRefusal::Look(why)
    }
}

/// Refuses an edge that isn't there.
fn check_live(g: &Graph, e: EdgeItem) -> Result<(), LookRefusal>
    ensures { MatchResult result (λ _. IsThere g.now (names.Edge e.0.serial))
        (IsGoneOf g.now (names.Edge e.0.serial)) }
{
    match g.edge_item(e.0.serial) {
        Ok(_) => Ok(()),
        Err(why) => Err(LookRefusal::Gone(ItemName::Edge(e.0.serial), why)),
    }
}

/// Refuses two edges of which one isn't visible.
fn check_visible(g: &Graph, e: EdgeItem, f: EdgeItem) -> Result<(), LookRefusal>
    ensures { MatchResult result
        (λ _. AreVisible g.now (names.Edge e.0.serial ∷ names.Edge f.0.serial ∷ []))
        (RefusesLook g.now (names.Edge e.0.serial ∷ names.Edge f.0.serial ∷ [])) }
{
    check_live(g, e)?;
    check_live(g, f)?;
    g.source(e)?;
    g.source(f)?;
    Ok(())
}

/// Whether the two visible edges are different, and each begins where the other ends.
fn are_opposite(g: &Graph, e: EdgeItem, f: EdgeItem) -> bool
    requires { AreVisible g.now (names.Edge e.0.serial ∷ names.Edge f.0.serial ∷ []) }
    ensures { IsTrue result ↔ AreOpposite g.now e.0.serial f.0.serial }
{
    let (Ok(from), Ok(to)) = (g.source(e), g.target(e)) else {
        unreachable!()
    };
    let (Ok(begin), Ok(end)) = (g.source(f), g.target(f)) else {
        unreachable!()
    };
    e.0.serial != f.0.serial && from.0.serial == end.0.serial && to.0.serial == begin.0.serial
}

/// Makes two edges each other's reversal. Former partners of both lose theirs. It takes no memory.
///
/// # Errors
///
/// `Look` with `Gone` for the leftmost edge that is dead or unknown, else with `Hidden` for the
/// leftmost one that isn't visible. Else `NotOpposite` exactly where the edges are one, or one
/// doesn't begin where the other ends.
pub fn set_reversal(g: &mut Graph, e: EdgeItem, f: EdgeItem) -> Result<(), RevRefusal>
    ensures visible { OnOk result
        (AreVisible g.old (names.Edge e.0.serial ∷ names.Edge f.0.serial ∷ [])) }
    ensures opposite { OnOk result (AreOpposite g.old e.0.serial f.0.serial) }
    ensures state { OnOk result (g.new ≡ paired e.0.serial f.0.serial g.old) }
    ensures err { IfErr result (RefusesReversal g.old e.0.serial f.0.serial) }
    ensures same { OnErr result (g.new ≡ g.old) }
{
    check_visible(g, e, f)?;
    if !are_opposite(g, e, f) {
        return Err(RevRefusal::NotOpposite);
    }
    g.pair(e, f);
    Ok(())
}

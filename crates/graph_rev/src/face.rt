//! The edges round a face.
ghost use Rattle.std.specs.Prelude.{◌≡◌, true, [], ◌∷◌, IfOk, IfErr, OnOk};
ghost use Rattle.leda_base.specs.declared.name.ItemName.TheVariants as names;
ghost use Rattle.graph_state.specs.Refusals.{AreVisible};
ghost use Rattle.graph_rev.specs.Reversals.{IsFaceSucc, RefusesFace};

use graph_core::{EdgeItem, Graph, Kind, LookRefusal};

/// Why an edge has no successor round its face.
#[derive(Clone, Copy, Debug, PartialEq, Eq)]
pub enum FaceRefusal {
    /// The edge is dead or was never made, or isn't visible.
    Look(LookRefusal),
    /// The graph is undirected.
    Undirected,
    /// The edge has no visible reversal.
    NoReversal,
}

impl From<LookRefusal> for FaceRefusal {
    ghost use Rattle.std.specs.Prelude.{◌≡◌};
    ghost use Rattle.graph_rev.specs.declared.face.FaceRefusal.TheVariants as face;

    ghost from_gives = { λ why refusal. refusal ≡ face.Look why };

    fn from(why: LookRefusal) -> FaceRefusal {
        FaceRefusal::Look(why)
    }
}

/// The edge behind e round the face on its side: the cyclic adjacency predecessor of its reversal.
///
/// # Errors
///
/// `Look` where the edge is dead, unknown or not visible, else `Undirected` exactly where the graph
/// is undirected, else `NoReversal` exactly where the edge has no visible reversal.
pub fn face_succ(g: &Graph, e: EdgeItem) -> Result<EdgeItem, FaceRefusal>
    ensures visible { OnOk result (AreVisible g.now (names.Edge e.0.serial ∷ [])) }
    ensures directed { OnOk result (g.now.directed ≡ true) }
    ensures edge { IfOk result (IsFaceSucc g.now e.0.serial) }
    ensures err { IfErr result (RefusesFace g.now e.0.serial) }
{
    let partner = g.partner(e)?;
    if g.kind() == Kind::Undirected {
        return Err(FaceRefusal::Undirected);
    }
    let Some(f) = partner else {
        return Err(FaceRefusal::NoReversal);
    };
    let Ok(next) = g.cyclic_adj_pred(f) else {
        unreachable!()
    };
    Ok(next)
}

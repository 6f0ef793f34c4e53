//! The integers that labels write.
ghost use Rattle.std.specs.Prelude.{ℕ, ◌<◌, map, OnOk, IfErr, MatchOption};
ghost use Rattle.graph_state.specs.Names.{Has};
ghost use Rattle.node_maps.specs.Contents.{IsTable};
ghost use Rattle.node_maps.specs.Labels.{Reads, IsI64, RefusesLabels};

use crate::array::LabelRefusal;
use crate::item::GraphItem;
use crate::row::ValueRow;
use graph_core::Graph;
use leda_base::read_i64;

/// The integer that the label of a live element writes, and none where it writes no i64.
fn read_label<E: GraphItem>(g: &Graph, v: E) -> Option<i64>
    requires { Has (E.number v) (E.live g.now) }
    ensures { MatchOption result
        (¬ IsI64 (E.label g.now (E.number v)))
        (Reads (E.label g.now (E.number v))) }
{
    let Ok(text) = v.label_in(g) else {
        unreachable!()
    };
    match read_i64(text) {
        Ok(value) => Some(value),
        Err(_) => None,
    }
}

/// Writes over the value of each of the items the integer that its label writes, up to the first
/// that writes none.
pub fn write_labels<E: GraphItem>(
    g: &Graph,
    items: &[E],
    row: &mut ValueRow,
) -> Result<(), LabelRefusal>
    requires live { (n : ℕ) → Has n (map E.number items.now) → Has n (E.live g.now) }
    requires given { (n : ℕ) → Has n (map E.number items.now) → 0 < n }
    requires table { IsTable row.old (map E.number items.now) (λ _ _. Unit {0}) }
    ensures ok { OnOk result
        (IsTable row.new (map E.number items.now) (λ n. Reads (E.label g.now n))) }
    ensures err { IfErr result
        (RefusesLabels (map E.number items.now) (E.label g.now) E.name) }
{
    for v in items {
        match read_label(g, *v) {
            Some(value) => row.set(v.item(), value),
            None => return Err(LabelRefusal::Label(v.name())),
        }
    }
    Ok(())
}

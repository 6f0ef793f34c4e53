//! What an answer tells of a node.
ghost use Rattle.std.specs.Prelude.{◌↔◌, ◌<◌, IsTrue};
ghost use Rattle.graph_defs.specs.Shortest.{IsFinite, IsLow, IsToldUnreached};
ghost use Rattle.sp_check.specs.Passes.{IsPlaced, IsKind};

use crate::read::{finite_count, low_count};
use graph_defs::{Net, SpAnswer};

// What a node is told as, with its place among those of its kind.
#[derive(Clone, Copy)]
pub(crate) enum Kind {
    Finite(usize),
    Low(usize),
    Unreached,
}

// What a node is told as, by its place in the list of all nodes.
pub(crate) fn kind_of(net: &Net, cost: &[i64], a: &SpAnswer, places: &[usize], node: u32) -> Kind
    requires placed { IsPlaced net.now cost.now a.now places.now }
    requires node { node < net.now.n }
    ensures { IsKind a.now node result }
{
    let place = places[node as usize];
    let finite = finite_count(a);
    if place < finite {
        return Kind::Finite(place);
    }
    let later = place - finite;
    if later < low_count(a) {
        return Kind::Low(later);
    }
    Kind::Unreached
}

// Whether a node is told as finite.
pub(crate) fn is_finite(net: &Net, cost: &[i64], a: &SpAnswer, places: &[usize], node: u32) -> bool
    requires placed { IsPlaced net.now cost.now a.now places.now }
    requires node { node < net.now.n }
    ensures { IsTrue result ↔ IsFinite a.now node }
{
    match kind_of(net, cost, a, places, node) {
        Kind::Finite(_) => true,
        Kind::Low(_) => false,
        Kind::Unreached => false,
    }
}

// Whether a node is told as low.
pub(crate) fn is_low(net: &Net, cost: &[i64], a: &SpAnswer, places: &[usize], node: u32) -> bool
    requires placed { IsPlaced net.now cost.now a.now places.now }
    requires node { node < net.now.n }
    ensures { IsTrue result ↔ IsLow a.now node }
{
    match kind_of(net, cost, a, places, node) {
        Kind::Finite(_) => false,
        Kind::Low(_) => true,
        Kind::Unreached => false,
    }
}

// Whether a node is told as finite or low, and so not as unreached.
pub(crate) fn is_reached(net: &Net, cost: &[i64], a: &SpAnswer, places: &[usize], node: u32) -> bool
    requires placed { IsPlaced net.now cost.now a.now places.now }
    requires node { node < net.now.n }
    ensures { IsTrue result ↔ (IsToldUnreached a.now node → ⊥) }
{
    match kind_of(net, cost, a, places, node) {
        Kind::Finite(_) => true,
        Kind::Low(_) => true,
        Kind::Unreached => false,
    }
}

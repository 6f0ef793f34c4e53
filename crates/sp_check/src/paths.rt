//! The conditions on distances: arcs that are tight, and arcs that lead nowhere they shouldn't.
ghost use Rattle.std.specs.Prelude.{◌≡◌, ◌↔◌, ℕ, ◌<◌, ◌≤◌, ◌+ℤ◌, ◌≤ℤ◌, length, IsTrue, Some};
ghost use Rattle.graph_defs.specs.Net.{source, target};
ghost use Rattle.graph_defs.specs.Shortest.{finite_at, IsTight, IsTightBy, IsNotShorter, StaysWithin};
ghost use Rattle.graph_defs.specs.Sum.{at};
ghost use Rattle.graph_defs.specs.Verdict.{FindsBelow};
ghost use Rattle.sp_check.specs.Passes.{IsPlaced};

use crate::kind::{Kind, is_low, is_reached, kind_of};
use crate::read::{arc_count, finite_of, source_of, target_of};
use graph_defs::{Finite, Net, SpAnswer};

// The first node that is finite without being reached by a tight arc from an earlier one.
pub(crate) fn first_not_tight(
    net: &Net,
    cost: &[i64],
    a: &SpAnswer,
    places: &[usize],
) -> Option<u32>
    requires { IsPlaced net.now cost.now a.now places.now }
    ensures { FindsBelow net.now.n (IsTight net.now cost.now a.now) result }
{
    for node in 0..net.n {
        if !is_tight(net, cost, a, places, node) {
            return Some(node);
        }
    }
    None
}

fn is_tight(net: &Net, cost: &[i64], a: &SpAnswer, places: &[usize], node: u32) -> bool
    requires placed { IsPlaced net.now cost.now a.now places.now }
    requires node { node < net.now.n }
    ensures { IsTrue result ↔ IsTight net.now cost.now a.now node }
{
    match kind_of(net, cost, a, places, node) {
        Kind::Finite(here) => is_tight_at(net, cost, a, places, here),
        Kind::Low(_) => true,
        Kind::Unreached => true,
    }
}

fn is_tight_at(net: &Net, cost: &[i64], a: &SpAnswer, places: &[usize], here: usize) -> bool
    requires placed { IsPlaced net.now cost.now a.now places.now }
    requires here { here < length a.now.finite }
    ensures { IsTrue result ↔ IsTight net.now cost.now a.now (finite_at a.now here).node }
{
    if here == 0 {
        return true;
    }
    match finite_of(a, here).pred {
        None => false,
        Some(arc) => is_tight_by(net, cost, a, places, here, arc),
    }
}

// Whether the arc leads to the finite node at this place from an earlier one, and makes up the
// difference of their distances.
fn is_tight_by(
    net: &Net,
    cost: &[i64],
    a: &SpAnswer,
    places: &[usize],
    here: usize,
    arc: u32,
) -> bool
    requires placed { IsPlaced net.now cost.now a.now places.now }
    requires here { here < length a.now.finite }
    requires pred { (finite_at a.now here).pred ≡ Some arc }
    requires arc { arc < length net.now.arcs }
    ensures { IsTrue result ↔ ((j : ℕ) × IsTightBy net.now cost.now a.now here arc j) }
{
    if target_of(net, arc) != finite_of(a, here).node {
        return false;
    }
    match kind_of(net, cost, a, places, source_of(net, arc)) {
        Kind::Finite(before) => {
            if before >= here {
                return false;
            }
            is_difference(finite_of(a, before), finite_of(a, here), cost, arc)
        }
        Kind::Low(_) => false,
        Kind::Unreached => false,
    }
}

// Whether the cost of the arc is the difference of two distances.
fn is_difference(before: &Finite, here: &Finite, cost: &[i64], arc: u32) -> bool
    requires { arc < length cost.now }
    ensures { IsTrue result ↔ (here.now.dist ≡ (before.now.dist +ℤ at cost.now arc)) }
{
    if i128::from(here.dist) < i128::from(before.dist) + i128::from(cost[arc as usize]) {
        return false;
    }
    is_at_most(before, here, cost, arc)
}

// Whether the arc isn't shorter than the difference of two distances.
fn is_at_most(before: &Finite, here: &Finite, cost: &[i64], arc: u32) -> bool
    requires { arc < length cost.now }
    ensures { IsTrue result ↔ (here.now.dist ≤ℤ (before.now.dist +ℤ at cost.now arc)) }
{
    i128::from(here.dist) <= i128::from(before.dist) + i128::from(cost[arc as usize])
}

// The first arc between finite nodes that is shorter than the difference of their distances.
pub(crate) fn first_shorter(net: &Net, cost: &[i64], a: &SpAnswer, places: &[usize]) -> Option<u32>
    requires { IsPlaced net.now cost.now a.now places.now }
    ensures { FindsBelow (length net.now.arcs) (IsNotShorter net.now cost.now a.now) result }
{
    for arc in 0..arc_count(net) {
        if !is_not_shorter(net, cost, a, places, arc) {
            return Some(arc);
        }
    }
    None
}

fn is_not_shorter(net: &Net, cost: &[i64], a: &SpAnswer, places: &[usize], arc: u32) -> bool
    requires placed { IsPlaced net.now cost.now a.now places.now }
    requires arc { arc < length net.now.arcs }
    ensures { IsTrue result ↔ IsNotShorter net.now cost.now a.now arc }
{
    match kind_of(net, cost, a, places, source_of(net, arc)) {
        Kind::Finite(from) => is_not_shorter_from(net, cost, a, places, arc, from),
        Kind::Low(_) => true,
        Kind::Unreached => true,
    }
}

// The same of an arc that begins at the finite node at this place.
fn is_not_shorter_from(
    net: &Net,
    cost: &[i64],
    a: &SpAnswer,
    places: &[usize],
    arc: u32,
    from: usize,
) -> bool
    requires placed { IsPlaced net.now cost.now a.now places.now }
    requires arc { arc < length net.now.arcs }
    requires below { from < length a.now.finite }
    requires from { (finite_at a.now from).node ≡ source net.now arc }
    ensures { IsTrue result ↔ IsNotShorter net.now cost.now a.now arc }
{
    match kind_of(net, cost, a, places, target_of(net, arc)) {
        Kind::Finite(to) => is_at_most(finite_of(a, from), finite_of(a, to), cost, arc),
        Kind::Low(_) => true,
        Kind::Unreached => true,
    }
}

// The first arc that leads from a reached node to an unreached one, or from a low node to a finite
// one.
pub(crate) fn first_leaving(net: &Net, cost: &[i64], a: &SpAnswer, places: &[usize]) -> Option<u32>
    requires { IsPlaced net.now cost.now a.now places.now }
    ensures { FindsBelow (length net.now.arcs) (StaysWithin net.now a.now) result }
{
    for arc in 0..arc_count(net) {
        if !stays_within(net, cost, a, places, arc) {
            return Some(arc);
        }
    }
    None
}

fn stays_within(net: &Net, cost: &[i64], a: &SpAnswer, places: &[usize], arc: u32) -> bool
    requires placed { IsPlaced net.now cost.now a.now places.now }
    requires arc { arc < length net.now.arcs }
    ensures { IsTrue result ↔ StaysWithin net.now a.now arc }
{
    match kind_of(net, cost, a, places, source_of(net, arc)) {
        Kind::Finite(_) => is_reached(net, cost, a, places, target_of(net, arc)),
        Kind::Low(_) => is_low(net, cost, a, places, target_of(net, arc)),
        Kind::Unreached => true,
    }
}

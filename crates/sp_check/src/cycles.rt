//! The conditions on negative cycles: seeds, and the reasons of low nodes.
ghost use Rattle.std.specs.Prelude.{◌≡◌, ◌↔◌, ◌⊎◌, ◌+◌, ℕ, ◌<◌, ◌≤◌, ◌<ℤ◌, pos, length, All, IsTrue, MatchOption, Some, slice_index_or, slice_index, true, false, IfOk};
ghost use Rattle.graph_defs.specs.declared.shortest.Why.TheVariants as why;
ghost use Rattle.graph_defs.specs.Net.{IsValid, source, target};
ghost use Rattle.graph_defs.specs.Shortest.{weight, finite_at, low_at, seed_at, AreBelow, IsFinite, IsSeed, IsSeedAt, HasItsReason, HasReason};
ghost use Rattle.graph_defs.specs.Verdict.{FindsBelow};
ghost use Rattle.graph_defs.specs.Walk.{IsWalk};
ghost use Rattle.sp_check.specs.Passes.{IsPlaced, AreMarked, Wants};

use crate::kind::{Kind, is_finite, kind_of};
use crate::read::{low_of, seed_count, seed_of, source_of, target_of};
use graph_defs::{Low, Net, Seed, SpAnswer, Why};
use leda_base::NoMemory;
use std::alloc::Global;

// The first seed that isn't a walk to a closed walk of negative weight.
pub(crate) fn first_bad_seed(
    net: &Net,
    s: u32,
    cost: &[i64],
    a: &SpAnswer,
    places: &[usize],
) -> Option<u32>
    requires { IsPlaced net.now cost.now a.now places.now }
    ensures { FindsBelow (length a.now.seeds) (IsSeed net.now s cost.now a.now) result }
{
    for seed in 0..seed_count(a) {
        if !is_seed(net, s, cost, a, places, seed) {
            return Some(seed as u32);
        }
    }
    None
}

fn is_seed(net: &Net, s: u32, cost: &[i64], a: &SpAnswer, places: &[usize], place: usize) -> bool
    requires placed { IsPlaced net.now cost.now a.now places.now }
    requires place { place < length a.now.seeds }
    ensures { IsTrue result ↔ IsSeed net.now s cost.now a.now place }
{
    let seed = seed_of(a, place);
    if !begins_well(net, s, cost, a, places, seed) {
        return false;
    }
    match end_of(net, seed.start, seed.walk.as_slice()) {
        None => false,
        Some(node) => is_negative_cycle(net, cost, node, seed.cycle.as_slice()),
    }
}

// Whether the seed begins at the source or at a finite node.
fn begins_well(net: &Net, s: u32, cost: &[i64], a: &SpAnswer, places: &[usize], seed: &Seed) -> bool
    requires placed { IsPlaced net.now cost.now a.now places.now }
    requires start { seed.now.start < net.now.n }
    ensures { IsTrue result ↔ ((seed.now.start ≡ s) ⊎ IsFinite a.now seed.now.start) }
{
    if seed.start == s {
        return true;
    }
    is_finite(net, cost, a, places, seed.start)
}

// Where a walk ends, or `None` where its arcs are no walk from this node.
fn end_of(net: &Net, from: u32, walk: &[u32]) -> Option<u32>
    requires valid { IsValid net.now }
    requires from { from < net.now.n }
    requires arcs { AreBelow (length net.now.arcs) walk.now }
    ensures { MatchOption result
        ((w : ℕ) → IsWalk net.now from w walk.now → ⊥)
        (λ w. IsWalk net.now from w walk.now × (w < net.now.n)) }
{
    let mut here = from;
    for arc in walk {
        if source_of(net, *arc) != here {
            return None;
        }
        here = target_of(net, *arc);
    }
    Some(here)
}

// Whether the arcs are a closed walk of negative weight at the node.
fn is_negative_cycle(net: &Net, cost: &[i64], node: u32, cycle: &[u32]) -> bool
    requires valid { IsValid net.now }
    requires costs { length cost.now ≡ length net.now.arcs }
    requires node { node < net.now.n }
    requires arcs { AreBelow (length net.now.arcs) cycle.now }
    ensures { IsTrue result ↔
        (IsWalk net.now node node cycle.now × (weight cost.now cycle.now <ℤ pos 0)) }
{
    match end_of(net, node, cycle) {
        None => false,
        Some(end) => {
            if end != node {
                return false;
            }
            weight_of(cost, cycle) < 0
        }
    }
}

// The sum of the costs of a walk's arcs. A row has fewer than 2^63 entries, so 128 bits hold it.
fn weight_of(cost: &[i64], walk: &[u32]) -> i128
    requires { AreBelow (length cost.now) walk.now }
    ensures { result ≡ weight cost.now walk.now }
{
    let mut total: i128 = 0;
    for arc in walk {
        total += i128::from(cost[*arc as usize]);
    }
    total
}

// The nodes that lie on the closed walks of the seeds which they give as their reasons.
pub(crate) fn marks_of(
    alloc: Global,
    net: &Net,
    cost: &[i64],
    a: &SpAnswer,
    places: &[usize],
) -> Result<Vec<bool>, NoMemory>
    requires { IsPlaced net.now cost.now a.now places.now }
    ensures { IfOk result (λ marks. AreMarked net.now a.now (length a.now.seeds) 0 marks.items) }
{
    let mut marks = vec![in alloc; false; net.n as usize]?;
    for seed in 0..seed_count(a) {
        mark_cycle(net, cost, a, places, seed, &mut marks);
    }
    Ok(marks)
}

// Marks the nodes on the closed walk of a seed that give it as their reason.
fn mark_cycle(
    net: &Net,
    cost: &[i64],
    a: &SpAnswer,
    places: &[usize],
    seed: usize,
    marks: &mut Vec<bool>,
)
    requires placed { IsPlaced net.now cost.now a.now places.now }
    requires seed { seed < length a.now.seeds }
    requires marked { AreMarked net.now a.now seed 0 marks.old.items }
    ensures { AreMarked net.now a.now (seed + 1) 0 marks.new.items }
{
    for arc in seed_of(a, seed).cycle.as_slice() {
        let node = source_of(net, *arc);
        if wants(net, cost, a, places, node, seed) {
            marks[node as usize] = true;
        }
    }
}

// Whether a node is low because of a seed.
fn wants(net: &Net, cost: &[i64], a: &SpAnswer, places: &[usize], node: u32, seed: usize) -> bool
    requires placed { IsPlaced net.now cost.now a.now places.now }
    requires node { node < net.now.n }
    ensures { IsTrue result ↔ Wants a.now node seed }
{
    match kind_of(net, cost, a, places, node) {
        Kind::Low(place) => is_by_seed(low_of(a, place), seed),
        Kind::Finite(_) => false,
        Kind::Unreached => false,
    }
}

// Whether the reason of a low node is a seed.
fn is_by_seed(low: &Low, seed: usize) -> bool
    ensures { IsTrue result ↔ (low.now.why ≡ why.Seed seed) }
{
    match low.why {
        Why::Seed(reason) => reason as usize == seed,
        Why::Arc(_) => false,
    }
}

// The first low node without its reason.
pub(crate) fn first_without_reason(
    net: &Net,
    cost: &[i64],
    a: &SpAnswer,
    places: &[usize],
    marks: &[bool],
) -> Option<u32>
    requires placed { IsPlaced net.now cost.now a.now places.now }
    requires marked { AreMarked net.now a.now (length a.now.seeds) 0 marks.now }
    ensures { FindsBelow net.now.n (HasItsReason net.now a.now) result }
{
    for node in 0..net.n {
        if !has_its_reason(net, cost, a, places, marks, node) {
            return Some(node);
        }
    }
    None
}

fn has_its_reason(
    net: &Net,
    cost: &[i64],
    a: &SpAnswer,
    places: &[usize],
    marks: &[bool],
    node: u32,
) -> bool
    requires placed { IsPlaced net.now cost.now a.now places.now }
    requires marked { AreMarked net.now a.now (length a.now.seeds) 0 marks.now }
    requires node { node < net.now.n }
    ensures { IsTrue result ↔ HasItsReason net.now a.now node }
{
    match kind_of(net, cost, a, places, node) {
        Kind::Low(here) => match low_of(a, here).why {
            Why::Seed(_) => marks[node as usize],
            Why::Arc(arc) => leads_from_before(net, cost, a, places, here, arc),
        },
        Kind::Finite(_) => true,
        Kind::Unreached => true,
    }
}

// Whether the arc leads to the low node at this place from a low node before it.
fn leads_from_before(
    net: &Net,
    cost: &[i64],
    a: &SpAnswer,
    places: &[usize],
    here: usize,
    arc: u32,
) -> bool
    requires placed { IsPlaced net.now cost.now a.now places.now }
    requires here { here < length a.now.low }
    requires arc { arc < length net.now.arcs }
    ensures { IsTrue result ↔ HasReason net.now a.now here (low_at a.now here).node (why.Arc arc) }
{
    if target_of(net, arc) != low_of(a, here).node {
        return false;
    }
    match kind_of(net, cost, a, places, source_of(net, arc)) {
        Kind::Low(before) => before < here,
        Kind::Finite(_) => false,
        Kind::Unreached => false,
    }
}

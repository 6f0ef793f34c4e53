//! The check of an answer on shortest paths.
ghost use Rattle.std.specs.Prelude.{◌≡◌, ◌<◌, length, IfOk};
ghost use Rattle.graph_defs.specs.Net.{IsValid};
ghost use Rattle.graph_defs.specs.Shortest.{IsSource, SpHolds, sp_order};
ghost use Rattle.graph_defs.specs.Verdict.{IsVerdict};
ghost use Rattle.graph_defs.specs.declared.verdict.Verdict.TheVariants.{No};
ghost use Rattle.sp_check.specs.Passes.{IsPlaced};

use crate::cycles::{first_bad_seed, first_without_reason, marks_of};
use crate::nodes::{first_not_once, has_source, nodes_of, places_of};
use crate::paths::{first_leaving, first_not_tight, first_shorter};
use crate::range::is_in_range;
use graph_defs::{Cond, Net, SpAnswer, Verdict};
use leda_base::NoMemory;
use std::alloc::Global;

/// Whether an answer on shortest paths from `s` is right: yes where all conditions of a right
/// answer hold, else the first condition that is broken, in their order, and its least place.
///
/// It takes any answer, whatever its numbers are. Sums are exact. In time and memory linear in the
/// net and the answer.
///
/// # Errors
/// `NoMemory` where the room isn't given.
pub fn check_sp(
    alloc: Global,
    net: &Net,
    s: u32,
    cost: &[i64],
    a: &SpAnswer,
) -> Result<Verdict, NoMemory>
    requires valid { IsValid net.now }
    requires s { s < net.now.n }
    requires costs { length cost.now ≡ length net.now.arcs }
    ensures { IfOk result (λ verdict.
        IsVerdict (SpHolds net.now s cost.now a.now) sp_order verdict) }
{
    if !is_in_range(net, a) {
        return Ok(broken(Cond::Range, 0));
    }
    let nodes = nodes_of(alloc, a)?;
    if let Some(node) = first_not_once(alloc, net.n, a, nodes.as_slice())? {
        return Ok(broken(Cond::Once, node));
    }
    if !has_source(s, a) {
        return Ok(broken(Cond::Source, s));
    }
    let places = places_of(alloc, net.n, nodes.as_slice())?;
    check_placed(alloc, net, s, cost, a, places.as_slice())
}

// The conditions that need the places of the nodes.
fn check_placed(
    alloc: Global,
    net: &Net,
    s: u32,
    cost: &[i64],
    a: &SpAnswer,
    places: &[usize],
) -> Result<Verdict, NoMemory>
    requires placed { IsPlaced net.now cost.now a.now places.now }
    requires source { IsSource s a.now }
    ensures { IfOk result (λ verdict.
        IsVerdict (SpHolds net.now s cost.now a.now) sp_order verdict) }
{
    if let Some(node) = first_not_tight(net, cost, a, places) {
        return Ok(broken(Cond::TightNode, node));
    }
    if let Some(seed) = first_bad_seed(net, s, cost, a, places) {
        return Ok(broken(Cond::Seed, seed));
    }
    let marks = marks_of(alloc, net, cost, a, places)?;
    if let Some(node) = first_without_reason(net, cost, a, places, marks.as_slice()) {
        return Ok(broken(Cond::Low, node));
    }
    if let Some(arc) = first_shorter(net, cost, a, places) {
        return Ok(broken(Cond::Shorter, arc));
    }
    if let Some(arc) = first_leaving(net, cost, a, places) {
        return Ok(broken(Cond::Leaves, arc));
    }
    Ok(Verdict::Yes)
}

fn broken(cond: Cond, place: u32) -> Verdict
    ensures { result ≡ No cond place }
{
    Verdict::No { cond, place }
}

//! The check of a maximum flow.
ghost use Rattle.std.specs.Prelude.{◌≡◌, ◌↔◌, ◌<◌, length, true, false, All, IsTrue, IfOk};
ghost use Rattle.graph_defs.specs.declared.verdict.Verdict.TheVariants.{No};
ghost use Rattle.graph_defs.specs.Flow.{FlowHolds, IsFlowInRange, capacity, flow_order, outflow};
ghost use Rattle.graph_defs.specs.Net.{IsValid};
ghost use Rattle.graph_defs.specs.Set.{is_in};
ghost use Rattle.graph_defs.specs.Verdict.{IsVerdict};
ghost use Rattle.flow_check.specs.Passes.{AreBalances, AreMarks};

use crate::balances::{balances, first_out_of_bounds, first_unbalanced};
use crate::cut::{capacity_of, marks_of};
use crate::read::arc_count;
use graph_defs::{Cond, FlowAnswer, Net, Verdict};
use leda_base::{NoMemory, Row};
use std::alloc::Global;

/// Whether an answer on a maximum flow from `s` to `t` is right: yes where all conditions of a
/// right answer hold, else the first condition that is broken, in their order, and its least place.
///
/// It takes any answer, whatever its numbers are; the cut is read as a set. Sums are exact. In time
/// and memory linear in the net and the answer.
///
/// # Errors
/// `NoMemory` where the room isn't given.
pub fn check_flow(
    alloc: Global,
    net: &Net,
    s: u32,
    t: u32,
    cap: &[i64],
    a: &FlowAnswer,
) -> Result<Verdict, NoMemory>
    requires valid { IsValid net.now }
    requires s { s < net.now.n }
    requires t { t < net.now.n }
    ensures { IfOk result (λ verdict.
        IsVerdict (FlowHolds net.now s t cap.now a.now) flow_order verdict) }
{
    if !is_in_range(net, a) {
        return Ok(broken(Cond::Range, 0));
    }
    let flow = a.flow.as_slice();
    if let Some(arc) = first_out_of_bounds(arc_count(net), &[], cap, flow) {
        return Ok(broken(Cond::Bounds, arc));
    }
    let rows = balances(alloc, net, flow)?;
    if let Some(node) = first_unbalanced(s, t, net.n, rows.as_slice()) {
        return Ok(broken(Cond::Balance, node));
    }
    let marks = marks_of(alloc, net.n, a.cut.as_slice())?;
    if !is_cut(s, t, a, marks.as_slice()) {
        return Ok(broken(Cond::Cut, 0));
    }
    if !has_value(net, s, cap, a, rows.as_slice(), marks.as_slice()) {
        return Ok(broken(Cond::Value, 0));
    }
    Ok(Verdict::Yes)
}

// Whether the cut has `s` and lacks `t`.
fn is_cut(s: u32, t: u32, a: &FlowAnswer, marks: &[bool]) -> bool
    requires s { s < length marks.now }
    requires t { t < length marks.now }
    requires marks { AreMarks (length marks.now) a.now.cut marks.now }
    ensures { IsTrue result ↔ ((is_in a.now.cut s ≡ true) × (is_in a.now.cut t ≡ false)) }
{
    if !marks[s as usize] {
        return false;
    }
    !marks[t as usize]
}

// Whether the value told is that of the flow, and the capacity of the cut.
fn has_value(net: &Net, s: u32, cap: &[i64], a: &FlowAnswer, rows: &[i128], marks: &[bool]) -> bool
    requires valid { IsValid net.now }
    requires s { s < net.now.n }
    requires rows { AreBalances net.now a.now.flow (length net.now.arcs) rows.now }
    requires marks { AreMarks net.now.n a.now.cut marks.now }
    ensures { IsTrue result ↔ ((outflow net.now a.now.flow s ≡ a.now.value)
        × (capacity net.now cap.now (is_in a.now.cut) ≡ a.now.value)) }
{
    if !is_same(rows[s as usize], a.value) {
        return false;
    }
    is_same(capacity_of(net, marks, cap), a.value)
}

fn is_same(sum: i128, told: i64) -> bool
    ensures { IsTrue result ↔ (sum ≡ told) }
{
    let told = i128::from(told);
    if sum < told {
        return false;
    }
    sum <= told
}

fn is_in_range(net: &Net, a: &FlowAnswer) -> bool
    ensures { IsTrue result ↔ IsFlowInRange net.now a.now }
{
    if a.flow.as_slice().len() != net.arcs.as_slice().len() {
        return false;
    }
    are_below(net.n, &a.cut)
}

fn are_below(n: u32, numbers: &Row<u32>) -> bool
    ensures { IsTrue result ↔ All (λ number. number < n) numbers.now }
{
    numbers.as_slice().iter().all(|number| *number < n)
}

fn broken(cond: Cond, place: u32) -> Verdict
    ensures { result ≡ No cond place }
{
    Verdict::No { cond, place }
}

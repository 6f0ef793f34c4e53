//! The fast search, the check of its answer, and the complete search behind it.
ghost use Rattle.std.specs.Prelude.{◌≡◌, ◌≢◌, ◌↔◌, ◌<◌, ◌+◌, ◌*◌, ◌-◌, ◌≤◌, ◌^◌, ◌≤ℤ◌, pos, length, IsTrue, IfOk, IfErr};
ghost use Rattle.std.specs.List.Sorted.{IsStrictlyIncreasing};
ghost use Rattle.graph_defs.specs.Flow.{IsFlowAnswer};
ghost use Rattle.graph_defs.specs.Net.{IsValid};
ghost use Rattle.flow_net.specs.declared.refusals.FlowRefusal.TheVariants as refusals;
ghost use Rattle.flow_net.specs.Refusals.{sum_of, AreLow, Refuses};
ghost use Rattle.flow_preflow.specs.Steps.{most_steps};

use crate::fast::{PATIENCE, propose};
use flow_check::check_flow;
use flow_net::{FlowRefusal, cause_against, max_flow};
use graph_defs::{FlowAnswer, Net, Verdict};
use leda_base::NoMemory;
use std::alloc::Global;

/// A maximum flow from `s` to `t`, and a cut of its value.
///
/// A fast search proposes an answer. Where that is found to be right it is the answer; else a
/// complete search is asked. The memory is linear in the nodes and the arcs.
///
/// Each relabel of the fast search adds one to `steps`, which is at most 2^63 before: no more than
/// `(2 n - 1) n` for a net of n nodes. The complete search has none.
///
/// # Errors
/// `Same` exactly where `s` is `t`; else `Negative` exactly where a capacity is below 0, with the
/// first such arc; else `Bound` exactly where the capacities sum up to more than 2^62 - 1; else
/// `NoMemory` where the room isn't given, and `steps` may have grown then.
pub fn preflow(
    alloc: Global,
    net: &Net,
    s: u32,
    t: u32,
    cap: &[i64],
    steps: &mut u64,
) -> Result<FlowAnswer, FlowRefusal>
    requires valid { IsValid net.now }
    requires s { s < net.now.n }
    requires t { t < net.now.n }
    requires caps { length cap.now ≡ length net.now.arcs }
    requires room { steps.old ≤ 2 ^ 63 }
    ensures right { IfOk result (λ answer. IsFlowAnswer net.now s t cap.now answer) }
    ensures differ { IfOk result (λ _. s ≢ t) }
    ensures low { IfOk result (λ _. AreLow cap.now) }
    ensures within { IfOk result (λ _. sum_of cap.now ≤ℤ pos 4611686018427387903) }
    ensures refusal { IfErr result (λ refusal. Refuses s t cap.now refusal) }
    ensures never_falls { steps.old ≤ steps.new }
    ensures bound { steps.new ≤ steps.old + most_steps net.now }
    ensures kept { IfErr result (λ refusal. refusal ≢ refusals.NoMemory → steps.new ≡ steps.old) }
{
    if let Some(refusal) = cause_against(s, t, cap) {
        return Err(refusal);
    }
    let most = relabel_limit(net.n);
    let mut left = most;
    let proposed = propose(alloc, net, s, t, cap, PATIENCE, &mut left);
    *steps += most.saturating_sub(left);
    let Ok(answer) = proposed else {
        return Err(FlowRefusal::NoMemory);
    };
    match checked_or(alloc, net, s, t, cap, answer) {
        Ok(answer) => Ok(answer),
        Err(_) => Err(FlowRefusal::NoMemory),
    }
}

// The most relabels of a net of so many nodes.
fn relabel_limit(n: u32) -> u64
    requires { n ≤ 100000 }
    ensures is { result ≡ (2 * n - 1) * n }
    ensures small { result ≤ 2 ^ 40 }
{
    let n = u64::from(n);
    (2 * n).saturating_sub(1) * n
}

// The answer where it is right, else that of the complete search.
pub(crate) fn checked_or(
    alloc: Global,
    net: &Net,
    s: u32,
    t: u32,
    cap: &[i64],
    answer: FlowAnswer,
) -> Result<FlowAnswer, NoMemory>
    requires valid { IsValid net.now }
    requires s { s < net.now.n }
    requires t { t < net.now.n }
    requires caps { length cap.now ≡ length net.now.arcs }
    requires differ { s ≢ t }
    requires low { AreLow cap.now }
    requires within { sum_of cap.now ≤ℤ pos 4611686018427387903 }
    ensures { IfOk result (λ right. IsFlowAnswer net.now s t cap.now right) }
{
    if is_right(alloc, net, s, t, cap, &answer)? {
        return Ok(answer);
    }
    match max_flow(alloc, net, s, t, cap) {
        Ok(answer) => Ok(answer),
        Err(_) => Err(NoMemory),
    }
}

pub(crate) fn is_right(
    alloc: Global,
    net: &Net,
    s: u32,
    t: u32,
    cap: &[i64],
    answer: &FlowAnswer,
) -> Result<bool, NoMemory>
    requires valid { IsValid net.now }
    requires s { s < net.now.n }
    requires t { t < net.now.n }
    ensures { IfOk result (λ holds. IsTrue holds ↔ IsFlowAnswer net.now s t cap.now answer.now) }
{
    if !rise(answer.cut.as_slice()) {
        return Ok(false);
    }
    match check_flow(alloc, net, s, t, cap, answer)? {
        Verdict::Yes => Ok(true),
        Verdict::No { .. } => Ok(false),
    }
}

fn rise(nodes: &[u32]) -> bool
    ensures { IsTrue result ↔ IsStrictlyIncreasing nodes.now }
{
    for place in 1..nodes.len() {
        if nodes[place - 1] >= nodes[place] {
            return false;
        }
    }
    true
}

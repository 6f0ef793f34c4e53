//! The fast search, the check of its answer, and the complete search behind it.
ghost use Rattle.std.specs.Prelude.{◌≡◌, ◌↔◌, ◌<◌, ◌≤ℤ◌, pos, length, IsTrue, IfOk, IfErr};
ghost use Rattle.std.specs.List.Sorted.{IsStrictlyIncreasing};
ghost use Rattle.graph_defs.specs.Net.{IsValid};
ghost use Rattle.graph_defs.specs.Shortest.{IsSpAnswer};
ghost use Rattle.sp_search.specs.Refusals.{sizes, MayRefuse};

use crate::fast::{PATIENCE, propose};
use graph_defs::{Net, SpAnswer, Verdict};
use leda_base::NoMemory;
use sp_check::check_sp;
use sp_search::{SpRefusal, dijkstra, is_within_bound};
use std::alloc::Global;

/// The distances of all nodes from `s`, each with the last arc of a shortest walk; the nodes with
/// walks below every number, each with its reason; and the nodes to which no walk leads.
///
/// Where no cost is below 0 this is E. W. Dijkstra's search. Else a fast search proposes an answer.
/// Where that is found to be right it is the answer; else a complete search is asked.
///
/// # Errors
/// `Bound` exactly where the costs without their signs sum up to more than 2^62 - 1, and else
/// `NoMemory` where the room isn't given. Never `Negative`.
pub fn shortest(alloc: Global, net: &Net, s: u32, cost: &[i64]) -> Result<SpAnswer, SpRefusal>
    requires valid { IsValid net.now }
    requires s { s < net.now.n }
    requires costs { length cost.now ≡ length net.now.arcs }
    ensures right { IfOk result (λ answer. IsSpAnswer net.now s cost.now answer) }
    ensures within { IfOk result (λ _. sizes cost.now ≤ℤ pos 4611686018427387903) }
    ensures refusal { IfErr result (λ refusal. MayRefuse cost.now refusal) }
{
    match dijkstra(alloc, net, s, cost) {
        Ok(answer) => Ok(answer),
        Err(SpRefusal::Negative(_)) => with_negative(alloc, net, s, cost),
        Err(SpRefusal::Bound) => Err(SpRefusal::Bound),
        Err(SpRefusal::NoMemory) => Err(SpRefusal::NoMemory),
    }
}

// The same, without a look at the signs.
fn with_negative(alloc: Global, net: &Net, s: u32, cost: &[i64]) -> Result<SpAnswer, SpRefusal>
    requires valid { IsValid net.now }
    requires s { s < net.now.n }
    requires costs { length cost.now ≡ length net.now.arcs }
    ensures right { IfOk result (λ answer. IsSpAnswer net.now s cost.now answer) }
    ensures within { IfOk result (λ _. sizes cost.now ≤ℤ pos 4611686018427387903) }
    ensures refusal { IfErr result (λ refusal. MayRefuse cost.now refusal) }
{
    if !is_within_bound(cost) {
        return Err(SpRefusal::Bound);
    }
    match propose(alloc, net, s, cost, PATIENCE) {
        Ok(answer) => checked_or(alloc, net, s, cost, answer),
        Err(_) => Err(SpRefusal::NoMemory),
    }
}

// The answer where it is right, else that of the complete search.
pub(crate) fn checked_or(
    alloc: Global,
    net: &Net,
    s: u32,
    cost: &[i64],
    answer: SpAnswer,
) -> Result<SpAnswer, SpRefusal>
    requires valid { IsValid net.now }
    requires s { s < net.now.n }
    requires costs { length cost.now ≡ length net.now.arcs }
    requires within { sizes cost.now ≤ℤ pos 4611686018427387903 }
    ensures right { IfOk result (λ right. IsSpAnswer net.now s cost.now right) }
    ensures refusal { IfErr result (λ refusal. MayRefuse cost.now refusal) }
{
    match is_right(alloc, net, s, cost, &answer) {
        Ok(true) => Ok(answer),
        Ok(false) => sp_search::shortest(alloc, net, s, cost),
        Err(_) => Err(SpRefusal::NoMemory),
    }
}

pub(crate) fn is_right(
    alloc: Global,
    net: &Net,
    s: u32,
    cost: &[i64],
    answer: &SpAnswer,
) -> Result<bool, NoMemory>
    requires valid { IsValid net.now }
    requires s { s < net.now.n }
    requires costs { length cost.now ≡ length net.now.arcs }
    ensures { IfOk result (λ holds. IsTrue holds ↔ IsSpAnswer net.now s cost.now answer.now) }
{
    if !rise(answer.unreached.as_slice()) {
        return Ok(false);
    }
    match check_sp(alloc, net, s, cost, answer)? {
        Verdict::Yes => Ok(true),
        Verdict::No { .. } => Ok(false),
    }
}

fn rise(nodes: &[u32]) -> bool
    ensures { IsTrue result ↔ IsStrictlyIncreasing nodes.now }
{
    for place in 1..nodes.len() {
        if nodes[place - 1] >= nodes[place] {
            return false;
        }
    }
    true
}

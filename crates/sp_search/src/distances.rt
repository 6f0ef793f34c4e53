//! Shortest paths from one node, where no cost is below 0.
ghost use Rattle.std.specs.Prelude.{◌≡◌, ◌<◌, ◌≤ℤ◌, [], length, pos, All, IfOk, IfErr};
ghost use Rattle.graph_defs.specs.Net.{IsValid};
ghost use Rattle.graph_defs.specs.Shortest.{IsFirstFinite, IsSpAnswer};
ghost use Rattle.graph_defs.specs.Sum.{at, sum_below};
ghost use Rattle.sp_search.specs.Refusals.{sizes, AsksLow};

use crate::refusals::{SpRefusal, first_negative, is_within_bound};
use crate::settling::Settling;
use graph_defs::{Net, SpAnswer};
use leda_base::{NoMemory, Row};
use std::alloc::Global;

/// The distances of all nodes from `s`, each with the last arc of a shortest walk, and the nodes to
/// which no walk leads.
///
/// E. W. Dijkstra's search (A note on two problems in connexion with graphs, 1959): the finite
/// nodes stand in the order of their distances, so the source comes first, and no node has walks
/// below every number. The costs are one for each arc. The labels wait in a binary heap, so the
/// time is O((n + m) log m), and the memory is linear in the nodes n and the arcs m.
///
/// # Errors
/// `Negative` exactly where a cost is below 0, with the first such arc; else `Bound` exactly where
/// the costs sum up to more than 2^62 - 1; else `NoMemory` where the room isn't given.
pub fn dijkstra(alloc: Global, net: &Net, s: u32, cost: &[i64]) -> Result<SpAnswer, SpRefusal>
    requires valid { IsValid net.now }
    requires s { s < net.now.n }
    requires costs { length cost.now ≡ length net.now.arcs }
    ensures right { IfOk result (λ answer. IsSpAnswer net.now s cost.now answer) }
    ensures first { IfOk result (λ answer. IsFirstFinite s answer) }
    ensures none { IfOk result (λ answer. (answer.seeds ≡ []) × (answer.low ≡ [])) }
    ensures low { IfOk result (λ _. All (λ c. pos 0 ≤ℤ c) cost.now) }
    ensures within { IfOk result (λ _. sizes cost.now ≤ℤ pos 4611686018427387903) }
    ensures refusal { IfErr result (λ refusal. AsksLow cost.now refusal) }
{
    if let Some(arc) = first_negative(cost) {
        return Err(SpRefusal::Negative(arc));
    }
    if !is_within_bound(cost) {
        return Err(SpRefusal::Bound);
    }
    match distances(alloc, net, s, cost) {
        Ok(answer) => Ok(answer),
        Err(_) => Err(SpRefusal::NoMemory),
    }
}

// The same, where no cost is below 0 and no distance overflows.
fn distances(alloc: Global, net: &Net, s: u32, cost: &[i64]) -> Result<SpAnswer, NoMemory>
    requires valid { IsValid net.now }
    requires s { s < net.now.n }
    requires costs { length cost.now ≡ length net.now.arcs }
    requires low { All (λ c. pos 0 ≤ℤ c) cost.now }
    requires sum { sum_below (at cost.now) (length net.now.arcs) ≤ℤ pos 4611686018427387903 }
    ensures right { IfOk result (λ answer. IsSpAnswer net.now s cost.now answer) }
    ensures first { IfOk result (λ answer. IsFirstFinite s answer) }
    ensures none { IfOk result (λ answer. (answer.seeds ≡ []) × (answer.low ≡ [])) }
{
    let mut search = Settling::start(alloc, net.n, s)?;
    search.run(alloc, net, s, cost)?;
    let Settling {
        settled,
        labels,
        ..
    } = search;
    Ok(SpAnswer {
        finite: Row::from_vec(settled),
        seeds: Row::new(alloc),
        low: Row::new(alloc),
        unreached: labels.free_nodes(alloc)?,
    })
}

//! Maximum flows by shortest augmenting paths.
ghost use Rattle.std.specs.Prelude.{◌≡◌, ◌≢◌, ◌<◌, ◌≤ℤ◌, pos, length, IfOk, IfErr};
ghost use Rattle.graph_defs.specs.Flow.{IsFlow, IsFlowAnswer, outflow};
ghost use Rattle.graph_defs.specs.Net.{IsValid};
ghost use Rattle.flow_net.specs.Refusals.{sum_of, AreLow, Refuses};

use crate::augmenting::augment;
use crate::breadth_first::{Search, place_of, visited_nodes};
use crate::darts::darts_of;
use crate::refusals::{FlowRefusal, cause_against};
use graph_defs::{FlowAnswer, Grouped, Net};
use leda_base::{NoMemory, Row};
use std::alloc::Global;

/// A maximum flow from `s` to `t`, and a cut of its value: the nodes that augmenting paths still
/// reach from `s`.
///
/// J. Edmonds' and R. M. Karp's search by shortest augmenting paths, so there are at most n m
/// rounds, each in time linear in the nodes n and the arcs m, and no more rounds than the value of
/// the flow. The memory is linear in n and m.
///
/// # Errors
/// `Same` exactly where `s` is `t`; else `Negative` exactly where a capacity is below 0, with the
/// first such arc; else `Bound` exactly where the capacities sum up to more than 2^62 - 1; else
/// `NoMemory` where the room isn't given.
pub fn max_flow(
    alloc: Global,
    net: &Net,
    s: u32,
    t: u32,
    cap: &[i64],
) -> Result<FlowAnswer, FlowRefusal>
    requires valid { IsValid net.now }
    requires s { s < net.now.n }
    requires t { t < net.now.n }
    requires caps { length cap.now ≡ length net.now.arcs }
    ensures right { IfOk result (λ answer. IsFlowAnswer net.now s t cap.now answer) }
    ensures differ { IfOk result (λ _. s ≢ t) }
    ensures low { IfOk result (λ _. AreLow cap.now) }
    ensures within { IfOk result (λ _. sum_of cap.now ≤ℤ pos 4611686018427387903) }
    ensures refusal { IfErr result (λ refusal. Refuses s t cap.now refusal) }
{
    if let Some(refusal) = cause_against(s, t, cap) {
        return Err(refusal);
    }
    match greatest(alloc, net, s, t, cap) {
        Ok(answer) => Ok(answer),
        Err(_) => Err(FlowRefusal::NoMemory),
    }
}

// The same, where no capacity is below 0 and no value overflows.
fn greatest(alloc: Global, net: &Net, s: u32, t: u32, cap: &[i64]) -> Result<FlowAnswer, NoMemory>
    requires valid { IsValid net.now }
    requires s { s < net.now.n }
    requires t { t < net.now.n }
    requires caps { length cap.now ≡ length net.now.arcs }
    requires differ { s ≢ t }
    requires low { AreLow cap.now }
    requires sum { sum_of cap.now ≤ℤ pos 4611686018427387903 }
    ensures { IfOk result (λ answer. IsFlowAnswer net.now s t cap.now answer) }
{
    let pairs = darts_of(alloc, net)?;
    let rows = Grouped::by(alloc, net.n, pairs.as_slice())?;
    let mut flow = vec![in alloc; 0i64; cap.len()]?;
    let mut value = 0;
    loop {
        let mut search = Search::start(alloc, net.n, s)?;
        search.run(&rows, cap, flow.as_slice())?;
        let Some(place) = place_of(search.queue.as_slice(), t) else {
            let cut = visited_nodes(alloc, search.visited.as_slice())?;
            return Ok(FlowAnswer {
                flow: Row::from_vec(flow),
                value,
                cut,
            });
        };
        value += augment(net, s, t, cap, &mut flow, search.queue.as_slice(), place);
    }
}

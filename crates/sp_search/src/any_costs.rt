//! Shortest paths from one node, whatever the costs.
ghost use Rattle.std.specs.Prelude.{◌≡◌, ◌<◌, ◌≤◌, ◌≤ℤ◌, pos, length, IfOk, IfErr};
ghost use Rattle.graph_defs.specs.Net.{EndsBelow, IsValid};
ghost use Rattle.graph_defs.specs.Shortest.{IsSpAnswer, AreBelow};
ghost use Rattle.sp_search.specs.declared.any_costs.TheConstants.{WIDE_NODE_LIMIT};
ghost use Rattle.sp_search.specs.Lows.{StandBehind, CanReach, begin_of, IsLed};
ghost use Rattle.sp_search.specs.Refusals.{sizes, MayRefuse};
ghost use Rattle.sp_search.specs.Tags.{IsPriced};
ghost use Rattle.sp_search.specs.Telling.{paid, KnowCosts, IsWhole};
ghost use Rattle.sp_search.specs.Wide.{net_of, IsWide};

use crate::finding::Finding;
use crate::lows::Lows;
use crate::refusals::{SpRefusal, is_within_bound};
use crate::rounds::{End, settle};
use crate::tags::source_of;
use crate::telling::{finite_of, lows_of, unmarked};
use crate::walks::{reach_of, walk_to};
use graph_defs::{Net, Seed, SpAnswer};
use leda_base::{NoMemory, Row};
use std::alloc::Global;

/// How many nodes a net may have for [`shortest_wide`].
pub const WIDE_NODE_LIMIT: u32 = 100_002;

/// How many arcs it may have there.
pub const WIDE_ARC_LIMIT: u32 = 1_200_000;

/// The distances of all nodes from `s`, each with the last arc of a shortest walk; the nodes with
/// walks below every number, each with its reason; and the nodes to which no walk leads.
///
/// Rounds over all arcs (R. Bellman, On a routing problem, 1958; L. R. Ford, 1956), behind each of
/// which the last arcs are looked at: where they make no tree of the source, they make a closed
/// walk of negative weight. Its nodes and all that arcs lead to from them are low, and the rounds
/// begin anew without them. So the time is O(n m) for each closed walk that is told, and the memory
/// is linear in the nodes n and the arcs m beside the answer.
///
/// # Errors
/// `Bound` exactly where the costs without their signs sum up to more than 2^62 - 1, and else
/// `NoMemory` where the room isn't given. Never `Negative`.
pub fn shortest(alloc: Global, net: &Net, s: u32, cost: &[i64]) -> Result<SpAnswer, SpRefusal>
    requires valid { IsValid net.now }
    requires s { s < net.now.n }
    requires costs { length cost.now ≡ length net.now.arcs }
    ensures right { IfOk result (λ answer. IsSpAnswer net.now s cost.now answer) }
    ensures within { IfOk result (λ _. sizes cost.now ≤ℤ pos 4611686018427387903) }
    ensures refusal { IfErr result (λ refusal. MayRefuse cost.now refusal) }
{
    if !is_within_bound(cost) {
        return Err(SpRefusal::Bound);
    }
    match answer_of(alloc, net, s, cost) {
        Ok(answer) => Ok(answer),
        Err(_) => Err(SpRefusal::NoMemory),
    }
}

/// The same as [`shortest`], of a net of `n` nodes that may be larger than a valid one, and of
/// costs with a sum of up to 2^63 - 1: the arcs along which a flow can change, both ways, are such
/// a net.
///
/// # Errors
/// `NoMemory` where the room isn't given.
pub fn shortest_wide(
    alloc: Global,
    n: u32,
    ends: &[(u32, u32)],
    s: u32,
    cost: &[i64],
) -> Result<SpAnswer, NoMemory>
    requires ends { EndsBelow n ends.now }
    requires nodes { n ≤ WIDE_NODE_LIMIT }
    requires arcs { length ends.now ≤ WIDE_ARC_LIMIT }
    requires s { s < n }
    requires costs { length cost.now ≡ length ends.now }
    requires within { sizes cost.now ≤ℤ pos 9223372036854775807 }
    ensures { IfOk result (λ answer. IsSpAnswer (net_of n ends.now) s cost.now answer) }
{
    let net = Net {
        n,
        arcs: Row::from_vec(ends.to_vec(alloc)?),
    };
    answer_of(alloc, &net, s, cost)
}

// The answer where no distance overflows.
fn answer_of(alloc: Global, net: &Net, s: u32, cost: &[i64]) -> Result<SpAnswer, NoMemory>
    requires wide { IsWide net.now }
    requires s { s < net.now.n }
    requires costs { length cost.now ≡ length net.now.arcs }
    requires fits { sizes cost.now ≤ℤ pos 9223372036854775807 }
    ensures { IfOk result (λ answer. IsSpAnswer net.now s cost.now answer) }
{
    let opened = vec![in alloc; true; net.arcs.as_slice().len()]?;
    let reach = reach_of(alloc, net, s, opened.as_slice())?;
    let mut lows = Lows::new(alloc, net.n)?;
    loop {
        let end = settle(alloc, net, s, cost, lows.found.marks.as_slice())?;
        match end {
            End::Tree(tree) => return whole_of(alloc, cost, tree, lows),
            End::Cycle(cycle) => {
                let seed = led_to(alloc, net, s, &reach, cycle)?;
                lows.add(alloc, net, opened.as_slice(), seed)?;
            }
        }
    }
}

// A closed walk, with a walk that leads there.
fn led_to(
    alloc: Global,
    net: &Net,
    s: u32,
    reach: &Finding,
    cycle: Row<u32>,
) -> Result<Seed, NoMemory>
    requires wide { IsWide net.now }
    requires some { 0 < length cycle }
    requires known { AreBelow (length net.now.arcs) cycle }
    requires reach { CanReach net.now s reach.now.queue.items reach.now.marks.items
        (begin_of net.now cycle) }
    ensures { IfOk result (λ seed. IsLed net.now s cycle seed) }
{
    let node = source_of(net, cycle.as_slice()[0]);
    let walk = walk_to(alloc, reach.queue.as_slice(), node)?;
    Ok(Seed {
        start: s,
        walk,
        cycle,
    })
}

// The answer that a tree and low nodes make.
fn whole_of(alloc: Global, cost: &[i64], tree: Finding, lows: Lows) -> Result<SpAnswer, NoMemory>
    requires behind { StandBehind tree.queue.items }
    requires known { KnowCosts (length cost.now) tree.queue.items }
    requires fits { paid cost.now tree.queue.items ≤ℤ pos 9223372036854775807 }
    requires long { length lows.found.marks.items ≡ length tree.marks.items }
    requires few { length tree.marks.items ≤ WIDE_NODE_LIMIT }
    ensures { IfOk result (λ answer. IsWhole cost.now tree.queue.items tree.marks.items
        lows.found.queue.items lows.found.marks.items lows.seeds answer) }
{
    let finite = finite_of(alloc, cost, tree.queue.as_slice())?;
    let low = lows_of(alloc, lows.found.queue.as_slice())?;
    let unreached = unmarked(alloc, tree.marks.as_slice(), lows.found.marks.as_slice())?;
    let Lows { seeds, .. } = lows;
    Ok(SpAnswer {
        finite,
        seeds,
        low,
        unreached,
    })
}

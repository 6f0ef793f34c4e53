//! Whether every number of an answer is in range.
ghost use Rattle.std.specs.Prelude.{◌≡◌, ◌↔◌, ◌<◌, ◌≤◌, ◌^◌, length, All, IsTrue};
ghost use Rattle.graph_defs.specs.declared.shortest.Finite.{Finite as FiniteNode};
ghost use Rattle.graph_defs.specs.Shortest.{AreBelow, IsFiniteInRange, IsSeedInRange, IsLowInRange, IsInRange, IsReasonBelow};

use graph_defs::{Finite, Low, Net, Seed, SpAnswer, Why};
use leda_base::Row;

pub(crate) fn is_in_range(net: &Net, a: &SpAnswer) -> bool
    ensures { IsTrue result ↔ IsInRange net.now a.now }
{
    let seeds = a.seeds.as_slice();
    if seeds.len() as u64 > 1 << 32 {
        return false;
    }
    if !a
        .finite
        .as_slice()
        .iter()
        .all(|finite| is_finite_in_range(net, finite))
    {
        return false;
    }
    if !seeds.iter().all(|seed| is_seed_in_range(net, seed)) {
        return false;
    }
    if !a
        .low
        .as_slice()
        .iter()
        .all(|low| is_low_in_range(net, seeds.len(), low))
    {
        return false;
    }
    are_below(net.n as usize, &a.unreached)
}

fn is_finite_in_range(net: &Net, finite: &Finite) -> bool
    ensures { IsTrue result ↔ IsFiniteInRange net.now finite.now }
{
    if finite.node >= net.n {
        return false;
    }
    match finite.pred {
        None => true,
        Some(arc) => (arc as usize) < net.arcs.as_slice().len(),
    }
}

fn is_seed_in_range(net: &Net, seed: &Seed) -> bool
    ensures { IsTrue result ↔ IsSeedInRange net.now seed.now }
{
    let arcs = arc_total(net);
    if seed.start >= net.n {
        return false;
    }
    if !are_below(arcs, &seed.walk) {
        return false;
    }
    are_below(arcs, &seed.cycle)
}

fn is_low_in_range(net: &Net, seeds: usize, low: &Low) -> bool
    ensures { IsTrue result ↔ IsLowInRange net.now seeds low.now }
{
    if low.node >= net.n {
        return false;
    }
    match low.why {
        Why::Seed(seed) => (seed as usize) < seeds,
        Why::Arc(arc) => (arc as usize) < net.arcs.as_slice().len(),
    }
}

fn arc_total(net: &Net) -> usize
    ensures { result ≡ length net.now.arcs }
{
    net.arcs.as_slice().len()
}

fn are_below(n: usize, numbers: &Row<u32>) -> bool
    ensures { IsTrue result ↔ AreBelow n numbers.now }
{
    numbers
        .as_slice()
        .iter()
        .all(|number| (*number as usize) < n)
}

//! The answer that a settled tree and low nodes make.
ghost use Rattle.std.specs.Prelude.{◌≡◌, ◌<◌, ◌≤◌, ◌^◌, ◌≤ℤ◌, pos, map, length, IfOk};
ghost use Rattle.std.specs.List.{filter, range_with_len};
ghost use Rattle.sp_search.specs.declared.any_costs.TheConstants.{WIDE_NODE_LIMIT};
ghost use Rattle.sp_search.specs.Lows.{StandBehind};
ghost use Rattle.sp_search.specs.Telling.{KnowCosts, paid, IsTold, FitsNext, AreTold, neither, low_of};

use crate::finding::Found;
use graph_defs::{Finite, Low, Why};
use leda_base::{NoMemory, Row};
use std::alloc::Global;

/// The nodes of a tree, with their distances along it.
pub fn finite_of(alloc: Global, cost: &[i64], queue: &[Found]) -> Result<Row<Finite>, NoMemory>
    requires behind { StandBehind queue.now }
    requires known { KnowCosts (length cost.now) queue.now }
    requires fits { paid cost.now queue.now ≤ℤ pos 9223372036854775807 }
    ensures { IfOk result (λ finite. AreTold cost.now queue.now (length queue.now) finite) }
{
    let mut finite = Vec::new(alloc);
    for found in queue {
        finite.push(told(cost, finite.as_slice(), *found))?;
    }
    Ok(Row::from_vec(finite))
}

// A node with its distance, where those before it have theirs.
fn told(cost: &[i64], finite: &[Finite], found: Found) -> Finite
    requires { FitsNext cost.now finite.now found found.why }
    ensures { IsTold cost.now finite.now found found.why result }
{
    let (dist, pred) = match found.why {
        Why::Seed(_) => (0, None),
        Why::Arc(arc) => (
            finite[found.before as usize].dist + cost[arc as usize],
            Some(arc),
        ),
    };
    Finite {
        node: found.node,
        dist,
        pred,
    }
}

/// The nodes that were found, with their reasons.
pub fn lows_of(alloc: Global, queue: &[Found]) -> Result<Row<Low>, NoMemory>
    ensures { IfOk result (λ low. low ≡ map low_of queue.now) }
{
    let mut low = Row::new(alloc);
    for found in queue {
        low.push(Low {
            node: found.node,
            why: found.why,
        })?;
    }
    Ok(low)
}

/// The nodes with neither mark, in the order of the nodes.
pub fn unmarked(alloc: Global, some: &[bool], others: &[bool]) -> Result<Row<u32>, NoMemory>
    requires long { length others.now ≡ length some.now }
    requires few { length some.now ≤ WIDE_NODE_LIMIT }
    ensures { IfOk result (λ nodes.
        nodes ≡ filter (neither some.now others.now) (range_with_len 0 (length some.now))) }
{
    let mut nodes = Row::new(alloc);
    for node in 0..some.len() {
        if is_neither(some, others, node) {
            nodes.push(node as u32)?;
        }
    }
    Ok(nodes)
}

fn is_neither(some: &[bool], others: &[bool], node: usize) -> bool
    requires long { length others.now ≡ length some.now }
    requires node { node < length some.now }
    ensures { result ≡ neither some.now others.now node }
{
    !some[node] && !others[node]
}

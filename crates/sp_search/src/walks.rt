//! Walks from where a search began.
ghost use Rattle.std.specs.Prelude.{◌≡◌, ℕ, ◌<◌, Bool, List, length, IfOk, MatchOption};
ghost use Rattle.graph_defs.specs.declared.net.Net.{Net};
ghost use Rattle.graph_defs.specs.declared.shortest.Why.TheVariants.{Arc};
ghost use Rattle.graph_defs.specs.Walk.{IsWalk};
ghost use Rattle.sp_search.specs.Finding.{found_at, IsFinding};
ghost use Rattle.sp_search.specs.Lows.{StandBehind, IsThere, IsPlaceOf, BeginsAt, IsBeginning, IsReachOf};
ghost use Rattle.sp_search.specs.Wide.{IsWide};

use crate::finding::{Finding, Found};
use crate::forest::first_found;
use graph_defs::{Net, Why};
use leda_base::{NoMemory, Row};
use std::alloc::Global;

/// All nodes to which open arcs lead from `s`.
pub fn reach_of(alloc: Global, net: &Net, s: u32, opened: &[bool]) -> Result<Finding, NoMemory>
    requires wide { IsWide net.now }
    requires s { s < net.now.n }
    requires opened { length opened.now ≡ length net.now.arcs }
    ensures { IfOk result (λ finding.
        IsReachOf net.now opened.now s finding.queue.items finding.marks.items) }
{
    let mut finding = first_found(alloc, net.n, s, true)?;
    finding.spread(alloc, net, opened)?;
    Ok(finding)
}

/// A walk to a node from where the search began, read back from place to place.
pub fn walk_to(alloc: Global, queue: &[Found], node: u32) -> Result<Row<u32>, NoMemory>
    requires behind { StandBehind queue.now }
    requires there { IsThere queue.now node }
    ensures { (net : Net) (opened marks : List Bool) (s : ℕ) → IsFinding net opened queue.now marks
        → BeginsAt queue.now s → IfOk result (λ walk. IsWalk net s node walk) }
{
    let mut arcs = Vec::new(alloc);
    let mut at = place_of(queue, node);
    while let Some(arc) = arc_to(queue, at) {
        arcs.push(arc)?;
        at = queue[at].before as usize;
    }
    arcs.as_mut_slice().reverse();
    Ok(Row::from_vec(arcs))
}

// The arc that leads to the node of a place, unless the search began there.
fn arc_to(queue: &[Found], at: usize) -> Option<u32>
    requires { at < length queue.now }
    ensures { MatchOption result (IsBeginning queue.now at)
        (λ arc. (found_at queue.now at).why ≡ Arc arc) }
{
    match queue[at].why {
        Why::Seed(_) => None,
        Why::Arc(arc) => Some(arc),
    }
}

// The place of a node.
fn place_of(queue: &[Found], node: u32) -> usize
    requires { IsThere queue.now node }
    ensures { IsPlaceOf queue.now node result }
{
    for (place, found) in queue.iter().enumerate() {
        if found.node == node {
            return place;
        }
    }
    unreachable!()
}

//! The check of a maximum matching.
ghost use Rattle.std.specs.Prelude.{◌≡◌, ◌↔◌, ◌<◌, ◌≤◌, length, All, IsTrue, IfOk};
ghost use Rattle.graph_defs.specs.declared.net.TheConstants.{NODE_LIMIT};
ghost use Rattle.graph_defs.specs.declared.verdict.Verdict.TheVariants.{No};
ghost use Rattle.graph_defs.specs.Matching.{IsMatchInRange, MatchHolds, cover_size, match_order};
ghost use Rattle.graph_defs.specs.Net.{IsValid};
ghost use Rattle.graph_defs.specs.Verdict.{IsVerdict};

use crate::cover::{first_uncovered, size_of};
use graph_defs::{Cond, MatchAnswer, Net, Verdict};
use leda_base::NoMemory;
use match_core::{are_edges, first_loop, first_shared};
use std::alloc::Global;

/// Whether an answer on a maximum matching is right: yes where all conditions of a right answer
/// hold, else the first condition that is broken, in their order, and its least place.
///
/// It takes any answer, with its edges in any order. In time and memory linear in the net and the
/// answer; labels that are greater than nodes are many are sorted besides.
///
/// # Errors
/// `NoMemory` where the room isn't given.
pub fn check_matching(alloc: Global, net: &Net, a: &MatchAnswer) -> Result<Verdict, NoMemory>
    requires { IsValid net.now }
    ensures { IfOk result (λ verdict.
        IsVerdict (MatchHolds net.now a.now) match_order verdict) }
{
    if !is_in_range(net, a) {
        return Ok(broken(Cond::Range, 0));
    }
    let edges = a.edges.as_slice();
    if let Some(arc) = first_loop(net, edges) {
        return Ok(broken(Cond::SelfLoop, arc));
    }
    if let Some(node) = first_shared(alloc, net, edges)? {
        return Ok(broken(Cond::Shared, node));
    }
    if let Some(arc) = first_uncovered(net, a.cover.as_slice()) {
        return Ok(broken(Cond::Label, arc));
    }
    if !has_size(alloc, a)? {
        return Ok(broken(Cond::Size, 0));
    }
    Ok(Verdict::Yes)
}

fn is_in_range(net: &Net, a: &MatchAnswer) -> bool
    ensures { IsTrue result ↔ IsMatchInRange net.now a.now }
{
    if !are_edges(net, a.edges.as_slice()) {
        return false;
    }
    a.cover.as_slice().len() == net.n as usize
}

// Whether there are as many edges as the cover's size.
fn has_size(alloc: Global, a: &MatchAnswer) -> Result<bool, NoMemory>
    requires { length a.now.cover ≤ NODE_LIMIT }
    ensures { IfOk result (λ holds. IsTrue holds ↔ (length a.now.edges ≡ cover_size a.now.cover)) }
{
    let size = size_of(alloc, a.cover.as_slice())?;
    Ok(a.edges.as_slice().len() == size as usize)
}

fn broken(cond: Cond, place: u32) -> Verdict
    ensures { result ≡ No cond place }
{
    Verdict::No { cond, place }
}

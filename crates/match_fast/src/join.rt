//! The fast search, the check of its answer, and a complete search behind it.
ghost use Rattle.std.specs.Prelude.{◌↔◌, IsTrue, IfOk};
ghost use Rattle.std.specs.List.Sorted.{IsStrictlyIncreasing};
ghost use Rattle.graph_defs.specs.Matching.{IsMatchAnswer};
ghost use Rattle.graph_defs.specs.Net.{IsValid};

use crate::fast::propose;
use graph_defs::{MatchAnswer, Net, Verdict};
use leda_base::NoMemory;
use match_check::check_matching;
use std::alloc::Global;

/// A search for maximum matchings that is complete: it has no other answer but want of memory.
pub trait MatchingSearch {
    /// A matching in the order of its edges, and an odd-set cover of the same size.
    fn search(&self, alloc: Global, net: &Net) -> Result<MatchAnswer, NoMemory>
        requires { IsValid net.now }
        ensures { IfOk result (λ answer. IsMatchAnswer net.now answer) };
}

/// A maximum matching: its edges in their order, and an odd-set cover of the same size, which shows
/// that no matching has more.
///
/// A fast search proposes an answer. Where that is found to be right it is the answer; else the
/// complete search is asked.
///
/// # Errors
/// `NoMemory` where the room isn't given.
pub fn max_matching<S: MatchingSearch>(
    alloc: Global,
    net: &Net,
    complete: &S,
) -> Result<MatchAnswer, NoMemory>
    requires { IsValid net.now }
    ensures { IfOk result (λ answer. IsMatchAnswer net.now answer) }
{
    let answer = propose(alloc, net)?;
    checked_or(alloc, net, answer, complete)
}

// The answer where it is right, else that of the complete search.
pub(crate) fn checked_or<S: MatchingSearch>(
    alloc: Global,
    net: &Net,
    answer: MatchAnswer,
    complete: &S,
) -> Result<MatchAnswer, NoMemory>
    requires { IsValid net.now }
    ensures { IfOk result (λ right. IsMatchAnswer net.now right) }
{
    if is_right(alloc, net, &answer)? {
        return Ok(answer);
    }
    complete.search(alloc, net)
}

pub(crate) fn is_right(alloc: Global, net: &Net, answer: &MatchAnswer) -> Result<bool, NoMemory>
    requires { IsValid net.now }
    ensures { IfOk result (λ holds. IsTrue holds ↔ IsMatchAnswer net.now answer.now) }
{
    if !rise(answer.edges.as_slice()) {
        return Ok(false);
    }
    match check_matching(alloc, net, answer)? {
        Verdict::Yes => Ok(true),
        Verdict::No { .. } => Ok(false),
    }
}

fn rise(edges: &[u32]) -> bool
    ensures { IsTrue result ↔ IsStrictlyIncreasing edges.now }
{
    for place in 1..edges.len() {
        if edges[place - 1] >= edges[place] {
            return false;
        }
    }
    true
}

//! The two searches for a maximum matching as one call.
ghost use Rattle.std.specs.Prelude.{IfOk};
ghost use Rattle.graph_defs.specs.Matching.{IsMatchAnswer};
ghost use Rattle.graph_defs.specs.Net.{IsValid};

use graph_defs::{MatchAnswer, Net};
use leda_base::NoMemory;
use match_fast::MatchingSearch;
use std::alloc::Global;

/// A maximum matching: its edges in their order, and an odd-set cover of the same size, which shows
/// that no matching has more. There is no other answer but want of memory.
///
/// # Errors
/// `NoMemory` where the room isn't given.
pub fn max_matching(alloc: Global, net: &Net) -> Result<MatchAnswer, NoMemory>
    requires { IsValid net.now }
    ensures { IfOk result (λ answer. IsMatchAnswer net.now answer) }
{
    match_fast::max_matching(alloc, net, &Complete)
}

/// The complete search, as it is asked where the fast one's answer isn't right.
pub(crate) struct Complete;

impl MatchingSearch for Complete {
    fn search(&self, alloc: Global, net: &Net) -> Result<MatchAnswer, NoMemory> {
        blossom_search::max_matching(alloc, net)
    }
}

//! A maximum matching with an odd-set cover of its size.
ghost use Rattle.std.specs.Prelude.{IfOk};
ghost use Rattle.graph_defs.specs.declared.net.Net.{Net};
ghost use Rattle.graph_defs.specs.Matching.{IsMatching, IsMatchAnswer};
ghost use Rattle.graph_defs.specs.Net.{IsValid};
ghost use Rattle.blossom_search.specs.Forest.{IsTight};

use crate::augmenting::augment;
use crate::found::Outcome;
use crate::levels::search;
use graph_defs::{MatchAnswer, Net};
use leda_base::{NoMemory, Row};
use match_core::Matching;
use std::alloc::Global;

/// A maximum matching: its edges in their order, and an odd-set cover of the same size, which shows
/// that no matching has more. There is no other answer but want of memory.
///
/// The matching is augmented along one path after another (J. Edmonds, Paths, trees, and flowers,
/// 1965). Blossoms are contracted by copies of the net, and each stem has a copy of its path, so it
/// is a search to rest on, not one to be fast: the nodes times the arcs bound the time of one forest,
/// and for each edge of the matching there are at most as many forests as nodes.
///
/// # Errors
/// `NoMemory` where the room isn't given.
pub fn max_matching(alloc: Global, net: &Net) -> Result<MatchAnswer, NoMemory>
    requires { IsValid net.now }
    ensures { IfOk result (λ answer. IsMatchAnswer net.now answer) }
{
    let mut m = Matching {
        edges: Row::new(alloc),
    };
    loop {
        match search(alloc, net, &m)? {
            Outcome::Path(path) => m = augment(alloc, net, &m, path.as_slice())?,
            Outcome::Cover(cover) => return Ok(answer(m, cover)),
        }
    }
}

// The answer of a matching and its cover.
fn answer(m: Matching, cover: Row<u32>) -> MatchAnswer
    ensures { (net : Net) → IsMatching net m.edges → IsTight net m.edges cover
        → IsMatchAnswer net result }
{
    let Matching { edges } = m;
    let mut edges = edges.into_vec();
    edges.sort_unstable();
    MatchAnswer {
        edges: Row::from_vec(edges),
        cover,
    }
}

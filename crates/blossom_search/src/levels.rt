//! The search of a net for an augmenting path, with blossoms contracted one after another.
ghost use Rattle.std.specs.Prelude.{◌≡◌, length, IfOk};
ghost use Rattle.graph_defs.specs.Matching.{IsMatching};
ghost use Rattle.graph_defs.specs.Net.{IsValid};
ghost use Rattle.blossom_search.specs.Forest.{IsOutcome};
ghost use Rattle.blossom_search.specs.Levels.{IsShrunk, AreLevels, top_net, top_edges};

use crate::forest::grow;
use crate::found::{Found, Outcome};
use blossom_lift::{Level, contract, lift_cover, lift_path};
use graph_defs::Net;
use leda_base::NoMemory;
use match_core::{Blossom, Matching};
use std::alloc::Global;

/// A blossom, and the net in which it is one node.
#[derive(Drop)]
pub struct Shrunk {
    pub blossom: Blossom,
    pub level: Level,
}

/// An augmenting path, or a cover of the matching's size.
///
/// Each blossom that the forest of a net shows is contracted, and the forest of the smaller net is
/// grown. What that of the last net shows is brought back through the nets before it (J. Edmonds,
/// Paths, trees, and flowers, 1965).
///
/// # Errors
/// `NoMemory` where the room isn't given.
pub fn search(alloc: Global, net: &Net, m: &Matching) -> Result<Outcome, NoMemory>
    requires valid { IsValid net.now }
    requires matching { IsMatching net.now m.now.edges }
    ensures { IfOk result (λ outcome. IsOutcome net.now m.now.edges outcome) }
{
    let mut shrunk = Vec::new(alloc);
    loop {
        let (small, left) = top(net, m, shrunk.as_slice());
        match grow(alloc, small, left)? {
            Found::End(outcome) => return brought_back(alloc, net, m, shrunk, outcome),
            Found::Flower(blossom) => {
                let level = contract(alloc, small, left, &blossom)?;
                shrunk.push(Shrunk { blossom, level })?;
            }
        }
    }
}

// The last of the nets, with its matching.
fn top<'a>(net: &'a Net, m: &'a Matching, shrunk: &'a [Shrunk]) -> (&'a Net, &'a Matching)
    ensures net { result.0.now ≡ top_net net.now shrunk.now }
    ensures edges { result.1.now.edges ≡ top_edges m.now.edges shrunk.now }
{
    match shrunk.last() {
        None => (net, m),
        Some(last) => (&last.level.net, &last.level.matching),
    }
}

// What the last net shows, brought back to the first one.
fn brought_back(
    alloc: Global,
    net: &Net,
    m: &Matching,
    mut shrunk: Vec<Shrunk>,
    mut outcome: Outcome,
) -> Result<Outcome, NoMemory>
    requires levels { AreLevels net.now m.now.edges shrunk.items }
    requires outcome { IsOutcome (top_net net.now shrunk.items)
        (top_edges m.now.edges shrunk.items) outcome }
    ensures { IfOk result (λ outcome. IsOutcome net.now m.now.edges outcome) }
{
    while let Some(last) = shrunk.pop() {
        let (large, matching) = top(net, m, shrunk.as_slice());
        outcome = lifted(alloc, large, matching, &last, outcome)?;
    }
    Ok(outcome)
}

// What a net shows, brought back to the net before it.
fn lifted(
    alloc: Global,
    net: &Net,
    m: &Matching,
    shrunk: &Shrunk,
    outcome: Outcome,
) -> Result<Outcome, NoMemory>
    requires valid { IsValid net.now }
    requires matching { IsMatching net.now m.now.edges }
    requires shrunk { IsShrunk net.now m.now.edges shrunk.now }
    requires outcome { IsOutcome shrunk.now.level.net shrunk.now.level.matching.edges outcome }
    ensures { IfOk result (λ outcome. IsOutcome net.now m.now.edges outcome) }
{
    let blossom = &shrunk.blossom;
    let level = &shrunk.level;
    match outcome {
        Outcome::Path(path) => {
            let longer = lift_path(alloc, net, m, blossom, level, path.as_slice())?;
            Ok(Outcome::Path(longer))
        }
        Outcome::Cover(cover) => {
            let larger = lift_cover(alloc, net, blossom, level, cover.as_slice())?;
            Ok(Outcome::Cover(larger))
        }
    }
}

//! Whether a walk leads from one node to another.
ghost use Rattle.std.specs.Prelude.{◌<◌, IfOk};
ghost use Rattle.graph_defs.specs.Net.{IsValid};
ghost use Rattle.graph_defs.specs.Walk.{IsReach};

use crate::breadth_first::{Search, visited_nodes, walk_to};
use graph_defs::{Grouped, Net, Reach};
use leda_base::{NoMemory, Row};
use std::alloc::Global;

/// A walk from `s` to `t`, or where there is none a closed set with `s` and without `t`: the nodes
/// to which a walk leads from `s`.
///
/// The walk has no arcs where `s` is `t`. A breadth first search (K. Mehlhorn and S. Naeher, LEDA,
/// Cambridge 1999), in time and memory linear in the nodes and arcs; it ends as soon as it finds
/// `t`.
///
/// # Errors
/// `NoMemory` where the room isn't given.
pub fn reach(alloc: Global, net: &Net, s: u32, t: u32) -> Result<Reach, NoMemory>
    requires valid { IsValid net.now }
    requires s { s < net.now.n }
    requires t { t < net.now.n }
    ensures { IfOk result (λ answer. IsReach net.now s t answer) }
{
    if s == t {
        return Ok(Reach::Walk(Row::new(alloc)));
    }
    let leaving = Grouped::by(alloc, net.n, net.arcs.as_slice())?;
    let mut search = Search::start(alloc, net.n, s)?;
    if search.run(&leaving, t)? {
        let queue = search.queue.as_slice();
        Ok(Reach::Walk(walk_to(alloc, queue, queue.len() - 1)?))
    } else {
        Ok(Reach::Closed(visited_nodes(alloc, search.visited.as_slice())?))
    }
}

#[cfg(test)]
mod tests {
    use super::*;
    use std::process::Abort;
    use std::test::Fail;

    // Whether the answer is a walk, and its arcs or nodes.
    fn answer_of(
        rt: &impl Abort,
        alloc: Global,
        arcs: &[(u32, u32)],
        n: u32,
        (s, t): (u32, u32),
    ) -> Result<(bool, Vec<u32>), NoMemory> {
        let net = Net {
            n,
            arcs: Row::from_vec(arcs.to_vec(alloc)?),
        };
        assert!(rt; net.is_valid());
        assert!(rt; s < n && t < n);
        match reach(alloc, &net, s, t)? {
            Reach::Walk(arcs) => Ok((true, arcs.into_vec())),
            Reach::Closed(nodes) => Ok((false, nodes.into_vec())),
        }
    }

    // A loop at 0, parallel arcs from 0 to 1, a cycle 0, 1, 2, a path 4, 3, 0 into it, and a node 5
    // by itself.
    #[test]
    fn walks_and_closed_sets_are_found(rt: HostRuntime) -> Result<(), Fail> {
        let arcs = [(0, 0), (0, 1), (0, 1), (1, 2), (2, 0), (4, 3), (3, 0)];
        for (s, t, is_walk, want) in [
            (0, 2, true, [1, 3].as_slice()),
            (2, 1, true, [4, 1].as_slice()),
            (4, 1, true, [5, 6, 1].as_slice()),
            (0, 0, true, [].as_slice()),
            (5, 5, true, [].as_slice()),
            (4, 5, false, [0, 1, 2, 3, 4].as_slice()),
            (1, 3, false, [0, 1, 2].as_slice()),
            (5, 0, false, [5].as_slice()),
        ] {
            let answer = answer_of(&rt, rt.alloc(), arcs.as_slice(), 6, (s, t))?;
            assert_eq!(rt; answer.0, is_walk, "from {s} to {t}");
            assert_eq!(rt; answer.1.as_slice(), want, "from {s} to {t}");
        }
        Ok(())
    }

    #[test]
    fn a_long_chain_is_a_walk(rt: HostRuntime) -> Result<(), Fail> {
        let mut arcs = Vec::new(rt.alloc());
        for node in 0..5000u32 {
            arcs.push((node, node + 1))?;
        }
        let answer = answer_of(&rt, rt.alloc(), arcs.as_slice(), 5001, (0, 5000))?;
        assert!(rt; answer.0);
        assert_eq!(rt; answer.1.len(), 5000);
        for (place, arc) in answer.1.as_slice().iter().enumerate() {
            assert_eq!(rt; *arc as usize, place);
        }
        Ok(())
    }
}

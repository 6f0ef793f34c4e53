//! Distances of small nets.
ghost use Rattle.std.specs.Prelude.{◌↔◌, IsTrue};
ghost use Rattle.graph_defs.specs.Net.{EndsBelow};

use super::*;
use crate::refusals::sizes_of;
use graph_defs::{Finite, Low, Net, SpAnswer, Why};
use leda_base::{NoMemory, Row};
use std::alloc::Global;
use std::process::Abort;
use std::test::Fail;

// A node of an answer in plain parts: its number, its distance, and its arc or -1.
type Told = (u32, i64, i64);

fn told(alloc: Global, finite: &[Finite]) -> Result<Vec<Told>, NoMemory> {
    let mut parts = Vec::new(alloc);
    for f in finite {
        let pred = match f.pred {
            None => -1,
            Some(arc) => i64::from(arc),
        };
        parts.push((f.node, f.dist, pred))?;
    }
    Ok(parts)
}

// A net, and a search where what it asks is met.
fn net_of(alloc: Global, n: u32, arcs: &[(u32, u32)]) -> Result<Net, NoMemory> {
    Ok(Net {
        n,
        arcs: Row::from_vec(arcs.to_vec(alloc)?),
    })
}

fn search(
    rt: &impl Abort,
    alloc: Global,
    n: u32,
    s: u32,
    arcs: &[(u32, u32)],
    costs: &[i64],
) -> Result<Result<SpAnswer, SpRefusal>, NoMemory> {
    let net = net_of(alloc, n, arcs)?;
    assert!(rt; net.is_valid());
    assert!(rt; s < net.n);
    assert!(rt; costs.len() == net.arcs.as_slice().len());
    Ok(dijkstra(alloc, &net, s, costs))
}

fn search_any(
    rt: &impl Abort,
    alloc: Global,
    n: u32,
    s: u32,
    arcs: &[(u32, u32)],
    costs: &[i64],
) -> Result<Result<SpAnswer, SpRefusal>, NoMemory> {
    let net = net_of(alloc, n, arcs)?;
    assert!(rt; net.is_valid());
    assert!(rt; s < net.n);
    assert!(rt; costs.len() == net.arcs.as_slice().len());
    Ok(shortest(alloc, &net, s, costs))
}

fn search_wide(
    rt: &impl Abort,
    alloc: Global,
    n: u32,
    s: u32,
    arcs: &[(u32, u32)],
    costs: &[i64],
) -> Result<SpAnswer, NoMemory> {
    assert!(rt; n <= WIDE_NODE_LIMIT && arcs.len() <= WIDE_ARC_LIMIT as usize);
    assert!(rt; have_ends_below(n, arcs));
    assert!(rt; s < n);
    assert!(rt; costs.len() == arcs.len());
    assert!(rt; sizes_of(costs) <= i128::from(i64::MAX));
    shortest_wide(alloc, n, arcs, s, costs)
}

fn have_ends_below(n: u32, arcs: &[(u32, u32)]) -> bool
    ensures { IsTrue result ↔ EndsBelow n arcs.now }
{
    arcs.iter().all(|(from, to)| *from < n && *to < n)
}

// The distance of the node that is told last; 0 where there is no answer.
fn farthest(told: Result<SpAnswer, SpRefusal>) -> i64 {
    match told {
        Ok(answer) => last_dist(&answer),
        Err(_) => 0,
    }
}

fn last_dist(answer: &SpAnswer) -> i64 {
    let mut dist = 0;
    for finite in answer.finite.as_slice() {
        dist = finite.dist;
    }
    dist
}

#[test]
fn arcs_of_cost_0_lead_on(rt: HostRuntime) -> Result<(), Fail> {
    let arcs = [(0, 1), (1, 2), (2, 1), (3, 4), (4, 3)];
    let answer = search(
        &rt,
        rt.alloc(),
        5,
        0,
        arcs.as_slice(),
        [0, 0, 0, 0, 0].as_slice(),
    )?
    .ok()
    .expect(&rt, "an answer");
    let finite = told(rt.alloc(), answer.finite.as_slice())?;
    assert_eq!(rt;
        finite.as_slice(),
        [(0, 0, -1), (1, 0, 0), (2, 0, 1)].as_slice()
    );
    assert_eq!(rt; answer.unreached.as_slice(), [3, 4].as_slice());
    assert_eq!(rt; answer.seeds.as_slice().len(), 0);
    assert_eq!(rt; answer.low.as_slice().len(), 0);
    Ok(())
}

// A loop at the source, parallel arcs, and a way round that is shorter than the arc.
#[test]
fn loops_and_parallel_arcs_are_told_apart(rt: HostRuntime) -> Result<(), Fail> {
    let arcs = [(1, 1), (1, 0), (1, 0), (1, 2), (0, 2), (2, 1), (2, 0)];
    let costs = [0, 7, 4, 9, 3, 1, 0];
    let answer = search(&rt, rt.alloc(), 3, 1, arcs.as_slice(), costs.as_slice())?
        .ok()
        .expect(&rt, "an answer");
    let finite = told(rt.alloc(), answer.finite.as_slice())?;
    assert_eq!(rt;
        finite.as_slice(),
        [(1, 0, -1), (0, 4, 2), (2, 7, 4)].as_slice()
    );
    assert_eq!(rt; answer.unreached.as_slice().len(), 0);
    Ok(())
}

// The distances by rounds over all arcs, as long as any falls; -1 where there is none.
fn relaxed(
    rt: &impl Abort,
    alloc: Global,
    n: u32,
    s: u32,
    arcs: &[(u32, u32)],
    costs: &[i64],
) -> Result<Vec<i64>, NoMemory> {
    let mut dists = vec![in alloc; -1i64; n as usize]?;
    assert!(rt; (s as usize) < dists.len());
    dists[s as usize] = 0;
    for _ in 0..n {
        for ((from, to), cost) in arcs.iter().zip(costs) {
            assert!(rt; (*from as usize) < dists.len() && (*to as usize) < dists.len());
            let dist = dists[*from as usize];
            let old = dists[*to as usize];
            if dist >= 0 {
                let further = dist.saturating_add(*cost);
                if old < 0 || further < old {
                    dists[*to as usize] = further;
                }
            }
        }
    }
    Ok(dists)
}

// The distances of an answer by node; -1 where there is none.
fn dists_of(
    rt: &impl Abort,
    alloc: Global,
    n: u32,
    answer: &SpAnswer,
) -> Result<Vec<i64>, NoMemory> {
    let mut dists = vec![in alloc; -1i64; n as usize]?;
    for f in answer.finite.as_slice() {
        assert!(rt; (f.node as usize) < dists.len());
        dists[f.node as usize] = f.dist;
    }
    Ok(dists)
}

#[test]
fn distances_are_those_of_a_plain_relaxation(rt: HostRuntime) -> Result<(), Fail> {
    let mut seed = 1u32;
    for round in 0..60u32 {
        let n = 2 + round % 7;
        let mut arcs = Vec::new(rt.alloc());
        let mut costs = Vec::new(rt.alloc());
        for _ in 0..(round % 23) {
            seed = (seed % 65537 * 75 + 74) % 65537;
            arcs.push((seed % n, seed / 8 % n))?;
            costs.push(i64::from(seed / 64 % 10))?;
        }
        let s = seed % n;
        let answer = search(&rt, rt.alloc(), n, s, arcs.as_slice(), costs.as_slice())?
            .ok()
            .expect(&rt, "an answer");
        let other = search_any(&rt, rt.alloc(), n, s, arcs.as_slice(), costs.as_slice())?
            .ok()
            .expect(&rt, "an answer");
        let want = relaxed(&rt, rt.alloc(), n, s, arcs.as_slice(), costs.as_slice())?;
        let dists = dists_of(&rt, rt.alloc(), n, &answer)?;
        assert_eq!(rt; dists.as_slice(), want.as_slice(), "round {round}");
        let others = dists_of(&rt, rt.alloc(), n, &other)?;
        assert_eq!(rt; others.as_slice(), want.as_slice(), "round {round}");
    }
    Ok(())
}

// A closed walk of negative weight that is reached, and what arcs lead to from it.
#[test]
fn a_negative_closed_walk_is_a_seed(rt: HostRuntime) -> Result<(), Fail> {
    let arcs = [(0, 1), (1, 2), (2, 1), (2, 3), (0, 4)];
    let costs = [1, -2, 1, 0, 5];
    let answer = search_any(&rt, rt.alloc(), 6, 0, arcs.as_slice(), costs.as_slice())?
        .ok()
        .expect(&rt, "an answer");
    let finite = told(rt.alloc(), answer.finite.as_slice())?;
    assert_eq!(rt; finite.as_slice(), [(0, 0, -1), (4, 5, 4)].as_slice());
    assert_eq!(rt; answer.seeds.as_slice().len(), 1);
    for seed in answer.seeds.as_slice() {
        assert_eq!(rt; seed.start, 0);
        assert_eq!(rt; seed.walk.as_slice(), [0].as_slice());
        assert_eq!(rt; seed.cycle.as_slice(), [1, 2].as_slice());
    }
    let low = [
        Low {
            node: 1,
            why: Why::Seed(0),
        },
        Low {
            node: 2,
            why: Why::Seed(0),
        },
        Low {
            node: 3,
            why: Why::Arc(3),
        },
    ];
    assert_eq!(rt; answer.low.as_slice(), low.as_slice());
    assert_eq!(rt; answer.unreached.as_slice(), [5].as_slice());
    Ok(())
}

// Closed walks of weight 0, one that isn't reached, and one of negative weight that isn't either.
#[test]
fn other_closed_walks_are_none(rt: HostRuntime) -> Result<(), Fail> {
    let arcs = [(0, 1), (1, 2), (2, 1), (3, 4), (4, 3)];
    for costs in [[0, 0, 0, 0, 0], [0, 0, 0, -1, 0]] {
        let answer = search_any(&rt, rt.alloc(), 5, 0, arcs.as_slice(), costs.as_slice())?
            .ok()
            .expect(&rt, "an answer");
        let finite = told(rt.alloc(), answer.finite.as_slice())?;
        assert_eq!(rt;
            finite.as_slice(),
            [(0, 0, -1), (1, 0, 0), (2, 0, 1)].as_slice()
        );
        assert_eq!(rt; answer.low.as_slice().len(), 0);
        assert_eq!(rt; answer.unreached.as_slice(), [3, 4].as_slice());
    }
    Ok(())
}

#[test]
fn what_is_too_large_or_negative_is_refused(rt: HostRuntime) -> Result<(), Fail> {
    let one = [(0, 1)];
    let two = [(0, 1), (0, 1)];
    let most = [4_611_686_018_427_387_903];
    let more = [4_611_686_018_427_387_903, 1];
    let alloc = rt.alloc();
    let large = search(&rt, alloc, 2, 0, one.as_slice(), most.as_slice())?;
    assert_eq!(rt; farthest(large), 4_611_686_018_427_387_903);
    let large = search_any(&rt, alloc, 2, 0, one.as_slice(), most.as_slice())?;
    assert_eq!(rt; farthest(large), 4_611_686_018_427_387_903);
    let refused = search(&rt, alloc, 2, 0, two.as_slice(), more.as_slice())?;
    assert_eq!(rt; refused.err(), Some(SpRefusal::Bound));
    let refused = search_any(&rt, alloc, 2, 0, two.as_slice(), more.as_slice())?;
    assert_eq!(rt; refused.err(), Some(SpRefusal::Bound));
    let refused = search(&rt, alloc, 2, 0, one.as_slice(), [-1].as_slice())?;
    assert_eq!(rt; refused.err(), Some(SpRefusal::Negative(0)));
    let below = search_any(&rt, alloc, 2, 0, one.as_slice(), [-1].as_slice())?;
    assert_eq!(rt; farthest(below), -1);
    Ok(())
}

// A source on a closed walk of negative weight: no node is finite.
#[test]
fn a_low_source_leaves_no_finite_node(rt: HostRuntime) -> Result<(), Fail> {
    let arcs = [(0, 0), (0, 1)];
    let answer = search_any(&rt, rt.alloc(), 3, 0, arcs.as_slice(), [-1, 7].as_slice())?
        .ok()
        .expect(&rt, "an answer");
    assert_eq!(rt; answer.finite.as_slice().len(), 0);
    let low = [
        Low {
            node: 0,
            why: Why::Seed(0),
        },
        Low {
            node: 1,
            why: Why::Arc(1),
        },
    ];
    assert_eq!(rt; answer.low.as_slice(), low.as_slice());
    assert_eq!(rt; answer.unreached.as_slice(), [2].as_slice());
    Ok(())
}

// A wide search answers as the other does, also with costs below 0 and closed walks of them.
#[test]
fn a_wide_search_answers_as_the_other(rt: HostRuntime) -> Result<(), Fail> {
    let mut seed = 7u32;
    for round in 0..60u32 {
        let n = 2 + round % 7;
        let mut arcs = Vec::new(rt.alloc());
        let mut costs = Vec::new(rt.alloc());
        for _ in 0..(round % 23) {
            seed = (seed % 65537 * 75 + 74) % 65537;
            arcs.push((seed % n, seed / 8 % n))?;
            costs.push(i64::from(seed / 64 % 10) - 2)?;
        }
        let s = seed % n;
        let answer = search_wide(&rt, rt.alloc(), n, s, arcs.as_slice(), costs.as_slice())?;
        let other = search_any(&rt, rt.alloc(), n, s, arcs.as_slice(), costs.as_slice())?
            .ok()
            .expect(&rt, "an answer");
        let finite = told(rt.alloc(), answer.finite.as_slice())?;
        let others = told(rt.alloc(), other.finite.as_slice())?;
        assert_eq!(rt; finite.as_slice(), others.as_slice(), "round {round}");
        assert_eq!(rt;
            answer.low.as_slice(),
            other.low.as_slice(),
            "round {round}"
        );
        assert_eq!(rt;
            answer.unreached.as_slice(),
            other.unreached.as_slice(),
            "round {round}"
        );
    }
    Ok(())
}

// The most nodes, and the greatest and the least distance.
#[test]
fn a_wide_search_has_wide_limits(rt: HostRuntime) -> Result<(), Fail> {
    let alloc = rt.alloc();
    let arcs = [(1, 100_001), (0, 1)];
    let most = [4_611_686_018_427_387_903, 4_611_686_018_427_387_904];
    let answer = search_wide(&rt, alloc, 100_002, 0, arcs.as_slice(), most.as_slice())?;
    assert_eq!(rt; answer.finite.as_slice().len(), 3);
    assert_eq!(rt; answer.unreached.as_slice().len(), 99_999);
    assert_eq!(rt; last_dist(&answer), i64::MAX);
    let least = [-4_611_686_018_427_387_903, -4_611_686_018_427_387_904];
    let answer = search_wide(&rt, alloc, 100_002, 0, arcs.as_slice(), least.as_slice())?;
    assert_eq!(rt; last_dist(&answer), -i64::MAX);
    Ok(())
}

//! Answers for small nets, beside those of the complete search.

use super::*;
use crate::fast::{PATIENCE, Patience, propose};
use crate::join::{checked_or, is_right};
use graph_defs::{Finite, Low, Net, SpAnswer, Why};
use leda_base::{NoMemory, Row};
use sp_search::is_within_bound;
use std::alloc::Global;
use std::process::Abort;
use std::test::Fail;

// A net with the costs of its arcs, and a source.
#[derive(Drop)]
struct Question {
    net: Net,
    s: u32,
    cost: Vec<i64>,
}

fn asked(
    alloc: Global,
    n: u32,
    s: u32,
    arcs: &[(u32, u32)],
    cost: &[i64],
) -> Result<Question, NoMemory> {
    Ok(Question {
        net: Net {
            n,
            arcs: Row::from_vec(arcs.to_vec(alloc)?),
        },
        s,
        cost: cost.to_vec(alloc)?,
    })
}

// What the fast search proposes, which has to be right.
fn proposed(
    rt: &impl Abort,
    alloc: Global,
    q: &Question,
    patience: Patience,
) -> Result<SpAnswer, Fail> {
    let cost = q.cost.as_slice();
    assert!(rt; q.net.is_valid() && q.s < q.net.n);
    assert!(rt; cost.len() == q.net.arcs.as_slice().len());
    let answer = propose(alloc, &q.net, q.s, cost, patience)?;
    assert!(rt;
        is_right(alloc, &q.net, q.s, cost, &answer)?,
        "the proposal is refused"
    );
    Ok(answer)
}

// What is answered.
fn told(rt: &impl Abort, alloc: Global, q: &Question) -> Result<SpAnswer, SpRefusal> {
    let cost = q.cost.as_slice();
    assert!(rt; q.net.is_valid() && q.s < q.net.n);
    assert!(rt; cost.len() == q.net.arcs.as_slice().len());
    shortest(alloc, &q.net, q.s, cost)
}

// What the complete search answers.
fn searched(rt: &impl Abort, alloc: Global, q: &Question) -> Result<SpAnswer, SpRefusal> {
    let cost = q.cost.as_slice();
    assert!(rt; q.net.is_valid() && q.s < q.net.n);
    assert!(rt; cost.len() == q.net.arcs.as_slice().len());
    sp_search::shortest(alloc, &q.net, q.s, cost)
}

// The distances of an answer by node, where there are some.
fn dists_of(
    rt: &impl Abort,
    alloc: Global,
    n: u32,
    answer: &SpAnswer,
) -> Result<Vec<Option<i64>>, NoMemory> {
    let mut dists = vec![in alloc; None; n as usize]?;
    for f in answer.finite.as_slice() {
        assert!(rt; (f.node as usize) < dists.len());
        dists[f.node as usize] = Some(f.dist);
    }
    Ok(dists)
}

// The same distances, and as many low and unreached nodes.
fn agree(
    rt: &impl Abort,
    alloc: Global,
    n: u32,
    answer: &SpAnswer,
    other: &SpAnswer,
) -> Result<(), NoMemory> {
    let dists = dists_of(rt, alloc, n, answer)?;
    let others = dists_of(rt, alloc, n, other)?;
    assert_eq!(rt; dists.as_slice(), others.as_slice());
    assert_eq!(rt; answer.low.as_slice().len(), other.low.as_slice().len());
    assert_eq!(rt; answer.unreached.as_slice(), other.unreached.as_slice());
    Ok(())
}

// What is answered. It agrees with what the complete search answers, and with what the fast one
// proposes, also where it begins with a tree, where it goes through the components, and where it
// corrects them in passes.
fn compare(rt: &impl Abort, alloc: Global, q: &Question) -> Result<SpAnswer, Fail> {
    let answer = told(rt, alloc, q).ok().expect(rt, "an answer");
    let complete = searched(rt, alloc, q).ok().expect(rt, "an answer");
    agree(rt, alloc, q.net.n, &answer, &complete)?;
    for (scans, whole, within) in [
        (PATIENCE.scans, PATIENCE.whole, PATIENCE.within),
        (0, PATIENCE.whole, PATIENCE.within),
        (0, 0, PATIENCE.within),
        (0, 0, 0),
    ] {
        let patience = Patience {
            scans,
            whole,
            within,
        };
        let proposal = proposed(rt, alloc, q, patience)?;
        agree(rt, alloc, q.net.n, &answer, &proposal)?;
    }
    Ok(answer)
}

// Nets by chance: few nodes and many arcs, so that there are loops, parallel arcs, components of
// all sizes, and closed walks of negative weight and of weight 0.
#[test]
fn proposals_are_right(rt: HostRuntime) -> Result<(), Fail> {
    let mut seed = 1u32;
    for round in 0..120u32 {
        let n = 2 + round % 9;
        let below = i64::from(round % 4);
        let mut arcs = Vec::new(rt.alloc());
        let mut costs = Vec::new(rt.alloc());
        for _ in 0..round % 29 {
            seed = (seed % 65537 * 75 + 74) % 65537;
            arcs.push((seed % n, seed / 8 % n))?;
            costs.push(i64::from(seed / 64 % 10) - below)?;
        }
        let q = asked(rt.alloc(), n, seed % n, arcs.as_slice(), costs.as_slice())?;
        compare(&rt, rt.alloc(), &q)?;
    }
    Ok(())
}

// A closed walk of negative weight that is reached, and what arcs lead to from it.
#[test]
fn a_negative_closed_walk_is_a_seed(rt: HostRuntime) -> Result<(), Fail> {
    let arcs = [(0, 1), (1, 2), (2, 1), (2, 3), (0, 4)];
    let costs = [1, -2, 1, 0, 5];
    let q = asked(rt.alloc(), 6, 0, arcs.as_slice(), costs.as_slice())?;
    let answer = compare(&rt, rt.alloc(), &q)?;
    assert_eq!(rt; answer.seeds.as_slice().len(), 1);
    for seed in answer.seeds.as_slice() {
        assert_eq!(rt; seed.start, 0);
        assert_eq!(rt; seed.walk.as_slice(), [0].as_slice());
        assert_eq!(rt; seed.cycle.as_slice(), [1, 2].as_slice());
    }
    assert_eq!(rt; answer.low.as_slice().len(), 3);
    assert_eq!(rt; answer.unreached.as_slice(), [5].as_slice());
    Ok(())
}

// Closed walks of weight 0, one that isn't reached, and one of negative weight that isn't either.
#[test]
fn other_closed_walks_are_none(rt: HostRuntime) -> Result<(), Fail> {
    let arcs = [(0, 1), (1, 2), (2, 1), (3, 4), (4, 3), (1, 5), (5, 1)];
    for costs in [[-2, 3, -3, 0, 0, 4, -4], [0, 0, 0, 0, -1, -1, 1]] {
        let q = asked(rt.alloc(), 6, 0, arcs.as_slice(), costs.as_slice())?;
        let answer = compare(&rt, rt.alloc(), &q)?;
        assert_eq!(rt; answer.low.as_slice().len(), 0);
        assert_eq!(rt; answer.unreached.as_slice(), [3, 4].as_slice());
    }
    Ok(())
}

// A negative loop at the source: no node is finite.
#[test]
fn a_low_source_leaves_no_finite_node(rt: HostRuntime) -> Result<(), Fail> {
    let arcs = [(0, 0), (0, 1)];
    let q = asked(rt.alloc(), 3, 0, arcs.as_slice(), [-1, 7].as_slice())?;
    let answer = compare(&rt, rt.alloc(), &q)?;
    assert_eq!(rt; answer.finite.as_slice().len(), 0);
    let low = [
        Low {
            node: 0,
            why: Why::Seed(0),
        },
        Low {
            node: 1,
            why: Why::Arc(1),
        },
    ];
    assert_eq!(rt; answer.low.as_slice(), low.as_slice());
    Ok(())
}

// Two components with a seed each, behind a finite one; one between them is low for the first.
#[test]
fn each_component_has_its_seed(rt: HostRuntime) -> Result<(), Fail> {
    let arcs = [
        (0, 1),
        (1, 0),
        (1, 2),
        (2, 3),
        (3, 2),
        (2, 4),
        (4, 4),
        (0, 5),
        (5, 6),
        (6, 5),
        (6, 4),
    ];
    let costs = [2, 1, 1, -3, 2, 1, -5, 1, 1, -2, 0];
    let q = asked(rt.alloc(), 7, 0, arcs.as_slice(), costs.as_slice())?;
    let answer = compare(&rt, rt.alloc(), &q)?;
    assert_eq!(rt; answer.finite.as_slice().len(), 2);
    assert_eq!(rt; answer.seeds.as_slice().len(), 2);
    assert_eq!(rt; answer.low.as_slice().len(), 5);
    Ok(())
}

// A component where the labels of nearly all nodes fall each time that a node's arcs are looked at,
// if nodes are taken as they come.
#[test]
fn labels_that_fall_often_are_corrected_in_passes(rt: HostRuntime) -> Result<(), Fail> {
    let n = 100u32;
    let mut arcs = vec![in rt.alloc(); (n - 1, 0u32)]?;
    let mut costs = vec![in rt.alloc(); 1_000_000_000i64]?;
    for from in 0..n {
        for turn in 0..n {
            let to = n - 1 - turn;
            if from < to {
                let far = i64::from(to - from);
                arcs.push((from, to))?;
                costs.push(far.wrapping_mul(far) - 10_000)?;
            }
        }
    }
    let q = asked(rt.alloc(), n, 0, arcs.as_slice(), costs.as_slice())?;
    let answer = compare(&rt, rt.alloc(), &q)?;
    assert_eq!(rt; answer.finite.as_slice().len(), 100);
    Ok(())
}

// An answer that isn't right is passed by.
#[test]
fn a_wrong_proposal_is_no_answer(rt: HostRuntime) -> Result<(), Fail> {
    let alloc = rt.alloc();
    let arcs = [(0, 1), (1, 2)];
    let q = asked(alloc, 3, 0, arcs.as_slice(), [4, -1].as_slice())?;
    let wrong = SpAnswer {
        finite: Row::from_vec(vec![in alloc;
            Finite {
                node: 0,
                dist: 0,
                pred: None
            },
        ]?),
        seeds: Row::new(alloc),
        low: Row::new(alloc),
        unreached: Row::from_vec(vec![in alloc; 1u32, 2]?),
    };
    let cost = q.cost.as_slice();
    assert!(rt; q.net.is_valid() && q.s < q.net.n);
    assert!(rt; cost.len() == q.net.arcs.as_slice().len());
    assert!(rt; is_within_bound(cost));
    let answer = checked_or(alloc, &q.net, q.s, cost, wrong)
        .ok()
        .expect(&rt, "an answer");
    let dists = dists_of(&rt, alloc, 3, &answer)?;
    assert_eq!(rt; dists.as_slice(), [Some(0), Some(4), Some(3)].as_slice());
    Ok(())
}

#[test]
fn what_is_too_large_is_refused(rt: HostRuntime) -> Result<(), Fail> {
    let alloc = rt.alloc();
    let two = [(0, 1), (0, 1)];
    for costs in [
        [4_611_686_018_427_387_903, 1],
        [-4_611_686_018_427_387_903, -1],
    ] {
        let q = asked(alloc, 2, 0, two.as_slice(), costs.as_slice())?;
        let refused = told(&rt, alloc, &q);
        assert_eq!(rt; refused.err(), Some(SpRefusal::Bound));
    }
    let q = asked(
        alloc,
        2,
        0,
        two.as_slice(),
        [-4_611_686_018_427_387_902, 1].as_slice(),
    )?;
    let answer = compare(&rt, alloc, &q)?;
    let dists = dists_of(&rt, alloc, 2, &answer)?;
    assert_eq!(rt;
        dists.as_slice(),
        [Some(0), Some(-4_611_686_018_427_387_902)].as_slice()
    );
    Ok(())
}

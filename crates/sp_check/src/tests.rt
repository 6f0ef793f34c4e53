//! Verdicts on answers for one small net.

use super::*;
use graph_defs::{Cond, Finite, Low, Net, Seed, SpAnswer, Verdict, Why};
use leda_base::{NoMemory, Row};
use std::alloc::Global;
use std::process::Abort;
use std::test::Fail;

// From node 0 an arc to 1, a cycle 1, 2 of weight -1, from it an arc to 3, and an arc from 0 to 4;
// node 5 lies apart.
const ARCS: [(u32, u32); 5] = [(0, 1), (1, 2), (2, 1), (2, 3), (0, 4)];

const COSTS: [i64; 5] = [1, -2, 1, 0, 5];

// The answer that is right, as plain parts that a test changes.
#[derive(Drop)]
struct Parts {
    finite: Vec<Finite>,
    start: u32,
    walk: Vec<u32>,
    cycle: Vec<u32>,
    low: Vec<Low>,
    unreached: Vec<u32>,
}

// The nodes at a finite distance, for these distances of node 0 and of node 4.
fn finite(alloc: Global, source: i64, other: i64) -> Result<Vec<Finite>, NoMemory> {
    Ok(vec![in alloc;
        Finite {
            node: 0,
            dist: source,
            pred: None
        },
        Finite {
            node: 4,
            dist: other,
            pred: Some(4)
        },
    ]?)
}

// The nodes below every distance, where this is why node 3 is one.
fn low(alloc: Global, last: Why) -> Result<Vec<Low>, NoMemory> {
    Ok(vec![in alloc;
        Low {
            node: 1,
            why: Why::Seed(0)
        },
        Low {
            node: 2,
            why: Why::Seed(0)
        },
        Low { node: 3, why: last },
    ]?)
}

fn right(alloc: Global) -> Result<Parts, NoMemory> {
    Ok(Parts {
        finite: finite(alloc, 0, 5)?,
        start: 0,
        walk: vec![in alloc; 0]?,
        cycle: vec![in alloc; 1, 2]?,
        low: low(alloc, Why::Arc(3))?,
        unreached: vec![in alloc; 5]?,
    })
}

fn verdict(rt: &impl Abort, alloc: Global, parts: Parts) -> Result<Verdict, NoMemory> {
    let net = Net {
        n: 6,
        arcs: Row::from_vec(Vec::from_slice(alloc, ARCS.as_slice())?),
    };
    assert!(rt; net.is_valid());
    let Parts {
        finite,
        start,
        walk,
        cycle,
        low,
        unreached,
    } = parts;
    let mut seeds = Row::new(alloc);
    seeds.push(Seed {
        start,
        walk: Row::from_vec(walk),
        cycle: Row::from_vec(cycle),
    })?;
    let answer = SpAnswer {
        finite: Row::from_vec(finite),
        seeds,
        low: Row::from_vec(low),
        unreached: Row::from_vec(unreached),
    };
    check_sp(alloc, &net, 0, COSTS.as_slice(), &answer)
}

fn no(cond: Cond, place: u32) -> Verdict {
    Verdict::No { cond, place }
}

#[test]
fn a_right_answer_passes(rt: HostRuntime) -> Result<(), Fail> {
    let parts = right(rt.alloc())?;
    assert_eq!(rt; verdict(&rt, rt.alloc(), parts)?, Verdict::Yes);
    Ok(())
}

#[test]
fn each_condition_is_found_where_it_is_broken_first(rt: HostRuntime) -> Result<(), Fail> {
    let alloc = rt.alloc();
    let mut parts = right(alloc)?;
    parts.unreached.push(6)?;
    assert_eq!(rt; verdict(&rt, alloc, parts)?, no(Cond::Range, 0));

    let mut parts = right(alloc)?;
    parts.unreached.push(3)?;
    assert_eq!(rt; verdict(&rt, alloc, parts)?, no(Cond::Once, 3));

    let mut parts = right(alloc)?;
    parts.finite = finite(alloc, 1, 5)?;
    assert_eq!(rt; verdict(&rt, alloc, parts)?, no(Cond::Source, 0));

    let mut parts = right(alloc)?;
    parts.finite = finite(alloc, 0, 4)?;
    assert_eq!(rt; verdict(&rt, alloc, parts)?, no(Cond::TightNode, 4));

    let mut parts = right(alloc)?;
    parts.walk.push(1)?;
    assert_eq!(rt; verdict(&rt, alloc, parts)?, no(Cond::Seed, 0));

    let mut parts = right(alloc)?;
    parts.low = low(alloc, Why::Seed(0))?;
    assert_eq!(rt; verdict(&rt, alloc, parts)?, no(Cond::Low, 3));

    let mut parts = right(alloc)?;
    parts.low.truncate(2);
    parts.unreached = vec![in alloc; 3, 5]?;
    assert_eq!(rt; verdict(&rt, alloc, parts)?, no(Cond::Leaves, 3));
    Ok(())
}

#[test]
fn an_arc_that_is_shorter_is_found(rt: HostRuntime) -> Result<(), Fail> {
    let alloc = rt.alloc();
    let net = Net {
        n: 2,
        arcs: Row::from_vec(vec![in alloc; (0, 1), (0, 1)]?),
    };
    assert!(rt; net.is_valid());
    for (pred, dist, want) in [(0, 3, no(Cond::Shorter, 1)), (1, 2, Verdict::Yes)] {
        let answer = SpAnswer {
            finite: Row::from_vec(vec![in alloc;
                Finite {
                    node: 0,
                    dist: 0,
                    pred: None
                },
                Finite {
                    node: 1,
                    dist,
                    pred: Some(pred)
                },
            ]?),
            seeds: Row::new(alloc),
            low: Row::new(alloc),
            unreached: Row::new(alloc),
        };
        assert_eq!(rt; check_sp(alloc, &net, 0, [3, 2].as_slice(), &answer)?, want);
    }
    Ok(())
}

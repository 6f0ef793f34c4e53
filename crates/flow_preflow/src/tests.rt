//! Maximum flows of small nets, each answer checked, and its value that of the complete search.
ghost use Rattle.std.specs.Prelude.{IfOk};
ghost use Rattle.graph_defs.specs.Net.{IsValid};

use super::*;
use crate::fast::{PATIENCE, propose};
use crate::join::{checked_or, is_right};
use flow_net::{cause_against, max_flow};
use graph_defs::{FlowAnswer, Net};
use leda_base::{NoMemory, Row};
use std::alloc::Global;
use std::process::Abort;
use std::test::Fail;

// The greatest sum that capacities may have.
const BOUND: i64 = 4_611_686_018_427_387_903;

fn net_of(rt: &impl Abort, alloc: Global, n: u32, arcs: &[(u32, u32)]) -> Result<Net, NoMemory>
    ensures { IfOk result IsValid }
{
    let net = Net {
        n,
        arcs: Row::from_vec(arcs.to_vec(alloc)?),
    };
    assert!(rt; net.is_valid());
    Ok(net)
}

// What is answered, and how many relabels it took.
fn answer_of(
    rt: &impl Abort,
    alloc: Global,
    n: u32,
    arcs: &[(u32, u32)],
    (s, t): (u32, u32),
    cap: &[i64],
) -> Result<(Result<FlowAnswer, FlowRefusal>, u64), NoMemory> {
    let net = net_of(rt, alloc, n, arcs)?;
    assert!(rt; s < net.n && t < net.n);
    assert!(rt; cap.len() == net.arcs.as_slice().len());
    let mut steps = 0;
    let told = preflow(alloc, &net, s, t, cap, &mut steps);
    Ok((told, steps))
}

// What the fast search proposes, which may take so much for paths, and the number of its relabels.
// Fails where that isn't right, or hasn't the value of the complete one.
fn see(
    rt: &impl Abort,
    alloc: Global,
    n: u32,
    arcs: &[(u32, u32)],
    (s, t): (u32, u32),
    cap: &[i64],
    patience: u64,
) -> Result<(FlowAnswer, u64), Fail> {
    let net = net_of(rt, alloc, n, arcs)?;
    assert!(rt; s < net.n && t < net.n);
    assert!(rt; cap.len() == net.arcs.as_slice().len());
    let limit = 1_000_000;
    let mut left = limit;
    let proposed = propose(alloc, &net, s, t, cap, patience, &mut left)?;
    assert!(rt;
        is_right(alloc, &net, s, t, cap, &proposed)?,
        "{patience} {arcs:?} {cap:?}"
    );
    let Ok(wanted) = max_flow(alloc, &net, s, t, cap) else {
        return Err("no flow")?;
    };
    assert_eq!(rt; proposed.value, wanted.value, "{patience} {arcs:?} {cap:?}");
    Ok((proposed, limit.saturating_sub(left)))
}

// From 0 by two arcs to 1, and on to 2; an arc back, and a loop at 1.
#[test]
fn arcs_into_the_source_and_loops_carry_nothing(rt: HostRuntime) -> Result<(), Fail> {
    let arcs = [(0, 1), (0, 1), (1, 0), (1, 1), (1, 2)];
    let cap = [3, 2, 4, 7, 9];
    let (told, _) = answer_of(&rt, rt.alloc(), 3, arcs.as_slice(), (0, 2), cap.as_slice())?;
    let Ok(answer) = told else {
        return Err("refused")?;
    };
    assert_eq!(rt; answer.value, 5);
    assert_eq!(rt; answer.cut.as_slice(), [0].as_slice());
    assert_eq!(rt; answer.flow.as_slice(), [3, 2, 0, 0, 5].as_slice());
    Ok(())
}

#[test]
fn refusals_come_in_their_order_and_count_nothing(rt: HostRuntime) -> Result<(), Fail> {
    let arcs = [(0, 1), (0, 1), (1, 0)];
    for (ends, cap, want) in [
        ((1, 1), [-1, BOUND, BOUND], FlowRefusal::Same),
        ((0, 1), [BOUND, -1, -2], FlowRefusal::Negative(1)),
        ((0, 1), [BOUND, 0, 1], FlowRefusal::Bound),
    ] {
        let (told, steps) = answer_of(&rt, rt.alloc(), 2, arcs.as_slice(), ends, cap.as_slice())?;
        assert_eq!(rt; told.err(), Some(want));
        assert_eq!(rt; steps, 0);
    }
    Ok(())
}

#[test]
fn capacities_of_the_greatest_sum_are_taken(rt: HostRuntime) -> Result<(), Fail> {
    let arcs = [(0, 1), (0, 1), (1, 0)];
    let cap = [BOUND - 5, 3, 2];
    for patience in [0, PATIENCE] {
        see(
            &rt,
            rt.alloc(),
            2,
            arcs.as_slice(),
            (0, 1),
            cap.as_slice(),
            patience,
        )?;
    }
    Ok(())
}

// The shortest path goes by the arc from 1 to 2, along which nothing flows in the end.
#[test]
fn a_path_is_undone(rt: HostRuntime) -> Result<(), Fail> {
    let arcs = [
        (0, 1),
        (1, 2),
        (2, 5),
        (0, 3),
        (3, 4),
        (4, 2),
        (1, 6),
        (6, 7),
        (7, 5),
    ];
    let cap = [1; 9];
    for patience in [0, PATIENCE] {
        let (answer, _) = see(
            &rt,
            rt.alloc(),
            8,
            arcs.as_slice(),
            (0, 5),
            cap.as_slice(),
            patience,
        )?;
        assert_eq!(rt; answer.value, 2);
        assert_eq!(rt;
            answer.flow.as_slice(),
            [1, 0, 1, 1, 1, 1, 1, 1, 1].as_slice()
        );
    }
    Ok(())
}

// A path, whose last arc takes little: nearly all that is pushed has to go back by way of every node.
#[test]
fn a_flood_flows_back(rt: HostRuntime) -> Result<(), Fail> {
    let mut arcs = Vec::new(rt.alloc());
    let mut cap = Vec::new(rt.alloc());
    for node in 0..30u32 {
        arcs.push((node, node + 1))?;
        cap.push(if node == 29 { 1 } else { 1000 })?;
        arcs.push((node + 1, node))?;
        cap.push(500)?;
    }
    for patience in [0, PATIENCE] {
        let (answer, steps) = see(
            &rt,
            rt.alloc(),
            31,
            arcs.as_slice(),
            (0, 30),
            cap.as_slice(),
            patience,
        )?;
        assert_eq!(rt; answer.value, 1);
        assert!(rt;
            (steps > 0) == (patience == 0) && steps <= 61 * 31,
            "{steps} relabels"
        );
    }
    Ok(())
}

// By pushes alone, by pushes behind paths that were broken off, and by paths alone.
#[test]
fn what_is_proposed_on_random_nets_is_right(rt: HostRuntime) -> Result<(), Fail> {
    let mut seed = 1u32;
    let mut steps = [0u64; 3];
    for round in 0..300u32 {
        let n = 2 + round % 9;
        let mut arcs = Vec::new(rt.alloc());
        let mut cap = Vec::new(rt.alloc());
        for _ in 0..round % 31 {
            seed = (seed % 65537 * 75 + 74) % 65537;
            arcs.push((seed % n, seed / 8 % n))?;
            cap.push(i64::from(seed / 64 % 10))?;
        }
        let ends = (seed % n, (seed % n + 1) % n);
        for (way, patience) in [(0, 0), (1, 1), (2, u64::MAX)] {
            let (_, count) = see(
                &rt,
                rt.alloc(),
                n,
                arcs.as_slice(),
                ends,
                cap.as_slice(),
                patience,
            )?;
            steps[way] = steps[way].saturating_add(count);
        }
    }
    assert!(rt;
        steps[0] > 0 && steps[1] > 0 && steps[2] == 0,
        "{steps:?} relabels"
    );
    Ok(())
}

// A value that is too large is passed by, and the complete search is asked.
#[test]
fn a_wrong_proposal_is_passed_by(rt: HostRuntime) -> Result<(), Fail> {
    let alloc = rt.alloc();
    let net = net_of(&rt, alloc, 2, [(0, 1)].as_slice())?;
    let cap = [4];
    let wrong = FlowAnswer {
        flow: Row::from_slice(alloc, [5].as_slice())?,
        value: 5,
        cut: Row::from_slice(alloc, [0].as_slice())?,
    };
    let (s, t) = (0, 1);
    assert!(rt; s < net.n && t < net.n);
    assert!(rt; cap.len() == net.arcs.as_slice().len());
    assert!(rt; !is_right(alloc, &net, s, t, cap.as_slice(), &wrong)?);
    assert!(rt; cause_against(s, t, cap.as_slice()).is_none());
    let answer = checked_or(alloc, &net, s, t, cap.as_slice(), wrong)?;
    assert_eq!(rt; answer.value, 4);
    Ok(())
}

//! Maximum flows of small nets, each answer counted again.

use super::*;
use graph_defs::{FlowAnswer, Net};
use leda_base::{NoMemory, Row};
use std::alloc::Global;
use std::process::Abort;
use std::test::Fail;

// The greatest sum that capacities may have.
const BOUND: i64 = 4_611_686_018_427_387_903;

fn answer_of(
    rt: &impl Abort,
    alloc: Global,
    n: u32,
    arcs: &[(u32, u32)],
    (s, t): (u32, u32),
    cap: &[i64],
) -> Result<Result<FlowAnswer, FlowRefusal>, NoMemory> {
    let net = Net {
        n,
        arcs: Row::from_vec(arcs.to_vec(alloc)?),
    };
    assert!(rt; net.is_valid());
    assert!(rt; s < net.n && t < net.n);
    assert!(rt; cap.len() == net.arcs.as_slice().len());
    Ok(max_flow(alloc, &net, s, t, cap))
}

// The value of an answer, and -1 where there is none.
fn value_of(told: Result<FlowAnswer, FlowRefusal>) -> i64 {
    match told {
        Ok(answer) => answer.value,
        Err(_) => -1,
    }
}

fn refusal_of(told: Result<FlowAnswer, FlowRefusal>) -> Option<FlowRefusal> {
    match told {
        Ok(_) => None,
        Err(refusal) => Some(refusal),
    }
}

fn has(cut: &[u32], node: u32) -> bool {
    cut.iter().any(|member| *member == node)
}

// What leaves a node less what enters it.
fn outflow(arcs: &[(u32, u32)], flow: &[i64], node: u32) -> i128 {
    let mut sum: i128 = 0;
    for ((from, to), along) in arcs.iter().zip(flow) {
        if *from == node {
            sum = sum.wrapping_add(i128::from(*along));
        }
        if *to == node {
            sum = sum.wrapping_sub(i128::from(*along));
        }
    }
    sum
}

// What may leave a set of nodes.
fn capacity(arcs: &[(u32, u32)], cap: &[i64], cut: &[u32]) -> i128 {
    let mut sum: i128 = 0;
    for ((from, to), most) in arcs.iter().zip(cap) {
        if has(cut, *from) && !has(cut, *to) {
            sum = sum.wrapping_add(i128::from(*most));
        }
    }
    sum
}

// Whether an answer is a flow and a cut of its value, counted anew.
fn is_right(
    n: u32,
    arcs: &[(u32, u32)],
    (s, t): (u32, u32),
    cap: &[i64],
    answer: &FlowAnswer,
) -> bool {
    let flow = answer.flow.as_slice();
    let cut = answer.cut.as_slice();
    let value = i128::from(answer.value);
    flow.len() == cap.len()
        && flow
            .iter()
            .zip(cap)
            .all(|(along, most)| 0 <= *along && *along <= *most)
        && (0..n).all(|node| node == s || node == t || outflow(arcs, flow, node) == 0)
        && outflow(arcs, flow, s) == value
        && has(cut, s)
        && !has(cut, t)
        && capacity(arcs, cap, cut) == value
}

// From 0 by two arcs to 1, and on to 2; an arc back, and a loop at 1.
#[test]
fn a_net_with_parallel_arcs_an_arc_back_and_a_loop(rt: HostRuntime) -> Result<(), Fail> {
    let arcs = [(0, 1), (0, 1), (1, 0), (1, 1), (1, 2)];
    let cap = [3, 2, 4, 7, 4];
    match answer_of(&rt, rt.alloc(), 3, arcs.as_slice(), (0, 2), cap.as_slice())? {
        Ok(answer) => {
            assert_eq!(rt; answer.value, 4);
            assert_eq!(rt; answer.cut.as_slice(), [0, 1].as_slice());
            assert!(rt; is_right(3, arcs.as_slice(), (0, 2), cap.as_slice(), &answer));
        }
        Err(_) => assert!(rt; false, "refused"),
    }
    Ok(())
}

// The first path found goes along the arc from 1 to 2, so the second one goes back there.
#[test]
fn flow_is_sent_back(rt: HostRuntime) -> Result<(), Fail> {
    let arcs = [
        (0, 1),
        (1, 2),
        (2, 5),
        (0, 3),
        (3, 4),
        (4, 2),
        (1, 6),
        (6, 7),
        (7, 5),
    ];
    let cap = [1; 9];
    let told = answer_of(&rt, rt.alloc(), 8, arcs.as_slice(), (0, 5), cap.as_slice())?;
    assert_eq!(rt; value_of(told), 2);
    Ok(())
}

#[test]
fn where_no_path_leads_the_value_is_0(rt: HostRuntime) -> Result<(), Fail> {
    let arcs = [(1, 0), (2, 1), (0, 0)];
    match answer_of(
        &rt,
        rt.alloc(),
        3,
        arcs.as_slice(),
        (0, 2),
        [5, 6, 7].as_slice(),
    )? {
        Ok(answer) => {
            assert_eq!(rt; answer.value, 0);
            assert_eq!(rt; answer.flow.as_slice(), [0, 0, 0].as_slice());
            assert_eq!(rt; answer.cut.as_slice(), [0].as_slice());
        }
        Err(_) => assert!(rt; false, "refused"),
    }
    Ok(())
}

#[test]
fn refusals_come_in_their_order(rt: HostRuntime) -> Result<(), Fail> {
    let arcs = [(0, 1), (0, 1), (1, 0)];
    for (ends, cap, want) in [
        ((1, 1), [-1, BOUND, BOUND], FlowRefusal::Same),
        ((0, 1), [BOUND, -1, -2], FlowRefusal::Negative(1)),
        ((0, 1), [BOUND, BOUND, -2], FlowRefusal::Negative(2)),
        ((0, 1), [BOUND, 0, 1], FlowRefusal::Bound),
    ] {
        let told = answer_of(&rt, rt.alloc(), 2, arcs.as_slice(), ends, cap.as_slice())?;
        assert_eq!(rt; refusal_of(told), Some(want));
    }
    Ok(())
}

#[test]
fn capacities_of_the_greatest_sum_are_taken(rt: HostRuntime) -> Result<(), Fail> {
    let arcs = [(0, 1), (0, 1), (1, 0)];
    let cap = [BOUND - 5, 3, 2];
    let told = answer_of(&rt, rt.alloc(), 2, arcs.as_slice(), (0, 1), cap.as_slice())?;
    assert_eq!(rt; value_of(told), BOUND - 2);
    Ok(())
}

#[test]
fn answers_on_random_nets_are_right(rt: HostRuntime) -> Result<(), Fail> {
    let mut seed = 1u32;
    for round in 0..300u32 {
        let n = 2 + round % 7;
        let mut arcs = Vec::new(rt.alloc());
        let mut cap = Vec::new(rt.alloc());
        for _ in 0..round % 19 {
            seed = (seed % 65537 * 75 + 74) % 65537;
            arcs.push((seed % n, seed / 8 % n))?;
            cap.push(i64::from(seed / 64 % 10))?;
        }
        let ends = (seed % n, (seed % n + 1) % n);
        let told = answer_of(&rt, rt.alloc(), n, arcs.as_slice(), ends, cap.as_slice())?;
        match told {
            Ok(answer) => {
                let right = is_right(n, arcs.as_slice(), ends, cap.as_slice(), &answer);
                assert!(rt; right, "round {round}");
            }
            Err(_) => assert!(rt; false, "round {round} refused"),
        }
    }
    Ok(())
}

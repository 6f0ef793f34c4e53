//! Verdicts on answers for one small net.

use super::*;
use graph_defs::{Cond, FlowAnswer, Net, Verdict};
use leda_base::Row;
use std::test::Fail;

// From 0 by two arcs to 1, and on to 2; an arc back, and a loop at 1.
#[test]
fn each_condition_is_found_where_it_is_broken_first(rt: HostRuntime) -> Result<(), Fail> {
    let alloc = rt.alloc();
    let net = Net {
        n: 3,
        arcs: Row::from_vec(vec![in alloc; (0, 1), (0, 1), (1, 0), (1, 1), (1, 2)]?),
    };
    assert!(rt; net.is_valid());
    let capacities = [3, 2, 4, 7, 4];
    for (flow, value, cut, want) in [
        ([3, 1, 0, 0, 4], 4, [0, 1, 1], Verdict::Yes),
        ([2, 2, 0, 5, 4], 4, [0, 1, 1], Verdict::Yes),
        (
            [3, 1, 0, 0, 4],
            4,
            [0, 1, 3],
            Verdict::No {
                cond: Cond::Range,
                place: 0,
            },
        ),
        (
            [3, 3, 0, 0, 4],
            4,
            [0, 1, 1],
            Verdict::No {
                cond: Cond::Bounds,
                place: 1,
            },
        ),
        (
            [3, 1, -1, 0, 4],
            4,
            [0, 1, 1],
            Verdict::No {
                cond: Cond::Bounds,
                place: 2,
            },
        ),
        (
            [3, 1, 0, 0, 3],
            4,
            [0, 1, 1],
            Verdict::No {
                cond: Cond::Balance,
                place: 1,
            },
        ),
        (
            [3, 1, 0, 0, 4],
            4,
            [1, 1, 1],
            Verdict::No {
                cond: Cond::Cut,
                place: 0,
            },
        ),
        (
            [3, 1, 0, 0, 4],
            4,
            [0, 1, 2],
            Verdict::No {
                cond: Cond::Cut,
                place: 0,
            },
        ),
        (
            [3, 1, 0, 0, 4],
            5,
            [0, 1, 1],
            Verdict::No {
                cond: Cond::Value,
                place: 0,
            },
        ),
        (
            [3, 1, 0, 0, 4],
            4,
            [0, 0, 0],
            Verdict::No {
                cond: Cond::Value,
                place: 0,
            },
        ),
    ] {
        let answer = FlowAnswer {
            flow: Row::from_vec(Vec::from_slice(alloc, flow.as_slice())?),
            value,
            cut: Row::from_vec(Vec::from_slice(alloc, cut.as_slice())?),
        };
        assert_eq!(rt;
            check_flow(alloc, &net, 0, 2, capacities.as_slice(), &answer)?,
            want
        );
    }
    Ok(())
}

// Sums past 64 bits are exact: two arcs of the greatest capacity.
#[test]
fn sums_do_not_wrap(rt: HostRuntime) -> Result<(), Fail> {
    let alloc = rt.alloc();
    let net = Net {
        n: 2,
        arcs: Row::from_vec(vec![in alloc; (0, 1), (0, 1)]?),
    };
    assert!(rt; net.is_valid());
    let answer = FlowAnswer {
        flow: Row::from_vec(vec![in alloc; i64::MAX, i64::MAX]?),
        value: -2,
        cut: Row::from_vec(vec![in alloc; 0]?),
    };
    let verdict = check_flow(alloc, &net, 0, 1, [i64::MAX, i64::MAX].as_slice(), &answer)?;
    assert_eq!(rt;
        verdict,
        Verdict::No {
            cond: Cond::Value,
            place: 0
        }
    );
    Ok(())
}

//! Verdicts on answers for one small net.

use super::*;
use graph_defs::{Cond, MatchAnswer, Net, Verdict};
use leda_base::Row;
use std::test::Fail;

// A triangle 0, 1, 2, an arc from 3 into it, a parallel one the other way, a loop at 4, and node 5
// by itself.
const ARCS: [(u32, u32); 6] = [(0, 1), (1, 2), (0, 2), (3, 0), (0, 3), (4, 4)];

fn no(cond: Cond, place: u32) -> Verdict {
    Verdict::No { cond, place }
}

#[test]
fn each_condition_is_found_where_it_is_broken_first(rt: HostRuntime) -> Result<(), Fail> {
    let alloc = rt.alloc();
    let net = Net {
        n: 6,
        arcs: Row::from_vec(Vec::from_slice(alloc, ARCS.as_slice())?),
    };
    assert!(rt; net.is_valid());
    for (edges, cover, want) in [
        (
            [1, 3].as_slice(),
            [1, 2, 2, 0, 0, 0].as_slice(),
            Verdict::Yes,
        ),
        (
            [4, 1].as_slice(),
            [1, 4_294_967_295, 4_294_967_295, 9, 9, 0].as_slice(),
            no(Cond::Size, 0),
        ),
        (
            [4, 1].as_slice(),
            [1, 4_294_967_295, 4_294_967_295, 9, 8, 8].as_slice(),
            no(Cond::Size, 0),
        ),
        (
            [4, 1].as_slice(),
            [1, 4_294_967_295, 4_294_967_295, 9, 8, 2].as_slice(),
            Verdict::Yes,
        ),
        (
            [4, 1].as_slice(),
            [1, 9, 9, 7, 8, 2].as_slice(),
            Verdict::Yes,
        ),
        (
            [1, 3].as_slice(),
            [1, 0, 1, 0, 0, 0].as_slice(),
            Verdict::Yes,
        ),
        (
            [1, 6].as_slice(),
            [1, 2, 2, 0, 0, 0].as_slice(),
            no(Cond::Range, 0),
        ),
        (
            [1, 3].as_slice(),
            [1, 2, 2, 0, 0].as_slice(),
            no(Cond::Range, 0),
        ),
        (
            [1, 3].as_slice(),
            [1, 2, 2, 0, 0, 0, 0].as_slice(),
            no(Cond::Range, 0),
        ),
        (
            [1, 5, 1].as_slice(),
            [1, 2, 2, 0, 0, 0].as_slice(),
            no(Cond::SelfLoop, 5),
        ),
        (
            [3, 4].as_slice(),
            [1, 2, 2, 0, 0, 0].as_slice(),
            no(Cond::Shared, 0),
        ),
        (
            [1, 1].as_slice(),
            [1, 2, 2, 0, 0, 0].as_slice(),
            no(Cond::Shared, 1),
        ),
        (
            [1, 3].as_slice(),
            [0, 1, 1, 0, 0, 0].as_slice(),
            no(Cond::Label, 3),
        ),
        (
            [1, 3].as_slice(),
            [0, 2, 2, 1, 0, 0].as_slice(),
            no(Cond::Label, 0),
        ),
        (
            [1, 3].as_slice(),
            [0, 0, 0, 0, 0, 0].as_slice(),
            no(Cond::Label, 0),
        ),
        (
            [1].as_slice(),
            [1, 2, 2, 0, 0, 0].as_slice(),
            no(Cond::Size, 0),
        ),
        (
            [1, 3].as_slice(),
            [1, 2, 2, 1, 0, 0].as_slice(),
            no(Cond::Size, 0),
        ),
        (
            [1].as_slice(),
            [2, 2, 2, 2, 0, 0].as_slice(),
            no(Cond::Size, 0),
        ),
        (
            [1].as_slice(),
            [2, 2, 2, 1, 0, 0].as_slice(),
            no(Cond::Size, 0),
        ),
        (
            [1, 3].as_slice(),
            [2, 2, 2, 2, 3, 3].as_slice(),
            no(Cond::Size, 0),
        ),
        (
            [].as_slice(),
            [0, 0, 0, 0, 0, 0].as_slice(),
            no(Cond::Label, 0),
        ),
    ] {
        let answer = MatchAnswer {
            edges: Row::from_vec(Vec::from_slice(alloc, edges)?),
            cover: Row::from_vec(Vec::from_slice(alloc, cover)?),
        };
        assert_eq!(rt; check_matching(alloc, &net, &answer)?, want);
    }
    Ok(())
}

#[test]
fn nets_without_edges_have_the_empty_matching(rt: HostRuntime) -> Result<(), Fail> {
    let alloc = rt.alloc();
    for n in 0..3u32 {
        let net = Net {
            n,
            arcs: Row::new(alloc),
        };
        assert!(rt; net.is_valid());
        let answer = MatchAnswer {
            edges: Row::new(alloc),
            cover: Row::from_vec(vec![in alloc; 0u32; n as usize]?),
        };
        assert_eq!(rt; check_matching(alloc, &net, &answer)?, Verdict::Yes);
    }
    Ok(())
}

//! Matchings of small nets by both searches.

use super::*;
use crate::search::Complete;
use graph_defs::{Net, Verdict};
use leda_base::{NoMemory, Row};
use match_check::check_matching;
use match_fast::MatchingSearch;
use std::alloc::Global;
use std::process::Abort;
use std::test::Fail;

// Both searches find so many edges, and the check says yes to each.
fn check(
    rt: &impl Abort,
    alloc: Global,
    n: u32,
    arcs: &[(u32, u32)],
    most: usize,
) -> Result<(), NoMemory> {
    let net = Net {
        n,
        arcs: Row::from_slice(alloc, arcs)?,
    };
    assert!(rt; net.is_valid());
    for answer in [max_matching(alloc, &net)?, Complete.search(alloc, &net)?] {
        assert_eq!(rt; answer.edges.as_slice().len(), most);
        assert!(rt; check_matching(alloc, &net, &answer)? == Verdict::Yes);
    }
    Ok(())
}

#[test]
fn both_searches_find_as_many_edges(rt: HostRuntime) -> Result<(), Fail> {
    let alloc = rt.alloc();
    check(&rt, alloc, 0, [].as_slice(), 0)?;
    check(&rt, alloc, 3, [(1, 1)].as_slice(), 0)?;
    let cycle = [(0, 1), (1, 2), (2, 3), (3, 4), (4, 0)];
    check(&rt, alloc, 5, cycle.as_slice(), 2)?;
    let triangles = [(0, 1), (1, 2), (2, 0), (3, 4), (4, 5), (5, 3), (2, 3)];
    check(&rt, alloc, 6, triangles.as_slice(), 3)?;
    let flower = [
        (0, 1),
        (1, 2),
        (2, 0),
        (2, 3),
        (3, 4),
        (4, 5),
        (5, 6),
        (6, 0),
        (4, 7),
        (7, 7),
    ];
    check(&rt, alloc, 8, flower.as_slice(), 4)?;
    Ok(())
}

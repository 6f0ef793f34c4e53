//! Which arcs of a small net are a matching, and where they first aren't.

use super::*;
use graph_defs::Net;
use leda_base::Row;
use std::test::Fail;

// A path 0, 1, 2, 3 with its middle edge twice, a loop at 1, and a loop at 4.
const ARCS: [(u32, u32); 6] = [(0, 1), (1, 1), (2, 1), (1, 2), (2, 3), (4, 4)];

#[test]
fn a_matching_has_no_loops_and_no_shared_ends(rt: HostRuntime) -> Result<(), Fail> {
    let alloc = rt.alloc();
    let net = Net {
        n: 5,
        arcs: Row::from_vec(Vec::from_slice(alloc, ARCS.as_slice())?),
    };
    assert!(rt; net.is_valid());
    for (edges, want) in [
        ([].as_slice(), true),
        ([0, 4].as_slice(), true),
        ([4, 0].as_slice(), true),
        ([3].as_slice(), true),
        ([0, 0].as_slice(), false),
        ([2, 3].as_slice(), false),
        ([0, 2].as_slice(), false),
        ([1].as_slice(), false),
        ([0, 5].as_slice(), false),
        ([6].as_slice(), false),
        ([0, 4_294_967_295].as_slice(), false),
    ] {
        assert_eq!(rt; is_matching(alloc, &net, edges)?, want);
    }
    Ok(())
}

#[test]
fn the_least_place_is_found(rt: HostRuntime) -> Result<(), Fail> {
    let alloc = rt.alloc();
    let net = Net {
        n: 5,
        arcs: Row::from_vec(Vec::from_slice(alloc, ARCS.as_slice())?),
    };
    assert!(rt; net.is_valid());
    for (edges, want) in [
        ([5, 1, 0].as_slice(), Some(1)),
        ([0, 5].as_slice(), Some(5)),
        ([0, 4].as_slice(), None),
    ] {
        assert!(rt; are_edges(&net, edges));
        assert_eq!(rt; first_loop(&net, edges), want);
    }
    for (edges, want) in [
        ([4, 2, 0].as_slice(), Some(1)),
        ([4, 4].as_slice(), Some(2)),
        ([0, 4].as_slice(), None),
    ] {
        assert!(rt; are_edges(&net, edges));
        assert!(rt; first_loop(&net, edges).is_none());
        assert_eq!(rt; first_shared(alloc, &net, edges)?, want);
    }
    Ok(())
}

//! How many edges the matching has, beside a count over all sets of nodes.

use super::*;
use graph_defs::Net;
use leda_base::{NoMemory, Row};
use std::alloc::Global;
use std::process::Abort;
use std::test::Fail;

// The set of one node.
fn bit(node: u32) -> u32 {
    if node < 32 { 1 << node } else { 0 }
}

// How many edges a largest matching has, from the least set of nodes to all of them.
fn largest(alloc: Global, n: u32, arcs: &[(u32, u32)]) -> Result<u32, NoMemory> {
    let mut table = Vec::new(alloc);
    let mut most = 0;
    for nodes in 0..bit(n) {
        most = 0;
        for (from, to) in arcs {
            let ends = bit(*from) | bit(*to);
            if from != to && nodes & ends == ends {
                let rest: u32 = *table.get((nodes ^ ends) as usize).unwrap_or(&0);
                most = most.max(rest.saturating_add(1));
            }
        }
        table.push(most)?;
    }
    Ok(most)
}

// The search finds as many edges.
fn check(rt: &impl Abort, alloc: Global, n: u32, arcs: &[(u32, u32)]) -> Result<(), NoMemory> {
    let net = Net {
        n,
        arcs: Row::from_slice(alloc, arcs)?,
    };
    assert!(rt; net.is_valid());
    let answer = max_matching(alloc, &net)?;
    let found = answer.edges.as_slice().len();
    assert_eq!(rt; found, largest(alloc, n, arcs)? as usize);
    Ok(())
}

#[test]
fn all_graphs_of_five_nodes(rt: HostRuntime) -> Result<(), Fail> {
    let alloc = rt.alloc();
    let pairs = [
        (0, 1),
        (0, 2),
        (0, 3),
        (0, 4),
        (1, 2),
        (1, 3),
        (1, 4),
        (2, 3),
        (2, 4),
        (3, 4),
    ];
    for chosen in 0..1024 {
        let mut arcs = Vec::new(alloc);
        let mut mark = 1u32;
        for pair in pairs.iter() {
            if chosen & mark != 0 {
                arcs.push(*pair)?;
            }
            mark = mark.wrapping_mul(2);
        }
        check(&rt, alloc, 5, arcs.as_slice())?;
    }
    Ok(())
}

// Loops and parallel arcs are among them.
#[test]
fn graphs_of_twelve_nodes(rt: HostRuntime) -> Result<(), Fail> {
    let alloc = rt.alloc();
    let mut seed = 1u32;
    for count in 0..40u32 {
        let mut arcs = Vec::new(alloc);
        for _ in 0..count / 2 + 6 {
            seed = seed.wrapping_mul(1_664_525).wrapping_add(1_013_904_223);
            arcs.push(((seed >> 24) % 12, (seed >> 16) % 12))?;
        }
        check(&rt, alloc, 12, arcs.as_slice())?;
    }
    Ok(())
}

#[test]
fn an_odd_cycle(rt: HostRuntime) -> Result<(), Fail> {
    let alloc = rt.alloc();
    let mut arcs = Row::new(alloc);
    for node in 0..101u32 {
        arcs.push((node, (node + 1) % 101))?;
    }
    let net = Net { n: 101, arcs };
    assert!(rt; net.is_valid());
    let answer = max_matching(alloc, &net)?;
    assert_eq!(rt; answer.edges.as_slice().len(), 50);
    Ok(())
}

//! Times the complete search for matchings beside the call that asks the fast one first, on random
//! nets of 250, 1,000 and 4,000 nodes and one and a half times the arcs. Given the word `matching` it
//! prints a line for each; with none it does nothing.
#![tactic(auto)]

use anyhow::bail;
use graph_defs::Net;
use leda_base::Row;
use std::alloc::Global;
use std::env;
use std::time::CpuClock;

/// The next number of a sequence as if by chance, below a number.
fn next(state: &mut u64, below: u32) -> u32 {
    *state = state
        .wrapping_mul(6364136223846793005)
        .wrapping_add(1442695040888963407);
    u32::try_from((*state >> 33) % u64::from(below.max(1))).unwrap_or(0)
}

/// A net with arcs by chance.
fn random(alloc: Global, n: u32, m: u32) -> anyhow::Result<Net> {
    let mut state = 1u64;
    let mut arcs = Vec::new(alloc);
    for _ in 0..m {
        let from = next(&mut state, n);
        let to = next(&mut state, n);
        arcs.push((from, to))?;
    }
    Ok(Net {
        n,
        arcs: Row::from_vec(arcs),
    })
}

/// Prints the microseconds of both searches on a net of so many nodes.
fn time(rt: &HostRuntime, n: u32) -> anyhow::Result<()> {
    let net = random(rt.alloc(), n, n.wrapping_mul(3) / 2)?;
    if !net.is_valid() {
        bail!("the net is too large");
    }
    let start = rt.process_cpu_time()?.as_micros();
    let Ok(complete) = blossom_search::max_matching(rt.alloc(), &net) else {
        bail!("no memory");
    };
    let middle = rt.process_cpu_time()?.as_micros();
    let Ok(fast) = match_search::max_matching(rt.alloc(), &net) else {
        bail!("no memory");
    };
    let end = rt.process_cpu_time()?.as_micros();
    if complete.edges.as_slice().len() != fast.edges.as_slice().len() {
        bail!("the matchings differ in size");
    }
    let (complete, fast) = (middle.wrapping_sub(start), end.wrapping_sub(middle));
    println!(rt; "{n} nodes: the complete search {complete} us, the fast one first {fast} us")?;
    Ok(())
}

fn main(rt: HostRuntime) -> anyhow::Result<()> {
    let mut words = env::args(&rt)?;
    let _program = words.next();
    let Some(word) = words.next() else {
        return Ok(());
    };
    if word.as_str() != "matching" {
        bail!("the word is matching");
    }
    for n in [250, 1_000, 4_000] {
        time(&rt, n)?;
    }
    Ok(())
}

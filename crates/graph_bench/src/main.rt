//! Times a graph of 100,000 nodes and 400,000 edges. Given the word `graph` it prints the
//! microseconds of each step, a line for each, and a sum of what it saw; with none it does nothing.
#![tactic(auto)]

mod build;

use anyhow::bail;
use std::env;
use std::time::Duration;

/// How many nodes there are.
pub const NODES: u32 = 100_000;

/// How many edges there are.
pub const EDGES: u32 = 400_000;

/// How long a step took.
pub fn report(rt: &HostRuntime, step: &str, time: Duration) -> anyhow::Result<()> {
    println!(rt; "{step} {}", time.as_micros())?;
    Ok(())
}

fn main(rt: HostRuntime) -> anyhow::Result<()> {
    let mut words = env::args(&rt)?;
    let _program = words.next();
    let Some(what) = words.next() else {
        return Ok(());
    };
    let sum = match what.as_str() {
        "graph" => build::time(&rt)?,
        _ => bail!("the word is graph"),
    };
    println!(rt; "sum {sum}")?;
    Ok(())
}

//! Times a container of items on a million values, or fills one for its memory to be measured.
//!
//! Given the word `pool`, `queue` or `dict` it prints the microseconds of each step, a line for
//! each, and a sum of what it saw; `bench/items.cpp` does the same work over the C++ standard
//! library. Given `pool_memory`, `pool_room_memory` or `ring_memory` it makes 400,000 values, and
//! given `nothing`, or no word, it does nothing.
#![tactic(auto)]

mod dict;
mod memory;
mod pool;
mod queue;
mod random;

use anyhow::bail;
use std::env;
use std::time::Duration;

/// How many values come in.
pub const VALUES: u32 = 1_000_000;

/// How long a step took.
pub fn report(rt: &HostRuntime, step: &str, time: Duration) -> anyhow::Result<()> {
    println!(rt; "{step} {}", time.as_micros())?;
    Ok(())
}

fn main(rt: HostRuntime) -> anyhow::Result<()> {
    let mut words = env::args(&rt)?;
    let _program = words.next();
    let Some(container) = words.next() else {
        return Ok(());
    };
    let sum = match container.as_str() {
        "pool" => pool::time(&rt)?,
        "queue" => queue::time(&rt)?,
        "dict" => dict::time(&rt)?,
        "nothing" => 0,
        "pool_memory" => memory::fill_pool(&rt, 0)?,
        "pool_room_memory" => memory::fill_pool(&rt, memory::EDGES)?,
        "ring_memory" => memory::fill_rings(&rt)?,
        _ => bail!("the word is none of those that the program knows"),
    };
    println!(rt; "sum {sum}")?;
    Ok(())
}

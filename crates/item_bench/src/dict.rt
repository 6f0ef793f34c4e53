//! A dictionary: keys come in, and are looked up in the same turn.
use crate::random::Random;
use crate::{VALUES, report};
use anyhow::Context;
use item_dict::Dict;
use std::time::Instant;

fn fill(dict: &mut Dict<u32>) -> anyhow::Result<()> {
    let mut random = Random::new();
    for value in 0..VALUES {
        let _item = dict
            .insert(i64::from(random.next()), value)
            .ok()
            .context("no room")?;
    }
    Ok(())
}

fn look(dict: &Dict<u32>) -> u64 {
    let mut random = Random::new();
    let mut sum = 0u64;
    for _ in 0..VALUES {
        if let Some(it) = dict.lookup(i64::from(random.next())) {
            if let Ok(value) = dict.inf(it) {
                sum = sum.wrapping_mul(31).wrapping_add(u64::from(*value));
            }
        }
    }
    sum
}

pub fn time(rt: &HostRuntime) -> anyhow::Result<u64> {
    let mut dict = Dict::new(rt.alloc());
    let start = Instant::now(rt)?;
    fill(&mut dict)?;
    report(rt, "in", start.elapsed(rt)?)?;
    let start = Instant::now(rt)?;
    let sum = look(&dict);
    report(rt, "look", start.elapsed(rt)?)?;
    Ok(sum)
}

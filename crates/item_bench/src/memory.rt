//! Containers that are filled with as many values as a graph has edges at most, for their memory
//! to be measured.
ghost use Rattle.std.specs.Prelude.{◌+◌, ◌<◌, ◌≤◌};
ghost use Rattle.std.specs.FinMap as map;

use anyhow::{Context, bail};
use item_pool::Pool;
use item_ring::Rings;

/// How many values come in.
pub const EDGES: u32 = 400_000;

/// A value of 80 bytes, about what an edge of a graph takes.
#[derive(Clone, Copy)]
struct Wide {
    words: [u64; 10],
}

/// A pool of values of 80 bytes, with room for `room` of them before the first comes in.
pub fn fill_pool(rt: &HostRuntime, room: u32) -> anyhow::Result<u64>
    requires { room ≤ EDGES }
{
    let mut pool = Pool::new(rt.alloc());
    pool.reserve(room).ok().context("no room")?;
    let mut sum = 0u64;
    for value in 0..EDGES {
        let words = [u64::from(value); 10];
        let it = pool.insert(Wide { words }).ok().context("no room")?;
        sum = sum.wrapping_add(u64::from(it.serial));
    }
    Ok(sum)
}

/// One member more.
fn add_member(rings: &mut Rings, tag: u32) -> anyhow::Result<()>
    requires few { map.len rings.old.tags ≤ tag }
    requires within { tag < EDGES }
    ensures { map.len rings.new.tags ≤ tag + 1 }
{
    match rings.add_member(tag) {
        Ok(_member) => Ok(()),
        Err(_) => bail!("no room"),
    }
}

/// Members of rings, each of them loose.
pub fn fill_rings(rt: &HostRuntime) -> anyhow::Result<u64> {
    let mut rings = Rings::new(rt.alloc());
    for tag in 0..EDGES {
        add_member(&mut rings, tag)?;
    }
    Ok(u64::from(EDGES))
}

//! Mixed sets and gets beside a plain row of values.

use super::{add_node, hide, see_served};
use crate::{NodeArray, NodeMap};
use graph_core::{Graph, Kind};
use std::alloc::Global;
use std::process::Abort;
use std::test::Fail;

/// How many nodes there are, how many of them go, and how many sets and gets there are.
const NODES: u32 = 100;

const STEPS: u32 = 1_000;

/// A hundred nodes, of which every third goes and every tenth that is left is hidden, with an array
/// in between.
fn build(alloc: Global, g: &mut Graph) -> Option<()> {
    for number in 1..NODES + 1 {
        add_node(alloc, g, "0")?;
        if number % 3 == 0 {
            let v = g.node_item(number / 3).ok()?;
            g.del_node(v).ok()?;
        }
    }
    for number in 50..60 {
        hide(g, number)?;
    }
    Some(())
}

/// Sets and gets of an array and a map, as if chosen by chance, and the same of plain values.
fn see_steps(rt: &impl Abort, alloc: Global, g: &Graph) -> Result<(), Fail> {
    let mut array = NodeArray::make(alloc, g, 0).ok().ok_or("no array")?;
    let mut map = NodeMap::make(alloc, 0);
    let mut plain = vec![in alloc; 0i64; NODES as usize + 1]?;
    let mut chance = 1u64;
    for step in 0..STEPS {
        see_served(alloc, &array, g)?;
        chance = chance.wrapping_mul(48_271) % 2_147_483_647;
        let number = (chance % u64::from(NODES)) as u32 + 1;
        let Ok(v) = g.node_item(number) else {
            continue;
        };
        if chance % 2 == 0 {
            plain[number as usize] = i64::from(step);
            assert_eq!(rt; array.set(g, v, i64::from(step)), Ok(()));
            assert_eq!(rt; map.set(g, v, i64::from(step)), Ok(()));
        } else {
            assert_eq!(rt; array.get(g, v), Ok(plain[number as usize]));
            assert_eq!(rt; map.get(g, v), Ok(plain[number as usize]));
        }
    }
    Ok(())
}

#[test]
fn values_go_as_in_a_plain_row(rt: HostRuntime) -> Result<(), Fail> {
    let mut g = Graph::new(rt.alloc(), Kind::Directed);
    build(rt.alloc(), &mut g).ok_or("no graph")?;
    see_steps(&rt, rt.alloc(), &g)
}

//! Thousands of mixed edits beside a plain model.
ghost use Rattle.std.specs.Prelude.{◌<◌};

mod model;

use crate::{hide_edge, hide_node, restore_edge, restore_node};
use graph_core::{EdgeItem, Graph, Item, Kind, NodeItem};
use leda_base::Row;
use model::Model;
use std::alloc::Global;
use std::process::Abort;
use std::test::Fail;

/// Numbers that look as if chosen by chance.
#[derive(Drop)]
struct Chance {
    last: u64,
}

impl Chance {
    /// A number from 1 to `most`, which isn't 0.
    fn number(&mut self, most: u32) -> u32
        requires { 0 < most }
    {
        self.last = self.last.wrapping_mul(48_271) % 2_147_483_647;
        (self.last % u64::from(most)) as u32 + 1
    }
}

/// The node of a number. Where there is none, a look at the item says so.
fn node(number: u32) -> NodeItem {
    NodeItem(Item {
        slot: 0,
        serial: number,
    })
}

fn edge(number: u32) -> EdgeItem {
    EdgeItem(Item {
        slot: 0,
        serial: number,
    })
}

/// One edit, chosen by chance, of the graph and of the model: both take it, or neither.
fn edit(
    rt: &impl Abort,
    alloc: Global,
    g: &mut Graph,
    model: &mut Model,
    chance: &mut Chance,
) -> Result<(), Fail> {
    let kind = chance.number(16);
    let v = chance.number(g.made_nodes().saturating_add(1));
    let w = chance.number(g.made_nodes().saturating_add(1));
    let e = chance.number(g.made_edges().saturating_add(1));
    let (graph, plain) = match kind {
        1 => {
            model.add_node()?;
            (g.new_node(Row::new(alloc)).is_ok(), true)
        }
        2..=5 => (
            g.new_edge(node(v), node(w), Row::new(alloc)).is_ok(),
            model.add_edge(v, w)?,
        ),
        6 | 7 => (g.del_edge(edge(e)).is_ok(), model.del_edge(e)),
        8 if e % 8 == 1 => (g.del_node(node(v)).is_ok(), model.del_node(v)),
        9 | 10 => (g.rev_edge(edge(e)).is_ok(), model.rev_edge(e)?),
        11 => (
            g.move_edge(edge(e), node(v), node(w)).is_ok(),
            model.move_edge(e, v, w)?,
        ),
        12 => (hide_edge(g, edge(e)).is_ok(), model.mark_edge(e, true)),
        13 => (restore_edge(g, edge(e)).is_ok(), model.mark_edge(e, false)),
        14 => (hide_node(g, node(v)).is_ok(), model.mark_node(v, true)),
        _ => (restore_node(g, node(v)).is_ok(), model.mark_node(v, false)),
    };
    assert_eq!(rt; graph, plain, "at {kind}, n{v}, n{w}, e{e}");
    Ok(())
}

/// The numbers of edges.
fn numbers(alloc: Global, edges: &[EdgeItem]) -> Result<Vec<u32>, Fail> {
    let mut numbers = Vec::with_capacity(alloc, edges.len())?;
    for edge in edges {
        numbers.push(edge.0.serial)?;
    }
    Ok(numbers)
}

/// Each visible node has the edges that the model has at it, in the same order.
fn compare(rt: &impl Abort, alloc: Global, g: &Graph, model: &Model) -> Result<(), Fail> {
    for v in 1..=g.made_nodes() {
        match (g.out_edges(alloc, node(v)), g.in_edges(alloc, node(v))) {
            (Ok(outs), Ok(ins)) => {
                assert!(rt; model.shows_node(v));
                let outs = numbers(alloc, outs.as_slice())?;
                assert_eq!(rt; outs.as_slice(), model.outs_of(alloc, v)?.as_slice());
                let ins = numbers(alloc, ins.as_slice())?;
                assert_eq!(rt; ins.as_slice(), model.ins_of(alloc, v)?.as_slice());
            }
            _ => assert!(rt; !model.shows_node(v)),
        }
    }
    Ok(())
}

#[test]
fn mixed_edits_go_as_in_plain_rows(rt: HostRuntime) -> Result<(), Fail> {
    let mut g = Graph::new(rt.alloc(), Kind::Directed);
    let mut model = Model::new(rt.alloc());
    let mut chance = Chance { last: 7 };
    for turn in 0..3000 {
        edit(&rt, rt.alloc(), &mut g, &mut model, &mut chance)?;
        if turn % 16 == 0 {
            compare(&rt, rt.alloc(), &g, &model)?;
        }
    }
    compare(&rt, rt.alloc(), &g, &model)
}

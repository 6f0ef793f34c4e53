//! Arrays and maps over graphs that change.
ghost use Rattle.std.specs.Prelude.{OnOk, IfSome};
ghost use Rattle.graph_state.specs.Formed.{IsLabel};
ghost use Rattle.node_maps.specs.Contents.{IsServed};

mod arrays;
mod maps;
mod mixed;

use crate::{ElementArray, GraphItem};
use graph_core::{EdgeItem, Graph, Item, ItemName, NodeItem};
use leda_base::{LABEL_LIMIT, Row, is_one_line};
use std::alloc::Global;
use std::test::Fail;

/// Fails where the array doesn't serve the graph.
fn see_served<E: GraphItem>(alloc: Global, array: &ElementArray<E>, g: &Graph) -> Result<(), Fail>
    ensures { OnOk result (IsServed array.now (E.live g.now)) }
{
    match array.serves(alloc, g) {
        Ok(true) => Ok(()),
        _ => Err("not served".into()),
    }
}

/// The node of a number, with a slot where it needn't lie.
fn node(number: u32) -> NodeItem {
    NodeItem(Item {
        slot: 0,
        serial: number,
    })
}

fn edge(number: u32) -> EdgeItem {
    EdgeItem(Item {
        slot: 0,
        serial: number,
    })
}

/// A label that is written so.
fn label(alloc: Global, text: &str) -> Option<Row<u8>>
    ensures { IfSome result IsLabel }
{
    let bytes = text.as_bytes();
    if bytes.len() > LABEL_LIMIT {
        return None;
    }
    if !is_one_line(bytes) {
        return None;
    }
    match Row::from_slice(alloc, bytes) {
        Ok(row) => Some(row),
        Err(_) => None,
    }
}

/// A node with the label.
fn add_node(alloc: Global, g: &mut Graph, text: &str) -> Option<NodeItem> {
    match label(alloc, text) {
        Some(row) => g.new_node(row).ok(),
        None => None,
    }
}

/// Three nodes with the labels 5, -3 and 0.
fn add_three(alloc: Global, g: &mut Graph) -> Option<[NodeItem; 3]> {
    let first = add_node(alloc, g, "5")?;
    let second = add_node(alloc, g, "-3")?;
    let third = add_node(alloc, g, "0")?;
    Some([first, second, third])
}

/// Hides the node of a number.
fn hide(g: &mut Graph, number: u32) -> Option<NodeItem> {
    let v = g.node_item(number).ok()?;
    if g.is_hidden(ItemName::Node(number)) {
        return None;
    }
    g.hide_node(v);
    Some(v)
}

//! Arrays as their graph grows, shrinks and hides.

use super::{add_node, add_three, edge, hide, label, node, see_served};
use crate::{EdgeArray, LabelRefusal, NodeArray, ValueRefusal};
use graph_core::{Gone, Graph, ItemName, Kind};
use std::alloc::Global;
use std::process::Abort;
use std::test::Fail;

/// An array of three nodes, of which one is hidden and one goes, while a fourth comes.
fn see_changes(rt: &impl Abort, alloc: Global, g: &mut Graph) -> Result<(), Fail> {
    let [first, second, third] = add_three(alloc, g).ok_or("no nodes")?;
    let mut array = NodeArray::make(alloc, g, 7).ok().ok_or("no array")?;
    see_served(alloc, &array, g)?;
    assert_eq!(rt; array.get(g, first), Ok(7));
    assert_eq!(rt; array.set(g, second, 9), Ok(()));
    let fourth = add_node(alloc, g, "1").ok_or("no node")?;
    hide(g, 3).ok_or("not hidden")?;
    see_served(alloc, &array, g)?;
    assert_eq!(rt; array.get(g, fourth), Err(ValueRefusal::NotCovered));
    assert_eq!(rt; array.set(g, fourth, 1), Err(ValueRefusal::NotCovered));
    assert_eq!(rt; array.get(g, third), Ok(7));
    assert_eq!(rt; array.set(g, third, -1), Ok(()));
    g.del_node(first).ok().ok_or("not deleted")?;
    see_served(alloc, &array, g)?;
    let dead = ValueRefusal::Gone(Gone::Dead);
    assert_eq!(rt; array.get(g, first), Err(dead));
    assert_eq!(rt; array.set(g, first, 1), Err(dead));
    let unknown = ValueRefusal::Gone(Gone::Unknown);
    assert_eq!(rt; array.get(g, node(5)), Err(unknown));
    assert_eq!(rt; array.get(g, node(0)), Err(unknown));
    assert_eq!(rt; array.get(g, second), Ok(9));
    assert_eq!(rt; array.get(g, node(3)), Ok(-1));
    Ok(())
}

#[test]
fn an_array_serves_its_graph_as_it_changes(rt: HostRuntime) -> Result<(), Fail> {
    let mut g = Graph::new(rt.alloc(), Kind::Directed);
    see_changes(&rt, rt.alloc(), &mut g)
}

/// Arrays of labels, the second of a graph with a bad label, which is hidden.
fn see_labels(rt: &impl Abort, alloc: Global, g: &mut Graph) -> Result<(), Fail> {
    let [first, second, third] = add_three(alloc, g).ok_or("no nodes")?;
    let array = NodeArray::from_labels(alloc, g).ok().ok_or("no array")?;
    see_served(alloc, &array, g)?;
    assert_eq!(rt; array.get(g, first), Ok(5));
    assert_eq!(rt; array.get(g, second), Ok(-3));
    assert_eq!(rt; array.get(g, third), Ok(0));
    add_node(alloc, g, "depot").ok_or("no node")?;
    add_node(alloc, g, "").ok_or("no node")?;
    hide(g, 4).ok_or("not hidden")?;
    let bad = LabelRefusal::Label(ItemName::Node(4));
    assert_eq!(rt; NodeArray::from_labels(alloc, g).err(), Some(bad));
    Ok(())
}

#[test]
fn labels_are_read_up_to_the_first_bad_one(rt: HostRuntime) -> Result<(), Fail> {
    let mut g = Graph::new(rt.alloc(), Kind::Undirected);
    see_labels(&rt, rt.alloc(), &mut g)
}

/// Two edges, and a third that comes later.
fn see_edges(rt: &impl Abort, alloc: Global, g: &mut Graph) -> Result<(), Fail> {
    let [v, w, _] = add_three(alloc, g).ok_or("no nodes")?;
    for text in ["12", "-4"] {
        let row = label(alloc, text).ok_or("no label")?;
        g.new_edge(v, w, row).ok().ok_or("no edge")?;
    }
    let mut array = EdgeArray::from_labels(alloc, g).ok().ok_or("no array")?;
    let row = label(alloc, "x").ok_or("no label")?;
    let third = g.new_edge(w, v, row).ok().ok_or("no edge")?;
    see_served(alloc, &array, g)?;
    assert_eq!(rt; array.get(g, edge(1)), Ok(12));
    assert_eq!(rt; array.set(g, edge(1), 13), Ok(()));
    assert_eq!(rt; array.get(g, edge(1)), Ok(13));
    assert_eq!(rt; array.get(g, edge(2)), Ok(-4));
    assert_eq!(rt; array.get(g, third), Err(ValueRefusal::NotCovered));
    let bad = LabelRefusal::Label(ItemName::Edge(3));
    assert_eq!(rt; EdgeArray::from_labels(alloc, g).err(), Some(bad));
    Ok(())
}

#[test]
fn an_array_over_edges_serves_like_one_over_nodes(rt: HostRuntime) -> Result<(), Fail> {
    let mut g = Graph::new(rt.alloc(), Kind::Directed);
    see_edges(&rt, rt.alloc(), &mut g)
}

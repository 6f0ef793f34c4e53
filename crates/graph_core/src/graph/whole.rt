//! Edits of the whole graph.
ghost use Rattle.std.specs.Prelude.{◌≡◌, Some};
ghost use Rattle.std.specs.FinMap as map;
ghost use Rattle.item_pool.specs.Contents.{HasLive};
ghost use Rattle.graph_state.specs.declared.name.ListName.{ListName};
ghost use Rattle.graph_state.specs.Edits.{all_reversed};
ghost use Rattle.graph_core.specs.Turns.{node_turned, edge_turned, Fills, Changes, HasCells};

use super::Graph;
use crate::cell::{EdgeCell, Heads, NodeCell};
use crate::seen::show;
use graph_lists::{Head, Lists};
use item_pool::{Item, Pool};
use std::mem;

/// What is kept for a node or an edge, where every edge comes to go the other way.
trait Turn {
    ghost turned: { Self → Self };

    /// Changes what is kept.
    fn turn(&mut self)
        ensures { self.new ≡ turned self.old };
}

impl Turn for NodeCell {
    ghost use Rattle.std.specs.Prelude.{true};
    ghost use Rattle.graph_core.specs.Turns.{node_turned};

    ghost turned = { node_turned true };

    fn turn(&mut self) {
        mem::swap(&mut self.outs, &mut self.ins);
    }
}

impl Turn for EdgeCell {
    ghost use Rattle.graph_core.specs.Turns.{edge_turned};

    ghost turned = { edge_turned };

    fn turn(&mut self) {
        mem::swap(&mut self.from, &mut self.to);
        mem::swap(&mut self.front, &mut self.back);
    }
}

/// Turns the cell of a number.
fn turn_one<T: Turn>(cells: &mut Pool<T>, number: u32)
    requires { HasLive cells.old number }
    ensures live { (c : T) → map.get cells.old.live number ≡ Some c
        → cells.new.live ≡ map.insert cells.old.live number (T.turned c) }
    ensures made { cells.new.made ≡ cells.old.made }
{
    if let Ok(cell) = cells.get_mut(Item {
        slot: 0,
        serial: number,
    }) {
        cell.turn();
    }
}

/// Turns the cells of all that stands in a list.
fn turn_each<T: Turn>(lists: &Lists, cells: &mut Pool<T>, head: Head)
    requires { (l : ListName) × Fills lists.now cells.old l head }
    ensures { Changes T.turned cells.old cells.new }
{
    let mut at = lists.first(head);
    for _turn in 0..lists.len(head) {
        let Some(m) = at else { unreachable!() };
        turn_one(cells, lists.number(m));
        at = lists.next(m);
    }
}

/// Turns the cells of the nodes, which is to change nothing in an undirected graph.
fn turn_nodes(lists: &Lists, nodes: &mut Pool<NodeCell>, head: Head, directed: bool)
    requires { (l : ListName) × Fills lists.now nodes.old l head }
    ensures { Changes (node_turned directed) nodes.old nodes.new }
{
    if directed {
        turn_each(lists, nodes, head);
    }
}

/// Turns the cells of the nodes and of the edges.
fn turn_cells(
    lists: &Lists,
    heads: &Option<Heads>,
    nodes: &mut Pool<NodeCell>,
    edges: &mut Pool<EdgeCell>,
    directed: bool,
)
    requires { HasCells lists.now heads.now nodes.old edges.old }
    ensures nodes { Changes (node_turned directed) nodes.old nodes.new }
    ensures edges { Changes edge_turned edges.old edges.new }
{
    if let Some(heads) = heads {
        turn_nodes(lists, nodes, heads.nodes.full, directed);
        turn_each(lists, edges, heads.edges.full);
    }
}

impl Graph {
    /// Every edge goes the other way, hidden ones too. A dart stays in its place and changes its
    /// name, and in a directed graph the out list and the in list of a node change roles. It takes
    /// no memory, and time linear in the nodes and edges.
    pub fn rev_all(&mut self)
        ensures { self.new ≡ all_reversed self.old }
    {
        turn_cells(
            &self.lists,
            &self.heads,
            &mut self.nodes,
            &mut self.edges,
            self.directed,
        );
        self.lists.turn(self.directed);
        show(&mut self.seen, 0, 0, 0);
    }
}

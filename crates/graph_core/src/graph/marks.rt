//! Elements that are hidden and restored: how they show, and the edges.
ghost use Rattle.std.specs.Prelude.{◌≡◌, ℕ, Bool, true, false, not, ◌&&◌, Option, Some, None, MatchOption};
ghost use Rattle.std.specs.FinMap as map;
ghost use Rattle.std.specs.FinSet as set;
ghost use Rattle.item_pool.specs.Contents.{HasLive};
ghost use Rattle.leda_base.specs.declared.name.ItemName.TheVariants as names;
ghost use Rattle.graph_state.specs.declared.name.ListName.{ListName};
ghost use Rattle.graph_state.specs.declared.name.ListName.TheVariants.{Edges, Out};
ghost use Rattle.graph_state.specs.declared.name.Element.{Element};
ghost use Rattle.graph_state.specs.declared.name.Element.TheVariants.{End};
ghost use Rattle.graph_state.specs.Names.{Has};
ghost use Rattle.graph_state.specs.Edits.{edge_hidden, edge_restored};
ghost use Rattle.graph_state.specs.Refusals.{IsThere};
ghost use Rattle.graph_core.specs.Looks.{is_marked};
ghost use Rattle.graph_lists.specs.Named.{head_at, hook_at, list_at, shows_at, SameRoom, IsFirstShown, IsNextShown};
ghost use Rattle.graph_lists.specs.Heads.{IsMemberOf};
ghost use Rattle.graph_core.specs.declared.cell.NodeCell.{NodeCell};
ghost use Rattle.graph_core.specs.declared.cell.EdgeCell.{EdgeCell};
ghost use Rattle.graph_core.specs.Marks.{Marks, MarksParts, HasParts, IsTokenIn, HasToken, HasTokens, CanShow, ShowsParts};

mod all;
mod nodes;

use super::Graph;
use super::growth::{back_head, back_name};
use crate::cell::{EdgeCell, Heads, NodeCell};
use crate::seen::show;
use graph_lists::{Hook, ListHead, Lists, Member};
use graph_state::{Dart, EdgeItem, Element, ItemName, ListName};
use item_pool::{Item, Pool};

/// The element shows no more.
fn hide_element(lists: &mut Lists, x: Element, hook: &Hook)
    requires hook { hook_at lists.old.named x ≡ Some hook.now }
    requires there { (l : ListName) × Has x (list_at lists.old.named l) }
    ensures named { Marks lists.old.named lists.new.named x false }
    ensures room { SameRoom lists.old lists.new }
{
    if lists.is_shown(x, hook) {
        lists.hide(x, hook);
    }
}

/// The dart of the edge at its source, or the one at its target.
fn dart(e: u32, back: bool) -> Element
    ensures { result ≡ End (record { edge = e; back = back }) }
{
    Element::End(Dart { edge: e, back })
}

/// The edge and its darts show no more.
fn hide_parts(lists: &mut Lists, e: u32, cell: &EdgeCell)
    requires { (l m n : ListName) × HasParts lists.old.named e cell.now l m n }
    ensures named { MarksParts lists.old.named lists.new.named e false }
    ensures room { SameRoom lists.old lists.new }
{
    hide_element(lists, Element::Edge(e), &cell.hook);
    hide_element(lists, dart(e, false), &cell.front);
    hide_element(lists, dart(e, true), &cell.back);
}

/// Sets the mark of an edge, which says whether it is hidden by itself.
fn set_mark(edges: &mut Pool<EdgeCell>, e: EdgeItem, hidden: bool)
    requires { HasLive edges.old e.0.serial }
    ensures live { (c : EdgeCell) → map.get edges.old.live e.0.serial ≡ Some c
        → edges.new.live ≡ map.insert edges.old.live e.0.serial (record c { is_hidden = hidden }) }
    ensures made { edges.new.made ≡ edges.old.made }
{
    if let Ok(cell) = edges.get_mut(e.0) {
        cell.is_hidden = hidden;
    }
}

/// The element of the list that the member is of, and its hook.
pub(super) fn element_at<'a>(
    lists: &Lists,
    nodes: &'a Pool<NodeCell>,
    edges: &'a Pool<EdgeCell>,
    list: ListName,
    m: Member,
) -> (Element, &'a Hook)
    requires { HasToken lists.now.named nodes.now edges.now list m }
    ensures { (x : Element) → Has x (list_at lists.now.named list)
        → IsMemberOf lists.now.named false x m
        → IsTokenIn lists.now.named nodes.now edges.now list x
        → (result.0 ≡ x) × (hook_at lists.now.named x ≡ Some result.1.now) }
{
    let serial = lists.number(m);
    if let ListName::Nodes = list {
        let Ok(cell) = nodes.get(Item { slot: 0, serial }) else {
            unreachable!()
        };
        return (Element::Node(serial), &cell.hook);
    }
    let Ok(cell) = edges.get(Item { slot: 0, serial }) else {
        unreachable!()
    };
    if let ListName::Edges = list {
        return (Element::Edge(serial), &cell.hook);
    }
    if cell.front.full == m {
        return (dart(serial, false), &cell.front);
    }
    (dart(serial, true), &cell.back)
}

/// The nearest element before x in its list that shows, with its hook, and none where no such
/// element shows.
fn nearest<'a>(
    lists: &Lists,
    nodes: &'a Pool<NodeCell>,
    edges: &'a Pool<EdgeCell>,
    list: ListName,
    head: &ListHead,
    x: Element,
    hook: &Hook,
) -> Option<(Element, &'a Hook)>
    requires head { head_at lists.now.named list ≡ Some head.now }
    requires hook { hook_at lists.now.named x ≡ Some hook.now }
    requires there { Has x (list_at lists.now.named list) }
    requires tokens { HasTokens lists.now.named nodes.now edges.now list }
    ensures { MatchOption result (IsFirstShown lists.now.named list x)
        (λ y. IsNextShown lists.now.named list y.0 x
        × (hook_at lists.now.named y.0 ≡ Some y.1.now)) }
{
    let mut at = lists.prev(hook.full);
    for _turn in 0..lists.len(head.full) {
        let m = at?;
        let (y, beside) = element_at(lists, nodes, edges, list, m);
        if lists.is_shown(y, beside) {
            return Some((y, beside));
        }
        at = lists.prev(m);
    }
    unreachable!()
}

/// The element, which stands in the list, shows from here on.
fn show_element(
    lists: &mut Lists,
    nodes: &Pool<NodeCell>,
    edges: &Pool<EdgeCell>,
    list: ListName,
    head: &ListHead,
    x: Element,
    hook: &Hook,
)
    requires head { head_at lists.old.named list ≡ Some head.now }
    requires hook { hook_at lists.old.named x ≡ Some hook.now }
    requires there { Has x (list_at lists.old.named list) }
    requires tokens { HasTokens lists.old.named nodes.now edges.now list }
    ensures named { Marks lists.old.named lists.new.named x true }
    ensures room { SameRoom lists.old lists.new }
{
    if lists.is_shown(x, hook) {
        return;
    }
    match nearest(lists, nodes, edges, list, head, x, hook) {
        Some((y, beside)) => lists.show_behind(list, y, beside, x, hook),
        None => lists.show_first(list, head, x, hook),
    }
}

/// The edge and its darts show from here on, where both ends of the edge do.
fn show_parts(
    lists: &mut Lists,
    heads: &Heads,
    nodes: &Pool<NodeCell>,
    edges: &Pool<EdgeCell>,
    directed: bool,
    e: u32,
    cell: &EdgeCell,
)
    requires { CanShow lists.old.named nodes.now edges.now heads.now.edges directed e cell.now }
    ensures named { ShowsParts lists.old.named lists.new.named nodes.now e cell.now }
    ensures room { SameRoom lists.old lists.new }
{
    let (Ok(from), Ok(to)) = (
        nodes.get(Item {
            slot: 0,
            serial: cell.from,
        }),
        nodes.get(Item {
            slot: 0,
            serial: cell.to,
        }),
    ) else {
        unreachable!()
    };
    if from.is_hidden || to.is_hidden {
        return;
    }
    let outs = ListName::Out(cell.from);
    let ins = back_name(directed, cell.to);
    let head = back_head(directed, to);
    let (edge, front, back) = (Element::Edge(e), dart(e, false), dart(e, true));
    show_element(
        lists,
        nodes,
        edges,
        ListName::Edges,
        &heads.edges,
        edge,
        &cell.hook,
    );
    show_element(lists, nodes, edges, outs, &from.outs, front, &cell.front);
    show_element(lists, nodes, edges, ins, head, back, &cell.back);
}

impl Graph {
    /// Whether the node or the edge, which is there, is hidden by itself.
    pub fn is_hidden(&self, x: ItemName) -> bool
        requires { IsThere self.now x }
        ensures { result ≡ is_marked self.now x }
    {
        match x {
            ItemName::Node(v) => {
                let Ok(cell) = self.nodes.get(Item { slot: 0, serial: v }) else {
                    unreachable!()
                };
                cell.is_hidden
            }
            ItemName::Edge(e) => {
                let Ok(cell) = self.edges.get(Item { slot: 0, serial: e }) else {
                    unreachable!()
                };
                cell.is_hidden
            }
            ItemName::Cell(_) => unreachable!(),
        }
    }

    /// Hides an edge, which isn't hidden by itself. It keeps its place in every list. It takes no
    /// memory.
    pub fn hide_edge(&mut self, e: EdgeItem)
        requires live { IsThere self.old (names.Edge e.0.serial) }
        requires unhidden { set.contains self.old.hidden_edges e.0.serial ≡ false }
        ensures { self.new ≡ edge_hidden e.0.serial self.old }
    {
        let Ok(cell) = self.edges.get(e.0) else {
            unreachable!()
        };
        hide_parts(&mut self.lists, e.0.serial, cell);
        set_mark(&mut self.edges, e, true);
        show(&mut self.seen, e.0.serial, 0, 0);
    }

    /// Restores an edge, which is hidden by itself, to the place that it has kept. It takes no
    /// memory, and time linear in the hidden elements between it and the nearest one before it that
    /// shows, list by list.
    pub fn restore_edge(&mut self, e: EdgeItem)
        requires live { IsThere self.old (names.Edge e.0.serial) }
        requires hidden { set.contains self.old.hidden_edges e.0.serial ≡ true }
        ensures { self.new ≡ edge_restored e.0.serial self.old }
    {
        let Ok(cell) = self.edges.get(e.0) else {
            unreachable!()
        };
        let Some(heads) = &self.heads else {
            unreachable!()
        };
        show_parts(
            &mut self.lists,
            heads,
            &self.nodes,
            &self.edges,
            self.directed,
            e.0.serial,
            cell,
        );
        set_mark(&mut self.edges, e, false);
        show(&mut self.seen, e.0.serial, 0, 0);
    }
}

//! The chain: a ring of members for the order, and a pool of nodes for the values.
ghost use Rattle.std.specs.Prelude.{◌≡◌, ℕ, ◌+◌, ◌<◌, ◌≤◌, List, [], ◌∷◌, ◌++◌, length, Some, None, IfOk, IfErr, MatchResult};
ghost use Rattle.std.specs.FinMap as map;
ghost use Rattle.item_ring.specs.RingLists.{AreApart};
ghost use Rattle.item_list.specs.Kept.{Opens, IsHeaded, IsKept, IsNamed, Makes, Comes, Declines, Declined};
ghost use Rattle.item_list.specs.Items.{items, serials, serial_of, pairs_with, Holds, HasItem, Lacks, AreItems, Enters, Returns, ReturnsBeside, Removes, Assigns};
ghost use Rattle.item_list.specs.Sides.{with_at, end_of, pairs_beside, MovesTo, IsBeside, IsCyclicBeside};

use crate::node::{BesideRefusal, Node};
use crate::side::{Side, end_member, link_at, link_beside, member_beside, member_round};
use item_pool::{Gone, InsertRefusal, Item, MOST_SERIALS, Pool};
use item_ring::{Head, Member, RingRefusal, Rings};
use std::alloc::Global;
use std::marker::Model;
use std::mem;

/// The values in one order, which a list reads forwards or backwards. A call with a side does
/// towards it what a list's does.
///
/// A clause sees it as a list. Where the answer read backwards rests on serials being distinct, the
/// call says that too.
#[derive(Drop)]
pub(crate) struct Chain<E> {
    rings: Rings,
    /// The ring of all members, which is made with the first value.
    head: Option<Head>,
    nodes: Pool<Node<E>>,
}

impl<E> Model for Chain<E> {
    ghost use Rattle.item_list.specs.Items.{Items, items_code};

    ghost Value = { Items E };

    ghost coded = { items_code E.code };

    ghost use Rattle.item_list.specs.Chained.{chain_of, IsChain};

    ghost view = { λ a. chain_of a };

    ghost invariant = { λ a. IsChain a };
}

/// The head of the ring, which is made where there is none.
fn open_ring(rings: &mut Rings, head: &mut Option<Head>) -> Result<Head, RingRefusal>
    requires headed { IsHeaded rings.old head.old }
    requires apart { AreApart rings.old }
    ensures ok { IfOk result (λ h. Opens rings.old rings.new head.old head.new h) }
    ensures err { IfErr result (λ _. (rings.new ≡ rings.old) × (head.new ≡ head.old)) }
{
    if let Some(there) = *head {
        return Ok(there);
    }
    let made = rings.add_head()?;
    *head = Some(made);
    Ok(made)
}

/// Takes a value in under the next serial, with a member that is loose.
fn make_node<E>(
    rings: &mut Rings,
    nodes: &mut Pool<Node<E>>,
    value: E,
) -> Result<(Member, Item), InsertRefusal<E>>
    requires few { map.len rings.old.tags ≤ nodes.old.made }
    requires room { nodes.old.made < MOST_SERIALS }
    ensures ok { IfOk result (λ r. Makes rings.old rings.new nodes.old nodes.new r.0 r.1 value) }
    ensures err { IfErr result (λ why. Declines rings.old rings.new nodes.old nodes.new value why) }
{
    if nodes.spare() == 0 && nodes.reserve(1).is_err() {
        return Err(InsertRefusal::NoMemory(value));
    }
    let Ok(member) = rings.add_member(nodes.made() + 1) else {
        return Err(InsertRefusal::NoMemory(value));
    };
    let item = nodes.insert_reserved(Node { value, member });
    Ok((member, item))
}

/// Takes a value in under the next serial, with a member that is loose, and makes the ring where
/// there is none.
fn enter<E>(
    rings: &mut Rings,
    head: &mut Option<Head>,
    nodes: &mut Pool<Node<E>>,
    value: E,
) -> Result<(Head, Member, Item), InsertRefusal<E>>
    requires kept { IsKept rings.old head.old nodes.old }
    ensures ok { IfOk result (λ r.
        Comes rings.old rings.new head.old head.new nodes.old nodes.new r.0 r.1 r.2 value) }
    ensures err { IfErr result (λ why.
        Declined rings.old rings.new head.old head.new nodes.old nodes.new value why) }
{
    if nodes.made() == MOST_SERIALS {
        return Err(InsertRefusal::Spent(value));
    }
    let Ok(ring) = open_ring(rings, head) else {
        return Err(InsertRefusal::NoMemory(value));
    };
    let (member, item) = make_node(rings, nodes, value)?;
    Ok((ring, member, item))
}

/// The item of a member.
fn item_at<E>(rings: &Rings, nodes: &Pool<Node<E>>, member: Member) -> Item
    requires { IsNamed rings.now nodes.now member }
    ensures { map.get rings.now.tags member ≡ Some result.serial }
{
    match nodes.item(rings.tag(member)) {
        Ok(item) => item,
        Err(_) => unreachable!(),
    }
}

impl<E: Drop> Chain<E> {
    /// A chain of no values, which takes no memory.
    pub(crate) fn new(alloc: Global) -> Chain<E>
        ensures { result ≡ items [] 0 }
    {
        Chain {
            rings: Rings::new(alloc),
            head: None,
            nodes: Pool::new(alloc),
        }
    }

    /// Puts a value at the end.
    pub(crate) fn put(&mut self, side: Side, v: E) -> Result<Item, InsertRefusal<E>>
        ensures ok { IfOk result (λ it.
            Enters self.old self.new it (with_at side (self.old.made + 1, v) self.old.pairs)) }
        ensures err { IfErr result (λ why. Returns self.old v why × (self.new ≡ self.old)) }
    {
        let (ring, member, item) = enter(&mut self.rings, &mut self.head, &mut self.nodes, v)?;
        link_at(&mut self.rings, side, ring, member);
        Ok(item)
    }

    /// Puts a value right beside an item.
    pub(crate) fn put_beside(
        &mut self,
        side: Side,
        at: Item,
        v: E,
    ) -> Result<Item, BesideRefusal<E>>
        ensures ok { IfOk result (λ it.
            HasItem self.old at.serial
            × Enters self.old self.new it
            (pairs_beside side at.serial (self.old.made + 1, v) self.old.pairs)) }
        ensures err { IfErr result (λ why.
            ReturnsBeside self.old at.serial v why × (self.new ≡ self.old)) }
        ensures whole { AreItems self.old }
    {
        let place = match self.nodes.get(at) {
            Ok(node) => node.member,
            Err(why) => return Err(BesideRefusal::Gone(v, why)),
        };
        let (_ring, member, item) = enter(&mut self.rings, &mut self.head, &mut self.nodes, v)?;
        link_beside(&mut self.rings, side, place, member);
        Ok(item)
    }

    /// Takes a value out.
    pub(crate) fn del_item(&mut self, it: Item) -> Result<E, Gone>
        ensures answer { MatchResult result (λ v. Removes self.old self.new it.serial v)
            (λ why. Lacks self.old it.serial why × (self.new ≡ self.old)) }
        ensures whole { AreItems self.old }
    {
        let node = self.nodes.remove(it)?;
        self.rings.unlink(node.member);
        self.rings.drop_member(node.member);
        Ok(node.value)
    }

    /// The value of an item.
    pub(crate) fn contents(&self, it: Item) -> Result<&E, Gone>
        ensures answer { MatchResult result (λ v. Holds self.now it.serial v.now)
            (λ why. Lacks self.now it.serial why) }
        ensures whole { AreItems self.now }
    {
        let node = self.nodes.get(it)?;
        Ok(&node.value)
    }

    /// Gives an item another value.
    pub(crate) fn assign(&mut self, it: Item, v: E) -> Result<E, Gone>
        ensures answer { MatchResult result (λ old. Assigns self.old self.new it.serial old v)
            (λ why. Lacks self.old it.serial why × (self.new ≡ self.old)) }
        ensures whole { AreItems self.old }
    {
        let node = self.nodes.get_mut(it)?;
        Ok(mem::replace(&mut node.value, v))
    }

    /// The item at the end.
    pub(crate) fn end_item(&self, side: Side) -> Option<Item>
        ensures { serial_of result ≡ end_of side (serials self.now.pairs) }
    {
        let ring = self.head?;
        let member = end_member(&self.rings, side, ring)?;
        Some(item_at(&self.rings, &self.nodes, member))
    }

    /// The item right beside another.
    pub(crate) fn item_beside(&self, side: Side, it: Item) -> Result<Option<Item>, Gone>
        ensures { MatchResult result (IsBeside side self.now it.serial) (Lacks self.now it.serial) }
    {
        let node = self.nodes.get(it)?;
        match member_beside(&self.rings, side, node.member) {
            Some(near) => Ok(Some(item_at(&self.rings, &self.nodes, near))),
            None => Ok(None),
        }
    }

    /// The item right beside another, round the ends.
    pub(crate) fn item_round(&self, side: Side, it: Item) -> Result<Item, Gone>
        ensures { MatchResult result (IsCyclicBeside side self.now it.serial)
            (Lacks self.now it.serial) }
    {
        let node = self.nodes.get(it)?;
        let near = member_round(&self.rings, side, node.member);
        Ok(item_at(&self.rings, &self.nodes, near))
    }

    /// Moves an item to the end.
    pub(crate) fn move_to(&mut self, side: Side, it: Item) -> Result<(), Gone>
        ensures answer { MatchResult result (λ _. MovesTo side self.old self.new it.serial)
            (λ why. Lacks self.old it.serial why × (self.new ≡ self.old)) }
        ensures whole { AreItems self.old }
    {
        let node = self.nodes.get(it)?;
        let moved = node.member;
        let ring = self.rings.head_of(moved);
        self.rings.unlink(moved);
        link_at(&mut self.rings, side, ring, moved);
        Ok(())
    }

    /// How many values there are.
    pub(crate) fn len(&self) -> u32
        ensures len { result ≡ length self.now.pairs }
        ensures whole { AreItems self.now }
    {
        match self.head {
            Some(ring) => self.rings.len(ring),
            None => 0,
        }
    }
}

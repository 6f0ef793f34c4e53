//! Lists by names.
ghost use Rattle.std.specs.Prelude.{◌≡◌, ℕ, Bool, true, false, ◌+◌, ◌-◌, ◌*◌, ◌<◌, ◌≤◌, ◌↔◌, List, [], ◌∷◌, ◌++◌, Option, Some, None, length, OnOk};
ghost use Rattle.std.specs.FinMap as map;
ghost use Rattle.item_ring.specs.declared.rings.TheConstants.{MOST_NODES};
ghost use Rattle.item_ring.specs.RingLists as ring;
ghost use Rattle.item_ring.specs.RingLists.{IsHead, IsLoose};
ghost use Rattle.graph_state.specs.declared.name.ListName.{ListName};
ghost use Rattle.graph_state.specs.declared.name.Element.{Element};
ghost use Rattle.graph_state.specs.Names.{Has, number, first_of, last_of};
ghost use Rattle.graph_lists.specs.Named.{head_at, hook_at, list_at, shows_at, seen_list, nothing_named, listed, unlisted, hooked, unhooked, pushed, put_beside, unlinked, marked, SameRoom, Leaves, IsFirstShown, IsNextShown};
ghost use Rattle.graph_lists.specs.Heads.{IsHeadOf, IsMemberOf, IsLinked, Finds};
ghost use Rattle.graph_lists.specs.Turned.{turned};
ghost use Rattle.graph_lists.specs.Steps.{AddsHead, AddsMember, PushesIf, PutsBeside, UnlinksIf};

use crate::seen::{NamedView, show, show_beside, show_element, show_list, show_mark, show_turn};
use crate::token::{Hook, ListHead};
use graph_state::{Element, ListName, Side};
use item_ring::{Head, Member, Rings};
use leda_base::{NoMemory, Seen};
use std::alloc::Global;
use std::marker::Model;

/// The lists of a graph. A contract sees which lists and elements are there, what stands in each
/// list, and what shows.
#[derive(Drop)]
pub struct Lists {
    rings: Rings,
    seen: Seen<NamedView>,
}

impl Model for Lists {
    ghost use Rattle.graph_lists.specs.Named as named;

    ghost Value = { named.Lists };

    ghost coded = { named.lists_code };

    ghost use Rattle.graph_lists.specs.Tied.{lists_of, IsKept};

    ghost view = { lists_of };

    ghost invariant = { IsKept };
}

/// The number of a node or an edge.
fn number(x: Element) -> u32
    ensures { result ≡ number x }
{
    match x {
        Element::Node(v) => v,
        Element::Edge(e) => e,
        Element::End(dart) => dart.edge,
    }
}

/// A new head, from those that are spare.
fn add_head(rings: &mut Rings) -> Head
    requires spare { 0 < rings.old.spare_heads }
    requires few { map.len rings.old.rings < MOST_NODES }
    ensures { AddsHead rings.old rings.new result }
{
    let Ok(head) = rings.add_head() else {
        unreachable!()
    };
    head
}

/// A new member, from those that are spare.
fn add_member(rings: &mut Rings, tag: u32) -> Member
    requires spare { 0 < rings.old.spare_members }
    requires few { map.len rings.old.tags < MOST_NODES }
    ensures { AddsMember rings.old rings.new result tag }
{
    let Ok(member) = rings.add_member(tag) else {
        unreachable!()
    };
    member
}

/// The member goes to the end of the ring, where the flag says so.
fn push_shown(rings: &mut Rings, head: Head, member: Member, shows: bool)
    requires head { IsHead rings.old head }
    requires member { shows ≡ true → IsLoose rings.old member }
    ensures { PushesIf shows rings.old rings.new head member }
{
    if shows {
        rings.push_back(head, member);
    }
}

/// The member goes next to another one in its ring, on that side of it.
fn insert_beside(rings: &mut Rings, side: Side, at: Member, member: Member)
    requires at { ring.IsLinked rings.old at }
    requires member { IsLoose rings.old member }
    ensures { PutsBeside side rings.old rings.new at member }
{
    match side {
        Side::Before => rings.insert_before(at, member),
        Side::Behind => rings.insert_after(at, member),
    }
}

/// The member leaves its ring, where it is in one.
fn unlink_shown(rings: &mut Rings, member: Member)
    requires { map.contains_key rings.old.tags member ≡ true }
    ensures { UnlinksIf rings.old rings.new member }
{
    if rings.is_linked(member) {
        rings.unlink(member);
    }
}

impl Lists {
    /// No lists and no elements. It takes no memory.
    pub fn new(alloc: Global) -> Lists
        ensures named { result.named ≡ nothing_named }
        ensures none { (result.heads ≡ 0) × (result.members ≡ 0) }
    {
        Lists {
            rings: Rings::new(alloc),
            seen: Seen::nothing(),
        }
    }

    /// Makes room, so that so many lists and elements more are made.
    ///
    /// # Errors
    ///
    /// `NoMemory` where there is no memory. All is then as before.
    pub fn reserve(&mut self, lists: u32, elements: u32) -> Result<(), NoMemory>
        requires lists { self.old.heads + 2 * lists ≤ MOST_NODES }
        requires elements { self.old.members + 2 * elements ≤ MOST_NODES }
        ensures lists { OnOk result (2 * lists ≤ self.new.spare_heads) }
        ensures elements { OnOk result (2 * elements ≤ self.new.spare_members) }
        ensures named { self.new.named ≡ self.old.named }
        ensures same { (self.new.heads ≡ self.old.heads) × (self.new.members ≡ self.old.members) }
    {
        match self.rings.reserve(2 * lists, 2 * elements) {
            Ok(()) => Ok(()),
            Err(_) => Err(NoMemory),
        }
    }

    /// A new list, with nothing in it.
    pub fn add_list(&mut self, list: ListName) -> ListHead
        requires spare { 2 ≤ self.old.spare_heads }
        requires few { self.old.heads + 2 ≤ MOST_NODES }
        requires fresh { head_at self.old.named list ≡ None }
        ensures named { self.new.named ≡ listed list result self.old.named }
        ensures heads { (self.new.heads ≡ self.old.heads + 2)
            × (self.new.spare_heads + 2 ≡ self.old.spare_heads) }
        ensures members { (self.new.members ≡ self.old.members)
            × (self.new.spare_members ≡ self.old.spare_members) }
    {
        let full = add_head(&mut self.rings);
        let shown = add_head(&mut self.rings);
        let head = ListHead { full, shown };
        show_list(&mut self.seen, list, &head);
        head
    }

    /// A new element, which shows, but stands in no list.
    pub fn add_element(&mut self, x: Element) -> Hook
        requires spare { 2 ≤ self.old.spare_members }
        requires few { self.old.members + 2 ≤ MOST_NODES }
        requires fresh { hook_at self.old.named x ≡ None }
        ensures named { self.new.named ≡ hooked x result self.old.named }
        ensures members { (self.new.members ≡ self.old.members + 2)
            × (self.new.spare_members + 2 ≡ self.old.spare_members) }
        ensures heads { (self.new.heads ≡ self.old.heads)
            × (self.new.spare_heads ≡ self.old.spare_heads) }
    {
        let full = add_member(&mut self.rings, number(x));
        let shown = add_member(&mut self.rings, number(x));
        let hook = Hook { full, shown };
        show_element(&mut self.seen, x, &hook);
        hook
    }

    /// The element, which stands nowhere, goes to the end of the list. `shows` says whether it
    /// shows.
    pub fn push_back(
        &mut self,
        list: ListName,
        head: &ListHead,
        x: Element,
        hook: &Hook,
        shows: bool,
    )
        requires head { head_at self.old.named list ≡ Some head.now }
        requires hook { hook_at self.old.named x ≡ Some hook.now }
        requires loose { Has x self.old.named.loose }
        requires shows { shows ≡ shows_at self.old.named x }
        ensures named { self.new.named ≡ pushed list x self.old.named }
        ensures room { SameRoom self.old self.new }
    {
        self.rings.push_back(head.full, hook.full);
        push_shown(&mut self.rings, head.shown, hook.shown, shows);
        show(&mut self.seen, list, x, x);
    }

    /// The element, which shows and stands nowhere, goes next to `y`, which shows too, on that side
    /// of it.
    pub fn put_beside(&mut self, side: Side, y: Element, beside: &Hook, x: Element, hook: &Hook)
        requires beside { hook_at self.old.named y ≡ Some beside.now }
        requires there { (l : ListName) × Has y (list_at self.old.named l) }
        requires hook { hook_at self.old.named x ≡ Some hook.now }
        requires loose { Has x self.old.named.loose }
        requires shows { (shows_at self.old.named y ≡ true) × (shows_at self.old.named x ≡ true) }
        ensures named { self.new.named ≡ put_beside side y x self.old.named }
        ensures room { SameRoom self.old self.new }
    {
        insert_beside(&mut self.rings, side, beside.full, hook.full);
        insert_beside(&mut self.rings, side, beside.shown, hook.shown);
        show_beside(&mut self.seen, side, x, y);
    }

    /// The element leaves its list. It stands nowhere from here on.
    pub fn unlink(&mut self, x: Element, hook: &Hook)
        requires hook { hook_at self.old.named x ≡ Some hook.now }
        requires there { (l : ListName) × Has x (list_at self.old.named l) }
        ensures named { self.new.named ≡ unlinked x self.old.named }
        ensures leaves { Leaves self.old.named self.new.named x }
        ensures room { SameRoom self.old self.new }
    {
        self.rings.unlink(hook.full);
        unlink_shown(&mut self.rings, hook.shown);
        show(&mut self.seen, ListName::Nodes, x, x);
    }

    /// The element, which shows, doesn't from here on. It stays where it stands.
    pub fn hide(&mut self, x: Element, hook: &Hook)
        requires hook { hook_at self.old.named x ≡ Some hook.now }
        requires there { (l : ListName) × Has x (list_at self.old.named l) }
        requires shows { shows_at self.old.named x ≡ true }
        ensures named { self.new.named ≡ marked false x self.old.named }
        ensures room { SameRoom self.old self.new }
    {
        self.rings.unlink(hook.shown);
        show_mark(&mut self.seen, x, false);
    }

    /// The element, which doesn't show, shows from here on, as the first in its list.
    pub fn show_first(&mut self, list: ListName, head: &ListHead, x: Element, hook: &Hook)
        requires head { head_at self.old.named list ≡ Some head.now }
        requires hook { hook_at self.old.named x ≡ Some hook.now }
        requires first { IsFirstShown self.old.named list x }
        requires hidden { shows_at self.old.named x ≡ false }
        ensures named { self.new.named ≡ marked true x self.old.named }
        ensures room { SameRoom self.old self.new }
    {
        self.rings.push_front(head.shown, hook.shown);
        show_mark(&mut self.seen, x, true);
    }

    /// The element, which doesn't show, shows from here on, next to `y` in its list.
    pub fn show_behind(
        &mut self,
        list: ListName,
        y: Element,
        beside: &Hook,
        x: Element,
        hook: &Hook,
    )
        requires beside { hook_at self.old.named y ≡ Some beside.now }
        requires hook { hook_at self.old.named x ≡ Some hook.now }
        requires next { IsNextShown self.old.named list y x }
        requires hidden { shows_at self.old.named x ≡ false }
        ensures named { self.new.named ≡ marked true x self.old.named }
        ensures room { SameRoom self.old self.new }
    {
        self.rings.insert_after(beside.shown, hook.shown);
        show_mark(&mut self.seen, x, true);
    }

    /// The element, which stands nowhere, is gone.
    pub fn drop_element(&mut self, x: Element, hook: &Hook)
        requires hook { hook_at self.old.named x ≡ Some hook.now }
        requires loose { Has x self.old.named.loose }
        ensures named { self.new.named ≡ unhooked x self.old.named }
        ensures members { self.new.members + 2 ≡ self.old.members }
        ensures heads { self.new.heads ≡ self.old.heads }
    {
        self.rings.drop_member(hook.full);
        self.rings.drop_member(hook.shown);
        show(&mut self.seen, ListName::Nodes, x, x);
    }

    /// The list, in which nothing stands, is gone.
    pub fn drop_list(&mut self, list: ListName, head: &ListHead)
        requires head { head_at self.old.named list ≡ Some head.now }
        requires empty { list_at self.old.named list ≡ [] }
        ensures named { self.new.named ≡ unlisted list self.old.named }
        ensures heads { self.new.heads + 2 ≡ self.old.heads }
        ensures members { self.new.members ≡ self.old.members }
    {
        self.rings.drop_head(head.full);
        self.rings.drop_head(head.shown);
        show_list(&mut self.seen, list, head);
    }

    /// Lists and elements get the names that they have where every edge goes the other way: the two
    /// darts of an edge change their names, and where `directed` is true so do the out list and the
    /// in list of a node. Nothing leaves its place, and each head and each member stays that of
    /// what it was of. It takes constant time.
    pub fn turn(&mut self, directed: bool)
        ensures named { self.new.named ≡ turned directed self.old.named }
        ensures room { SameRoom self.old self.new }
    {
        show_turn(&mut self.seen, directed);
    }

    /// Whether the element, which stands in a list, shows.
    pub fn is_shown(&self, x: Element, hook: &Hook) -> bool
        requires hook { hook_at self.now.named x ≡ Some hook.now }
        requires there { (l : ListName) × Has x (list_at self.now.named l) }
        ensures { result ≡ shows_at self.now.named x }
    {
        self.rings.is_linked(hook.shown)
    }

    /// The number of the element that the member is of.
    pub fn number(&self, m: Member) -> u32
        requires { (b : Bool) × ((x : Element) × IsMemberOf self.now.named b x m) }
        ensures number { (b : Bool) (x : Element)
            → IsMemberOf self.now.named b x m → result ≡ number x }
        ensures one { (b c : Bool) (x y : Element)
            → IsMemberOf self.now.named b x m → IsMemberOf self.now.named c y m → x ≡ y }
    {
        self.rings.tag(m)
    }

    /// How many elements there are in the ring: in a list, or of it those that show.
    pub fn len(&self, head: Head) -> u32
        requires { (b : Bool) × ((l : ListName) × IsHeadOf self.now.named b l head) }
        ensures { (b : Bool) (l : ListName) → IsHeadOf self.now.named b l head
            → result ≡ length (seen_list self.now.named b l) }
    {
        self.rings.len(head)
    }

    /// The first member of the ring: of all elements of a list, or of those that show.
    pub fn first(&self, head: Head) -> Option<Member>
        requires { (b : Bool) × ((l : ListName) × IsHeadOf self.now.named b l head) }
        ensures { (b : Bool) (l : ListName) → IsHeadOf self.now.named b l head
            → Finds self.now.named b result (first_of (seen_list self.now.named b l)) }
    {
        self.rings.first(head)
    }

    /// The last member of the ring.
    pub fn last(&self, head: Head) -> Option<Member>
        requires { (b : Bool) × ((l : ListName) × IsHeadOf self.now.named b l head) }
        ensures { (b : Bool) (l : ListName) → IsHeadOf self.now.named b l head
            → Finds self.now.named b result (last_of (seen_list self.now.named b l)) }
    {
        self.rings.last(head)
    }

    /// The member behind in its ring.
    pub fn next(&self, m: Member) -> Option<Member>
        requires { IsLinked self.now.named m }
        ensures { (b : Bool) (l : ListName) (x : Element) (before behind : List Element)
            → IsMemberOf self.now.named b x m → seen_list self.now.named b l ≡ before ++ x ∷ behind
            → Finds self.now.named b result (first_of behind) }
    {
        self.rings.next(m)
    }

    /// The member before in its ring.
    pub fn prev(&self, m: Member) -> Option<Member>
        requires { IsLinked self.now.named m }
        ensures { (b : Bool) (l : ListName) (x : Element) (before behind : List Element)
            → IsMemberOf self.now.named b x m → seen_list self.now.named b l ≡ before ++ x ∷ behind
            → Finds self.now.named b result (last_of before) }
    {
        self.rings.prev(m)
    }

    /// The member behind in its ring, and the first behind the last.
    pub fn cyclic_next(&self, m: Member) -> Member
        requires { IsLinked self.now.named m }
        ensures { (b : Bool) (l : ListName) (x : Element) (before behind : List Element)
            → IsMemberOf self.now.named b x m → seen_list self.now.named b l ≡ before ++ x ∷ behind
            → Finds self.now.named b (Some result) (first_of (behind ++ before ++ x ∷ [])) }
    {
        self.rings.cyclic_next(m)
    }

    /// The member before in its ring, and the last before the first.
    pub fn cyclic_prev(&self, m: Member) -> Member
        requires { IsLinked self.now.named m }
        ensures { (b : Bool) (l : ListName) (x : Element) (before behind : List Element)
            → IsMemberOf self.now.named b x m → seen_list self.now.named b l ≡ before ++ x ∷ behind
            → Finds self.now.named b (Some result) (last_of (x ∷ behind ++ before)) }
    {
        self.rings.cyclic_prev(m)
    }
}

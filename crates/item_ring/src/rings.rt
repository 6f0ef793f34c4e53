//! Heads and members: each head stands for a ring of members.
ghost use Rattle.std.specs.Prelude.{◌≡◌, cond, ◌==◌, false, ◌⊎◌, ◌≤◌, true, ℕ, ◌<◌, ◌↔◌, ◌+◌, List, [], ◌∷◌, ◌++◌, Some, None, length, min, ◌-◌, IsOk, IfOk, IfErr, OnErr, unwrap_or};
ghost use Rattle.std.specs.Option.{ForSome};
ghost use Rattle.std.specs.FinMap as map;
ghost use Rattle.item_ring.specs.RingLists.{IsIn, IsHead, IsLinked, IsLinkedIn, IsLoose, AreApart, StandsBetween, ring, front, back, unless_equal, without, with_after, with_before};
ghost use Rattle.item_ring.specs.AreRings.{Claimed, IsFree, most_slots};
ghost use Rattle.item_ring.specs.Nodes.{cell_at};
ghost use Rattle.item_ring.specs.Turns.{with_behind};

use crate::block::{BLOCK, State};
use crate::nodes::Nodes;
use crate::seen::{RingView, show};
use leda_base::Seen;
use std::alloc::{AllocError, Global};
use std::marker::Model;

/// The most heads that there are at once, and the most members.
pub const MOST_NODES: u32 = 16_777_215;

/// A head of a ring. Two that one `Rings` gave and that weren't dropped are equal exactly where
/// they are the same head.
#[derive(Clone, Copy, PartialEq, Eq, Drop)]
pub struct Head {
    slot: u32,
}

impl Model for Head {
    ghost use Rattle.std.specs.Prelude.{ℕ};

    ghost Value = { ℕ };

    ghost view = { λ a. a.slot };

    ghost inverse = { λ d. record { slot = d } };
}

/// A member. Two that one `Rings` gave and that weren't dropped are equal exactly where
/// they are the same member.
#[derive(Clone, Copy, PartialEq, Eq, Drop)]
pub struct Member {
    slot: u32,
}

impl Model for Member {
    ghost use Rattle.std.specs.Prelude.{ℕ};

    ghost Value = { ℕ };

    ghost view = { λ a. a.slot };

    ghost inverse = { λ d. record { slot = d } };
}

/// Why no head, member or room was made.
#[derive(Debug, Drop)]
pub enum RingRefusal {
    NoMemory,
}

/// Rings of members. A member takes 40 bytes: a raw link to each neighbour, and beside the links
/// the neighbours, the ring and the tag as numbers of four bytes. A head takes as much.
#[derive(Drop)]
pub struct Rings {
    nodes: Nodes,
    first_free: u32,
    free: u32,
    spare_heads: u32,
    spare_members: u32,
    seen: Seen<RingView>,
    alloc: Global,
}

impl Model for Rings {
    ghost use Rattle.item_ring.specs.RingLists.{RingLists, lists_code};

    ghost Value = { RingLists };

    ghost coded = { lists_code };

    ghost use Rattle.item_ring.specs.RingsHold.{lists_of, RingsHold};

    ghost view = { lists_of };

    ghost invariant = { RingsHold };
}

impl Rings {
    /// No heads and no members. It takes no memory.
    pub fn new(alloc: Global) -> Rings
        ensures rings { result.rings ≡ map.empty }
        ensures loose { result.loose ≡ [] }
        ensures tags { result.tags ≡ map.empty }
        ensures apart { AreApart result }
    {
        Rings {
            nodes: Nodes::new(alloc),
            first_free: 0,
            free: 0,
            spare_heads: 0,
            spare_members: 0,
            seen: Seen::nothing(),
            alloc,
        }
    }

    /// The number that `add_member` was given.
    pub fn tag(&self, m: Member) -> u32
        requires { map.contains_key self.now.tags m ≡ true }
        ensures { map.get self.now.tags m ≡ Some result }
    {
        self.nodes.get(m.slot).value
    }

    /// How many members the ring has.
    pub fn len(&self, h: Head) -> u32
        requires { IsHead self.now h }
        ensures len { result ≡ length (ring self.now h) }
        ensures apart { AreApart self.now }
    {
        self.nodes.get(h.slot).value
    }

    /// Appends the loose member to the ring.
    pub fn push_back(&mut self, h: Head, m: Member)
        requires head { IsHead self.old h }
        requires member { IsLoose self.old m }
        ensures rings { self.new.rings ≡ map.insert self.old.rings h (ring self.old h ++ m ∷ []) }
        ensures loose { self.new.loose ≡ without m self.old.loose }
        ensures tags { self.new.tags ≡ self.old.tags }
        ensures spare { (self.new.spare_heads ≡ self.old.spare_heads)
            × (self.new.spare_members ≡ self.old.spare_members) }
        ensures apart { AreApart self.new }
    {
        let last = self.last(h);
        self.tie(h, last, m);
    }

    /// Puts the loose member before all others of the ring.
    pub fn push_front(&mut self, h: Head, m: Member)
        requires head { IsHead self.old h }
        requires member { IsLoose self.old m }
        ensures rings { self.new.rings ≡ map.insert self.old.rings h (m ∷ ring self.old h) }
        ensures loose { self.new.loose ≡ without m self.old.loose }
        ensures tags { self.new.tags ≡ self.old.tags }
        ensures spare { (self.new.spare_heads ≡ self.old.spare_heads)
            × (self.new.spare_members ≡ self.old.spare_members) }
        ensures apart { AreApart self.new }
    {
        self.tie(h, None, m);
    }

    /// Puts the loose member right after `at`, which is linked.
    pub fn insert_after(&mut self, at: Member, m: Member)
        requires at { IsLinked self.old at }
        requires member { IsLoose self.old m }
        ensures rings { (h : ℕ)
            → IsLinkedIn self.old h at
            → self.new.rings ≡ map.insert self.old.rings h (with_after at m (ring self.old h)) }
        ensures loose { self.new.loose ≡ without m self.old.loose }
        ensures tags { self.new.tags ≡ self.old.tags }
        ensures spare { (self.new.spare_heads ≡ self.old.spare_heads)
            × (self.new.spare_members ≡ self.old.spare_members) }
        ensures apart { AreApart self.new }
    {
        let h = self.head_of(at);
        self.tie(h, Some(at), m);
    }

    /// Puts the loose member right before `at`, which is linked.
    pub fn insert_before(&mut self, at: Member, m: Member)
        requires at { IsLinked self.old at }
        requires member { IsLoose self.old m }
        ensures rings { (h : ℕ)
            → IsLinkedIn self.old h at
            → self.new.rings ≡ map.insert self.old.rings h (with_before at m (ring self.old h)) }
        ensures loose { self.new.loose ≡ without m self.old.loose }
        ensures tags { self.new.tags ≡ self.old.tags }
        ensures spare { (self.new.spare_heads ≡ self.old.spare_heads)
            × (self.new.spare_members ≡ self.old.spare_members) }
        ensures apart { AreApart self.new }
    {
        let h = self.head_of(at);
        let before = self.prev(at);
        self.tie(h, before, m);
    }

    /// Ties the loose member in right behind `behind`, and before all others where that is none.
    fn tie(&mut self, h: Head, behind: Option<Member>, m: Member)
        requires head { IsHead self.old h }
        requires member { IsLoose self.old m }
        requires behind { ForSome behind (λ at. IsIn at (ring self.old h)) }
        ensures rings { self.new.rings
            ≡ map.insert self.old.rings h (with_behind behind m (ring self.old h)) }
        ensures loose { self.new.loose ≡ without m self.old.loose }
        ensures tags { self.new.tags ≡ self.old.tags }
        ensures spare { (self.new.spare_heads ≡ self.old.spare_heads)
            × (self.new.spare_members ≡ self.old.spare_members) }
        ensures apart { AreApart self.new }
    {
        let here = slot_behind(h, behind);
        let count = self.nodes.get(h.slot).value;
        self.nodes.splice(here, m.slot, h.slot);
        self.nodes.set_value(h.slot, count + 1);
        show(&mut self.seen, h.slot, m.slot, here);
    }

    /// Takes the member out of its ring. It is loose from here on.
    pub fn unlink(&mut self, m: Member)
        requires { IsLinked self.old m }
        ensures rings { (h : ℕ)
            → IsLinkedIn self.old h m
            → self.new.rings ≡ map.insert self.old.rings h (without m (ring self.old h)) }
        ensures loose { self.new.loose ≡ m ∷ self.old.loose }
        ensures tags { self.new.tags ≡ self.old.tags }
        ensures spare { (self.new.spare_heads ≡ self.old.spare_heads)
            × (self.new.spare_members ≡ self.old.spare_members) }
        ensures apart { AreApart self.new }
    {
        let head = self.nodes.get(m.slot).ring;
        let count = self.nodes.get(head).value;
        self.nodes.unsplice(m.slot);
        self.nodes.set_value(head, count - 1);
        show(&mut self.seen, head, m.slot, m.slot);
    }

    /// The first member of the ring, and none exactly where it is empty.
    pub fn first(&self, h: Head) -> Option<Member>
        requires { IsHead self.now h }
        ensures first { result ≡ front (ring self.now h) }
        ensures apart { AreApart self.now }
    {
        unless_head(self.nodes.get(h.slot).next, h.slot)
    }

    /// The last member of the ring, and none exactly where it is empty.
    pub fn last(&self, h: Head) -> Option<Member>
        requires { IsHead self.now h }
        ensures last { result ≡ back (ring self.now h) }
        ensures apart { AreApart self.now }
    {
        unless_head(self.nodes.get(h.slot).prev, h.slot)
    }

    /// The member behind `m`, and none exactly where `m` is the last.
    pub fn next(&self, m: Member) -> Option<Member>
        requires { IsLinked self.now m }
        ensures next { (h : ℕ) (before : List ℕ) (behind : List ℕ)
            → StandsBetween self.now h m before behind
            → result ≡ front behind }
        ensures apart { AreApart self.now }
    {
        let cell = self.nodes.get(m.slot);
        unless_head(cell.next, cell.ring)
    }

    /// The member before `m`, and none exactly where `m` is the first.
    pub fn prev(&self, m: Member) -> Option<Member>
        requires { IsLinked self.now m }
        ensures prev { (h : ℕ) (before : List ℕ) (behind : List ℕ)
            → StandsBetween self.now h m before behind
            → result ≡ back before }
        ensures apart { AreApart self.now }
    {
        let cell = self.nodes.get(m.slot);
        unless_head(cell.prev, cell.ring)
    }

    /// The ring that `m` is linked into.
    pub fn head_of(&self, m: Member) -> Head
        requires { IsLinked self.now m }
        ensures head { IsLinkedIn self.now result m }
        ensures apart { AreApart self.now }
    {
        Head {
            slot: self.nodes.get(m.slot).ring,
        }
    }

    /// Makes room, so that so many heads and so many members more are made without refusal.
    pub fn reserve(&mut self, heads: u32, members: u32) -> Result<(), RingRefusal>
        requires heads { map.len self.old.rings + heads ≤ MOST_NODES }
        requires members { map.len self.old.tags + members ≤ MOST_NODES }
        ensures enough { IfOk result (λ _.
            (heads ≤ self.new.spare_heads) × (members ≤ self.new.spare_members)) }
        ensures kept { (self.old.spare_heads ≤ self.new.spare_heads)
            × (self.old.spare_members ≤ self.new.spare_members) }
        ensures same { (self.new.rings ≡ self.old.rings)
            × (self.new.loose ≡ self.old.loose)
            × (self.new.tags ≡ self.old.tags) }
        ensures refused { IfErr result (λ _. self.new ≡ self.old) }
        ensures apart { AreApart self.new }
    {
        let spare_heads = self.spare_heads.max(heads);
        let spare_members = self.spare_members.max(members);
        let used = self.nodes.len() - self.free;
        grow_to(
            &mut self.nodes,
            self.alloc,
            used + spare_heads + spare_members,
        )?;
        self.spare_heads = spare_heads;
        self.spare_members = spare_members;
        Ok(())
    }

    /// A new head, whose ring is empty. None is refused while heads are spare.
    pub fn add_head(&mut self) -> Result<Head, RingRefusal>
        requires { map.len self.old.rings < MOST_NODES }
        ensures made { IfOk result (λ h.
            (map.contains_key self.old.rings h ≡ false)
            × (self.new.rings ≡ map.insert self.old.rings h [])) }
        ensures sure { 0 < self.old.spare_heads → IsOk result }
        ensures spare { IfOk result (λ _. self.new.spare_heads ≡ self.old.spare_heads - 1) }
        ensures same { (self.new.loose ≡ self.old.loose)
            × (self.new.tags ≡ self.old.tags)
            × (self.new.spare_members ≡ self.old.spare_members) }
        ensures refused { IfErr result (λ _. self.new ≡ self.old) }
        ensures apart { AreApart self.new }
    {
        let used = self.nodes.len() - self.free;
        let slots = used + self.spare_heads + self.spare_members + 1;
        let left = use_spare(&mut self.nodes, self.alloc, self.spare_heads, slots)?;
        self.spare_heads = left;
        let slot = claim(
            &mut self.nodes,
            &mut self.first_free,
            &mut self.free,
            &self.seen,
            0,
            State::Head,
        );
        show(&mut self.seen, slot, slot, 0);
        Ok(Head { slot })
    }

    /// A new member with the tag. It is loose. None is refused while members are spare.
    pub fn add_member(&mut self, tag: u32) -> Result<Member, RingRefusal>
        requires { map.len self.old.tags < MOST_NODES }
        ensures made { IfOk result (λ m.
            (map.contains_key self.old.tags m ≡ false)
            × (self.new.tags ≡ map.insert self.old.tags m tag)
            × (self.new.loose ≡ m ∷ self.old.loose)) }
        ensures sure { 0 < self.old.spare_members → IsOk result }
        ensures spare { IfOk result (λ _. self.new.spare_members ≡ self.old.spare_members - 1) }
        ensures same { (self.new.rings ≡ self.old.rings)
            × (self.new.spare_heads ≡ self.old.spare_heads) }
        ensures refused { IfErr result (λ _. self.new ≡ self.old) }
        ensures apart { AreApart self.new }
    {
        let used = self.nodes.len() - self.free;
        let slots = used + self.spare_heads + self.spare_members + 1;
        let left = use_spare(&mut self.nodes, self.alloc, self.spare_members, slots)?;
        self.spare_members = left;
        let slot = claim(
            &mut self.nodes,
            &mut self.first_free,
            &mut self.free,
            &self.seen,
            tag,
            State::Loose,
        );
        show(&mut self.seen, slot, slot, tag);
        Ok(Member { slot })
    }

    /// Ends the loose member. Its place is spare from here on.
    pub fn drop_member(&mut self, m: Member)
        requires { IsLoose self.old m }
        ensures tags { self.new.tags ≡ map.remove self.old.tags m }
        ensures loose { self.new.loose ≡ without m self.old.loose }
        ensures spare { self.new.spare_members ≡ self.old.spare_members + 1 }
        ensures same { (self.new.rings ≡ self.old.rings)
            × (self.new.spare_heads ≡ self.old.spare_heads) }
        ensures apart { AreApart self.new }
    {
        let next = next_free(self.free, self.first_free, m.slot);
        self.nodes.reset(m.slot, next, 0, State::Free);
        self.first_free = m.slot;
        self.free += 1;
        self.spare_members += 1;
        show(&mut self.seen, m.slot, m.slot, 0);
    }

    /// Ends the head of an empty ring. Its place is spare from here on.
    pub fn drop_head(&mut self, h: Head)
        requires head { IsHead self.old h }
        requires empty { ring self.old h ≡ [] }
        ensures rings { self.new.rings ≡ map.remove self.old.rings h }
        ensures spare { self.new.spare_heads ≡ self.old.spare_heads + 1 }
        ensures same { (self.new.loose ≡ self.old.loose)
            × (self.new.tags ≡ self.old.tags)
            × (self.new.spare_members ≡ self.old.spare_members) }
        ensures apart { AreApart self.new }
    {
        let next = next_free(self.free, self.first_free, h.slot);
        self.nodes.reset(h.slot, next, 0, State::Free);
        self.first_free = h.slot;
        self.free += 1;
        self.spare_heads += 1;
        show(&mut self.seen, h.slot, h.slot, 0);
    }

    /// Whether the member is linked into a ring. Else it is loose.
    pub fn is_linked(&self, m: Member) -> bool
        requires { map.contains_key self.now.tags m ≡ true }
        ensures linked { (result ≡ true) ↔ IsLinked self.now m }
        ensures apart { AreApart self.now }
    {
        matches!(self.nodes.get(m.slot).state, State::Linked)
    }

    /// The member behind `m`, and the first behind the last.
    pub fn cyclic_next(&self, m: Member) -> Member
        requires { IsLinked self.now m }
        ensures next { (h : ℕ) (before : List ℕ) (behind : List ℕ)
            → StandsBetween self.now h m before behind
            → Some result ≡ front (behind ++ before ++ m ∷ []) }
        ensures apart { AreApart self.now }
    {
        let first = self.first(self.head_of(m));
        self.next(m).or(first).unwrap_or(m)
    }

    /// The member before `m`, and the last before the first.
    pub fn cyclic_prev(&self, m: Member) -> Member
        requires { IsLinked self.now m }
        ensures prev { (h : ℕ) (before : List ℕ) (behind : List ℕ)
            → StandsBetween self.now h m before behind
            → Some result ≡ back (m ∷ behind ++ before) }
        ensures apart { AreApart self.now }
    {
        let last = self.last(self.head_of(m));
        self.prev(m).or(last).unwrap_or(m)
    }
}

impl From<AllocError> for RingRefusal {
    fn from(_error: AllocError) -> RingRefusal {
        RingRefusal::NoMemory
    }
}

/// The slot that a new free one leads to: the first of the chain, or itself where that is empty.
fn next_free(free: u32, first: u32, slot: u32) -> u32
    ensures { result ≡ cond (free == 0) slot first }
{
    if free == 0 { slot } else { first }
}

/// The member in the slot, and none where that is the head's.
fn unless_head(slot: u32, head: u32) -> Option<Member>
    ensures { result ≡ unless_equal slot head }
{
    if slot == head {
        None
    } else {
        Some(Member { slot })
    }
}

/// The slot of a member, or of the head where there is none.
fn slot_behind(h: Head, behind: Option<Member>) -> u32
    ensures { result ≡ unwrap_or behind h }
{
    match behind {
        Some(at) => at.slot,
        None => h.slot,
    }
}

/// Takes a slot from the chain of free ones, or else the first that was never used, for a node
/// that is its own neighbour.
fn claim(
    nodes: &mut Nodes,
    first_free: &mut u32,
    free: &mut u32,
    seen: &Seen<RingView>,
    value: u32,
    state: State,
) -> u32
    requires chain { IsFree nodes.old first_free.old free.old seen.now.view.free }
    requires room { nodes.old.len < free.old + nodes.old.room }
    requires within { nodes.old.len ≤ nodes.old.room }
    requires small { nodes.old.room ≤ most_slots }
    ensures { Claimed nodes.old nodes.new first_free.new free.old free.new seen.now.view.free result
        value
        state }
{
    if *free == 0 {
        let slot = nodes.len();
        nodes.push(value, state);
        slot
    } else {
        let slot = *first_free;
        *first_free = nodes.get(slot).next;
        *free -= 1;
        nodes.reset(slot, slot, value, state);
        slot
    }
}

/// Grows until there are so many slots.
fn grow_to(nodes: &mut Nodes, alloc: Global, slots: u32) -> Result<(), AllocError>
    requires { slots ≤ most_slots - BLOCK }
    ensures room { IfOk result (λ _. slots ≤ nodes.new.room) }
    ensures more { nodes.old.room ≤ nodes.new.room }
    ensures small { nodes.old.room ≤ most_slots → nodes.new.room ≤ most_slots }
    ensures len { nodes.new.len ≡ nodes.old.len }
    ensures cells { (k : ℕ) → cell_at nodes.new k ≡ cell_at nodes.old k }
{
    while nodes.room() < slots {
        nodes.grow(alloc)?;
    }
    Ok(())
}

/// What is left of the spare number when one is used. Where none is spare it makes room.
fn use_spare(nodes: &mut Nodes, alloc: Global, spare: u32, slots: u32) -> Result<u32, AllocError>
    requires { slots ≤ most_slots - BLOCK }
    ensures left { IfOk result (λ left. left ≡ spare - 1) }
    ensures room { IfOk result (λ _. spare ≡ 0 → slots ≤ nodes.new.room) }
    ensures sure { 0 < spare → IsOk result }
    ensures more { nodes.old.room ≤ nodes.new.room }
    ensures small { nodes.old.room ≤ most_slots → nodes.new.room ≤ most_slots }
    ensures len { nodes.new.len ≡ nodes.old.len }
    ensures cells { (k : ℕ) → cell_at nodes.new k ≡ cell_at nodes.old k }
{
    if spare > 0 {
        return Ok(spare - 1);
    }
    grow_to(nodes, alloc, slots)?;
    Ok(0)
}

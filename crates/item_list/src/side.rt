//! The two sides of a chain, and what a ring does towards either.
ghost use Rattle.std.specs.Prelude.{◌≡◌, ℕ, List, Some};
ghost use Rattle.std.specs.FinMap as map;
ghost use Rattle.item_ring.specs.RingLists.{AreApart, IsHead, IsLinked, IsLinkedIn, IsLoose, StandsBetween, ring};
ghost use Rattle.item_list.specs.Sides.{toward, with_at, with_beside, end_of, near, near_round};

use item_ring::{Head, Member, Rings};

/// A side of a chain: where its first item is, or its last.
#[derive(Clone, Copy)]
pub(crate) enum Side {
    Front,
    Rear,
}

impl Side {
    /// The side of the chain that is this side of a list which reads it, turned or not.
    pub(crate) fn of_chain(self, is_turned: bool) -> Side
        ensures { result ≡ toward is_turned self }
    {
        match (self, is_turned) {
            (Side::Front, true) => Side::Rear,
            (Side::Rear, true) => Side::Front,
            (side, false) => side,
        }
    }
}

/// Links the loose member at the end of the ring.
pub(crate) fn link_at(rings: &mut Rings, side: Side, head: Head, member: Member)
    requires head { IsHead rings.old head }
    requires member { IsLoose rings.old member }
    ensures rings { rings.new.rings
        ≡ map.insert rings.old.rings head (with_at side member (ring rings.old head)) }
    ensures tags { rings.new.tags ≡ rings.old.tags }
    ensures apart { AreApart rings.new }
{
    match side {
        Side::Front => rings.push_front(head, member),
        Side::Rear => rings.push_back(head, member),
    }
}

/// Links the loose member right beside `at`, on the side.
pub(crate) fn link_beside(rings: &mut Rings, side: Side, at: Member, member: Member)
    requires at { IsLinked rings.old at }
    requires member { IsLoose rings.old member }
    ensures rings { (h : ℕ)
        → IsLinkedIn rings.old h at
        → rings.new.rings
        ≡ map.insert rings.old.rings h (with_beside side at member (ring rings.old h)) }
    ensures tags { rings.new.tags ≡ rings.old.tags }
    ensures apart { AreApart rings.new }
{
    match side {
        Side::Front => rings.insert_before(at, member),
        Side::Rear => rings.insert_after(at, member),
    }
}

/// The member at the end of the ring, and none exactly where it is empty.
pub(crate) fn end_member(rings: &Rings, side: Side, head: Head) -> Option<Member>
    requires { IsHead rings.now head }
    ensures { result ≡ end_of side (ring rings.now head) }
{
    match side {
        Side::Front => rings.first(head),
        Side::Rear => rings.last(head),
    }
}

/// The member right beside another, and none exactly where that is at the end.
pub(crate) fn member_beside(rings: &Rings, side: Side, member: Member) -> Option<Member>
    requires { IsLinked rings.now member }
    ensures { (h : ℕ) (before : List ℕ) (behind : List ℕ)
        → StandsBetween rings.now h member before behind
        → result ≡ near side before behind }
{
    match side {
        Side::Front => rings.prev(member),
        Side::Rear => rings.next(member),
    }
}

/// The member right beside another, round the ends.
pub(crate) fn member_round(rings: &Rings, side: Side, member: Member) -> Member
    requires { IsLinked rings.now member }
    ensures { (h : ℕ) (before : List ℕ) (behind : List ℕ)
        → StandsBetween rings.now h member before behind
        → Some result ≡ near_round side member before behind }
{
    match side {
        Side::Front => rings.cyclic_prev(member),
        Side::Rear => rings.cyclic_next(member),
    }
}

//! What is kept for an item, and why a value wasn't put beside one.

use item_pool::{Gone, InsertRefusal};
use item_ring::Member;

/// The value of an item, and its place in the ring.
#[derive(Drop)]
pub struct Node<E> {
    pub value: E,
    pub member: Member,
}

/// Why a value wasn't put beside an item. It comes back.
#[derive(Drop)]
pub enum BesideRefusal<E> {
    /// The item isn't in the list.
    Gone(E, Gone),
    /// There was no memory.
    NoMemory(E),
    /// Each serial has been given.
    Spent(E),
}

impl<E> From<InsertRefusal<E>> for BesideRefusal<E> {
    ghost use Rattle.std.specs.Prelude.{◌≡◌};
    ghost use Rattle.item_list.specs.Items.{beside_of};

    ghost from_gives = { λ why refusal. refusal ≡ beside_of why };

    fn from(why: InsertRefusal<E>) -> BesideRefusal<E> {
        match why {
            InsertRefusal::NoMemory(value) => BesideRefusal::NoMemory(value),
            InsertRefusal::Spent(value) => BesideRefusal::Spent(value),
        }
    }
}

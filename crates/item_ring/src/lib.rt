//! Rings of members, linked in both directions, in raw memory.
//!
//! A **ring** is a closed chain of nodes. One of them is its **head**, which is always there; the
//! others are its **members**, in order from the head round to the head again. Whoever has the head
//! finds the first and the last member, and whoever has a member finds its neighbours and its head,
//! puts another beside it, or takes it out: each in constant time, however long the ring is.
//!
//! - `Rings` owns any number of rings. `Head` and `Member` are the **tokens** that it gives for
//!   their nodes: small numbers that are copied, compared and kept anywhere, and borrow nothing.
//! - A member is made **loose**. A link call puts it into one ring, `unlink` takes it out, and only
//!   a loose one is dropped.
//! - The **tag** of a member is the number that it was made with. It tells the owner what the
//!   member stands for.
//! - `reserve` sets room aside. While heads or members are **spare**, none is refused.
//!
//! # What contracts see
//!
//! `specs/RingLists.antt` has all that a caller needs to read. A `Rings` is seen as a finite map
//! from heads to lists of members, with the loose members, the tag of each member, and the two
//! spare numbers. A token is seen as its number. So a link call inserts one list into the map, and
//! a look answers from one list. `AreApart`, which each call on rings ensures, says what holds of
//! every value: no member stands twice in a ring or in two, and none that is linked is loose.
//!
//! # How it is kept
//!
//! The number of a token is the **slot** of its node. A node has a raw link to each neighbour,
//! which is followed without looking anything up, and a **cell** with the rest as numbers of four
//! bytes: both neighbours again, by their slots, the head, the tag (of a head: how many members it
//! has), and what the node serves for. An empty ring is a head that is its own neighbour. Slots
//! that are free are a chain through their cells.
//!
//! No clause follows links: what is seen is a ghost field, and the invariant of `Rings` says that
//! the links of the nodes agree with it (`specs/AreRings.antt`).
//!
//! # Raw memory, and why it is safe
//!
//! Five functions hold a pointer, all in `cells.rt`: `allocate`, `deallocate`, `link`, `get` and
//! `write`. Each is proved by hand from what the machine does. A link is an address that owns
//! nothing, so it may be copied. The right to what stands there lies with the block's one owner,
//! `Cells`, and a link is followed only by it, with a proof that the link is the address of a place
//! of that block, and that a node stands there. Such proofs last, because blocks never move and are
//! given back only when all of `Rings` is dropped; and the invariant of `Nodes` says that both
//! links of each node in use are the addresses of the slots that its cell names.
//!
//! # Files, lowest first
//!
//! - `cells`: a block of raw memory, its owner, and the links into it.
//! - `block`: a block of nodes, as one value.
//! - `nodes`: nodes by their slots, over many blocks; how one is tied in between two others, and
//!   out again.
//! - `seen`: what contracts see of the rings.
//! - `rings`: heads, members and rings, which is all that a caller uses.
#![tactic(auto)]

mod block;
mod cells;
mod nodes;
mod rings;
mod seen;

pub use rings::{Head, MOST_NODES, Member, RingRefusal, Rings};

#[cfg(test)]
mod tests;

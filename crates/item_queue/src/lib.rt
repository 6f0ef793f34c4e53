//! A queue of values by priority, each named by an item, whose priority may be lowered and which
//! may be taken out from anywhere.
//!
//! It is the addressable queue of LEDA (Mehlhorn and Naeher, LEDA, Cambridge 1999) as a binary heap
//! (Williams, 1964), with items that are told apart for ever: an item that outlived its value is
//! refused as dead, and one that never was as unknown. Of two items of one priority the one that
//! came in first goes first. (A Fibonacci heap, as LEDA has, would lower a priority in constant
//! amortized time. A binary heap is one vector with no links, and lowers it in at most as many
//! steps as the heap has levels.)
//!
//! - `node`: what a heap is made of, and the order of its nodes: by priority, and then by serial.
//! - `heap`: the binary tree of nodes, laid out by levels in a vector, with the steps that mend it.
//!   A node has its priority and its item, so that nodes are compared with no look into the pool,
//!   and a handle, by which its place is found.
//! - `queue`: the heap beside a `Pool`, which has the handle, the priority and the information of
//!   each item. An entry stays as it is when its node moves, and leads to it in two steps.
//!
//! A look takes constant time (the pool's table answers in constant expected time where an item's
//! slot is wrong). An insertion, a lowering and a removal take logarithmic time. `insert`,
//! `reserve` and `items` alone take memory; after `reserve` an `insert_reserved` can't be refused.
//!
//! Contracts see a queue as a finite map from serials to pairs of priority and information, with
//! the number of serials made and the room to spare.
#![tactic(auto)]

mod heap;
mod node;
mod queue;
#[cfg(test)]
mod tests;

pub use item_pool::{Gone, InsertRefusal, Item};
pub use leda_base::{NoMemory, Row};
pub use queue::{DecreaseRefusal, Queue};

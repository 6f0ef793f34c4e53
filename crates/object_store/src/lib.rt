//! The objects of a session by name: lists, dictionaries and queues, whose items have one
//! numbering, and arrays and maps over the nodes and the edges of the graph.
//!
//! `specs/State.antt` has the state, `specs/Views.antt` which object has a name or an item,
//! `specs/Commands.antt` what each command on containers does and answers, row by row, and
//! `specs/Values.antt` the same of arrays and maps.
//!
//! - `kind`: the kinds of objects.
//! - `object`: a container whose entries know their numbers, or an array or a map; `entrance`: how
//!   items come in; `values`: arrays and maps.
//! - `slots`: the places of objects, each of which is free or has a named object.
//! - `parts`: what comes into the places and the pool of items at once, and what goes out of both.
//! - `part` and `look`: what is read of an item and written to it; `near`: the items at the ends of
//!   a list, and neighbours; `shown`: the items in order, as they are shown.
//! - `change`: how a container changes that keeps its items; `drop`: how an object goes.
//! - `listed`: the values of nodes or edges, one by one, for queries.
//! - `edits`, `tables` and `objects`: the commands, and the session's objects; `apply`: a command
//!   by its word.
//!
//! An item is found by its number in one look into a pool, which has the place of its object and
//! the item that the container gave it. A container's own serials rise as the numbers do, so the
//! container is never spent before the session is. Room in the pool is bought before an item comes
//! in, so that one that came in is never taken back.
#![tactic(auto)]

mod apply;
mod change;
mod drop;
mod edits;
mod entrance;
mod kind;
mod listed;
mod look;
mod near;
mod object;
mod objects;
mod part;
mod parts;
mod shown;
mod slots;
mod tables;
#[cfg(test)]
mod tests;
mod values;

pub use entrance::{End, Side};
pub use kind::{ObjectKind, Sort};
pub use listed::ValuesRefusal;
pub use near::{Neighbour, Sought};
pub use objects::{CELL_LIMIT, OBJECT_LIMIT, Objects};
pub use part::{Reading, Writing};
pub use script_text::{ObjectWord, ValueWord};

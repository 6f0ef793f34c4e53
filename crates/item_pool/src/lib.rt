//! A pool of values, each named by the serial number that it was given when it came in.
//!
//! Serials are given in turn from 1 to 16,777,215, each once, so that an item that outlived its
//! value is told from one that never was. A live value is never moved: cells lie in blocks of raw
//! memory, the first of 64 cells and each other of twice as many as the one before, and a pool that
//! grows gets one block more. A slot's block and place are read off its bits.
//!
//! - `places`: a block of raw memory as a row of places. All that holds a pointer stands there.
//! - `block` and `cells`: blocks of cells, and cells by their slots.
//! - `homes` and `table`: the slot of each live serial, which lies in the serial's home, or in a
//!   hash table where another was there first.
//! - `pool`: the cells with the table, and the chain of free cells.
//!
//! An item has the slot that its value was put into, as a hint: where the hint is right, a look
//! goes to the cell in one step, and else by way of the table. No answer depends on it.
//!
//! A cell has 8 bytes beside its `Option<T>`, and there are at most twice as many as values lived
//! at once, and 64. There are 64 homes more than cells, of 8 bytes each, where there was memory for
//! them. The hash table has some 22 bytes for each serial that it has room for, which is doubled
//! where it has to grow: for the most serials that room was asked for while one of their homes was
//! taken, and for the most whose homes were taken at once. So it has none where values go out in
//! about the order in which they came, or stay. Memory goes back when the pool is dropped, and its
//! live values are dropped with it.
#![tactic(auto)]

mod block;
mod cells;
mod homes;
mod places;
mod pool;
mod table;
#[cfg(test)]
mod tests;

pub use pool::{Gone, InsertRefusal, Item, MOST_SERIALS, Pool, ReserveRefusal};

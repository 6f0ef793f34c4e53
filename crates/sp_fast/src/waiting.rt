//! Places that wait for a look at their arcs.

use crate::rows::{NONE, at, put};
use leda_base::NoMemory;
use std::alloc::Global;

// A ring: places come out in the order in which they came in.
#[derive(Drop)]
pub(crate) struct Waiting {
    ring: Vec<u32>,
    // how much of the ring is used
    size: u32,
    head: u32,
    tail: u32,
    count: u32,
}

impl Waiting {
    pub(crate) fn new(alloc: Global, size: u32) -> Result<Waiting, NoMemory> {
        Ok(Waiting {
            ring: vec![in alloc; NONE; size as usize]?,
            size,
            head: 0,
            tail: 0,
            count: 0,
        })
    }

    // Nothing waits, and up to this many places may.
    pub(crate) fn clear(&mut self, size: u32) {
        self.size = size;
        self.head = 0;
        self.tail = 0;
        self.count = 0;
    }

    #[inline(always)]
    pub(crate) fn is_empty(&self) -> bool {
        self.count == 0
    }

    #[inline(always)]
    pub(crate) fn push(&mut self, place: u32) {
        put(self.ring.as_mut_slice(), self.tail, place);
        self.tail = self.after(self.tail);
        self.count = self.count.wrapping_add(1);
    }

    // The first place, which waits no more.
    #[inline(always)]
    pub(crate) fn take(&mut self) -> u32 {
        let place = at(self.ring.as_slice(), self.head);
        self.head = self.after(self.head);
        self.count = self.count.wrapping_sub(1);
        place
    }

    #[inline(always)]
    fn after(&self, turn: u32) -> u32 {
        let next = turn.wrapping_add(1);
        if next >= self.size { 0 } else { next }
    }
}

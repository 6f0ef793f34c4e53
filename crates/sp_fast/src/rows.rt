//! Reads and writes of rows, each with its own test of the place, so that nothing has to be known
//! of the numbers in them.

// Stands for no node, place or arc, in a row which takes half the memory of a row of options.
pub(crate) const NONE: u32 = u32::MAX;

// What stands at a place, or NONE past the end.
#[inline(always)]
pub(crate) fn at(row: &[u32], place: u32) -> u32 {
    let place = place as usize;
    if place < row.len() { row[place] } else { NONE }
}

// Past the end nothing is written.
#[inline(always)]
pub(crate) fn put(row: &mut [u32], place: u32, x: u32) {
    let place = place as usize;
    if place < row.len() {
        row[place] = x;
    }
}

#[inline(always)]
pub(crate) fn is_set(row: &[bool], place: u32) -> bool {
    let place = place as usize;
    place < row.len() && row[place]
}

#[inline(always)]
pub(crate) fn set(row: &mut [bool], place: u32) {
    put_bool(row, place, true);
}

#[inline(always)]
pub(crate) fn put_bool(row: &mut [bool], place: u32, x: bool) {
    let place = place as usize;
    if place < row.len() {
        row[place] = x;
    }
}

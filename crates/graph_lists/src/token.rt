//! What stands for a list, and for an element of one.

use item_ring::{Head, Member};

/// The heads of a list: that of the ring of all elements, and that of the ring of those that show.
#[derive(Clone, Copy, Drop)]
pub struct ListHead {
    pub full: Head,
    pub shown: Head,
}

/// What an element is in its list by (a hook, as intrusive lists call it): its member of the ring
/// of all elements, and that of the ring of those that show.
#[derive(Clone, Copy, Drop)]
pub struct Hook {
    pub full: Member,
    pub shown: Member,
}

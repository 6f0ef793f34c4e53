//! The places of objects, each of which is free or has a named object.
ghost use Rattle.std.specs.Prelude.{◌≡◌, ⊤, MatchOption, slice_get};
ghost use Rattle.object_store.specs.Slots.{found, taken, HasName};

use crate::object::Object;
use leda_base::Row;

/// An object and its name.
#[derive(Drop)]
pub(crate) struct Named {
    pub(crate) name: Row<u8>,
    pub(crate) object: Object,
}

/// The place of the object of the name.
pub(crate) fn slot_of(slots: &[Option<Named>], name: &[u8]) -> Option<usize>
    ensures { MatchOption result (found name.now slots.now ≡ None) (HasName slots.now name.now) }
{
    for (slot, place) in slots.iter().enumerate() {
        if let Some(named) = place {
            if named.name.as_slice() == name {
                return Some(slot);
            }
        }
    }
    None
}

/// A free place, if there is one.
pub(crate) fn free_slot(slots: &[Option<Named>]) -> Option<usize>
    ensures { MatchOption result ⊤ (λ slot. slice_get slots.now slot ≡ Some None) }
{
    slots.iter().position(|place| place.is_none())
}

/// How many objects there are.
pub(crate) fn count(slots: &[Option<Named>]) -> usize
    ensures { result ≡ taken slots.now }
{
    let mut count = 0;
    for place in slots {
        if place.is_some() {
            count += 1;
        }
    }
    count
}

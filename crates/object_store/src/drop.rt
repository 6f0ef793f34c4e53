//! Objects that are dropped.
ghost use Rattle.std.specs.Prelude.{◌≡◌, [], true, false, ⊤, MatchOption};
ghost use Rattle.item_ring.specs.RingLists.{IsDistinct};
ghost use Rattle.item_list.specs.Items.{serials};
ghost use Rattle.script_text.specs.declared.form.Kinds.TheVariants as kinds;
ghost use Rattle.reply_text.specs.declared.reply.ReplyLine.TheVariants.{Empty};
ghost use Rattle.reply_text.specs.Outcome.{done};
ghost use Rattle.reply_text.specs.Text.{IsNamed, IsShort};
ghost use Rattle.object_store.specs.declared.object.Object.TheVariants as held;
ghost use Rattle.object_store.specs.Commands.{on_object, without_object};
ghost use Rattle.object_store.specs.Views.{has_object};
ghost use Rattle.object_store.specs.Inner.{inner};
ghost use Rattle.object_store.specs.Entrance.{HasNumber};
ghost use Rattle.object_store.specs.Kept.{state_of, IsKept, HasAt, Replaces};
ghost use Rattle.object_store.specs.Leads.{Leads};

use crate::object::{Entry, Object};
use crate::objects::Place;
use crate::parts::{leave, place_of};
use crate::slots::{Named, slot_of};
use item_dict::Dict;
use item_list::List;
use item_pool::Pool;
use item_queue::Queue;
use reply_text::{Reply, ReplyLine};

/// Drops an object with its items.
pub(crate) fn drop_object(
    slots: &mut [Option<Named>],
    cells: &mut Pool<Place>,
    name: &[u8],
) -> Reply
    requires kept { IsKept slots.old cells.old }
    requires there { has_object (state_of slots.old cells.old) kinds.Any name.now ≡ true }
    ensures kept { IsKept slots.new cells.new }
    ensures leads { let s = state_of slots.old cells.old in Leads false
        (on_object s kinds.Any name.now (λ o. done (without_object name.now s) Empty))
        s result (state_of slots.new cells.new) }
    ensures named { IsNamed result }
    ensures short { IsShort result }
{
    let Some(slot) = slot_of(slots, name) else {
        unreachable!()
    };
    empty(slots, cells, slot);
    slots[slot] = None;
    Reply::Line(ReplyLine::Empty)
}

/// Takes all items out of the object at a place.
fn empty(slots: &mut [Option<Named>], cells: &mut Pool<Place>, slot: usize)
    requires kept { IsKept slots.old cells.old }
    requires there { HasAt slots.old slot (λ o. ⊤) }
    ensures kept { IsKept slots.new cells.new }
    ensures bare { Replaces slots.old slots.new slot (λ o t. inner t ≡ []) }
    ensures made { cells.new.made ≡ cells.old.made }
{
    while let Some(number) = some_number_at(slots, slot) {
        let Some(place) = place_of(cells, number) else {
            unreachable!()
        };
        leave(slots, cells, number, place);
    }
}

/// The number of some item of the object at a place, and none exactly where it has none.
fn some_number_at(slots: &[Option<Named>], slot: usize) -> Option<u32>
    requires { HasAt slots.now slot (λ o. IsDistinct (serials (inner o))) }
    ensures { HasAt slots.now slot (λ o. MatchOption result (inner o ≡ []) (HasNumber o)) }
{
    match &slots[slot] {
        Some(named) => named.object.some_number(),
        None => unreachable!(),
    }
}

impl Object {
    /// The number of some item, and none exactly where there are no items.
    fn some_number(&self) -> Option<u32>
        requires { IsDistinct (serials (inner self.now)) }
        ensures { MatchOption result (inner self.now ≡ []) (HasNumber self.now) }
    {
        match self {
            Object::List(list) => first_number(list),
            Object::Dict(dict) => least_number(dict),
            Object::Queue(queue) => next_number(queue),
            Object::Values(_) => None,
        }
    }
}

/// The number of the first item of a list.
fn first_number(list: &List<Entry>) -> Option<u32>
    ensures { MatchOption result (inner (held.List list.now) ≡ [])
        (HasNumber (held.List list.now)) }
{
    match list.first() {
        Some(item) => match list.contents(item) {
            Ok(entry) => Some(entry.number),
            Err(_) => unreachable!(),
        },
        None => None,
    }
}

/// The number of the item of the least key.
fn least_number(dict: &Dict<Entry>) -> Option<u32>
    requires { IsDistinct (serials (inner (held.Dict dict.now))) }
    ensures { MatchOption result (inner (held.Dict dict.now) ≡ [])
        (HasNumber (held.Dict dict.now)) }
{
    match dict.min() {
        Some(item) => match dict.inf(item) {
            Ok(entry) => Some(entry.number),
            Err(_) => unreachable!(),
        },
        None => None,
    }
}

/// The number of the item that goes first.
fn next_number(queue: &Queue<Entry>) -> Option<u32>
    ensures { MatchOption result (inner (held.Queue queue.now) ≡ [])
        (HasNumber (held.Queue queue.now)) }
{
    match queue.find_min() {
        Some(item) => match queue.inf(item) {
            Ok(entry) => Some(entry.number),
            Err(_) => unreachable!(),
        },
        None => None,
    }
}

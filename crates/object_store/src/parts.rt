//! What a command does to the places of objects and to the pool of items.
ghost use Rattle.std.specs.Prelude.{◌≡◌, ℕ, ◌+◌, ◌<◌, true, Some, map, option_map, IfOk, IfSome, OnErr, slice_get};
ghost use Rattle.std.specs.FinMap as finmap;
ghost use Rattle.item_pool.specs.declared.pool.TheConstants.{MOST_SERIALS};
ghost use Rattle.item_list.specs.Items.{pairs_without};
ghost use Rattle.reply_text.specs.Outcome.{Gives};
ghost use Rattle.reply_text.specs.Refusals.{IsRefusalNamed};
ghost use Rattle.reply_text.specs.Text.{IsNamed, IsShort};
ghost use Rattle.object_store.specs.declared.slots.Named.{Named};
ghost use Rattle.object_store.specs.Commands.{full_cell, enters, with_cells};
ghost use Rattle.object_store.specs.Inner.{cell_in, cells_in, inner, made_in, seen};
ghost use Rattle.object_store.specs.Entrance.{entered, values_of, Fits, Enters, IsLike, HasIt, Leaves};
ghost use Rattle.object_store.specs.Change.{Allows, IsChanged};
ghost use Rattle.object_store.specs.Kept.{state_of, IsKept, HasAt, Replaces};

use crate::change::Change;
use crate::entrance::Entrance;
use crate::object::Entry;
use crate::objects::{CELL_LIMIT, Place};
use crate::slots::Named;
use item_pool::{Item, MOST_SERIALS, Pool};
use leda_base::{ItemName, NoMemory};
use reply_text::{Refusal, Reply, ReplyLine};

/// Where the item of the number is, if it is there.
pub(crate) fn place_of(cells: &Pool<Place>, number: u32) -> Option<Place>
    ensures { result ≡ finmap.get cells.now.live number }
{
    match cells.item(number) {
        Ok(item) => match cells.get(item) {
            Ok(place) => Some(*place),
            Err(_) => unreachable!(),
        },
        Err(_) => None,
    }
}

/// What refuses one item more.
fn full(slots: &[Option<Named>], cells: &Pool<Place>) -> Option<Refusal>
    requires { IsKept slots.now cells.now }
    ensures full { result ≡ full_cell (state_of slots.now cells.now) }
    ensures named { IfSome result IsRefusalNamed }
{
    if cells.len() == CELL_LIMIT {
        Some(Refusal::FullItems)
    } else if cells.made() == MOST_SERIALS {
        Some(Refusal::Spent)
    } else {
        None
    }
}

/// Takes an item into the object at a place.
fn enter_at(
    slots: &mut [Option<Named>],
    slot: usize,
    entrance: Entrance,
    entry: Entry,
) -> Result<Item, NoMemory>
    requires there { HasAt slots.old slot (λ o. Fits entrance o × (made_in o < MOST_SERIALS)) }
    ensures ok { IfOk result (λ it. Replaces slots.old slots.new slot (λ o t.
        Enters entrance o t it.serial (entry.number, values_of entrance entry.value))) }
    ensures err { OnErr result (Replaces slots.old slots.new slot IsLike) }
{
    match &mut slots[slot] {
        Some(named) => named.object.enter(entrance, entry),
        None => unreachable!(),
    }
}

/// Takes an item into the object at a place, under the next number.
pub(crate) fn enter(
    slots: &mut [Option<Named>],
    cells: &mut Pool<Place>,
    slot: usize,
    entrance: Entrance,
    value: i64,
) -> Reply
    requires kept { IsKept slots.old cells.old }
    requires there { HasAt slots.old slot (Fits entrance) }
    ensures kept { IsKept slots.new cells.new }
    ensures gives { (n : Named) → slice_get slots.old slot ≡ Some (Some n) → Gives true
        (enters n.name (seen n.object) (map cell_in (entered entrance
        (made_in n.object + 1, (cells.old.made + 1, values_of entrance value)) (inner n.object)))
        (state_of slots.old cells.old))
        (state_of slots.old cells.old) result (state_of slots.new cells.new) }
    ensures named { IsNamed result }
    ensures short { IsShort result }
{
    if let Some(refusal) = full(slots, cells) {
        return Reply::Refused(refusal);
    }
    if cells.reserve(1).is_err() {
        return Reply::Refused(Refusal::Memory);
    }
    let number = cells.made() + 1;
    match enter_at(slots, slot, entrance, Entry { number, value }) {
        Ok(item) => {
            cells.insert_reserved(Place { slot, item });
            Reply::Line(ReplyLine::Name(ItemName::Cell(number)))
        }
        Err(NoMemory) => Reply::Refused(Refusal::Memory),
    }
}

/// Takes an item out of the object at a place.
fn leave_at(slots: &mut [Option<Named>], place: Place)
    requires { HasAt slots.old place.slot (HasIt place.item.serial) }
    ensures { Replaces slots.old slots.new place.slot (Leaves place.item.serial) }
{
    match &mut slots[place.slot] {
        Some(named) => named.object.leave(place.item),
        None => unreachable!(),
    }
}

/// Takes the item of the number out of its object.
pub(crate) fn leave(slots: &mut [Option<Named>], cells: &mut Pool<Place>, number: u32, place: Place)
    requires kept { IsKept slots.old cells.old }
    requires there { finmap.get cells.old.live number ≡ Some place }
    ensures kept { IsKept slots.new cells.new }
    ensures goes { Replaces slots.old slots.new place.slot (Leaves place.item.serial) }
    ensures state { (n : Named) → slice_get slots.old place.slot ≡ Some (Some n)
        → state_of slots.new cells.new
        ≡ with_cells n.name (seen n.object) (pairs_without number (cells_in n.object))
        (state_of slots.old cells.old) }
    ensures made { cells.new.made ≡ cells.old.made }
    ensures fewer { finmap.len cells.new.live < finmap.len cells.old.live }
{
    leave_at(slots, place);
    match cells.remove(Item {
        slot: 0,
        serial: number,
    }) {
        Ok(_) => {}
        Err(_) => unreachable!(),
    }
}

/// Changes the object at a place, which keeps its items.
pub(crate) fn change(slots: &mut [Option<Named>], slot: usize, change: Change)
    requires { HasAt slots.old slot (Allows change) }
    ensures { Replaces slots.old slots.new slot (IsChanged change) }
{
    match &mut slots[slot] {
        Some(named) => named.object.change(change),
        None => unreachable!(),
    }
}

//! Commands that change an object, or one of its items.
ghost use Rattle.std.specs.Prelude.{◌≡◌, ℕ, true, false, Some, [], ◌∷◌};
ghost use Rattle.item_list.specs.Items.{pairs_without};
ghost use Rattle.reply_text.specs.declared.reply.ReplyLine.TheVariants.{Empty};
ghost use Rattle.reply_text.specs.Outcome.{done};
ghost use Rattle.reply_text.specs.Text.{IsNamed, IsShort};
ghost use Rattle.script_text.specs.declared.form.Kinds.TheVariants as kinds;
ghost use Rattle.object_store.specs.Commands.{on_object, on_cell, enters, next, with_cells};
ghost use Rattle.object_store.specs.State.{Object};
ghost use Rattle.object_store.specs.Views.{has_object, holds_cell, object_at};
ghost use Rattle.object_store.specs.Entrance.{entrance_kinds, put_in, values_of, with_beside, IsOpen};
ghost use Rattle.object_store.specs.Kept.{state_of, IsKept};
ghost use Rattle.object_store.specs.Leads.{Leads};

use crate::entrance::{Entrance, Side};
use crate::objects::Place;
use crate::parts::{enter, leave, place_of};
use crate::slots::{Named, slot_of};
use item_pool::Pool;
use reply_text::{Reply, ReplyLine};

/// Takes an item into the object of the name.
pub(crate) fn put_into(
    slots: &mut [Option<Named>],
    cells: &mut Pool<Place>,
    name: &[u8],
    entrance: Entrance,
    value: i64,
) -> Reply
    requires kept { IsKept slots.old cells.old }
    requires there { has_object (state_of slots.old cells.old) (entrance_kinds entrance) name.now
        ≡ true }
    requires open { (o : Object) → object_at (state_of slots.old cells.old) name.now ≡ Some o
        → IsOpen entrance o.cells }
    ensures kept { IsKept slots.new cells.new }
    ensures leads { let s = state_of slots.old cells.old in Leads true
        (on_object s (entrance_kinds entrance) name.now (λ o.
        enters name.now o (put_in entrance (next (values_of entrance value) s) o.cells) s))
        s result (state_of slots.new cells.new) }
    ensures named { IsNamed result }
    ensures short { IsShort result }
{
    let Some(slot) = slot_of(slots, name) else {
        unreachable!()
    };
    enter(slots, cells, slot, entrance, value)
}

/// Puts a value beside an item of a list.
pub(crate) fn put_beside(
    slots: &mut [Option<Named>],
    cells: &mut Pool<Place>,
    number: u32,
    side: Side,
    value: i64,
) -> Reply
    requires kept { IsKept slots.old cells.old }
    requires there { holds_cell (state_of slots.old cells.old) kinds.List number ≡ true }
    ensures kept { IsKept slots.new cells.new }
    ensures leads { let s = state_of slots.old cells.old in Leads true
        (on_cell s kinds.List number (λ x o old.
        enters x o (with_beside side number (next (value ∷ []) s) o.cells) s))
        s result (state_of slots.new cells.new) }
    ensures named { IsNamed result }
    ensures short { IsShort result }
{
    let Some(place) = place_of(cells, number) else {
        unreachable!()
    };
    enter(slots, cells, place.slot, side.entrance(place.item), value)
}

/// Takes an item out of its container.
pub(crate) fn delete(slots: &mut [Option<Named>], cells: &mut Pool<Place>, number: u32) -> Reply
    requires kept { IsKept slots.old cells.old }
    requires there { holds_cell (state_of slots.old cells.old) kinds.Container number ≡ true }
    ensures kept { IsKept slots.new cells.new }
    ensures leads { let s = state_of slots.old cells.old in Leads false
        (on_cell s kinds.Container number (λ x o v.
        done (with_cells x o (pairs_without number o.cells) s) Empty))
        s result (state_of slots.new cells.new) }
    ensures named { IsNamed result }
    ensures short { IsShort result }
{
    let Some(place) = place_of(cells, number) else {
        unreachable!()
    };
    leave(slots, cells, number, place);
    Reply::Line(ReplyLine::Empty)
}

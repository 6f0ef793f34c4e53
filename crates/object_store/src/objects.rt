//! The objects of a session.
ghost use Rattle.std.specs.Prelude.{◌≡◌, [], ◌∷◌, Some, true, false, ⊤, OnOk, OnErr, MatchResult};
ghost use Rattle.script_text.specs.declared.argument.Arg.TheVariants as args;
ghost use Rattle.script_text.specs.declared.form.Kinds.TheVariants as kinds;
ghost use Rattle.item_pool.specs.Contents.{WhyGone};
ghost use Rattle.reply_text.specs.declared.reply.Reply.TheVariants.{Line};
ghost use Rattle.reply_text.specs.Outcome.{Gives};
ghost use Rattle.reply_text.specs.Text.{IsNamed, IsShort};
ghost use Rattle.object_store.specs.State.{no_objects, Object as Seen};
ghost use Rattle.object_store.specs.Entrance.{entrance_kinds, put_in, values_of, IsOpen};
ghost use Rattle.script_text.specs.declared.word.ObjectWord.TheVariants as words;
ghost use Rattle.object_store.specs.Kept.{HasAt, Puts};
ghost use Rattle.object_store.specs.Inner.{kind_of, inner, made_in, seen};
ghost use Rattle.object_store.specs.Leads.{Leads};
ghost use Rattle.object_store.specs.Finds.{Finds};
ghost use Rattle.object_store.specs.Commands.{number_line, objects_done, on_object, enters, next, comes_in, container};
ghost use Rattle.object_store.specs.Views.{has_object as has, holds_cell as holds, object_at, is_live, is_of};
ghost use Rattle.object_store.specs.Words.{putting_word, inserting_word, sought_args, reading_word, reading_kinds, sought_word, sought_kinds, neighbour_word, neighbour_kinds, writing_word, writing_kinds, moving_word};

use crate::change::Change;
use crate::drop::drop_object;
use crate::edits::{delete, put_beside, put_into};
use crate::entrance::{End, Entrance, Side};
use crate::kind::ObjectKind;
use crate::look::{len_at, read_at};
use crate::near::{Neighbour, Sought, number_at_place};
use crate::object::{Entry, Object};
use crate::part::{Reading, Writing};
use crate::parts::{change, place_of};
use crate::shown::shown_at;
use crate::slots::{Named, count, free_slot, slot_of};
use item_pool::{Gone, Item, Pool};
use leda_base::{ItemName, NoMemory, Row};
use reply_text::{Refusal, Reply, ReplyLine};
use script_text::Kinds;
use std::alloc::Global;
use std::marker::Model;

/// How many objects there may be.
pub const OBJECT_LIMIT: usize = 100;

/// How many items of containers there may be.
pub const CELL_LIMIT: u32 = 1_000_000;

/// Where an item is: the place of its object, and its item there.
#[derive(Clone, Copy, Debug, PartialEq, Eq)]
pub(crate) struct Place {
    pub(crate) slot: usize,
    pub(crate) item: Item,
}

/// The objects of a session by name, and the numbers of their items.
///
/// A clause sees the objects by their names, each with its items, and how many numbers were given.
#[derive(Drop)]
pub struct Objects {
    pub(crate) alloc: Global,
    /// Each place is free, or has an object, which stays there until it is dropped.
    pub(crate) slots: Vec<Option<Named>>,
    /// Where each item is, by its number.
    pub(crate) cells: Pool<Place>,
}

impl Model for Objects {
    ghost use Rattle.object_store.specs.State.{ObjectState, objects_code};

    ghost Value = { ObjectState };

    ghost coded = { objects_code };

    ghost use Rattle.object_store.specs.Kept.{state_of, IsKept};

    ghost view = { λ a. state_of a.slots.items a.cells };

    ghost invariant = { λ a. IsKept a.slots.items a.cells };
}

impl Objects {
    /// No objects. It takes no memory.
    pub fn new(alloc: Global) -> Objects
        ensures { result ≡ no_objects }
    {
        Objects {
            alloc,
            slots: Vec::new(alloc),
            cells: Pool::new(alloc),
        }
    }

    /// Whether an object of these kinds has the name.
    pub fn has_object(&self, kinds: Kinds, name: &[u8]) -> bool
        ensures { result ≡ has self.now kinds name.now }
    {
        match slot_of(self.slots.as_slice(), name) {
            Some(slot) => match &self.slots[slot] {
                Some(named) => named.object.kind().is_of(kinds),
                None => unreachable!(),
            },
            None => false,
        }
    }

    /// Whether the item of the number is one of a container of these kinds.
    pub fn holds_cell(&self, kinds: Kinds, number: u32) -> bool
        ensures { result ≡ holds self.now kinds number }
    {
        match place_of(&self.cells, number) {
            Some(place) => kind_at(self.slots.as_slice(), place.slot).is_of(kinds),
            None => false,
        }
    }

    /// Whether an item of the number is there.
    ///
    /// # Errors
    /// `Dead` where the number was given and the item is gone, and `Unknown` where it wasn't given.
    pub fn find_cell(&self, number: u32) -> Result<(), Gone>
        ensures { MatchResult result (λ _. is_live self.now number ≡ true)
            (λ why. (is_live self.now number ≡ false) × WhyGone self.now.made number why) }
    {
        match self.cells.item(number) {
            Ok(_) => Ok(()),
            Err(why) => Err(why),
        }
    }

    /// `push X x` and `append X x`: puts a value before all others of a list, or behind them.
    ///
    /// It is refused as full at 1,000,000 items of all objects, and as spent where 16,777,215
    /// numbers were given, or answered by want of memory. All is then as it was.
    pub fn put(&mut self, end: End, name: &[u8], value: i64) -> Reply
        requires { has self.old kinds.List name.now ≡ true }
        ensures leads { Leads true
            (objects_done (putting_word end) (args.Name name.now ∷ args.Num value ∷ []) self.old)
            self.old result self.new }
        ensures named { IsNamed result }
        ensures short { IsShort result }
    {
        self.put_in(name, end.entrance(), value)
    }

    /// `insert_before i x` and `insert_behind i x`: puts a value right before an item of a list, or
    /// right behind it, or is refused as `put` is.
    pub fn insert(&mut self, side: Side, number: u32, value: i64) -> Reply
        requires { holds self.old kinds.List number ≡ true }
        ensures leads { Leads true
            (objects_done (inserting_word side) (args.Cell number ∷ args.Num value ∷ []) self.old)
            self.old result self.new }
        ensures named { IsNamed result }
        ensures short { IsShort result }
    {
        put_beside(
            self.slots.as_mut_slice(),
            &mut self.cells,
            number,
            side,
            value,
        )
    }

    /// `dict_insert X k x`: gives a key of a dictionary an information. A key that is there keeps
    /// its item, and is never refused; another one comes in, or is refused as `put` is.
    pub fn dict_insert(&mut self, name: &[u8], key: i64, value: i64) -> Reply
        requires { has self.old kinds.Dict name.now ≡ true }
        ensures leads { Leads true (objects_done words.DictInsert
            (args.Name name.now ∷ args.Num key ∷ args.Num value ∷ []) self.old)
            self.old result self.new }
        ensures named { IsNamed result }
        ensures short { IsShort result }
    {
        match self.number_sought(Sought::WithKey(key), name) {
            Some(number) => {
                self.write(Writing::Information, number, value);
                number_reply(Some(number))
            }
            None => self.put_in(name, Entrance::Key(key), value),
        }
    }

    /// `queue_insert X p x`: takes an information into a queue with a priority, or is refused as
    /// `put` is.
    pub fn queue_insert(&mut self, name: &[u8], priority: i64, value: i64) -> Reply
        requires { has self.old kinds.Queue name.now ≡ true }
        ensures leads { Leads true (objects_done words.QueueInsert
            (args.Name name.now ∷ args.Num priority ∷ args.Num value ∷ []) self.old)
            self.old result self.new }
        ensures named { IsNamed result }
        ensures short { IsShort result }
    {
        self.put_in(name, Entrance::Priority(priority), value)
    }

    /// Takes an item into the object of the name, or refuses it: as full at 1,000,000 items of all
    /// objects, and as spent where 16,777,215 numbers were given. Or it lacks memory. Then all is
    /// as it was.
    fn put_in(&mut self, name: &[u8], entrance: Entrance, value: i64) -> Reply
        requires there { has self.old (entrance_kinds entrance) name.now ≡ true }
        requires open { (o : Seen) → object_at self.old name.now ≡ Some o
            → IsOpen entrance o.cells }
        ensures leads { Leads true (on_object self.old (entrance_kinds entrance) name.now (λ o.
            enters name.now o (put_in entrance (next (values_of entrance value) self.old) o.cells)
            self.old)) self.old result self.new }
        ensures named { IsNamed result }
        ensures short { IsShort result }
    {
        put_into(
            self.slots.as_mut_slice(),
            &mut self.cells,
            name,
            entrance,
            value,
        )
    }

    /// `size X`: how many items a container has.
    pub fn size(&self, name: &[u8]) -> Reply
        requires { has self.now kinds.Container name.now ≡ true }
        ensures leads { objects_done words.Size (args.Name name.now ∷ []) self.now
            ≡ Some (self.now, result) }
        ensures named { IsNamed result }
        ensures short { IsShort result }
    {
        let slots = self.slots.as_slice();
        let Some(slot) = slot_of(slots, name) else {
            unreachable!()
        };
        let len = len_at(slots, slot);
        Reply::Line(ReplyLine::Num(i64::from(len)))
    }

    /// `items X`: the items of a container, those of a list in its order, those of a dictionary by
    /// key, and those of a queue by priority and then by number. It may be answered by want of
    /// memory.
    pub fn items(&self, name: &[u8]) -> Reply
        requires { has self.now kinds.Container name.now ≡ true }
        ensures leads { Leads true (objects_done words.Items (args.Name name.now ∷ []) self.now)
            self.now result self.now }
        ensures named { IsNamed result }
    {
        let slots = self.slots.as_slice();
        let Some(slot) = slot_of(slots, name) else {
            unreachable!()
        };
        match shown_at(slots, slot, self.alloc) {
            Ok(cells) => Reply::Line(ReplyLine::Cells(cells)),
            Err(NoMemory) => Reply::Refused(Refusal::Memory),
        }
    }

    /// `contents i`, `key i`, `prio i` and `inf i`: what an item holds.
    pub fn read(&self, what: Reading, number: u32) -> Reply
        requires { holds self.now (reading_kinds what) number ≡ true }
        ensures leads { objects_done (reading_word what) (args.Cell number ∷ []) self.now
            ≡ Some (self.now, result) }
        ensures named { IsNamed result }
        ensures short { IsShort result }
    {
        let Some(place) = place_of(&self.cells, number) else {
            unreachable!()
        };
        let value = read_at(self.slots.as_slice(), place, what);
        Reply::Line(ReplyLine::Num(value))
    }

    /// `first X`, `last X`, `lookup X k` and `find_min X`: an item of an object.
    pub fn find(&self, what: Sought, name: &[u8]) -> Reply
        requires { has self.now (sought_kinds what) name.now ≡ true }
        ensures leads { objects_done (sought_word what) (args.Name name.now ∷ sought_args what)
            self.now ≡ Some (self.now, result) }
        ensures named { IsNamed result }
        ensures short { IsShort result }
    {
        number_reply(self.number_sought(what, name))
    }

    /// The number of an item that is sought in the object of the name.
    fn number_sought(&self, what: Sought, name: &[u8]) -> Option<u32>
        requires { has self.now (sought_kinds what) name.now ≡ true }
        ensures { Finds self.now what name.now result }
    {
        let slots = self.slots.as_slice();
        let Some(slot) = slot_of(slots, name) else {
            unreachable!()
        };
        number_at_place(slots, slot, what.near())
    }

    /// `succ i` and `pred i`, and `cyclic_succ i` and `cyclic_pred i`: a neighbour of an item of a
    /// list, or, by the first two, of a dictionary in the order of its keys.
    pub fn neighbour(&self, what: Neighbour, number: u32) -> Reply
        requires { holds self.now (neighbour_kinds what) number ≡ true }
        ensures leads { objects_done (neighbour_word what) (args.Cell number ∷ []) self.now
            ≡ Some (self.now, result) }
        ensures named { IsNamed result }
        ensures short { IsShort result }
    {
        let Some(place) = place_of(&self.cells, number) else {
            unreachable!()
        };
        let near = what.of(place.item);
        number_reply(number_at_place(self.slots.as_slice(), place.slot, near))
    }

    /// `assign i x` and `change_inf i x`: gives an item another value, or another information. It
    /// takes no memory.
    pub fn write(&mut self, what: Writing, number: u32, value: i64) -> Reply
        requires { holds self.old (writing_kinds what) number ≡ true }
        ensures leads { Leads false
            (objects_done (writing_word what) (args.Cell number ∷ args.Num value ∷ []) self.old)
            self.old result self.new }
        ensures named { IsNamed result }
        ensures short { IsShort result }
    {
        let Some(place) = place_of(&self.cells, number) else {
            unreachable!()
        };
        change(
            self.slots.as_mut_slice(),
            place.slot,
            Change::Write(place.item, Entry { number, value }),
        );
        Reply::Line(ReplyLine::Empty)
    }

    /// `move_to_front i` and `move_to_rear i`: moves an item of a list before all others, or behind
    /// them. It takes no memory.
    pub fn move_to(&mut self, end: End, number: u32) -> Reply
        requires { holds self.old kinds.List number ≡ true }
        ensures leads { Leads false
            (objects_done (moving_word end) (args.Cell number ∷ []) self.old)
            self.old result self.new }
        ensures named { IsNamed result }
        ensures short { IsShort result }
    {
        let Some(place) = place_of(&self.cells, number) else {
            unreachable!()
        };
        change(
            self.slots.as_mut_slice(),
            place.slot,
            Change::Move(place.item, end),
        );
        Reply::Line(ReplyLine::Empty)
    }

    /// `reverse_items X`: turns a list round, in constant time and without memory.
    pub fn reverse_items(&mut self, name: &[u8]) -> Reply
        requires { has self.old kinds.List name.now ≡ true }
        ensures leads { Leads false
            (objects_done words.ReverseItems (args.Name name.now ∷ []) self.old)
            self.old result self.new }
        ensures named { IsNamed result }
        ensures short { IsShort result }
    {
        let Some(slot) = slot_of(self.slots.as_slice(), name) else {
            unreachable!()
        };
        change(self.slots.as_mut_slice(), slot, Change::Turn);
        Reply::Line(ReplyLine::Empty)
    }

    /// `del_item i`: takes an item out of its container. It takes no memory.
    pub fn del_item(&mut self, number: u32) -> Reply
        requires { holds self.old kinds.Container number ≡ true }
        ensures leads { Leads false (objects_done words.DelItem (args.Cell number ∷ []) self.old)
            self.old result self.new }
        ensures named { IsNamed result }
        ensures short { IsShort result }
    {
        delete(self.slots.as_mut_slice(), &mut self.cells, number)
    }

    /// `del X k`: takes the item of a key out of a dictionary, and changes nothing where there is
    /// none. It takes no memory.
    pub fn del(&mut self, name: &[u8], key: i64) -> Reply
        requires { has self.old kinds.Dict name.now ≡ true }
        ensures leads { Leads false
            (objects_done words.Del (args.Name name.now ∷ args.Num key ∷ []) self.old)
            self.old result self.new }
        ensures named { IsNamed result }
        ensures short { IsShort result }
    {
        match self.number_sought(Sought::WithKey(key), name) {
            Some(number) => self.del_item(number),
            None => Reply::Line(ReplyLine::Empty),
        }
    }

    /// `del_min X`: takes the item that goes first out of a queue, and answers its priority. It
    /// takes no memory.
    pub fn del_min(&mut self, name: &[u8]) -> Reply
        requires { has self.old kinds.Queue name.now ≡ true }
        ensures leads { Leads false (objects_done words.DelMin (args.Name name.now ∷ []) self.old)
            self.old result self.new }
        ensures named { IsNamed result }
        ensures short { IsShort result }
    {
        match self.number_sought(Sought::Least, name) {
            Some(number) => {
                let priority = self.read(Reading::Priority, number);
                self.del_item(number);
                priority
            }
            None => Reply::Line(ReplyLine::Nil),
        }
    }

    /// `decrease i p`: gives an item of a queue a priority that is at most its own, and refuses a
    /// larger one. It takes no memory.
    pub fn decrease(&mut self, number: u32, priority: i64) -> Reply
        requires { holds self.old kinds.Queue number ≡ true }
        ensures leads { Leads false
            (objects_done words.Decrease (args.Cell number ∷ args.Num priority ∷ []) self.old)
            self.old result self.new }
        ensures named { IsNamed result }
        ensures short { IsShort result }
    {
        let Some(place) = place_of(&self.cells, number) else {
            unreachable!()
        };
        let present = read_at(self.slots.as_slice(), place, Reading::Priority);
        if present < priority {
            return Reply::Refused(Refusal::Larger(present));
        }
        change(
            self.slots.as_mut_slice(),
            place.slot,
            Change::Lower(place.item, priority),
        );
        Reply::Line(ReplyLine::Empty)
    }

    /// `drop X`: takes an object out with its items, whose numbers aren't given again. It takes no
    /// memory.
    pub fn drop_object(&mut self, name: &[u8]) -> Reply
        requires { has self.old kinds.Any name.now ≡ true }
        ensures leads { Leads false
            (objects_done words.DropObject (args.Name name.now ∷ []) self.old)
            self.old result self.new }
        ensures named { IsNamed result }
        ensures short { IsShort result }
    {
        drop_object(self.slots.as_mut_slice(), &mut self.cells, name)
    }

    /// `list X`, `dict X` and `queue X`: makes an empty container, under a name that no object has.
    ///
    /// It is refused as full where there are 100 objects, or answered by want of memory. All is
    /// then as it was.
    pub fn make(&mut self, kind: ObjectKind, name: &[u8]) -> Reply
        requires there { has self.old kinds.Any name.now ≡ false }
        requires kind { is_of kinds.Container kind ≡ true }
        ensures gives { Gives true (comes_in name.now (container kind) self.old)
            self.old result self.new }
        ensures named { IsNamed result }
        ensures short { IsShort result }
    {
        self.come_in(name, Object::new(self.alloc, kind))
    }

    /// A new object comes in, under a name that no object has, or is refused as `make` is.
    pub(crate) fn come_in(&mut self, name: &[u8], object: Object) -> Reply
        requires there { has self.old kinds.Any name.now ≡ false }
        requires bare { inner object ≡ [] }
        requires start { made_in object ≡ 0 }
        ensures gives { Gives true (comes_in name.now (seen object) self.old)
            self.old result self.new }
        ensures named { IsNamed result }
        ensures short { IsShort result }
    {
        if count(self.slots.as_slice()) == OBJECT_LIMIT {
            return Reply::Refused(Refusal::FullObjects);
        }
        let Ok(name) = Row::from_slice(self.alloc, name) else {
            return Reply::Refused(Refusal::Memory);
        };
        match put(&mut self.slots, Named { name, object }) {
            Ok(()) => Reply::Line(ReplyLine::Empty),
            Err(NoMemory) => Reply::Refused(Refusal::Memory),
        }
    }
}

/// An item by its number, if there is one.
fn number_reply(number: Option<u32>) -> Reply
    ensures value { result ≡ Line (number_line number) }
    ensures named { IsNamed result }
    ensures short { IsShort result }
{
    match number {
        Some(number) => Reply::Line(ReplyLine::Name(ItemName::Cell(number))),
        None => Reply::Line(ReplyLine::Nil),
    }
}

/// The kind of the object at a place.
fn kind_at(slots: &[Option<Named>], slot: usize) -> ObjectKind
    requires { HasAt slots.now slot (λ o. ⊤) }
    ensures { HasAt slots.now slot (λ o. kind_of o ≡ result) }
{
    match &slots[slot] {
        Some(named) => named.object.kind(),
        None => unreachable!(),
    }
}

/// Puts an object into a free place.
fn put(slots: &mut Vec<Option<Named>>, named: Named) -> Result<(), NoMemory>
    ensures ok { OnOk result (Puts slots.old.items slots.new.items named) }
    ensures err { OnErr result (slots.new.items ≡ slots.old.items) }
{
    match free_slot(slots.as_slice()) {
        Some(slot) => slots[slot] = Some(named),
        None => slots.push(Some(named))?,
    }
    Ok(())
}

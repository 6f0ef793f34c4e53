//! The items of a container, as they are shown.
ghost use Rattle.std.specs.Prelude.{◌≡◌, List, ◌∷◌, ◌++◌, true, map, IfOk};
ghost use Rattle.item_ring.specs.RingLists.{IsDistinct, front};
ghost use Rattle.item_list.specs.Items.{serials, serial_of};
ghost use Rattle.script_text.specs.declared.form.Kinds.TheVariants.{ListOrDict};
ghost use Rattle.object_store.specs.declared.object.Object.TheVariants as held;
ghost use Rattle.object_store.specs.State.{Cell};
ghost use Rattle.object_store.specs.Views.{is_of};
ghost use Rattle.object_store.specs.Cells.{in_order, listed, shown as as_shown};
ghost use Rattle.object_store.specs.Inner.{Inner, inner, cells_in, kind_of, seen};
ghost use Rattle.object_store.specs.Kept.{HasAt};
ghost use Rattle.object_store.specs.Near.{HasThere};
ghost use Rattle.object_store.specs.Shown.{IsShowable, IsShown};

use crate::object::{Entry, Object};
use crate::slots::Named;
use item_dict::Dict;
use item_pool::Item;
use item_queue::Queue;
use leda_base::{NoMemory, Row};
use reply_text::CellShow;
use std::alloc::Global;

impl Object {
    /// The items in the order in which they are shown, as they are shown.
    pub(crate) fn shown(&self, alloc: Global) -> Result<Row<CellShow>, NoMemory>
        requires { IsShowable self.now }
        ensures { IfOk result (λ row. row ≡ map as_shown (listed (seen self.now))) }
    {
        match self {
            Object::List(_) | Object::Dict(_) => self.in_turn(alloc),
            Object::Queue(queue) => self.by_priority(alloc, queue),
            Object::Values(_) => Ok(Row::new(alloc)),
        }
    }

    /// The items of a list or a dictionary, one behind the other, as they are shown.
    fn in_turn(&self, alloc: Global) -> Result<Row<CellShow>, NoMemory>
        requires distinct { IsDistinct (serials (inner self.now)) }
        requires kind { is_of ListOrDict (kind_of self.now) ≡ true }
        ensures { IfOk result (λ row. row ≡ map as_shown (cells_in self.now)) }
    {
        let mut cells = Row::new(alloc);
        let mut next = self.first_item();
        while let Some(item) = next {
            cells.push(self.cell(alloc, item)?)?;
            next = self.item_behind(item);
        }
        Ok(cells)
    }

    /// The first item of a list, or that of the least key of a dictionary.
    fn first_item(&self) -> Option<Item>
        requires distinct { IsDistinct (serials (inner self.now)) }
        requires kind { is_of ListOrDict (kind_of self.now) ≡ true }
        ensures { serial_of result ≡ front (serials (inner self.now)) }
    {
        match self {
            Object::List(list) => list.first(),
            Object::Dict(dict) => dict.min(),
            Object::Queue(_) | Object::Values(_) => unreachable!(),
        }
    }

    /// The item right behind another one.
    fn item_behind(&self, item: Item) -> Option<Item>
        requires there { HasThere item (inner self.now) }
        requires distinct { IsDistinct (serials (inner self.now)) }
        requires kind { is_of ListOrDict (kind_of self.now) ≡ true }
        ensures { (bs rs : List Inner) (c : Cell) → inner self.now ≡ bs ++ (item.serial, c) ∷ rs
            → serial_of result ≡ front (serials rs) }
    {
        match self {
            Object::List(list) => match list.succ(item) {
                Ok(behind) => behind,
                Err(_) => unreachable!(),
            },
            Object::Dict(dict) => match dict.succ(item) {
                Ok(behind) => behind,
                Err(_) => unreachable!(),
            },
            Object::Queue(_) | Object::Values(_) => unreachable!(),
        }
    }

    /// The items of a queue by priority and then by number, as they are shown.
    fn by_priority(&self, alloc: Global, queue: &Queue<Entry>) -> Result<Row<CellShow>, NoMemory>
        requires showable { IsShowable self.now }
        requires is { self.now ≡ held.Queue queue.now }
        ensures { IfOk result (λ row. row ≡ map as_shown (in_order (cells_in self.now))) }
    {
        // No item has the serial 0, so each item is listed.
        prove!(queue.inf(Item { slot: 0, serial: 0 }).is_err());
        let row = queue.items(alloc)?;
        let items = row.as_slice();
        let mut cells = Row::new(alloc);
        for item in items {
            cells.push(self.cell(alloc, *item)?)?;
        }
        Ok(cells)
    }

    /// An item, as it is shown.
    fn cell(&self, alloc: Global, item: Item) -> Result<CellShow, NoMemory>
        requires there { HasThere item (inner self.now) }
        requires distinct { IsDistinct (serials (inner self.now)) }
        ensures { IfOk result (λ cell. IsShown (inner self.now) item.serial cell) }
    {
        match self {
            Object::List(list) => match list.contents(item) {
                Ok(entry) => cell_with(alloc, entry.number, &[entry.value]),
                Err(_) => unreachable!(),
            },
            Object::Dict(dict) => dict_cell(alloc, dict, item),
            Object::Queue(queue) => queue_cell(alloc, queue, item),
            Object::Values(_) => unreachable!(),
        }
    }
}

fn dict_cell(alloc: Global, dict: &Dict<Entry>, item: Item) -> Result<CellShow, NoMemory>
    requires there { HasThere item (inner (held.Dict dict.now)) }
    requires distinct { IsDistinct (serials (inner (held.Dict dict.now))) }
    ensures { IfOk result (λ cell. IsShown (inner (held.Dict dict.now)) item.serial cell) }
{
    let Ok(key) = dict.key(item) else {
        unreachable!()
    };
    match dict.inf(item) {
        Ok(entry) => cell_with(alloc, entry.number, &[key, entry.value]),
        Err(_) => unreachable!(),
    }
}

fn queue_cell(alloc: Global, queue: &Queue<Entry>, item: Item) -> Result<CellShow, NoMemory>
    requires { HasThere item (inner (held.Queue queue.now)) }
    ensures { IfOk result (λ cell. IsShown (inner (held.Queue queue.now)) item.serial cell) }
{
    let Ok(priority) = queue.prio(item) else {
        unreachable!()
    };
    match queue.inf(item) {
        Ok(entry) => cell_with(alloc, entry.number, &[priority, entry.value]),
        Err(_) => unreachable!(),
    }
}

/// An item of the number that holds these values, as it is shown.
fn cell_with(alloc: Global, number: u32, values: &[i64]) -> Result<CellShow, NoMemory>
    ensures { IfOk result (λ cell. cell ≡ as_shown (number, values.now)) }
{
    Ok(CellShow {
        number,
        values: Row::from_slice(alloc, values)?,
    })
}

/// The items of the object at a place, as they are shown.
pub(crate) fn shown_at(
    slots: &[Option<Named>],
    slot: usize,
    alloc: Global,
) -> Result<Row<CellShow>, NoMemory>
    requires { HasAt slots.now slot IsShowable }
    ensures { IfOk result (λ row.
        HasAt slots.now slot (λ o. row ≡ map as_shown (listed (seen o)))) }
{
    match &slots[slot] {
        Some(named) => named.object.shown(alloc),
        None => unreachable!(),
    }
}

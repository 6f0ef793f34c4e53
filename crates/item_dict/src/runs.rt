//! What no clause says: that a long run of all calls mixed goes as one over plain entries, and that
//! each value is dropped once.
ghost use Rattle.std.specs.Prelude.{◌≤◌, length};

use crate::{Dict, Gone, Item};
use std::alloc::{AllocError, Global};
use std::cell::Cell;
use std::test::Fail;

/// The entries of key, serial and information in the order of the keys, and how many serials were
/// made.
#[derive(Drop)]
struct Entries {
    entries: Vec<(i64, u32, u32)>,
    made: u32,
}

/// Where a key stands, or would stand.
fn place_of(entries: &[(i64, u32, u32)], k: i64) -> usize
    ensures { result ≤ length entries.now }
{
    for (place, entry) in entries.iter().enumerate() {
        if k <= entry.0 {
            return place;
        }
    }
    entries.len()
}

impl Entries {
    /// The key of a serial.
    fn key(&self, serial: u32) -> Result<i64, Gone> {
        for entry in &self.entries {
            if entry.1 == serial {
                return Ok(entry.0);
            }
        }
        if serial == 0 || self.made < serial {
            Err(Gone::Unknown)
        } else {
            Err(Gone::Dead)
        }
    }

    /// The serial that stands some places behind a key's place.
    fn serial_near(&self, k: i64, places: usize) -> Option<u32> {
        let place = place_of(&self.entries, k).checked_add(places)?;
        Some(self.entries.get(place)?.1)
    }

    /// The serial of the greatest key below another.
    fn serial_below(&self, k: i64) -> Option<u32> {
        let place = place_of(&self.entries, k).checked_sub(1)?;
        Some(self.entries.get(place)?.1)
    }

    fn insert(&mut self, k: i64, inf: u32) -> Result<u32, AllocError> {
        let place = place_of(&self.entries, k);
        if let Some(entry) = self.entries.get_mut(place) {
            if entry.0 == k {
                entry.2 = inf;
                return Ok(entry.1);
            }
        }
        self.made = self.made.wrapping_add(1);
        self.entries.insert(place, (k, self.made, inf))?;
        Ok(self.made)
    }

    fn del(&mut self, k: i64) -> Option<u32> {
        let place = place_of(&self.entries, k);
        match self.entries.get(place) {
            Some(entry) if entry.0 == k => Some(self.entries.remove(place).2),
            _ => None,
        }
    }

    fn change_inf(&mut self, k: i64, inf: u32) -> Option<u32> {
        let place = place_of(&self.entries, k);
        match self.entries.get_mut(place) {
            Some(entry) if entry.0 == k => {
                let old = entry.2;
                entry.2 = inf;
                Some(old)
            }
            _ => None,
        }
    }
}

/// The serial of a look that answers an item or none.
fn serial_of(look: Result<Option<Item>, Gone>) -> Result<Option<u32>, Gone> {
    match look {
        Ok(found) => Ok(found.map(|it| it.serial)),
        Err(why) => Err(why),
    }
}

/// Whether `del_item` answers as the entries do.
fn dels_item_alike(dict: &mut Dict<u32>, entries: &mut Entries, it: Item) -> bool {
    match entries.key(it.serial) {
        Ok(k) => dict.del_item(it).ok() == entries.del(k),
        Err(why) => dict.del_item(it) == Err(why),
    }
}

/// Whether `change_inf` answers as the entries do.
fn changes_alike(dict: &mut Dict<u32>, entries: &mut Entries, it: Item, inf: u32) -> bool {
    match entries.key(it.serial) {
        Ok(k) => dict.change_inf(it, inf).ok() == entries.change_inf(k, inf),
        Err(why) => dict.change_inf(it, inf) == Err(why),
    }
}

/// Whether `succ` and `pred` answer as the entries do.
fn steps_alike(dict: &Dict<u32>, entries: &Entries, it: Item) -> bool {
    match entries.key(it.serial) {
        Ok(k) => {
            serial_of(dict.succ(it)) == Ok(entries.serial_near(k, 1))
                && serial_of(dict.pred(it)) == Ok(entries.serial_below(k))
        }
        Err(why) => dict.succ(it) == Err(why) && dict.pred(it) == Err(why),
    }
}

/// Whether the dictionary holds the entries and no more.
fn holds(dict: &Dict<u32>, entries: &Entries) -> bool {
    for entry in &entries.entries {
        let Some(it) = dict.lookup(entry.0) else {
            return false;
        };
        let Ok(inf) = dict.inf(it) else {
            return false;
        };
        if it.serial != entry.1 || *inf != entry.2 || dict.key(it) != Ok(entry.0) {
            return false;
        }
    }
    dict.len() as usize == entries.entries.len()
}

/// Makes the call that a random number picks, and says whether it answers as the entries do.
fn answers_alike(
    dict: &mut Dict<u32>,
    entries: &mut Entries,
    draw: u32,
) -> Result<bool, AllocError> {
    let k = (draw / 8 % 40) as i64;
    let serial = match entries.serial_near(k, (draw / 320 % 16) as usize) {
        Some(near) => near,
        None => draw / 16,
    };
    let it = Item { slot: 0, serial };
    Ok(match draw % 8 {
        0 | 1 | 2 => {
            let inserted = entries.insert(k, draw)?;
            dict.insert(k, draw).is_ok_and(|new| new.serial == inserted)
        }
        3 => dict.del(k) == entries.del(k),
        4 => dels_item_alike(dict, entries, it),
        5 => changes_alike(dict, entries, it, draw),
        _ => steps_alike(dict, entries, it),
    })
}

/// Whether six thousand calls at random answer as plain entries do, and leave the same.
fn goes_as_rows(alloc: Global) -> Result<bool, AllocError> {
    let mut dict = Dict::new(alloc);
    let mut entries = Entries {
        entries: Vec::new(alloc),
        made: 0,
    };
    let mut seed = 1u32;
    for _ in 0..6000u32 {
        seed = seed.wrapping_mul(1_103_515_245).wrapping_add(12_345);
        if !answers_alike(&mut dict, &mut entries, seed / 65_536)? || !holds(&dict, &entries) {
            return Ok(false);
        }
    }
    Ok(true)
}

#[test]
fn a_long_run_goes_as_plain_rows(rt: HostRuntime) -> Result<(), Fail> {
    let alike = goes_as_rows(rt.alloc())?;
    assert!(rt; alike);
    Ok(())
}

/// A text of its own memory, which counts how often it is dropped.
struct Counted<'a> {
    drops: &'a Cell<u32>,
    text: String,
}

impl Drop for Counted<'_> {
    fn drop(self) {
        self.drops.set(self.drops.get().wrapping_add(1));
        let Counted {
            drops: _,
            text: _text,
        } = self;
    }
}

fn make_counted(alloc: Global, drops: &Cell<u32>) -> Result<Counted<'_>, AllocError> {
    let text = String::from_str(alloc, "a value of its own memory")?;
    Ok(Counted { drops, text })
}

/// Puts a hundred values in, thirty in their place, changes ten, takes forty out, and drops all.
fn fill_and_drop(alloc: Global, drops: &Cell<u32>) -> Result<(), AllocError> {
    let mut dict = Dict::new(alloc);
    for k in 0..100i64 {
        let _refused = dict.insert(k, make_counted(alloc, drops)?);
    }
    for k in 0..30i64 {
        let _refused = dict.insert(k, make_counted(alloc, drops)?);
    }
    for serial in 1..=10u32 {
        let _old = dict.change_inf(Item { slot: 0, serial }, make_counted(alloc, drops)?);
    }
    for k in 80..100i64 {
        let _taken = dict.del(k);
    }
    for serial in 41..=60u32 {
        let _taken = dict.del_item(Item { slot: 0, serial });
    }
    Ok(())
}

#[test]
fn drops_each_value_once(rt: HostRuntime) -> Result<(), Fail> {
    let drops = Cell::new(0);
    fill_and_drop(rt.alloc(), &drops)?;
    assert_eq!(rt; drops.get(), 140);
    Ok(())
}

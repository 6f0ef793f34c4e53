//! What no clause says: each call's answer where there is memory, that a long run of calls goes as
//! on a plain list, and that each value is dropped once.
use crate::{DecreaseRefusal, Gone, InsertRefusal, Item, Queue};
use item_pool::MOST_SERIALS;
use std::alloc::Global;
use std::cell::Cell;
use std::test::Fail;

/// What the list has of an item: its priority, its serial and its information.
type Listed = (i64, u32, u32);

/// The item that comes in, and the item 0 where there is no memory.
fn put(queue: &mut Queue<u32>, p: i64, inf: u32) -> Item {
    match queue.insert(p, inf) {
        Ok(it) => it,
        Err(InsertRefusal::NoMemory(_) | InsertRefusal::Spent(_)) => Item { slot: 0, serial: 0 },
    }
}

/// The priority and the information of a serial, as the list has them.
fn held(list: &[Listed], made: u32, serial: u32) -> Result<(i64, u32), Gone> {
    match list.iter().find(|entry| entry.1 == serial) {
        Some(entry) => Ok((entry.0, entry.2)),
        None => {
            if serial == 0 || made < serial {
                Err(Gone::Unknown)
            } else {
                Err(Gone::Dead)
            }
        }
    }
}

/// Whether an insertion goes as on the list. So do the others below.
fn inserts(queue: &mut Queue<u32>, list: &mut Vec<Listed>, p: i64, inf: u32) -> bool {
    let serial = queue.made() + 1;
    put(queue, p, inf).serial == serial && list.push((p, serial, inf)).is_ok()
}

fn decreases(queue: &mut Queue<u32>, list: &mut Vec<Listed>, it: Item, p: i64) -> bool {
    let expected = match held(list.as_slice(), queue.made(), it.serial) {
        Ok((present, _)) => {
            if present < p {
                Err(DecreaseRefusal::Larger(present))
            } else {
                Ok(())
            }
        }
        Err(gone) => Err(DecreaseRefusal::Gone(gone)),
    };
    if expected.is_ok() {
        for entry in list.iter_mut() {
            if entry.1 == it.serial {
                entry.0 = p;
            }
        }
    }
    queue.decrease_p(it, p) == expected
}

fn changes(queue: &mut Queue<u32>, list: &mut Vec<Listed>, it: Item, inf: u32) -> bool {
    let expected = held(list.as_slice(), queue.made(), it.serial).map(|(_, old)| old);
    for entry in list.iter_mut() {
        if entry.1 == it.serial {
            entry.2 = inf;
        }
    }
    queue.change_inf(it, inf) == expected
}

fn removes(queue: &mut Queue<u32>, list: &mut Vec<Listed>, it: Item) -> bool {
    let expected = held(list.as_slice(), queue.made(), it.serial).map(|(_, inf)| inf);
    list.retain(|entry| entry.1 != it.serial);
    queue.del_item(it) == expected
}

fn takes_least(queue: &mut Queue<u32>, list: &mut Vec<Listed>) -> bool {
    let Some(least) = list.iter().copied().min() else {
        return queue.find_min().is_none() && queue.del_min().is_none();
    };
    list.retain(|entry| entry.1 != least.1);
    queue.find_min().map(|it| it.serial) == Some(least.1)
        && queue.del_min() == Some((least.0, least.2))
}

fn looks(queue: &Queue<u32>, list: &[Listed], it: Item) -> bool {
    let expected = held(list, queue.made(), it.serial);
    queue.prio(it) == expected.map(|(p, _)| p)
        && queue.inf(it).copied() == expected.map(|(_, inf)| inf)
}

fn lists(queue: &Queue<u32>, list: &[Listed], alloc: Global) -> Result<bool, Fail> {
    let mut sorted: Vec<Listed> = list.iter().copied().collect(alloc)?;
    sorted.sort_unstable();
    let row = queue.items(alloc)?;
    let same = row
        .as_slice()
        .iter()
        .zip(sorted.iter())
        .all(|(it, entry)| it.serial == entry.1);
    Ok(same && row.as_slice().len() == list.len() && queue.len() as usize == list.len())
}

/// Whether one call at random goes as on the list. There are few priorities, so that many are
/// equal, and the serial is one of the last hundred or of the next two.
fn goes_at_random(queue: &mut Queue<u32>, list: &mut Vec<Listed>, random: u32) -> bool {
    let p = (random / 16 % 40) as i64;
    let it = Item {
        slot: random % 64,
        serial: (queue.made() + 2).saturating_sub(random / 1024 % 100),
    };
    match random % 8 {
        0..=2 => inserts(queue, list, p, random),
        3 => decreases(queue, list, it, p),
        4 => changes(queue, list, it, random),
        5 => removes(queue, list, it),
        6 => takes_least(queue, list),
        _ => looks(queue, list.as_slice(), it),
    }
}

/// Whether a run of four thousand calls at random goes as on the list, to the last item.
fn goes_as_a_list(alloc: Global) -> Result<bool, Fail> {
    let mut queue = Queue::new(alloc);
    let mut list = Vec::new(alloc);
    let mut seed = 1u32;
    for call in 0..4000u32 {
        seed = seed.wrapping_mul(1_103_515_245).wrapping_add(12_345);
        if !goes_at_random(&mut queue, &mut list, seed / 256) {
            return Ok(false);
        }
        if call % 50 == 0 && !lists(&queue, list.as_slice(), alloc)? {
            return Ok(false);
        }
    }
    for _ in 0..list.len() {
        if !takes_least(&mut queue, &mut list) {
            return Ok(false);
        }
    }
    lists(&queue, list.as_slice(), alloc)
}

#[test]
fn a_long_run_goes_as_a_list(rt: HostRuntime) -> Result<(), Fail> {
    assert!(rt; goes_as_a_list(rt.alloc())?);
    Ok(())
}

#[test]
fn lowers_and_takes_out(rt: HostRuntime) -> Result<(), Fail> {
    let mut queue = Queue::new(rt.alloc());
    let it = put(&mut queue, 5, 50);
    assert_eq!(rt; it.serial, 1);
    assert!(rt; queue.decrease_p(it, 9) == Err(DecreaseRefusal::Larger(5)));
    assert!(rt; queue.decrease_p(it, 2) == Ok(()));
    assert!(rt; queue.items(rt.alloc())?.as_slice() == [it].as_slice());
    assert!(rt; queue.prio(it) == Ok(2));
    assert!(rt; queue.find_min() == Some(it));
    assert!(rt; queue.del_min() == Some((2, 50)));
    assert!(rt; queue.prio(it) == Err(Gone::Dead));
    assert!(rt; queue.find_min().is_none() && queue.del_min().is_none());
    Ok(())
}

#[test]
fn tells_dead_from_unknown(rt: HostRuntime) {
    let mut queue = Queue::new(rt.alloc());
    let it = put(&mut queue, -7, 70);
    assert!(rt; queue.change_inf(it, 71) == Ok(70));
    assert!(rt; queue.inf(it) == Ok(&71));
    assert!(rt; queue.del_item(it) == Ok(71));
    assert!(rt; queue.del_item(it) == Err(Gone::Dead));
    assert!(rt; queue.change_inf(it, 72) == Err(Gone::Dead));
    assert!(rt; queue.decrease_p(it, -8) == Err(DecreaseRefusal::Gone(Gone::Dead)));
    assert!(rt; queue.prio(Item { slot: 0, serial: 2 }) == Err(Gone::Unknown));
    assert!(rt; queue.inf(Item { slot: 0, serial: 0 }) == Err(Gone::Unknown));
    assert_eq!(rt; queue.len(), 0);
}

/// How many of a thousand values, for which room was made, come in.
fn fill_reserved(queue: &mut Queue<u32>) -> u32 {
    let mut taken = 0u32;
    for value in 0..1000u32 {
        if queue.spare() > 0 && queue.made() < MOST_SERIALS {
            let it = queue.insert_reserved(i64::MAX, value);
            if it.serial == value + 1 {
                taken = taken.wrapping_add(1);
            }
        }
    }
    taken
}

#[test]
fn takes_in_what_it_has_room_for(rt: HostRuntime) {
    let mut queue = Queue::new(rt.alloc());
    assert_eq!(rt; queue.spare(), 0);
    assert!(rt; queue.reserve(1000).is_ok());
    assert!(rt; queue.spare() >= 1000);
    assert_eq!(rt; fill_reserved(&mut queue), 1000);
    assert_eq!(rt; queue.len(), 1000);
    assert!(rt; queue.del_min() == Some((i64::MAX, 0)));
}

/// A text of its own memory, which counts how often it is dropped.
struct Counted<'a> {
    drops: &'a Cell<u32>,
    text: String,
}

impl Drop for Counted<'_> {
    fn drop(self) {
        self.drops.set(self.drops.get().wrapping_add(1));
        let Counted {
            drops: _,
            text: _text,
        } = self;
    }
}

/// Puts a hundred values in, takes twenty out, changes one of an item that is gone, and drops all.
fn fill_and_drop(alloc: Global, drops: &Cell<u32>) -> Result<(), Fail> {
    let mut queue = Queue::new(alloc);
    for p in 0..100u32 {
        let text = String::from_str(alloc, "a value of its own memory")?;
        let _refused = queue.insert((p % 10) as i64, Counted { drops, text });
    }
    for serial in 1..=10u32 {
        let _taken = queue.del_item(Item { slot: 0, serial });
        let _least = queue.del_min();
    }
    let text = String::from_str(alloc, "a value for an item that is gone")?;
    let _refused = queue.change_inf(Item { slot: 0, serial: 1 }, Counted { drops, text });
    Ok(())
}

#[test]
fn drops_each_value_once(rt: HostRuntime) -> Result<(), Fail> {
    let drops = Cell::new(0);
    fill_and_drop(rt.alloc(), &drops)?;
    assert_eq!(rt; drops.get(), 101);
    Ok(())
}

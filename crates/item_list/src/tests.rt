//! What no clause says: each call's answer where there is memory, that a long run of calls goes as
//! on a plain vector, and that each value is dropped once.
use crate::{BesideRefusal, Gone, InsertRefusal, Item, List};
use std::alloc::{AllocError, Global};
use std::cell::Cell;
use std::test::Fail;

/// The item of the serial, with a slot that is no hint.
fn item(serial: u32) -> Item {
    Item {
        slot: 4_000_000_000,
        serial,
    }
}

/// The serial of an item, and 0 for none.
fn serial(it: Option<Item>) -> u32 {
    match it {
        Some(it) => it.serial,
        None => 0,
    }
}

/// The serial of a new item, and 0 for a refusal.
fn made(it: Result<Item, InsertRefusal<i64>>) -> u32 {
    match it {
        Ok(it) => it.serial,
        Err(_) => 0,
    }
}

/// The same of an item beside another.
fn made_beside(it: Result<Item, BesideRefusal<i64>>) -> u32 {
    match it {
        Ok(it) => it.serial,
        Err(_) => 0,
    }
}

/// The serial of the item behind, 0 for none, and the greatest number where the item is gone.
fn behind(list: &List<i64>, it: Item) -> u32 {
    match list.succ(it) {
        Ok(next) => serial(next),
        Err(_) => u32::MAX,
    }
}

/// The serial of the item before, likewise.
fn before(list: &List<i64>, it: Item) -> u32 {
    match list.pred(it) {
        Ok(prev) => serial(prev),
        Err(_) => u32::MAX,
    }
}

/// Whether the item has the value, and `next` behind it, round the end too.
fn stands(list: &List<i64>, it: Item, value: i64, next: u32) -> bool {
    let round = if next == 0 {
        serial(list.first())
    } else {
        next
    };
    list.contents(it) == Ok(&value)
        && behind(list, it) == next
        && matches!(list.cyclic_succ(it), Ok(there) if there.serial == round)
}

/// Whether the list has the pairs of serials and values, in their order both ways.
fn is_as(list: &List<i64>, pairs: &[(u32, i64)]) -> bool {
    let mut next = 0;
    for (name, value) in pairs.iter().rev() {
        if !stands(list, item(*name), *value, next) {
            return false;
        }
        next = *name;
    }
    let mut prev = 0;
    for (name, _) in pairs {
        if before(list, item(*name)) != prev {
            return false;
        }
        prev = *name;
    }
    serial(list.first()) == next
        && serial(list.last()) == prev
        && list.len() as usize == pairs.len()
}

#[test]
fn keeps_the_order(rt: HostRuntime) {
    let mut list = List::new(rt.alloc());
    assert!(rt; is_as(&list, &[]));
    assert_eq!(rt; made(list.append(4)), 1);
    assert_eq!(rt; made(list.push(3)), 2);
    assert_eq!(rt; made_beside(list.insert_behind(item(1), 9)), 3);
    assert!(rt; is_as(&list, &[(2, 3), (1, 4), (3, 9)]));
    assert!(rt; matches!(list.del_item(item(1)), Ok(4)));
    assert_eq!(rt; behind(&list, item(2)), 3);
    assert_eq!(rt; behind(&list, item(3)), 0);
    assert!(rt; list.contents(item(1)) == Err(Gone::Dead));
    assert!(rt; matches!(list.assign(item(3), -7), Ok(9)));
    assert!(rt; is_as(&list, &[(2, 3), (3, -7)]));
}

#[test]
fn moves_and_turns_round(rt: HostRuntime) {
    let mut list = List::new(rt.alloc());
    list.reverse_items();
    assert!(rt; is_as(&list, &[]));
    assert_eq!(rt; made(list.push(10)), 1);
    assert!(rt; matches!(list.cyclic_pred(item(1)), Ok(Item { slot: _, serial: 1 })));
    assert_eq!(rt; made_beside(list.insert_before(item(1), 20)), 2);
    assert_eq!(rt; made(list.append(30)), 3);
    assert!(rt; matches!(list.cyclic_pred(item(2)), Ok(Item { slot: _, serial: 3 })));
    assert!(rt; matches!(list.cyclic_pred(item(3)), Ok(Item { slot: _, serial: 1 })));
    list.reverse_items();
    assert!(rt; is_as(&list, &[(3, 30), (1, 10), (2, 20)]));
    assert!(rt; matches!(list.move_to_rear(item(1)), Ok(())));
    assert!(rt; is_as(&list, &[(3, 30), (2, 20), (1, 10)]));
    assert!(rt; matches!(list.move_to_front(item(2)), Ok(())));
    assert!(rt; is_as(&list, &[(2, 20), (3, 30), (1, 10)]));
}

#[test]
fn tells_dead_from_unknown(rt: HostRuntime) {
    let mut list = List::new(rt.alloc());
    assert_eq!(rt; made(list.push(10)), 1);
    assert!(rt; matches!(list.del_item(item(1)), Ok(10)));
    assert!(rt; matches!(list.del_item(item(1)), Err(Gone::Dead)));
    assert!(rt; matches!(list.assign(item(1), 5), Err(Gone::Dead)));
    assert!(rt; matches!(list.move_to_front(item(0)), Err(Gone::Unknown)));
    assert!(rt; matches!(list.move_to_rear(item(2)), Err(Gone::Unknown)));
    assert!(rt; matches!(list.cyclic_succ(item(1)), Err(Gone::Dead)));
    assert!(rt;
        matches!(
            list.insert_behind(item(1), 6),
            Err(BesideRefusal::Gone(6, Gone::Dead))
        )
    );
    assert!(rt;
        matches!(
            list.insert_before(item(2), 7),
            Err(BesideRefusal::Gone(7, Gone::Unknown))
        )
    );
    assert!(rt; is_as(&list, &[]));
}

/// Puts a value in on both, at one of four places, and says whether there was memory.
fn add(
    list: &mut List<i64>,
    pairs: &mut Vec<(u32, i64)>,
    place: usize,
    value: i64,
    kind: u32,
) -> Result<bool, AllocError> {
    if place >= pairs.len() {
        return Ok(false);
    }
    let it = item(pairs[place].0);
    let (at, new) = match kind {
        0 => (0, made(list.push(value))),
        1 => (pairs.len(), made(list.append(value))),
        2 => (place, made_beside(list.insert_before(it, value))),
        _ => (place + 1, made_beside(list.insert_behind(it, value))),
    };
    pairs.insert(at, (new, value))?;
    Ok(new != 0)
}

/// Makes another call on both, and says whether they answered alike.
fn change(
    list: &mut List<i64>,
    pairs: &mut Vec<(u32, i64)>,
    place: usize,
    value: i64,
    kind: u32,
) -> Result<bool, AllocError> {
    if place >= pairs.len() {
        return Ok(false);
    }
    let (name, old) = pairs[place];
    let it = item(name);
    match kind {
        4 => {
            pairs[place] = (name, value);
            Ok(list.assign(it, value) == Ok(old))
        }
        5 => {
            pairs.remove(place);
            pairs.insert(0, (name, old))?;
            Ok(list.move_to_front(it).is_ok())
        }
        6 => {
            pairs.remove(place);
            pairs.push((name, old))?;
            Ok(list.move_to_rear(it).is_ok())
        }
        7 => {
            pairs.reverse();
            list.reverse_items();
            Ok(true)
        }
        _ => {
            pairs.remove(place);
            Ok(list.del_item(it) == Ok(old))
        }
    }
}

/// Makes a call at random on both, and says whether they answered alike.
fn step(list: &mut List<i64>, pairs: &mut Vec<(u32, i64)>, seed: u32) -> Result<bool, AllocError> {
    let value = seed as i64;
    if pairs.is_empty() {
        let new = made(list.push(value));
        pairs.push((new, value))?;
        return Ok(new != 0);
    }
    let place = seed as usize / 64 % pairs.len();
    match seed / 65_536 % 11 {
        kind @ 0..=3 => add(list, pairs, place, value, kind),
        kind => change(list, pairs, place, value, kind),
    }
}

/// Whether five thousand calls at random go as those on a vector of pairs.
fn goes_as_a_vector(alloc: Global) -> Result<bool, AllocError> {
    let mut list = List::new(alloc);
    let mut pairs = Vec::new(alloc);
    let mut seed = 1u32;
    for turn in 0..5000u32 {
        seed = seed.wrapping_mul(1_103_515_245).wrapping_add(12_345);
        if !step(&mut list, &mut pairs, seed)? {
            return Ok(false);
        }
        if turn % 100 == 0 && !is_as(&list, &pairs) {
            return Ok(false);
        }
    }
    Ok(is_as(&list, &pairs))
}

#[test]
fn a_long_run_goes_as_a_vector(rt: HostRuntime) {
    assert!(rt; goes_as_a_vector(rt.alloc()) == Ok(true));
}

/// A text of its own memory, which counts how often it is dropped.
struct Counted<'a> {
    drops: &'a Cell<u32>,
    text: String,
}

impl Drop for Counted<'_> {
    fn drop(self) {
        self.drops.set(self.drops.get().wrapping_add(1));
        let Counted {
            drops: _,
            text: _text,
        } = self;
    }
}

/// Takes a hundred values in, replaces ten, takes forty out, and drops all: a hundred and ten
/// values.
fn fill_and_drop(alloc: Global, drops: &Cell<u32>) -> Result<(), Fail> {
    let mut list = List::new(alloc);
    for _ in 0..100 {
        let text = String::from_str(alloc, "a value of its own memory")?;
        let _item = list.append(Counted { drops, text });
    }
    for serial in 41..=50u32 {
        let text = String::from_str(alloc, "another value")?;
        let _old = list.assign(item(serial), Counted { drops, text });
    }
    list.reverse_items();
    for serial in 1..=40u32 {
        let _moved = list.move_to_front(item(serial));
        let _taken = list.del_item(item(serial));
    }
    Ok(())
}

#[test]
fn drops_each_value_once(rt: HostRuntime) -> Result<(), Fail> {
    let drops = Cell::new(0);
    fill_and_drop(rt.alloc(), &drops)?;
    assert_eq!(rt; drops.get(), 110);
    Ok(())
}

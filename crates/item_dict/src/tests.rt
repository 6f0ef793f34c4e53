//! What no clause says: each call's answer where there is memory, and that a long run of calls goes
//! as a plain table.
use crate::{Dict, Gone, InsertRefusal, Item};
use std::alloc::Global;
use std::test::Fail;

/// The information of a key, and 0 where the key is absent.
fn look(dict: &Dict<u32>, k: i64) -> u32 {
    match dict.lookup(k) {
        Some(it) => match dict.inf(it) {
            Ok(inf) => *inf,
            Err(_) => 0,
        },
        None => 0,
    }
}

/// The item of a key that is put in, and the item 0 where there is no memory.
fn put(dict: &mut Dict<u32>, k: i64, inf: u32) -> Item {
    match dict.insert(k, inf) {
        Ok(it) => it,
        Err(InsertRefusal::NoMemory(_) | InsertRefusal::Spent(_)) => Item { slot: 0, serial: 0 },
    }
}

/// The key of a place in the table: from -32 on.
fn key_at(place: u32) -> i64 {
    (place as i64).wrapping_sub(32)
}

/// Whether a way up by `succ` meets the keys of the table alone, each with its information.
fn goes_up(dict: &Dict<u32>, table: &[u32; 64]) -> bool {
    let mut next = dict.min();
    for place in 0..64u32 {
        let inf = table[place as usize];
        if inf != 0 {
            let Some(it) = next else {
                return false;
            };
            if dict.key(it) != Ok(key_at(place)) || look(dict, key_at(place)) != inf {
                return false;
            }
            next = match dict.succ(it) {
                Ok(above) => above,
                Err(_) => return false,
            };
        }
    }
    next.is_none()
}

/// The same downwards, by `pred`.
fn goes_down(dict: &Dict<u32>, table: &[u32; 64]) -> bool {
    let mut next = dict.max();
    for step in 0..64u32 {
        let place = 63 - step;
        if table[place as usize] != 0 {
            let Some(it) = next else {
                return false;
            };
            if dict.key(it) != Ok(key_at(place)) {
                return false;
            }
            next = match dict.pred(it) {
                Ok(below) => below,
                Err(_) => return false,
            };
        }
    }
    next.is_none()
}

/// Whether four thousand insertions and removals at random go as those in a table.
fn goes_as_a_table(alloc: Global) -> bool {
    let mut dict = Dict::new(alloc);
    let mut table = [0u32; 64];
    let mut seed = 1u32;
    for _ in 0..4000u32 {
        seed = seed.wrapping_mul(1_103_515_245).wrapping_add(12_345);
        let place = seed / 65_536 % 64;
        let inf = if seed / 4_194_304 % 3 == 0 {
            0
        } else {
            seed / 8 + 1
        };
        if inf == 0 {
            let had = dict.del(key_at(place)).unwrap_or(0);
            if had != table[place as usize] {
                return false;
            }
        } else if dict.insert(key_at(place), inf).is_err() {
            return false;
        }
        table[place as usize] = inf;
        if !goes_up(&dict, &table) || !goes_down(&dict, &table) {
            return false;
        }
    }
    true
}

#[test]
fn a_long_run_goes_as_a_table(rt: HostRuntime) {
    assert!(rt; goes_as_a_table(rt.alloc()));
}

#[test]
fn a_present_key_keeps_its_item(rt: HostRuntime) {
    let mut dict = Dict::new(rt.alloc());
    let first = put(&mut dict, 5, 50);
    assert_eq!(rt; first.serial, 1);
    assert_eq!(rt; put(&mut dict, -5, 10).serial, 2);
    assert!(rt; put(&mut dict, 5, 51) == first);
    assert_eq!(rt; look(&dict, 5), 51);
    assert_eq!(rt; dict.len(), 2);
    assert!(rt; dict.change_inf(first, 52) == Ok(51));
    assert_eq!(rt; look(&dict, 5), 52);
}

#[test]
fn tells_dead_from_unknown(rt: HostRuntime) {
    let mut dict = Dict::new(rt.alloc());
    let it = put(&mut dict, 7, 70);
    assert!(rt; dict.del_item(it) == Ok(70));
    assert!(rt; dict.del_item(it) == Err(Gone::Dead));
    assert!(rt; dict.key(it) == Err(Gone::Dead));
    assert!(rt; dict.key(Item { slot: 0, serial: 2 }) == Err(Gone::Unknown));
    assert!(rt; dict.change_inf(Item { slot: 0, serial: 0 }, 1) == Err(Gone::Unknown));
    assert!(rt; dict.succ(it).is_err() && dict.pred(it).is_err() && dict.inf(it).is_err());
    assert!(rt; dict.min().is_none() && dict.max().is_none() && dict.lookup(7).is_none());
}

#[test]
fn holds_values_of_their_own_memory(rt: HostRuntime) -> Result<(), Fail> {
    let mut dict = Dict::new(rt.alloc());
    let first = dict.insert(i64::MIN, String::from_str(rt.alloc(), "least")?);
    assert!(rt; first.is_ok());
    let second = dict.insert(i64::MAX, String::from_str(rt.alloc(), "first")?);
    assert!(rt; second.is_ok());
    let again = dict.insert(i64::MAX, String::from_str(rt.alloc(), "greatest")?);
    assert!(rt; again.is_ok());
    let taken = dict.del(i64::MAX);
    assert!(rt; taken.is_some_and(|text| text.as_str() == "greatest"));
    Ok(())
}

//! What no clause says: each call's answer where there is memory, and that each value is dropped
//! once.
use crate::{Gone, InsertRefusal, Item, MOST_SERIALS, Pool};
use std::alloc::Global;
use std::cell::Cell;
use std::test::Fail;

/// What `get` answers, as a number: 1 for `Dead` and 2 for `Unknown`.
fn look(pool: &Pool<u32>, slot: u32, serial: u32) -> u32 {
    match pool.get(Item { slot, serial }) {
        Ok(value) => *value,
        Err(Gone::Dead) => 1,
        Err(Gone::Unknown) => 2,
    }
}

/// What `remove` answers, likewise.
fn take(pool: &mut Pool<u32>, slot: u32, serial: u32) -> u32 {
    match pool.remove(Item { slot, serial }) {
        Ok(value) => value,
        Err(Gone::Dead) => 1,
        Err(Gone::Unknown) => 2,
    }
}

/// The serial that a value came in under, or 0.
fn put(pool: &mut Pool<u32>, value: u32) -> u32 {
    match pool.insert(value) {
        Ok(it) => it.serial,
        Err(_) => 0,
    }
}

/// Inserts and removes as often as a pool has serials, and says how often that failed.
fn spend(pool: &mut Pool<u8>) -> u32 {
    let mut failed = 0u32;
    for _ in 0..MOST_SERIALS {
        match pool.insert(7) {
            Ok(it) => match pool.remove(it) {
                Ok(7) => {}
                _ => failed = 1,
            },
            Err(_) => failed = 1,
        }
    }
    failed
}

#[test]
fn gives_each_serial_once(rt: HostRuntime) {
    let mut pool = Pool::new(rt.alloc());
    assert_eq!(rt; spend(&mut pool), 0);
    let refusal = pool.insert(8);
    assert!(rt; matches!(&refusal, Err(InsertRefusal::Spent(8))));
    assert!(rt; pool.item(16_777_215) == Err(Gone::Dead));
    assert!(rt; pool.item(16_777_216) == Err(Gone::Unknown));
}

#[test]
fn looks_by_the_serial_alone(rt: HostRuntime) {
    let mut pool = Pool::new(rt.alloc());
    assert_eq!(rt; put(&mut pool, 10), 1);
    assert_eq!(rt; put(&mut pool, 20), 2);
    assert_eq!(rt; look(&pool, 0, 2), 20);
    assert_eq!(rt; look(&pool, 4_000_000_000, 1), 10);
    if let Ok(value) = pool.get_mut(Item { slot: 0, serial: 2 }) {
        *value = 21;
    }
    assert_eq!(rt; look(&pool, 1, 2), 21);
}

#[test]
fn tells_dead_from_unknown(rt: HostRuntime) {
    let mut pool = Pool::new(rt.alloc());
    assert_eq!(rt; put(&mut pool, 10), 1);
    assert_eq!(rt; take(&mut pool, 9, 1), 10);
    assert_eq!(rt; put(&mut pool, 30), 2);
    assert_eq!(rt; look(&pool, 0, 1), 1);
    assert_eq!(rt; look(&pool, 0, 3), 2);
    assert_eq!(rt; look(&pool, 0, 0), 2);
    assert_eq!(rt; take(&mut pool, 0, 1), 1);
    assert_eq!(rt; take(&mut pool, 0, 3), 2);
}

/// How many of a thousand values, for which room was made, are found again and taken out.
fn fill_reserved(pool: &mut Pool<u32>) -> u32 {
    let mut found = 0u32;
    for value in 100..1100u32 {
        if pool.spare() > 0 && pool.made() < MOST_SERIALS {
            let it = pool.insert_reserved(value);
            if pool.item(it.serial) == Ok(it) && look(pool, it.slot, it.serial) == value {
                found = found.wrapping_add(1);
            }
        }
    }
    found
}

#[test]
fn takes_in_what_it_has_room_for(rt: HostRuntime) {
    let mut pool = Pool::new(rt.alloc());
    assert_eq!(rt; pool.spare(), 0);
    assert!(rt; pool.reserve(1000).is_ok());
    assert_eq!(rt; fill_reserved(&mut pool), 1000);
    assert_eq!(rt; pool.len(), 1000);
    assert_eq!(rt; pool.made(), 1000);
}

/// Takes 6,400 values in, and out again all but each 64th: of 64 homes, one is that of all that
/// stay.
fn keep_each_64th(pool: &mut Pool<u32>) -> u32 {
    let mut failed = 0u32;
    for value in 1..=6400u32 {
        match pool.insert(value) {
            Ok(it) if value % 64 != 0 => {
                if pool.remove(it) != Ok(value) {
                    failed = 1;
                }
            }
            Ok(_) => {}
            Err(_) => failed = 1,
        }
    }
    failed
}

/// How many of those are found by their serials alone, and then taken out.
fn find_each_64th(pool: &mut Pool<u32>) -> u32 {
    let mut found = 0u32;
    for serial in (64..=6400u32).step_by(64) {
        if look(pool, 4_000_000_000, serial) == serial
            && take(pool, 4_000_000_000, serial) == serial
            && look(pool, 4_000_000_000, serial) == 1
        {
            found = found.wrapping_add(1);
        }
    }
    found
}

#[test]
fn finds_serials_of_one_home(rt: HostRuntime) {
    let mut pool = Pool::new(rt.alloc());
    assert_eq!(rt; keep_each_64th(&mut pool), 0);
    assert_eq!(rt; pool.len(), 100);
    assert_eq!(rt; find_each_64th(&mut pool), 100);
    assert_eq!(rt; pool.len(), 0);
}

/// A text of its own memory, which counts how often it is dropped.
struct Counted<'a> {
    drops: &'a Cell<u32>,
    text: String,
}

impl Drop for Counted<'_> {
    fn drop(self) {
        self.drops.set(self.drops.get().wrapping_add(1));
        let Counted {
            drops: _,
            text: _text,
        } = self;
    }
}

/// Takes a hundred values in and forty out, and drops all.
fn fill_and_drop(alloc: Global, drops: &Cell<u32>) -> Result<(), Fail> {
    let mut pool = Pool::new(alloc);
    for _ in 0..100 {
        let text = String::from_str(alloc, "a value of its own memory")?;
        let _refused = pool.insert(Counted { drops, text });
    }
    for serial in 1..=40u32 {
        let _taken = pool.remove(Item { slot: 0, serial });
    }
    Ok(())
}

#[test]
fn drops_each_value_once(rt: HostRuntime) -> Result<(), Fail> {
    let drops = Cell::new(0);
    fill_and_drop(rt.alloc(), &drops)?;
    assert_eq!(rt; drops.get(), 100);
    Ok(())
}

//! What no clause says: each call's answer where there is memory, and that a long run of calls on
//! many objects goes as on plain vectors.
use crate::{End, Neighbour, ObjectKind, Objects, Reading, Side, Sought, Writing};
use leda_base::ItemName;
use reply_text::{Refusal, Reply, ReplyLine};
use script_text::Kinds;
use std::alloc::{AllocError, Global};
use std::test::Fail;

/// What is answered, as a number: that of the item or of the value.
const DONE: i64 = -1;

const NIL: i64 = -2;

const REFUSED: i64 = -3;

const FULL: i64 = -4;

const LARGER: i64 = -5;

const OTHER: i64 = -6;

fn said(reply: Reply) -> i64 {
    match reply {
        Reply::Line(ReplyLine::Empty) => DONE,
        Reply::Line(ReplyLine::Nil) => NIL,
        Reply::Line(ReplyLine::Num(value)) => value,
        Reply::Line(ReplyLine::Name(ItemName::Cell(number))) => i64::from(number),
        Reply::Refused(Refusal::FullObjects) => FULL,
        Reply::Refused(Refusal::Larger(_)) => LARGER,
        _ => OTHER,
    }
}

fn make(objects: &mut Objects, kind: ObjectKind, name: &[u8]) -> i64 {
    if objects.has_object(Kinds::Any, name) {
        return REFUSED;
    }
    match kind {
        ObjectKind::List => said(objects.make(ObjectKind::List, name)),
        ObjectKind::Dict => said(objects.make(ObjectKind::Dict, name)),
        ObjectKind::Queue => said(objects.make(ObjectKind::Queue, name)),
        ObjectKind::Array(_) | ObjectKind::Map(_) => REFUSED,
    }
}

fn put(objects: &mut Objects, end: End, name: &[u8], value: i64) -> i64 {
    if !objects.has_object(Kinds::List, name) {
        return REFUSED;
    }
    said(objects.put(end, name, value))
}

fn insert(objects: &mut Objects, side: Side, number: u32, value: i64) -> i64 {
    if !objects.holds_cell(Kinds::List, number) {
        return REFUSED;
    }
    said(objects.insert(side, number, value))
}

fn dict_insert(objects: &mut Objects, name: &[u8], key: i64, value: i64) -> i64 {
    if !objects.has_object(Kinds::Dict, name) {
        return REFUSED;
    }
    said(objects.dict_insert(name, key, value))
}

fn del(objects: &mut Objects, name: &[u8], key: i64) -> i64 {
    if !objects.has_object(Kinds::Dict, name) {
        return REFUSED;
    }
    said(objects.del(name, key))
}

fn queue_insert(objects: &mut Objects, name: &[u8], priority: i64, value: i64) -> i64 {
    if !objects.has_object(Kinds::Queue, name) {
        return REFUSED;
    }
    said(objects.queue_insert(name, priority, value))
}

fn del_min(objects: &mut Objects, name: &[u8]) -> i64 {
    if !objects.has_object(Kinds::Queue, name) {
        return REFUSED;
    }
    said(objects.del_min(name))
}

fn decrease(objects: &mut Objects, number: u32, priority: i64) -> i64 {
    if !objects.holds_cell(Kinds::Queue, number) {
        return REFUSED;
    }
    said(objects.decrease(number, priority))
}

fn information(objects: &Objects, number: u32) -> i64 {
    if !objects.holds_cell(Kinds::DictOrQueue, number) {
        return REFUSED;
    }
    said(objects.read(Reading::Information, number))
}

fn size(objects: &Objects, name: &[u8]) -> i64 {
    if !objects.has_object(Kinds::Container, name) {
        return REFUSED;
    }
    said(objects.size(name))
}

fn contents(objects: &Objects, number: u32) -> i64 {
    if !objects.holds_cell(Kinds::List, number) {
        return REFUSED;
    }
    said(objects.read(Reading::Contents, number))
}

fn assign(objects: &mut Objects, number: u32, value: i64) -> i64 {
    if !objects.holds_cell(Kinds::List, number) {
        return REFUSED;
    }
    said(objects.write(Writing::Contents, number, value))
}

fn neighbour(objects: &Objects, what: Neighbour, number: u32) -> i64 {
    if !objects.holds_cell(Kinds::List, number) {
        return REFUSED;
    }
    said(objects.neighbour(what, number))
}

fn beside(objects: &Objects, what: Neighbour, number: u32) -> i64 {
    if !objects.holds_cell(Kinds::ListOrDict, number) {
        return REFUSED;
    }
    match what {
        Neighbour::Succ => said(objects.neighbour(Neighbour::Succ, number)),
        Neighbour::Pred => said(objects.neighbour(Neighbour::Pred, number)),
        Neighbour::CyclicSucc | Neighbour::CyclicPred => OTHER,
    }
}

fn find(objects: &Objects, what: Sought, name: &[u8]) -> i64 {
    let kinds = match what {
        Sought::First | Sought::Last => Kinds::ListOrDict,
        Sought::WithKey(_) => Kinds::Dict,
        Sought::Least => Kinds::Queue,
    };
    if !objects.has_object(kinds, name) {
        return REFUSED;
    }
    said(objects.find(what, name))
}

fn move_to(objects: &mut Objects, end: End, number: u32) -> i64 {
    if !objects.holds_cell(Kinds::List, number) {
        return REFUSED;
    }
    said(objects.move_to(end, number))
}

fn reverse(objects: &mut Objects, name: &[u8]) -> i64 {
    if !objects.has_object(Kinds::List, name) {
        return REFUSED;
    }
    said(objects.reverse_items(name))
}

fn del_item(objects: &mut Objects, number: u32) -> i64 {
    if !objects.holds_cell(Kinds::Container, number) {
        return REFUSED;
    }
    said(objects.del_item(number))
}

#[test]
fn a_list_goes_as_its_rows_say(rt: HostRuntime) {
    let mut objects = Objects::new(rt.alloc());
    assert_eq!(rt; size(&objects, b"l"), REFUSED);
    assert_eq!(rt; make(&mut objects, ObjectKind::List, b"l"), DONE);
    assert_eq!(rt; make(&mut objects, ObjectKind::Dict, b"l"), REFUSED);
    assert_eq!(rt; find(&objects, Sought::First, b"l"), NIL);
    assert_eq!(rt; find(&objects, Sought::Last, b"l"), NIL);
    assert_eq!(rt; put(&mut objects, End::Rear, b"l", 10), 1);
    assert_eq!(rt; put(&mut objects, End::Front, b"l", 20), 2);
    assert_eq!(rt; insert(&mut objects, Side::Behind, 2, 30), 3);
    assert_eq!(rt; insert(&mut objects, Side::Before, 2, 40), 4);
    assert_eq!(rt; size(&objects, b"l"), 4);
    assert_eq!(rt; find(&objects, Sought::First, b"l"), 4);
    assert_eq!(rt; find(&objects, Sought::Last, b"l"), 1);
    assert_eq!(rt; beside(&objects, Neighbour::Succ, 2), 3);
    assert_eq!(rt; beside(&objects, Neighbour::Pred, 2), 4);
    assert_eq!(rt; beside(&objects, Neighbour::Succ, 1), NIL);
    assert_eq!(rt; beside(&objects, Neighbour::Pred, 4), NIL);
    assert_eq!(rt; neighbour(&objects, Neighbour::CyclicSucc, 1), 4);
    assert_eq!(rt; neighbour(&objects, Neighbour::CyclicPred, 4), 1);
    assert_eq!(rt; assign(&mut objects, 3, -5), DONE);
    assert_eq!(rt; contents(&objects, 3), -5);
    assert_eq!(rt; contents(&objects, 2), 20);
    assert_eq!(rt; move_to(&mut objects, End::Front, 1), DONE);
    assert_eq!(rt; neighbour(&objects, Neighbour::CyclicSucc, 3), 1);
    assert_eq!(rt; move_to(&mut objects, End::Rear, 4), DONE);
    assert_eq!(rt; reverse(&mut objects, b"l"), DONE);
    assert_eq!(rt; neighbour(&objects, Neighbour::CyclicPred, 4), 1);
    assert_eq!(rt; neighbour(&objects, Neighbour::CyclicSucc, 4), 3);
    assert_eq!(rt; del_item(&mut objects, 3), DONE);
    assert_eq!(rt; neighbour(&objects, Neighbour::CyclicSucc, 4), 2);
    assert_eq!(rt; contents(&objects, 3), REFUSED);
    assert_eq!(rt; del_item(&mut objects, 3), REFUSED);
    assert_eq!(rt; size(&objects, b"l"), 3);
}

#[test]
fn a_dictionary_goes_as_its_rows_say(rt: HostRuntime) {
    let mut objects = Objects::new(rt.alloc());
    assert_eq!(rt; make(&mut objects, ObjectKind::Dict, b"d"), DONE);
    assert_eq!(rt; find(&objects, Sought::First, b"d"), NIL);
    assert_eq!(rt; del(&mut objects, b"d", 5), DONE);
    assert_eq!(rt; dict_insert(&mut objects, b"d", 5, 50), 1);
    assert_eq!(rt; dict_insert(&mut objects, b"d", -7, 70), 2);
    assert_eq!(rt; dict_insert(&mut objects, b"d", 9, 90), 3);
    assert_eq!(rt; dict_insert(&mut objects, b"d", 5, 51), 1);
    assert_eq!(rt; information(&objects, 1), 51);
    assert_eq!(rt; size(&objects, b"d"), 3);
    assert_eq!(rt; find(&objects, Sought::First, b"d"), 2);
    assert_eq!(rt; find(&objects, Sought::Last, b"d"), 3);
    assert_eq!(rt; find(&objects, Sought::WithKey(5), b"d"), 1);
    assert_eq!(rt; find(&objects, Sought::WithKey(6), b"d"), NIL);
    assert_eq!(rt; beside(&objects, Neighbour::Succ, 2), 1);
    assert_eq!(rt; beside(&objects, Neighbour::Succ, 3), NIL);
    assert_eq!(rt; beside(&objects, Neighbour::Pred, 3), 1);
    assert_eq!(rt; beside(&objects, Neighbour::Pred, 2), NIL);
    assert_eq!(rt; del(&mut objects, b"d", 5), DONE);
    assert_eq!(rt; information(&objects, 1), REFUSED);
    assert_eq!(rt; beside(&objects, Neighbour::Succ, 2), 3);
    assert_eq!(rt; dict_insert(&mut objects, b"d", 5, 52), 4);
    assert_eq!(rt; size(&objects, b"d"), 3);
}

#[test]
fn a_queue_goes_as_its_rows_say(rt: HostRuntime) {
    let mut objects = Objects::new(rt.alloc());
    assert_eq!(rt; make(&mut objects, ObjectKind::Queue, b"q"), DONE);
    assert_eq!(rt; find(&objects, Sought::Least, b"q"), NIL);
    assert_eq!(rt; del_min(&mut objects, b"q"), NIL);
    assert_eq!(rt; queue_insert(&mut objects, b"q", 30, 1), 1);
    assert_eq!(rt; queue_insert(&mut objects, b"q", 20, 2), 2);
    assert_eq!(rt; queue_insert(&mut objects, b"q", 20, 3), 3);
    assert_eq!(rt; find(&objects, Sought::Least, b"q"), 2);
    assert_eq!(rt; decrease(&mut objects, 1, 31), LARGER);
    assert_eq!(rt; decrease(&mut objects, 1, 20), DONE);
    assert_eq!(rt; find(&objects, Sought::Least, b"q"), 1);
    assert_eq!(rt; information(&objects, 1), 1);
    assert_eq!(rt; del_min(&mut objects, b"q"), 20);
    assert_eq!(rt; information(&objects, 1), REFUSED);
    assert_eq!(rt; find(&objects, Sought::Least, b"q"), 2);
    assert_eq!(rt; size(&objects, b"q"), 2);
}

fn drop(objects: &mut Objects, name: &[u8]) -> i64 {
    if !objects.has_object(Kinds::Any, name) {
        return REFUSED;
    }
    said(objects.drop_object(name))
}

#[test]
fn a_dropped_object_takes_its_items(rt: HostRuntime) {
    let mut objects = Objects::new(rt.alloc());
    assert_eq!(rt; make(&mut objects, ObjectKind::List, b"l"), DONE);
    assert_eq!(rt; make(&mut objects, ObjectKind::List, b"m"), DONE);
    assert_eq!(rt; put(&mut objects, End::Rear, b"l", 5), 1);
    assert_eq!(rt; put(&mut objects, End::Rear, b"m", 6), 2);
    assert_eq!(rt; put(&mut objects, End::Rear, b"l", 7), 3);
    assert_eq!(rt; drop(&mut objects, b"l"), DONE);
    assert_eq!(rt; contents(&objects, 1), REFUSED);
    assert_eq!(rt; del_item(&mut objects, 3), REFUSED);
    assert_eq!(rt; contents(&objects, 2), 6);
    assert_eq!(rt; drop(&mut objects, b"l"), REFUSED);
    assert_eq!(rt; make(&mut objects, ObjectKind::List, b"l"), DONE);
    assert_eq!(rt; size(&objects, b"l"), 0);
    assert_eq!(rt; put(&mut objects, End::Rear, b"l", 8), 4);
}

#[test]
fn a_hundred_objects_are_the_most(rt: HostRuntime) {
    let mut objects = Objects::new(rt.alloc());
    for k in 0_u8..100 {
        assert_eq!(rt; make(&mut objects, ObjectKind::List, &[k]), DONE);
    }
    assert_eq!(rt; make(&mut objects, ObjectKind::Queue, &[100]), FULL);
    assert_eq!(rt; drop(&mut objects, &[7]), DONE);
    assert_eq!(rt; make(&mut objects, ObjectKind::Queue, &[100]), DONE);
}

/// One of the numbers below `most`, from a seed.
fn draw(seed: &mut u64, most: u64) -> u64 {
    *seed = seed
        .wrapping_mul(6_364_136_223_846_793_005)
        .wrapping_add(1_442_695_040_888_963_407);
    if most == 0 { 0 } else { (*seed >> 33) % most }
}

/// An item of a list: the letter that names the list, the item's number and its value. Those of one
/// list stand in its order.
type Kept = (u8, u32, i64);

/// The number of an item that came in, and 0 where none did.
fn number_in(answer: i64) -> u32 {
    if answer > 0 && answer <= 1_000_000_000 {
        answer as u32
    } else {
        0
    }
}

/// Puts a value in on both, and says whether the answer was a number.
fn put_both(
    objects: &mut Objects,
    model: &mut Vec<Kept>,
    end: End,
    list: u8,
    value: i64,
) -> Result<bool, AllocError> {
    let answer = put(objects, end, &[list], value);
    let at = match end {
        End::Front => 0,
        End::Rear => model.len(),
    };
    model.insert(at, (list, number_in(answer), value))?;
    Ok(answer > 0)
}

/// Makes another call on both at the item of a place, and says whether they answered alike.
fn change_both(
    objects: &mut Objects,
    model: &mut Vec<Kept>,
    kind: u64,
    place: usize,
    value: i64,
) -> Result<bool, AllocError> {
    if place >= model.len() {
        return Ok(true);
    }
    let (list, number, old) = model[place];
    match kind {
        0 => {
            let answer = insert(objects, Side::Before, number, value);
            model.insert(place, (list, number_in(answer), value))?;
            Ok(answer > 0)
        }
        1 => {
            let answer = insert(objects, Side::Behind, number, value);
            model.insert(place + 1, (list, number_in(answer), value))?;
            Ok(answer > 0)
        }
        2 => {
            model[place] = (list, number, value);
            Ok(assign(objects, number, value) == DONE)
        }
        3 => {
            model.remove(place);
            model.insert(0, (list, number, old))?;
            Ok(move_to(objects, End::Front, number) == DONE)
        }
        4 => {
            model.remove(place);
            model.push((list, number, old))?;
            Ok(move_to(objects, End::Rear, number) == DONE)
        }
        5 => {
            model.remove(place);
            Ok(del_item(objects, number) == DONE && contents(objects, number) == REFUSED)
        }
        _ => Ok(contents(objects, number) == old),
    }
}

/// Whether the items of a list stand as on the model, round its ends, and no others.
fn stands(objects: &Objects, model: &[Kept], list: u8) -> bool {
    let mut first = None;
    let mut next = NIL;
    let mut count = 0_i64;
    for (name, number, value) in model {
        if *name == list {
            if first.is_some() && next != i64::from(*number) {
                return false;
            }
            if contents(objects, *number) != *value {
                return false;
            }
            first = first.or(Some(*number));
            next = neighbour(objects, Neighbour::CyclicSucc, *number);
            count = count.wrapping_add(1);
        }
    }
    first.is_none_or(|number| next == i64::from(number)) && size(objects, &[list]) == count
}

/// The model without the items of a list.
fn without(alloc: Global, model: &[Kept], list: u8) -> Result<Vec<Kept>, AllocError> {
    let mut rest = Vec::new(alloc);
    for kept in model {
        if kept.0 != list {
            rest.push(*kept)?;
        }
    }
    Ok(rest)
}

/// Drops a list, and makes it again.
fn renew(objects: &mut Objects, list: u8) -> bool {
    drop(objects, &[list]) == DONE && make(objects, ObjectKind::List, &[list]) == DONE
}

#[test]
fn a_long_run_goes_as_on_plain_rows(rt: HostRuntime) -> Result<(), Fail> {
    let mut objects = Objects::new(rt.alloc());
    let mut model: Vec<Kept> = Vec::new(rt.alloc());
    let mut seed = 7;
    for list in [b'a', b'b', b'c'] {
        assert_eq!(rt; make(&mut objects, ObjectKind::List, &[list]), DONE);
    }
    for _ in 0..3000 {
        let list = [b'a', b'b', b'c'][draw(&mut seed, 3) as usize % 3];
        let value = (draw(&mut seed, 1000) % 1000) as i64;
        let place = draw(&mut seed, model.len() as u64) as usize;
        match draw(&mut seed, 40) {
            0 => {
                model = without(rt.alloc(), model.as_slice(), list)?;
                assert!(rt; renew(&mut objects, list));
            }
            1..=5 => assert!(rt; put_both(&mut objects, &mut model, End::Front, list, value)?),
            6..=10 => assert!(rt; put_both(&mut objects, &mut model, End::Rear, list, value)?),
            kind => assert!(rt; change_both(&mut objects, &mut model, kind % 7, place, value)?),
        }
        assert!(rt; stands(&objects, model.as_slice(), list));
    }
    Ok(())
}

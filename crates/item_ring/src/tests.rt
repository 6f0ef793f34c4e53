//! Rings made, changed and looked at.
ghost use Rattle.std.specs.Prelude.{◌≡◌, ◌+◌, ◌*◌, ◌<◌, ◌≤◌, IfOk, List, ℕ, [], ◌∷◌, true};
ghost use Rattle.std.specs.FinMap as map;
ghost use Rattle.item_ring.specs.RingLists.{IsHead, IsLinkedIn, IsLoose, ring};

use super::{Head, MOST_NODES, Member, RingRefusal, Rings};
use std::alloc::Global;

/// Puts a new member at the front.
fn add_front(rings: &mut Rings, h: Head, mid: Member, tag: u32) -> Result<Member, RingRefusal>
    requires linked { IsLinkedIn rings.old h mid }
    requires few { map.len rings.old.tags < MOST_NODES }
    ensures linked { IsLinkedIn rings.new h mid }
    ensures more { map.len rings.new.tags ≤ map.len rings.old.tags + 1 }
{
    let m = rings.add_member(tag)?;
    rings.push_front(h, m);
    Ok(m)
}

/// Puts a new member at the back.
fn add_back(rings: &mut Rings, h: Head, mid: Member, tag: u32) -> Result<Member, RingRefusal>
    requires linked { IsLinkedIn rings.old h mid }
    requires few { map.len rings.old.tags < MOST_NODES }
    ensures linked { IsLinkedIn rings.new h mid }
    ensures more { map.len rings.new.tags ≤ map.len rings.old.tags + 1 }
{
    let m = rings.add_member(tag)?;
    rings.push_back(h, m);
    Ok(m)
}

/// Puts a new member right behind `mid`.
fn add_behind(rings: &mut Rings, h: Head, mid: Member, tag: u32) -> Result<Member, RingRefusal>
    requires linked { IsLinkedIn rings.old h mid }
    requires few { map.len rings.old.tags < MOST_NODES }
    ensures linked { IsLinkedIn rings.new h mid }
    ensures more { map.len rings.new.tags ≤ map.len rings.old.tags + 1 }
{
    let m = rings.add_member(tag)?;
    rings.insert_after(mid, m);
    Ok(m)
}

/// A ring of one member.
fn begin(alloc: Global) -> Result<(Rings, Head, Member), RingRefusal>
    ensures linked { IfOk result (λ r. IsLinkedIn r.0 r.1 r.2) }
    ensures few { IfOk result (λ r. map.len r.0.tags ≤ 1) }
{
    let mut rings = Rings::new(alloc);
    rings.reserve(1, 6_000_001)?;
    let h = rings.add_head()?;
    let mid = rings.add_member(7)?;
    rings.push_back(h, mid);
    Ok((rings, h, mid))
}

/// At the front, at the back and behind `mid`, so many times. It gives the first three and the last
/// three.
fn spread(
    rings: &mut Rings,
    h: Head,
    mid: Member,
    rounds: u32,
) -> Result<(Member, [Member; 3]), RingRefusal>
    requires linked { IsLinkedIn rings.old h mid }
    requires few { map.len rings.old.tags + 3 * rounds + 3 ≤ MOST_NODES }
    ensures linked { IsLinkedIn rings.new h mid }
{
    let start = add_front(rings, h, mid, 0)?;
    let back = add_back(rings, h, mid, 0)?;
    let behind = add_behind(rings, h, mid, 0)?;
    let mut made = [start, back, behind];
    for round in 0..rounds {
        let front = add_front(rings, h, mid, round)?;
        let back = add_back(rings, h, mid, round)?;
        let behind = add_behind(rings, h, mid, round)?;
        made = [front, back, behind];
    }
    Ok((start, made))
}

/// Whether the ends and the neighbours of `mid` are these.
fn stands(rings: &Rings, h: Head, mid: Member, before: Member, made: [Member; 3]) -> bool
    requires { IsLinkedIn rings.now h mid }
{
    let [front, back, behind] = made;
    rings.first(h) == Some(front)
        && rings.last(h) == Some(back)
        && rings.next(mid) == Some(behind)
        && rings.prev(mid) == Some(before)
}

#[test]
fn grows_around_a_member(rt: HostRuntime) {
    let Ok((mut rings, h, mid)) = begin(rt.alloc()) else {
        panic!(rt; "no ring");
    };
    let Ok((before, made)) = spread(&mut rings, h, mid, 1_999_999) else {
        panic!(rt; "no room");
    };
    assert!(rt; stands(&rings, h, mid, before, made));
    assert_eq!(rt; rings.len(h), 6_000_001);
}

/// Ties the member in and takes it out again.
fn passes(rings: &mut Rings, h: Head, m: Member) -> bool
    requires head { IsHead rings.old h }
    requires loose { IsLoose rings.old m }
    ensures head { IsHead rings.new h }
    ensures loose { IsLoose rings.new m }
{
    rings.push_front(h, m);
    let linked = rings.is_linked(m);
    let home = rings.head_of(m) == h;
    let ahead = rings.cyclic_next(m) == m;
    let behind = rings.cyclic_prev(m) == m;
    let tag = rings.tag(m) == 5;
    rings.unlink(m);
    let loose = !rings.is_linked(m);
    linked & home & ahead & behind & tag & loose
}

/// Ties `b` in before `a`, and ends it.
fn meets(rings: &mut Rings, h: Head, a: Member, b: Member) -> bool
    requires linked { IsLinkedIn rings.old h a }
    requires loose { IsLoose rings.old b }
{
    rings.insert_before(a, b);
    let before = rings.prev(a) == Some(b);
    rings.unlink(b);
    rings.drop_member(b);
    before
}

/// A head is made and ended.
fn ends(alloc: Global) -> Result<(), RingRefusal> {
    let mut rings = Rings::new(alloc);
    let g = rings.add_head()?;
    rings.drop_head(g);
    Ok(())
}

/// A head, and a loose member.
fn single(alloc: Global) -> Result<(Rings, Head, Member), RingRefusal>
    ensures head { IfOk result (λ r. IsHead r.0 r.1) }
    ensures loose { IfOk result (λ r. IsLoose r.0 r.2) }
{
    let mut rings = Rings::new(alloc);
    let h = rings.add_head()?;
    let m = rings.add_member(5)?;
    Ok((rings, h, m))
}

#[test]
fn empties_and_fills_again(rt: HostRuntime) {
    let Ok((mut rings, h, m)) = single(rt.alloc()) else {
        panic!(rt; "no member");
    };
    assert!(rt; passes(&mut rings, h, m));
    assert_eq!(rt; rings.len(h), 0);
    assert!(rt; rings.first(h) == None);
    assert!(rt; passes(&mut rings, h, m));
}

#[test]
fn ends_what_it_made(rt: HostRuntime) {
    let Ok((mut rings, h, mid)) = begin(rt.alloc()) else {
        panic!(rt; "no ring");
    };
    let Ok(b) = rings.add_member(6) else {
        panic!(rt; "no second member");
    };
    assert!(rt; meets(&mut rings, h, mid, b));
    assert!(rt; ends(rt.alloc()).is_ok());
}

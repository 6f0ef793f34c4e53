//! Numbers looked up among others.
ghost use Rattle.std.specs.Prelude.{◌≡◌, ◌≤◌, ℕ, not, find, length, All, IfOk};
ghost use Rattle.graph_defs.specs.declared.net.TheConstants.{ARC_LIMIT};
ghost use Rattle.std.specs.Prelude.{slice_index};
ghost use Rattle.graph_state.specs.Names.{IsOnce};
ghost use Rattle.hide_restore.specs.Net.{numbers_of_edges, edge_numbers, place_of};
ghost use Rattle.kept_answers.specs.Checked.{is_listed, first_outside, places_in};
ghost use Rattle.kept_answers.specs.Kept.{entries_at};
ghost use Rattle.kept_answers.specs.Shown.{IsShown};

use graph_core::{EdgeItem, Graph};
use hide_restore::{Places, Shown};
use leda_base::{NoMemory, Row};
use std::alloc::Global;

/// The places of the visible edges' numbers.
pub(crate) fn edge_places(alloc: Global, g: &Graph, shown: &Shown) -> Result<Places, NoMemory>
    requires { IsShown g.now shown.now }
    ensures { IfOk result (λ places. places ≡ edge_numbers g.now) }
{
    let _made = g.made_nodes();
    places_of(alloc, numbers_of(alloc, shown.edges.as_slice())?)
}

fn numbers_of(alloc: Global, edges: &[EdgeItem]) -> Result<Row<u32>, NoMemory>
    ensures { IfOk result (λ numbers. numbers ≡ numbers_of_edges edges.now) }
{
    let mut numbers = Row::with_room(alloc, edges.len())?;
    for edge in edges {
        numbers.push(edge.0.serial)?;
    }
    Ok(numbers)
}

/// The places of numbers that differ.
pub(crate) fn places_of(alloc: Global, numbers: Row<u32>) -> Result<Places, NoMemory>
    requires once { IsOnce numbers }
    requires few { length numbers ≤ ARC_LIMIT }
    ensures { IfOk result (λ places. places ≡ numbers) }
{
    let most = greatest(numbers.as_slice());
    Places::of_numbers(alloc, most, numbers)
}

pub(crate) fn greatest(numbers: &[u32]) -> u32
    ensures { All (λ number. number ≤ result) numbers.now }
{
    let mut most = 0;
    for number in numbers {
        most = most.max(*number);
    }
    most
}

pub(crate) fn is_among(among: &Places, number: u32) -> bool
    ensures { result ≡ is_listed number among.now }
{
    match among.place(number) {
        Some(_) => true,
        None => false,
    }
}

/// The first of the numbers that isn't among others.
pub(crate) fn first_outside(numbers: &[u32], among: &Places) -> Option<u32>
    ensures { result ≡ first_outside numbers.now among.now }
{
    numbers
        .iter()
        .find(|number| !is_among(among, **number))
        .copied()
}

/// The place of each number among others, and past their end where it isn't there.
pub(crate) fn places_among(
    alloc: Global,
    among: &Places,
    numbers: &[u32],
) -> Result<Row<u32>, NoMemory>
    requires { length among.now ≤ ARC_LIMIT }
    ensures { IfOk result (λ places. places ≡ places_in among.now numbers.now) }
{
    let mut places = Row::with_room(alloc, numbers.len())?;
    for number in numbers {
        places.push(place_among(among, *number))?;
    }
    Ok(places)
}

pub(crate) fn place_among(among: &Places, number: u32) -> u32
    requires { length among.now ≤ ARC_LIMIT }
    ensures { result ≡ place_of number among.now }
{
    match among.place(number) {
        Some(place) => place,
        None => among.numbers().len() as u32,
    }
}

/// What stands at the places, and 0 past the end.
pub(crate) fn entries_at(
    alloc: Global,
    entries: &[u32],
    places: &[u32],
) -> Result<Row<u32>, NoMemory>
    ensures { IfOk result (λ row. row ≡ entries_at entries.now places.now) }
{
    let mut row = Row::with_room(alloc, places.len())?;
    for place in places {
        row.push(entry_at(entries, *place))?;
    }
    Ok(row)
}

pub(crate) fn entry_at(entries: &[u32], place: u32) -> u32
    ensures { result ≡ slice_index entries.now place }
{
    let place = place as usize;
    if place < entries.len() {
        entries[place]
    } else {
        0
    }
}

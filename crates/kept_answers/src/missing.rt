//! The first visible node of which an answer on shortest paths tells nothing.
ghost use Rattle.std.specs.Prelude.{◌≡◌, ℕ, ◌+◌, ◌<◌, false, not, find, length, slice_index_or, All, IfOk};
ghost use Rattle.graph_defs.specs.Shortest.{listed};
ghost use Rattle.kept_answers.specs.Checked.{is_listed, first_outside};

use crate::lookup::greatest;
use graph_defs::SpAnswer;
use hide_restore::Places;
use leda_base::{NoMemory, Row};
use std::alloc::Global;

/// The first of the nodes of which the answer tells nothing.
pub(crate) fn first_missing(
    alloc: Global,
    nodes: &Places,
    answer: &SpAnswer,
) -> Result<Option<u32>, NoMemory>
    ensures { IfOk result (λ found. found ≡ first_outside nodes.now (listed answer.now)) }
{
    let told = listed(alloc, answer)?;
    let marks = marks_of(alloc, greatest(nodes.numbers()), told.as_slice())?;
    Ok(first_unmarked(marks.as_slice(), nodes.numbers()))
}

/// The nodes of which an answer tells, one behind another.
fn listed(alloc: Global, answer: &SpAnswer) -> Result<Row<u32>, NoMemory>
    ensures { IfOk result (λ nodes. nodes ≡ listed answer.now) }
{
    let mut nodes = Row::new(alloc);
    for finite in answer.finite.as_slice() {
        nodes.push(finite.node)?;
    }
    for low in answer.low.as_slice() {
        nodes.push(low.node)?;
    }
    for node in answer.unreached.as_slice() {
        nodes.push(*node)?;
    }
    Ok(nodes)
}

/// Which numbers up to a greatest one are among those told.
fn marks_of(alloc: Global, most: u32, told: &[u32]) -> Result<Vec<bool>, NoMemory>
    ensures long { IfOk result (λ marks. length marks.items ≡ most + 1) }
    ensures marks { IfOk result (λ marks. (v : ℕ) → v < length marks.items
        → slice_index_or marks.items v false ≡ is_listed v told.now) }
{
    let mut marks = vec![in alloc; false; most as usize + 1]?;
    for number in told {
        if let Some(mark) = marks.get_mut(*number as usize) {
            *mark = true;
        }
    }
    Ok(marks)
}

/// The first of the numbers that has no mark.
fn first_unmarked(marks: &[bool], numbers: &[u32]) -> Option<u32>
    requires { All (λ number. number < length marks.now) numbers.now }
    ensures { result ≡ find (λ number. not (slice_index_or marks.now number false)) numbers.now }
{
    numbers
        .iter()
        .find(|number| !marks[**number as usize])
        .copied()
}

//! Words behind the bytes of a buffer, each with a blank before it.
ghost use Rattle.std.specs.Prelude.{◌+◌, ◌<◌, ◌≤◌, ◌∷◌, ◌++◌, ◌≡◌, [], length, codes, map, All};
ghost use Rattle.std.specs.List.{flat_map};
ghost use Rattle.std.specs.Fmt.{signed_decimal};
ghost use Rattle.reply_text.specs.Words.{numbered, item_word, words_at, labelled_word, labelled_words, value_text, cell_word, label_word, kind_word as the_kind_word};
ghost use Rattle.reply_text.specs.Text.{words_text};
ghost use Rattle.reply_text.specs.Appending.{Appends, TakesRoom, subject_words, IsSubjectShort};

use crate::refusal::Subject;
use crate::reply::CellShow;
use graph_defs::TextKind;
use itoa::{Buffer, Integer};
use leda_base::ItemName;
use std::alloc::AllocError;

/// Appends the bytes whole, or nothing.
pub(crate) fn append(to: &mut Vec<u8>, bytes: &[u8]) -> Result<(), AllocError>
    ensures text { Appends bytes.now to.old to.new result }
    ensures room { TakesRoom (length bytes.now) to.old to.new result }
{
    to.extend_from_slice(bytes)
}

/// Appends a word.
pub(crate) fn append_word(to: &mut Vec<u8>, word: &[u8]) -> Result<(), AllocError>
    ensures text { Appends (words_text (word.now ∷ [])) to.old to.new result }
    ensures room { TakesRoom (length word.now + 1) to.old to.new result }
{
    append(to, b" ")?;
    append(to, word)
}

/// Appends the decimal text of an integer.
fn append_integer<I: Integer>(to: &mut Vec<u8>, integer: I) -> Result<(), AllocError>
    ensures text { Appends (I.text integer) to.old to.new result }
    ensures room { TakesRoom I.MAX_STR_LEN to.old to.new result }
{
    append(to, Buffer::new().format(integer).as_bytes())
}

/// Appends an integer as a word.
pub(crate) fn append_number<I: Integer>(to: &mut Vec<u8>, number: I) -> Result<(), AllocError>
    ensures text { Appends (words_text (I.text number ∷ [])) to.old to.new result }
    ensures room { TakesRoom (I.MAX_STR_LEN + 1) to.old to.new result }
{
    append(to, b" ")?;
    append_integer(to, number)
}

/// Appends a letter and a number.
pub(crate) fn append_numbered(
    to: &mut Vec<u8>,
    letter: &[u8],
    number: u32,
) -> Result<(), AllocError>
    requires { length letter.now ≡ 1 }
    ensures text { Appends (numbered letter.now number) to.old to.new result }
    ensures room { TakesRoom 11 to.old to.new result }
{
    append(to, letter)?;
    append_integer(to, number)
}

/// Appends the name of an item.
pub(crate) fn append_item(to: &mut Vec<u8>, name: ItemName) -> Result<(), AllocError>
    ensures text { Appends (words_text (item_word name ∷ [])) to.old to.new result }
    ensures room { TakesRoom 12 to.old to.new result }
{
    append(to, b" ")?;
    match name {
        ItemName::Node(number) => append_numbered(to, b"n", number),
        ItemName::Edge(number) => append_numbered(to, b"e", number),
        ItemName::Cell(number) => append_numbered(to, b"i", number),
    }
}

/// Appends the name of each item.
pub(crate) fn append_items(to: &mut Vec<u8>, names: &[ItemName]) -> Result<(), AllocError>
    ensures { Appends (words_text (map item_word names.now)) to.old to.new result }
{
    for name in names {
        append_item(to, *name)?;
    }
    Ok(())
}

/// Appends the name of the item at each place: a letter, and the number that stands there.
pub(crate) fn append_items_at(
    to: &mut Vec<u8>,
    letter: &[u8],
    numbers: &[u32],
    places: &[u32],
) -> Result<(), AllocError>
    requires letter { length letter.now ≡ 1 }
    requires places { All (λ place. place < length numbers.now) places.now }
    ensures { Appends (words_text (words_at letter.now numbers.now places.now))
        to.old to.new result }
{
    for place in places {
        append_item_at(to, letter, numbers, *place)?;
    }
    Ok(())
}

/// Appends the name of the item at a place.
pub(crate) fn append_item_at(
    to: &mut Vec<u8>,
    letter: &[u8],
    numbers: &[u32],
    place: u32,
) -> Result<(), AllocError>
    requires letter { length letter.now ≡ 1 }
    requires place { place < length numbers.now }
    ensures { Appends (words_text (words_at letter.now numbers.now (place ∷ [])))
        to.old to.new result }
{
    append(to, b" ")?;
    append_numbered(to, letter, numbers[place as usize])
}

/// Appends the name of each item, a letter and its number.
pub(crate) fn append_names(
    to: &mut Vec<u8>,
    letter: &[u8],
    numbers: &[u32],
) -> Result<(), AllocError>
    requires { length letter.now ≡ 1 }
    ensures { Appends (words_text (map (numbered letter.now) numbers.now)) to.old to.new result }
{
    for number in numbers {
        append(to, b" ")?;
        append_numbered(to, letter, *number)?;
    }
    Ok(())
}

/// Appends the name of each item, a letter and its number, with the item's label behind it.
#[tactic(auto, using(crate::proofs::Labels::one_more))]
pub(crate) fn append_labelled(
    to: &mut Vec<u8>,
    letter: &[u8],
    numbers: &[u32],
    labels: &[u32],
) -> Result<(), AllocError>
    requires letter { length letter.now ≡ 1 }
    requires labels { length labels.now ≡ length numbers.now }
    ensures { Appends
        (words_text (labelled_words letter.now numbers.now labels.now (length numbers.now)))
        to.old to.new result }
{
    for place in 0..numbers.len() {
        append_labelled_at(to, letter, numbers, labels, place)?;
    }
    Ok(())
}

/// Appends the name of the item at a place, with its label behind it.
fn append_labelled_at(
    to: &mut Vec<u8>,
    letter: &[u8],
    numbers: &[u32],
    labels: &[u32],
    place: usize,
) -> Result<(), AllocError>
    requires letter { length letter.now ≡ 1 }
    requires number { place < length numbers.now }
    requires label { place < length labels.now }
    ensures { Appends (words_text (labelled_word letter.now numbers.now labels.now place ∷ []))
        to.old to.new result }
{
    append(to, b" ")?;
    append_numbered(to, letter, numbers[place])?;
    append(to, b":")?;
    append_integer(to, labels[place])
}

/// Appends each item of a container, with what it holds.
pub(crate) fn append_cells(to: &mut Vec<u8>, cells: &[CellShow]) -> Result<(), AllocError>
    ensures { Appends (words_text (map cell_word cells.now)) to.old to.new result }
{
    for cell in cells {
        append(to, b" ")?;
        append_numbered(to, b"i", cell.number)?;
        append_values(to, cell.values.as_slice())?;
    }
    Ok(())
}

/// Appends a colon and the value, for each value.
fn append_values(to: &mut Vec<u8>, values: &[i64]) -> Result<(), AllocError>
    ensures { Appends (flat_map value_text values.now) to.old to.new result }
{
    for value in values {
        append_value(to, *value)?;
    }
    Ok(())
}

/// Appends a colon and the value.
pub(crate) fn append_value(to: &mut Vec<u8>, value: i64) -> Result<(), AllocError>
    ensures { Appends (value_text value) to.old to.new result }
{
    append(to, b":")?;
    append_integer(to, value)
}

/// Appends a label, with what stands round it in a script.
pub(crate) fn append_label(to: &mut Vec<u8>, label: &[u8]) -> Result<(), AllocError>
    ensures { Appends (words_text (label_word label.now ∷ [])) to.old to.new result }
{
    append(to, b" |{")?;
    append(to, label)?;
    append(to, b"}|")
}

/// Appends the words of what a refusal is about.
pub(crate) fn append_subject(to: &mut Vec<u8>, subject: Subject<'_>) -> Result<(), AllocError>
    requires { IsSubjectShort subject }
    ensures text { Appends (words_text (subject_words subject.entry)) to.old to.new result }
    ensures room { TakesRoom 41 to.old to.new result }
{
    match subject {
        Subject::Nothing => Ok(()),
        Subject::Word(word) => append_word(to, word),
        Subject::Item(name) => append_item(to, name),
        Subject::Number(number) => append_number(to, number),
        Subject::Text(kind, line) => {
            append_word(to, kind_word(kind))?;
            append_number(to, line)
        }
    }
}

/// The word for what is wrong with the text of a graph.
fn kind_word(kind: TextKind) -> &'static [u8]
    ensures word { result.now ≡ the_kind_word kind }
    ensures short { length result.now ≤ 9 }
{
    match kind {
        TextKind::Header => b"header",
        TextKind::Kind => b"kind",
        TextKind::Count => b"count",
        TextKind::Label => b"label",
        TextKind::Ends => b"ends",
        TextKind::Reversal => b"reversal",
        TextKind::Truncated => b"truncated",
        TextKind::Trailing => b"trailing",
        TextKind::Limit => b"limit",
    }
}

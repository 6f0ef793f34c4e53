//! The texts of arguments: names of items and objects, labels, files, modes and kept sorts.
ghost use Rattle.std.specs.Prelude.{◌≡◌, ◌++◌, ℕ, ◌≤◌, length, codes, map, IsTrue, IfSome, IfNone, option_map};
ghost use Rattle.std.specs.Char.{is_ascii_digit, is_ascii_graphic};
ghost use Rattle.std.specs.List.{list_all};
ghost use Rattle.std.specs.Str.Parse.{digits_value};
ghost use Rattle.script_text.specs.Text.{IsItemName, item_number, number_of, is_item as the_item, is_name_byte, is_name as the_name, is_label as the_label, label_of as label_in, is_file as the_file, spelled as beside, mode_of as the_mode, sort_of as the_sort};

use graph_defs::{Kept, Mode};
use leda_base::{LABEL_LIMIT, NAME_LIMIT, is_one_line};

/// How many bytes the name of a file may have.
pub(crate) const FILE_LIMIT: usize = 255;

/// The modes, by their spellings.
pub(crate) const MODES: [(&str, Mode); 3] = [
    ("max", Mode::Max),
    ("perfect_max", Mode::PerfectMax),
    ("perfect_min", Mode::PerfectMin),
];

/// The sorts of kept answers.
pub(crate) const SORTS: [Kept; 7] = [
    Kept::Sp,
    Kept::Maxflow,
    Kept::Mincost,
    Kept::Mcf,
    Kept::Matching,
    Kept::Assign,
    Kept::Planar,
];

/// The number of an item's name: the letter of its sort, and then digits.
pub(crate) fn read_item(letter: u8, bytes: &[u8]) -> Option<u32>
    ensures value { result ≡ item_number letter bytes.now }
    ensures name { IfSome result (λ number. IsItemName letter number bytes.now) }
    ensures no_name { IfNone result ((number : ℕ) → ¬ IsItemName letter number bytes.now) }
{
    match bytes {
        [first, digits @ ..] if *first == letter => read_number(digits),
        _ => None,
    }
}

/// The number that 1 to 10 digits write, of which the first is not 0.
fn read_number(digits: &[u8]) -> Option<u32>
    ensures { result ≡ number_of digits.now }
{
    if digits.is_empty() || digits.len() > 10 || digits[0] == b'0' || !all_digits(digits) {
        return None;
    }
    u32::try_from(value_of(digits)).ok()
}

fn all_digits(bytes: &[u8]) -> bool
    ensures { result ≡ list_all is_ascii_digit bytes.now }
{
    bytes.iter().all(|byte| byte.is_ascii_digit())
}

/// The number that at most ten digits write.
fn value_of(digits: &[u8]) -> u64
    requires digits { IsTrue (list_all is_ascii_digit digits.now) }
    requires short { length digits.now ≤ 10 }
    ensures { result ≡ digits_value 10 digits.now }
{
    let mut value: u64 = 0;
    for digit in digits {
        value = value * 10 + u64::from(*digit - b'0');
    }
    value
}

fn is_item(bytes: &[u8]) -> bool
    ensures { result ≡ the_item bytes.now }
{
    read_item(b'n', bytes).is_some()
        || read_item(b'e', bytes).is_some()
        || read_item(b'i', bytes).is_some()
}

fn has_name_bytes(bytes: &[u8]) -> bool
    ensures { result ≡ list_all is_name_byte bytes.now }
{
    bytes
        .iter()
        .all(|byte| byte.is_ascii_alphanumeric() || *byte == b'_')
}

/// Whether the bytes are the name of an object.
pub(crate) fn is_name(bytes: &[u8]) -> bool
    ensures { result ≡ the_name bytes.now }
{
    !bytes.is_empty()
        && bytes.len() <= NAME_LIMIT
        && has_name_bytes(bytes)
        && !bytes[0].is_ascii_digit()
        && !is_item(bytes)
}

fn has_graphic_bytes(bytes: &[u8]) -> bool
    ensures { result ≡ list_all is_ascii_graphic bytes.now }
{
    bytes.iter().all(|byte| byte.is_ascii_graphic())
}

/// Whether the bytes are the name of a file.
pub(crate) fn is_file(bytes: &[u8]) -> bool
    ensures { result ≡ the_file bytes.now }
{
    !bytes.is_empty() && bytes.len() <= FILE_LIMIT && has_graphic_bytes(bytes)
}

/// Whether bytes that stand in a line may be a label.
fn is_label(bytes: &[u8]) -> bool
    ensures { result ≡ the_label bytes.now }
{
    bytes.len() <= LABEL_LIMIT && is_one_line(bytes)
}

/// The label that bytes from `|{` to `}|` write.
pub(crate) fn label_of(bytes: &[u8]) -> Option<&[u8]>
    ensures value { option_map (λ label. label.now) result ≡ label_in bytes.now }
    ensures text { IfSome result (λ label. bytes.now ≡ codes "|{" ++ label.now ++ codes "}|") }
{
    let label = bytes.strip_prefix(b"|{")?.strip_suffix(b"}|")?;
    is_label(label).then_some(label)
}

/// What stands beside the spelling that the bytes are.
fn spelled<T: Copy>(table: &[(&str, T)], bytes: &[u8]) -> Option<T>
    ensures { result ≡ beside (map (λ pair. (pair.0.now, pair.1)) table.now) bytes.now }
{
    let pair = table.iter().find(|pair| pair.0.as_bytes() == bytes)?;
    Some(pair.1)
}

/// The mode that the bytes spell.
pub(crate) fn mode_of(bytes: &[u8]) -> Option<Mode>
    ensures { result ≡ the_mode bytes.now }
{
    spelled(&MODES, bytes)
}

/// The sort of a kept answer that the bytes spell.
pub(crate) fn sort_of(bytes: &[u8]) -> Option<Kept>
    ensures { result ≡ the_sort bytes.now }
{
    let kept = SORTS.iter().find(|kept| kept.word() == bytes)?;
    Some(*kept)
}

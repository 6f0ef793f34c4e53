//! The parts of a line: fields, numbers and labels.
ghost use Rattle.std.specs.Prelude.{◌≡◌, ◌≤◌, length, take, drop, option_map};
ghost use Rattle.graph_text.specs.Parts.{field, rest, behind, number_in, label_of};

use crate::line::unindented;
use leda_base::{is_blank, natural_of};

/// The field that the bytes begin with, and what comes behind it and the blanks that follow.
pub(crate) fn split_field(bytes: &[u8]) -> (&[u8], &[u8])
    ensures field { result.0.now ≡ field bytes.now }
    ensures behind { result.1.now ≡ behind bytes.now }
{
    let (field, rest) = bytes.split_at(field_len(bytes));
    (field, unindented(rest))
}

/// How many bytes come before the first blank.
fn field_len(bytes: &[u8]) -> usize
    ensures within { result ≤ length bytes.now }
    ensures field { take result bytes.now ≡ field bytes.now }
    ensures rest { drop result bytes.now ≡ rest bytes.now }
{
    let mut len = 0;
    while len < bytes.len() && !is_blank(bytes[len]) {
        len += 1;
    }
    len
}

/// The number from `low` to `high` that digits write. None where the bytes aren't such digits.
pub(crate) fn number_in(low: u32, high: u32, bytes: &[u8]) -> Option<u32>
    ensures { result ≡ number_in low high bytes.now }
{
    let number = u32::try_from(natural_of(bytes)?).ok()?;
    (low <= number && number <= high).then_some(number)
}

/// What stands between `|{` and the last `}|`, where the bytes begin and end so.
pub(crate) fn label_of(bytes: &[u8]) -> Option<&[u8]>
    ensures { option_map (λ label. label.now) result ≡ label_of bytes.now }
{
    bytes.strip_prefix(b"|{")?.strip_suffix(b"}|")
}

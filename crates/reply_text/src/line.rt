//! Lines of the words that answers share.
ghost use Rattle.std.specs.Prelude.{◌≡◌, ◌<◌, ◌∷◌, length, map, decimal, All};
ghost use Rattle.reply_text.specs.Words.{words_at, labelled_words};
ghost use Rattle.reply_text.specs.Text.{success, words_text, line_text};
ghost use Rattle.reply_text.specs.Appending.{Appends};

use crate::appending::{append, append_items_at, append_labelled, append_number, append_word};
use std::alloc::AllocError;

/// Appends a success that is a word and counts.
pub(crate) fn append_counts(
    to: &mut Vec<u8>,
    word: &[u8],
    counts: &[usize],
) -> Result<(), AllocError>
    ensures { Appends (line_text (success (word.now ∷ map decimal counts.now)))
        to.old to.new result }
{
    append(to, b"=")?;
    append_counted(to, word, counts)?;
    append(to, b"\n")
}

fn append_counted(to: &mut Vec<u8>, word: &[u8], counts: &[usize]) -> Result<(), AllocError>
    ensures { Appends (words_text (word.now ∷ map decimal counts.now)) to.old to.new result }
{
    append_word(to, word)?;
    append_numbers(to, counts)
}

fn append_numbers(to: &mut Vec<u8>, numbers: &[usize]) -> Result<(), AllocError>
    ensures { Appends (words_text (map decimal numbers.now)) to.old to.new result }
{
    for number in numbers {
        append_number(to, *number)?;
    }
    Ok(())
}

/// Appends a line that is a word and the names of the items at places.
pub(crate) fn append_line_at(
    to: &mut Vec<u8>,
    mark: &[u8],
    word: &[u8],
    letter: &[u8],
    numbers: &[u32],
    places: &[u32],
) -> Result<(), AllocError>
    requires letter { length letter.now ≡ 1 }
    requires places { All (λ place. place < length numbers.now) places.now }
    ensures { Appends (line_text (record {
      mark = mark.now;
      words = word.now ∷ words_at letter.now numbers.now places.now;
    })) to.old to.new result }
{
    append(to, mark)?;
    append_word(to, word)?;
    append_items_at(to, letter, numbers, places)?;
    append(to, b"\n")
}

/// Appends a line that is a word and the names of items, each with its label.
pub(crate) fn append_line_labelled(
    to: &mut Vec<u8>,
    mark: &[u8],
    word: &[u8],
    letter: &[u8],
    numbers: &[u32],
    labels: &[u32],
) -> Result<(), AllocError>
    requires letter { length letter.now ≡ 1 }
    requires labels { length labels.now ≡ length numbers.now }
    ensures { Appends (line_text (record {
      mark = mark.now;
      words = word.now
          ∷ labelled_words letter.now numbers.now labels.now (length numbers.now);
    }))
        to.old to.new result }
{
    append(to, mark)?;
    append_word(to, word)?;
    append_labelled(to, letter, numbers, labels)?;
    append(to, b"\n")
}

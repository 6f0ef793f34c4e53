//! The lines of a text.
ghost use Rattle.std.specs.Prelude.{◌≡◌, ◌+◌, ◌<◌, ◌≤◌, ◌∷◌, [], true, length, option_map, MatchOption};
ghost use Rattle.graph_text.specs.Lines.{lines_of, unindented, visible, is_skipped, all_of, next_of};
ghost use Rattle.graph_text.specs.Gives.{line_seen, Reads, ReadsOn};
ghost use Rattle.graph_text.specs.Reading.{line_of, end_of};

use crate::fault::Fault;
use crate::reading::TEXT_LIMIT;
use graph_defs::TextKind;
use leda_base::{is_blank, trimmed};
use memchr::memchr;
use std::marker::Model;

/// How many bytes a line may have, without its LF.
const LINE_LIMIT: usize = 65_536;

/// A line, or what of it counts, with its number in the text, from 1.
#[derive(Clone, Copy)]
pub(crate) struct Line<'a> {
    pub number: u32,
    pub bytes: &'a [u8],
}

impl Line<'_> {
    /// The fault of this line.
    pub fn fault(&self, kind: TextKind) -> Fault
        ensures { result ≡ record { kind = kind; line = self.now.number } }
    {
        Fault::at(self.number, kind)
    }
}

/// The lines of a text that are still to be read.
#[derive(Drop)]
pub(crate) struct Lines<'a> {
    /// The number of the next line.
    number: u32,
    rest: &'a [u8],
}

impl<'a> Model for Lines<'a> {
    ghost use Rattle.std.specs.Prelude.{◌+◌, ◌≤◌, length};
    ghost use Rattle.graph_text.specs.declared.reading.TheConstants.{TEXT_LIMIT};
    ghost use Rattle.graph_text.specs.Lines.{Unread, lines_of};

    ghost Value = { Unread };

    ghost view = { λ l. record { number = l.number; lines = lines_of l.rest.now } };

    ghost invariant = { λ l. l.number + length l.rest.now ≤ TEXT_LIMIT + 1 };
}

impl<'a> Lines<'a> {
    /// All lines of a text.
    pub fn new(text: &'a [u8]) -> Self
        requires { length text.now ≤ TEXT_LIMIT }
        ensures { result ≡ all_of text.now }
    {
        Lines {
            number: 1,
            rest: text,
        }
    }

    /// Takes the next line, whatever it is.
    fn take_line(&mut self) -> Option<Line<'a>>
        ensures { MatchOption result
            ((self.old.lines ≡ []) × (self.new ≡ self.old))
            (λ line. (line.number ≡ self.old.number)
            × (self.old.lines ≡ line.bytes.now ∷ self.new.lines)
            × (self.new.number ≡ self.old.number + 1)) }
    {
        if self.rest.is_empty() {
            return None;
        }
        let (bytes, rest) = split_line(self.rest);
        let line = Line {
            number: self.number,
            bytes,
        };
        self.number += 1;
        self.rest = rest;
        Some(line)
    }

    /// Takes the next line that isn't skipped, without the blanks round it.
    ///
    /// # Errors
    /// The limit, where a line before it, or the line itself, is too long.
    pub fn next_line(&mut self) -> Result<Option<Line<'a>>, Fault>
        ensures { ReadsOn (option_map line_seen) result self.new (next_of self.old) }
    {
        while let Some(line) = self.take_line() {
            if line.bytes.len() > LINE_LIMIT {
                return Err(line.fault(TextKind::Limit));
            }
            let bytes = visible(line.bytes);
            if !is_skipped(bytes) {
                return Ok(Some(Line {
                    number: line.number,
                    bytes,
                }));
            }
        }
        Ok(None)
    }

    /// Takes the next line that isn't skipped, which has to be there.
    #[tactic(auto, unfolding(crate::specs::Reading::line_of))]
    pub fn want_line(&mut self) -> Result<Line<'a>, Fault>
        ensures { ReadsOn line_seen result self.new (line_of self.old) }
    {
        match self.next_line()? {
            Some(line) => Ok(line),
            None => Err(Fault::at(self.number, TextKind::Truncated)),
        }
    }

    /// Whether nothing is left but lines that are skipped.
    #[tactic(auto, unfolding(crate::specs::Reading::end_of))]
    pub fn end(&mut self) -> Result<(), Fault>
        ensures { Reads (λ _. true) result (end_of self.old) }
    {
        match self.next_line()? {
            Some(line) => Err(line.fault(TextKind::Trailing)),
            None => Ok(()),
        }
    }

    /// How many of so many lines may be there, by the bytes that are left.
    pub fn at_most(&self, count: u32) -> usize
        ensures { result ≤ count }
    {
        self.rest.len().min(count as usize)
    }
}

/// The first line of bytes, and what comes behind it.
fn split_line(bytes: &[u8]) -> (&[u8], &[u8])
    requires { 0 < length bytes.now }
    ensures lines { lines_of bytes.now ≡ result.0.now ∷ lines_of result.1.now }
    ensures shorter { length result.1.now < length bytes.now }
{
    match memchr(b'\n', bytes) {
        Some(end) => (&bytes[..end], &bytes[end + 1..]),
        None => (bytes, &[]),
    }
}

/// The bytes without the blanks in front of them.
pub(crate) fn unindented(bytes: &[u8]) -> &[u8]
    ensures value { result.now ≡ unindented bytes.now }
    ensures within { length result.now ≤ length bytes.now }
{
    let mut rest = bytes;
    while let [first, behind @ ..] = rest
        && is_blank(*first)
    {
        rest = behind;
    }
    rest
}

/// What of a line counts.
fn visible(line: &[u8]) -> &[u8]
    ensures { result.now ≡ visible line.now }
{
    trimmed(unindented(line))
}

/// Whether a line of which this counts is skipped.
fn is_skipped(bytes: &[u8]) -> bool
    ensures { result ≡ is_skipped bytes.now }
{
    match bytes {
        [] => true,
        [first, ..] => *first == b'#',
    }
}

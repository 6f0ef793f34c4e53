//! The tokens of a line.
ghost use Rattle.std.specs.Prelude.{◌≡◌, ◌+◌, ◌<◌, ◌≤◌, ◌∷◌, [], length, drop, MatchOption, IfSome, option_map, position, not};
ghost use Rattle.std.specs.List.{position_or_len};
ghost use Rattle.script_text.specs.Borrowed.{token_seen, tokens_seen, IsWithin};
ghost use Rattle.leda_base.specs.Bytes.{is_blank};
ghost use Rattle.script_text.specs.Token.{next_of, tokens_from, tokens_of};

use crate::line::LINE_LIMIT;
use leda_base::{is_blank, trimmed};
use std::marker::Model;

/// A token, with the column of its first byte, and all that stands from there on in its line,
/// without the blanks at the end.
#[derive(Clone, Copy)]
pub(crate) struct Token<'a> {
    pub column: u32,
    pub bytes: &'a [u8],
    pub tail: &'a [u8],
}

/// The tokens of a line that are still to be read.
#[derive(Drop)]
pub(crate) struct Tokens<'a> {
    /// The column behind the last token that was read.
    column: u32,
    /// The next token, which is looked for once, whether it is asked for beforehand or not.
    next: Option<Token<'a>>,
}

impl<'a> Model for Tokens<'a> {
    ghost use Rattle.std.specs.Prelude.{IfSome};
    ghost use Rattle.script_text.specs.Token.{Unread};
    ghost use Rattle.script_text.specs.Borrowed.{tokens_seen, IsWithin};

    ghost Value = { Unread };

    ghost view = { λ t. record { column = t.column; tokens = tokens_seen t.next } };

    ghost invariant = { λ t. IfSome t.next IsWithin };
}

impl<'a> Tokens<'a> {
    /// The tokens of a whole line.
    pub fn new(line: &'a [u8]) -> Self
        requires { length line.now ≤ LINE_LIMIT }
        ensures column { result.column ≡ 1 }
        ensures tokens { result.tokens ≡ tokens_of line.now }
    {
        Tokens {
            column: 1,
            next: first_token(1, trimmed(line)),
        }
    }

    /// The column behind the last token that was read.
    pub fn column(&self) -> u32
        ensures { result ≡ self.now.column }
    {
        self.column
    }

    /// The next token, which stays to be read.
    pub fn peek(&self) -> Option<Token<'a>>
        ensures { option_map token_seen result ≡ next_of self.now.tokens }
    {
        self.next
    }

    /// Reads the next token.
    pub fn next_token(&mut self) -> Option<Token<'a>>
        ensures { MatchOption result
            ((self.old.tokens ≡ []) × (self.new ≡ self.old))
            (λ token. (self.old.tokens ≡ token_seen token ∷ self.new.tokens)
            × (self.new.column ≡ token.column + length token.bytes.now)) }
    {
        let token = self.next?;
        let (bytes, rest) = token.tail.split_at(token.bytes.len());
        self.column = token.column + bytes.len() as u32;
        self.next = first_token(self.column, rest);
        Some(token)
    }

    /// Takes all that is left of the line.
    pub fn skip_rest(&mut self)
        ensures column { self.new.column ≡ self.old.column }
        ensures tokens { self.new.tokens ≡ [] }
    {
        self.next = None;
    }
}

/// The first token of bytes that don't end with a blank, the first of which stands in the column.
fn first_token(column: u32, bytes: &[u8]) -> Option<Token<'_>>
    requires { column + length bytes.now ≤ LINE_LIMIT + 1 }
    ensures tokens { tokens_seen result ≡ tokens_from column bytes.now }
    ensures within { IfSome result IsWithin }
{
    let blanks = first_visible(bytes)?;
    let (_, tail) = bytes.split_at(blanks);
    let (bytes, _) = tail.split_at(token_len(tail));
    Some(Token {
        column: column + blanks as u32,
        bytes,
        tail,
    })
}

/// The place of the first byte that is no blank.
fn first_visible(bytes: &[u8]) -> Option<usize>
    ensures place { result ≡ position (λ b. not (is_blank b)) bytes.now }
    ensures within { IfSome result (λ k. k < length bytes.now) }
{
    bytes.iter().position(|byte| !is_blank(*byte))
}

/// The place of the first blank.
fn first_blank(bytes: &[u8]) -> Option<usize>
    ensures place { result ≡ position is_blank bytes.now }
    ensures within { IfSome result (λ k. k < length bytes.now) }
{
    bytes.iter().position(|byte| is_blank(*byte))
}

/// How many bytes come before the first blank.
fn token_len(bytes: &[u8]) -> usize
    ensures len { result ≡ position_or_len is_blank bytes.now }
    ensures within { result ≤ length bytes.now }
{
    first_blank(bytes).unwrap_or(bytes.len())
}

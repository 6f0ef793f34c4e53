//! A line read by a table, over the bytes of the line alone, and then with bytes of its own.
ghost use Rattle.std.specs.Prelude.{◌≡◌, ◌≤◌, true, length, map, IsTrue, Ok, Err, IfOk, OnErr, MatchResult};
ghost use Rattle.std.specs.List.{list_any};
ghost use Rattle.script_text.specs.Borrowed.{arg_seen, entry_seen, read_seen, has_bytes, are_short, IsEntry, ReadsNext};
ghost use Rattle.script_text.specs.Line.{arguments, read_line as the_reading};

use crate::argument::{Arg, ArgRef, Misfit};
use crate::command::Command;
use crate::form::{Form, left_out, read_arg};
use crate::line::{LINE_LIMIT, LineRefusal};
use crate::table::{Entry, FORM_LIMIT, entry_of};
use crate::token::Tokens;
use leda_base::NoMemory;
use smallvec::SmallVec;
use std::alloc::Global;
use std::marker::Model;

/// Arguments that stand in a line.
type ArgRefs<'a> = SmallVec<ArgRef<'a>, FORM_LIMIT, Global>;

/// A row of the table, and arguments of its forms that stand in a line.
#[derive(Drop)]
pub(crate) struct Reading<'a> {
    row: Entry,
    args: ArgRefs<'a>,
}

impl<'a> Model for Reading<'a> {
    ghost use Rattle.std.specs.Prelude.{◌≤◌, length, map};
    ghost use Rattle.script_text.specs.declared.table.TheConstants.{FORM_LIMIT};
    ghost use Rattle.script_text.specs.Borrowed.{arg_seen, entry_seen};
    ghost use Rattle.script_text.specs.Line.{Reading as TheReading};

    ghost Value = { TheReading };

    ghost view = { λ r. record { row = entry_seen r.row; args = map arg_seen r.args.items } };

    ghost invariant = { λ r. length r.args.items ≤ FORM_LIMIT };
}

impl Reading<'_> {
    /// The command, with arguments that own their bytes.
    ///
    /// # Errors
    /// `NoMemory`, only where some argument has bytes.
    pub(crate) fn own(self, alloc: Global) -> Result<Command, NoMemory>
        requires { IsEntry self.row }
        ensures ok { IfOk result (λ command. (command.word ≡ self.entry.row.word)
            × (command.args ≡ self.entry.args)) }
        ensures err { OnErr result (list_any has_bytes self.entry.args ≡ true) }
    {
        let (_, word, forms, _) = self.row;
        let args = own_args(alloc, self.args.as_slice())?;
        Ok(Command::new(word, forms, args))
    }
}

fn own_args(alloc: Global, args: &[ArgRef<'_>]) -> Result<SmallVec<Arg, 8, Global>, NoMemory>
    requires { length args.now ≤ FORM_LIMIT }
    ensures ok { IfOk result (λ owned. owned.items ≡ map arg_seen args.now) }
    ensures err { OnErr result (list_any has_bytes (map arg_seen args.now) ≡ true) }
{
    let mut owned = SmallVec::new(alloc);
    for arg in args {
        owned.push_reserved(arg.own(alloc)?);
    }
    Ok(owned)
}

/// Reads a line, which is given without its LF, by a table. It takes no memory.
#[tactic(auto, unfolding(crate::specs::Line::read_line, crate::specs::Line::line_limit))]
pub(crate) fn read_line<'a>(
    alloc: Global,
    rows: &[Entry],
    line: &'a [u8],
) -> Result<Option<Reading<'a>>, LineRefusal>
    requires { IsTrue (are_short (map entry_seen rows.now)) }
    ensures { result ≡ the_reading (map entry_seen rows.now) line.now }
{
    if line.len() > LINE_LIMIT {
        return Err(LineRefusal::LongLine);
    }
    let mut tokens = Tokens::new(line);
    let Some(first) = tokens.next_token() else {
        return Ok(None);
    };
    if first.bytes.starts_with(b"#") {
        return Ok(None);
    }
    let Some(row) = entry_of(rows, first.bytes, tokens.peek()) else {
        return Err(LineRefusal::Syntax(first.column));
    };
    let args = read_args(alloc, row.2, &mut tokens)?;
    Ok(Some(Reading { row, args }))
}

/// Reads the arguments of these forms, and that nothing comes behind them.
fn read_args<'a>(
    alloc: Global,
    forms: &[Form],
    tokens: &mut Tokens<'a>,
) -> Result<ArgRefs<'a>, LineRefusal>
    requires { length forms.now ≤ FORM_LIMIT }
    ensures few { IfOk result (λ args. length args.items ≤ FORM_LIMIT) }
    ensures read { let read = arguments forms.now tokens.old.column tokens.old.tokens in
        MatchResult result
        (λ args. read ≡ Ok (map arg_seen args.items)) (λ fault. read ≡ Err fault) }
{
    let mut args = SmallVec::new(alloc);
    let mut out_of_range = None;
    for form in forms {
        let (column, read) = next_arg(*form, tokens);
        match read {
            Ok(arg) => args.push_reserved(arg),
            Err(Misfit::OutOfRange) => out_of_range = out_of_range.or(Some(column)),
            Err(Misfit::OtherForm) => return Err(LineRefusal::Syntax(column)),
        }
    }
    if let Some(token) = tokens.next_token() {
        return Err(LineRefusal::Syntax(token.column));
    }
    match out_of_range {
        Some(column) => Err(LineRefusal::Number(column)),
        None => Ok(args),
    }
}

/// Reads the next token as an argument of this form. The column is that of the token, or the one in
/// which it is missed.
fn next_arg<'a>(form: Form, tokens: &mut Tokens<'a>) -> (u32, Result<ArgRef<'a>, Misfit>)
    ensures { ReadsNext form tokens.old result.0 (read_seen result.1) tokens.new }
{
    let Some(token) = tokens.next_token() else {
        return (tokens.column(), left_out(form));
    };
    if form.takes_rest() {
        tokens.skip_rest();
    }
    (token.column, read_arg(form, token))
}

#[cfg(test)]
mod tests;

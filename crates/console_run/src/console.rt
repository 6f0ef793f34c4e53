//! A session with the buffers of its script and its replies.
ghost use Rattle.std.specs.Prelude.{◌≡◌, ℕ, Some, ◌+◌, ◌≤◌, ◌<◌, ◌==◌, ◌||◌, if◌then◌else◌, is_some, List, [], ◌++◌, length, drop, get_or, vec_len, vec_capacity, IfSome, IfNone, IfOk, IfErr, OnOk, OnErr};
ghost use Rattle.std.specs.Io.KnownBytes.{Appends};
ghost use Rattle.std.specs.Bool.{MatchBool, OnFalse};
ghost use Rattle.leda_edge.specs.Causes.{Rose, HasCause};
ghost use Rattle.leda_edge.specs.Parts.{StaysTold, TookPart};
ghost use Rattle.leda_edge.specs.Stored.{Stored, stored, StaysStored};
ghost use Rattle.script_text.specs.Line.{kept_of};
ghost use Rattle.script_text.specs.Table.{IsWhole};
ghost use Rattle.reply_text.specs.Text.{reply_text, IsNamed, IsShort};
ghost use Rattle.reply_text.specs.declared.reply.Reply.TheVariants.{Refused};
ghost use Rattle.reply_text.specs.declared.refusal.Refusal.TheVariants.{Memory};
ghost use Rattle.console_state.specs.State.{empty};
ghost use Rattle.console_run.specs.declared.console.TheConstants.{KEPT_LIMIT, REPLY_ROOM};
ghost use Rattle.console_run.specs.Session.{refusal_of};
ghost use Rattle.console_run.specs.Answers.{Known, Answered};
ghost use Rattle.console_run.specs.Strict.{end_of, IsRefusal};
ghost use Rattle.console_run.specs.Lines.{lines_of, IsPlain};
ghost use Rattle.console_run.specs.declared.workload.TheConstants.{LINE_COUNT};
ghost use Rattle.console_run.specs.Generated.{IsDrawn, line_at};
ghost use Rattle.console_run.specs.Shown.{first_line, summary};
ghost use Rattle.console_run.specs.Performing.{ShowedLine, CutLine};
ghost use Rattle.console_run.specs.Progress.{EndsLine, RanCommand, RanLine, WroteReply, CutReply, Progress, Broken};

use crate::top::Status;
use crate::workload::{Generator, LINE_COUNT, append, append_number};
use console_state::Session;
use leda_edge::{Failed, Sink, Store, put_all};
use memchr::memchr;
use reply_text::{Refusal, Reply, put_reply};
use script_text::{Command, LINE_LIMIT, Line, LineRefusal, parse_line};
use std::alloc::{AllocError, Global};

/// How many bytes of an unfinished line are kept: one more than a line may have, which tells that
/// it is too long.
const KEPT_LIMIT: usize = LINE_LIMIT + 1;

/// How many bytes the reply buffer begins with.
const REPLY_ROOM: usize = 256;

/// A session, with the unfinished line of its script and the text of a reply.
#[derive(Drop)]
pub(crate) struct Console {
    alloc: Global,
    session: Session,
    line: Vec<u8>,
    reply: Vec<u8>,
    ghost line_within: { vec_len line ≤ KEPT_LIMIT },
    ghost line_room: { KEPT_LIMIT ≤ vec_capacity line },
    ghost reply_room: { REPLY_ROOM ≤ vec_capacity reply },
}

impl Console {
    /// Takes the buffers, which are all the memory that reading and writing take.
    pub(crate) fn new(alloc: Global) -> Result<Console, AllocError>
        ensures session { IfOk result (λ console. console.session ≡ empty) }
        ensures line { IfOk result (λ console. console.line.items ≡ []) }
    {
        let line = Vec::with_capacity(alloc, KEPT_LIMIT)?;
        let reply = Vec::with_capacity(alloc, REPLY_ROOM)?;
        Ok(Console {
            alloc,
            session: Session::new(alloc),
            line,
            reply,
        })
    }

    /// Runs a command, and leaves the text of its reply in the empty buffer.
    ///
    /// The status with which the run ends behind the reply, if it does.
    fn run_command<F: Store>(
        &mut self,
        strict: bool,
        command: Command,
        files: &mut F,
    ) -> Option<Status>
        requires whole { IsWhole command }
        requires empty { self.old.reply.items ≡ [] }
        ensures ran { RanCommand strict command
            self.old.session (stored (F.files files.old) (F.faults files.old))
            self.new.reply.items result
            self.new.session (stored (F.files files.new) (F.faults files.new)) }
        ensures store { StaysStored (stored (F.files files.old) (F.faults files.old))
            (stored (F.files files.new) (F.faults files.new)) }
        ensures refused { IfSome result IsRefusal }
    {
        let reply = self.session.apply(&command, files);
        if put_text(&mut self.reply, &reply) {
            let ended = end_behind(strict, &reply);
            self.session.keep(command, reply);
            ended
        } else {
            end_behind(strict, &Reply::Refused(Refusal::Memory))
        }
    }

    /// Runs the line in the buffer, and leaves the text of its reply in the other.
    ///
    /// The status with which the run ends behind the reply, if it does.
    fn run_line<F: Store>(&mut self, strict: bool, files: &mut F) -> Option<Status>
        ensures ran { RanLine strict self.old.line.items
            self.old.session (stored (F.files files.old) (F.faults files.old))
            self.new.reply.items result
            self.new.session (stored (F.files files.new) (F.faults files.new)) }
        ensures store { StaysStored (stored (F.files files.old) (F.faults files.old))
            (stored (F.files files.new) (F.faults files.new)) }
        ensures refused { IfSome result IsRefusal }
    {
        self.reply.clear();
        match parse_line(self.alloc, self.line.as_slice()) {
            Ok(Line::Nothing) => None,
            Ok(Line::Command(command)) => self.run_command(strict, command, files),
            Err(fault) => {
                let reply = Reply::Refused(refusal_of(fault));
                put_text(&mut self.reply, &reply);
                end_behind(strict, &reply)
            }
        }
    }

    /// Runs the line in the buffer, writes its reply, and leaves the buffer empty for the next
    /// line.
    ///
    /// # Errors
    /// The status of a run that ends at this reply.
    pub(crate) fn end_line<F: Store, K: Sink>(
        &mut self,
        strict: bool,
        files: &mut F,
        out: &mut K,
    ) -> Result<(), Status>
        ensures empty { self.new.line.items ≡ [] }
        ensures ok { OnOk result (WroteReply strict self.old.line.items
            self.old.session (stored (F.files files.old) (F.faults files.old)) (K.held out.old)
            self.new.session (stored (F.files files.new) (F.faults files.new)) (K.held out.new)) }
        ensures err { IfErr result (λ status. CutReply strict status self.old.line.items
            self.old.session (stored (F.files files.old) (F.faults files.old)) (K.held out.old)
            self.new.session (stored (F.files files.new) (F.faults files.new)) (K.held out.new)) }
        ensures told { StaysTold (K.held out.old) (K.held out.new) }
        ensures later { K.faults out.old ≤ K.faults out.new }
        ensures cause { IfErr result (λ status. status ≡ Status.WriteFault
            → Rose (K.faults out.old) (K.faults out.new)) }
        ensures store { StaysStored (stored (F.files files.old) (F.faults files.old))
            (stored (F.files files.new) (F.faults files.new)) }
    {
        let ended = self.run_line(strict, files);
        self.line.clear();
        if let Err(Failed) = put_all(out, self.reply.as_slice()) {
            return Err(Status::WriteFault);
        }
        match ended {
            Some(status) => Err(status),
            None => Ok(()),
        }
    }

    /// Runs the line in the buffer, and leaves the buffer empty for the next line. The first line
    /// of its reply is written where the line is a query, or where the run ends behind it.
    ///
    /// Whether the reply is a refusal.
    ///
    /// # Errors
    /// The status of a run that ends at this reply.
    fn show_line<F: Store, K: Sink>(
        &mut self,
        strict: bool,
        is_query: bool,
        files: &mut F,
        out: &mut K,
    ) -> Result<bool, Status>
        ensures empty { self.new.line.items ≡ [] }
        ensures ok { IfOk result (λ refused. ShowedLine strict is_query self.old.line.items refused
            self.old.session (stored (F.files files.old) (F.faults files.old)) (K.held out.old)
            self.new.session (stored (F.files files.new) (F.faults files.new)) (K.held out.new)) }
        ensures err { IfErr result (λ status. CutLine strict is_query status self.old.line.items
            self.old.session (stored (F.files files.old) (F.faults files.old)) (K.held out.old)
            self.new.session (stored (F.files files.new) (F.faults files.new)) (K.held out.new)) }
        ensures told { StaysTold (K.held out.old) (K.held out.new) }
        ensures later { K.faults out.old ≤ K.faults out.new }
        ensures cause { IfErr result (λ status. status ≡ Status.WriteFault
            → Rose (K.faults out.old) (K.faults out.new)) }
        ensures store { StaysStored (stored (F.files files.old) (F.faults files.old))
            (stored (F.files files.new) (F.faults files.new)) }
    {
        let ended = self.run_line(strict, files);
        self.line.clear();
        let shown = shown_of(is_query, ended, self.reply.as_slice());
        if let Err(Failed) = put_all(out, shown) {
            return Err(Status::WriteFault);
        }
        match ended {
            Some(status) => Err(status),
            None => Ok(is_refusal(self.reply.as_slice())),
        }
    }

    /// Runs the line of a workload with the number `at`, from 0. The first line of its reply is
    /// written where it is a query, or where the run ends behind it.
    ///
    /// Whether the reply is a refusal.
    ///
    /// # Errors
    /// The status of a run that ends at this reply.
    pub(crate) fn work_line<F: Store, K: Sink>(
        &mut self,
        strict: bool,
        at: u32,
        generator: &mut Generator,
        files: &mut F,
        out: &mut K,
    ) -> Result<bool, Status>
        requires at { at < LINE_COUNT }
        requires empty { self.old.line.items ≡ [] }
        ensures empty { self.new.line.items ≡ [] }
        ensures drawn { (seed : ℕ) → IsDrawn seed at generator.old.number
            → IsDrawn seed (at + 1) generator.new.number }
        ensures ok { (seed : ℕ) → IsDrawn seed at generator.old.number
            → IfOk result (λ refused. ShowedLine strict
            (line_at seed at).is_query (line_at seed at).text refused
            self.old.session (stored (F.files files.old) (F.faults files.old)) (K.held out.old)
            self.new.session (stored (F.files files.new) (F.faults files.new)) (K.held out.new)) }
        ensures err { (seed : ℕ) → IsDrawn seed at generator.old.number
            → IfErr result (λ status. CutLine strict
            (line_at seed at).is_query status (line_at seed at).text
            self.old.session (stored (F.files files.old) (F.faults files.old)) (K.held out.old)
            self.new.session (stored (F.files files.new) (F.faults files.new)) (K.held out.new)) }
        ensures told { StaysTold (K.held out.old) (K.held out.new) }
        ensures later { K.faults out.old ≤ K.faults out.new }
        ensures cause { IfErr result (λ status. status ≡ Status.WriteFault
            → Rose (K.faults out.old) (K.faults out.new)) }
        ensures store { StaysStored (stored (F.files files.old) (F.faults files.old))
            (stored (F.files files.new) (F.faults files.new)) }
    {
        let is_query = generator.put_line(at, &mut self.line);
        self.show_line(strict, is_query, files, out)
    }

    /// Writes the last line of a workload.
    ///
    /// # Errors
    /// `Failed` where it isn't written whole.
    pub(crate) fn write_summary<K: Sink>(&mut self, refused: u32, out: &mut K) -> Result<(), Failed>
        ensures whole { OnOk result
            (Appends (K.held out.old) (K.held out.new) (summary LINE_COUNT refused)) }
        ensures part { OnErr result
            (TookPart (K.held out.old) (K.held out.new) (summary LINE_COUNT refused)) }
        ensures told { StaysTold (K.held out.old) (K.held out.new) }
        ensures cause { HasCause (K.faults out.old) (K.faults out.new) result }
    {
        self.reply.clear();
        append(&mut self.reply, b"= workload ");
        append_number(&mut self.reply, LINE_COUNT);
        append(&mut self.reply, b" ");
        append_number(&mut self.reply, refused);
        append(&mut self.reply, b"\n");
        put_all(out, self.reply.as_slice())
    }

    /// Puts bytes behind the unfinished line, as many as tell what it means.
    fn gather(&mut self, bytes: &[u8])
        ensures kept { (line : List ℕ) → self.old.line.items ≡ kept_of line
            → self.new.line.items ≡ kept_of (line ++ bytes.now) }
        ensures session { self.new.session ≡ self.old.session }
    {
        let count = bytes.len().min(KEPT_LIMIT - self.line.len());
        // The buffer has room for as many.
        let _ = self.line.extend_from_slice(&bytes[..count]);
    }

    /// Takes the next bytes of the script, and answers each line that they end.
    ///
    /// # Errors
    /// The status of a run that ends at the reply to one of them.
    pub(crate) fn feed<F: Store, K: Sink>(
        &mut self,
        strict: bool,
        files: &mut F,
        out: &mut K,
        piece: &[u8],
    ) -> Result<(), Status>
        ensures ok { (held : Known) (before : Stored) (taken : List ℕ)
            → Progress strict held before taken
            (K.held out.old) (stored (F.files files.old) (F.faults files.old))
            self.old.session self.old.line.items
            → OnOk result (Progress strict held before (taken ++ piece.now)
            (K.held out.new) (stored (F.files files.new) (F.faults files.new))
            self.new.session self.new.line.items) }
        ensures err { (held : Known) (before : Stored) (taken : List ℕ)
            → Progress strict held before taken
            (K.held out.old) (stored (F.files files.old) (F.faults files.old))
            self.old.session self.old.line.items
            → IfErr result (λ status. Broken strict status held before
            (taken ++ piece.now) (K.held out.new)
            (stored (F.files files.new) (F.faults files.new))) }
        ensures told { StaysTold (K.held out.old) (K.held out.new) }
        ensures later { K.faults out.old ≤ K.faults out.new }
        ensures cause { IfErr result (λ status. status ≡ Status.WriteFault
            → Rose (K.faults out.old) (K.faults out.new)) }
        ensures store { StaysStored (stored (F.files files.old) (F.faults files.old))
            (stored (F.files files.new) (F.faults files.new)) }
    {
        let mut at = 0;
        while let Some(end) = line_end(piece, at) {
            self.gather(&piece[at..end]);
            self.end_line(strict, files, out)?;
            at = end + 1;
        }
        self.gather(&piece[at..]);
        Ok(())
    }

    /// Answers the last line, behind which no LF stands.
    ///
    /// # Errors
    /// The status of a run that ends at its reply.
    pub(crate) fn finish<F: Store, K: Sink>(
        &mut self,
        strict: bool,
        files: &mut F,
        out: &mut K,
    ) -> Result<(), Status>
        ensures ok { (held : Known) (before : Stored) (taken : List ℕ)
            → Progress strict held before taken
            (K.held out.old) (stored (F.files files.old) (F.faults files.old))
            self.old.session self.old.line.items
            → OnOk result (Answered strict before held (lines_of taken)
            (stored (F.files files.new) (F.faults files.new)) (K.held out.new)) }
        ensures err { (held : Known) (before : Stored) (taken : List ℕ)
            → Progress strict held before taken
            (K.held out.old) (stored (F.files files.old) (F.faults files.old))
            self.old.session self.old.line.items
            → IfErr result (λ status. Broken strict status held before taken
            (K.held out.new) (stored (F.files files.new) (F.faults files.new))) }
        ensures told { StaysTold (K.held out.old) (K.held out.new) }
        ensures later { K.faults out.old ≤ K.faults out.new }
        ensures cause { IfErr result (λ status. status ≡ Status.WriteFault
            → Rose (K.faults out.old) (K.faults out.new)) }
        ensures store { StaysStored (stored (F.files files.old) (F.faults files.old))
            (stored (F.files files.new) (F.faults files.new)) }
    {
        self.end_line(strict, files, out)
    }
}

/// The status with which a run ends behind a reply, if it does.
fn end_behind(strict: bool, reply: &Reply) -> Option<Status>
    ensures end { result ≡ end_of strict (Some reply.now) }
    ensures refused { IfSome result IsRefusal }
{
    if !strict {
        return None;
    }
    match reply {
        Reply::Refused(Refusal::Memory) => Some(Status::MemoryRefused),
        Reply::Refused(_) => Some(Status::Refused),
        _ => None,
    }
}

/// Puts the text of a reply into an empty buffer, or that of want of memory where a long reply
/// finds none.
///
/// Whether it is the text of the reply.
fn put_text(to: &mut Vec<u8>, reply: &Reply) -> bool
    requires empty { to.old.items ≡ [] }
    requires room { REPLY_ROOM ≤ vec_capacity to.old }
    requires named { IsNamed reply.now }
    ensures text { MatchBool result (to.new.items ≡ reply_text reply.now)
        (to.new.items ≡ reply_text (Refused Memory)) }
    ensures long { OnFalse result (IsShort reply.now → ⊥) }
    ensures capacity { vec_capacity to.old ≤ vec_capacity to.new }
{
    if put_reply(to, reply).is_ok() {
        return true;
    }
    // The buffer has room for this one.
    let _ = put_reply(to, &Reply::Refused(Refusal::Memory));
    false
}

/// The place of the first line end from the place `at` on.
fn line_end(piece: &[u8], at: usize) -> Option<usize>
    requires { at ≤ length piece.now }
    ensures found { IfSome result (λ end. EndsLine piece.now at end) }
    ensures none { IfNone result (IsPlain (drop at piece.now)) }
{
    let count = memchr(b'\n', &piece[at..])?;
    Some(at + count)
}

/// What is shown of the text of a reply: its first line, where it is that to a query, or where the
/// run ends behind it; else nothing.
fn shown_of(is_query: bool, ended: Option<Status>, reply: &[u8]) -> &[u8]
    ensures { result.now ≡ if is_query || is_some ended then first_line reply.now else [] }
{
    if is_query || ended.is_some() {
        first_line(reply)
    } else {
        b""
    }
}

/// The first line of a text, with the LF that ends it.
fn first_line(text: &[u8]) -> &[u8]
    ensures { result.now ≡ first_line text.now }
{
    match line_end(text, 0) {
        Some(end) => &text[..end + 1],
        None => text,
    }
}

/// Whether the text of a reply is that of a refusal.
fn is_refusal(reply: &[u8]) -> bool
    ensures { result ≡ (get_or reply.now 0 0 == 33) }
{
    reply.first() == Some(&b'!')
}

/// What a line that is no command is refused by.
fn refusal_of(fault: LineRefusal) -> Refusal
    ensures { result ≡ refusal_of fault }
{
    match fault {
        LineRefusal::LongLine => Refusal::LongLine,
        LineRefusal::Syntax(column) => Refusal::Syntax(column),
        LineRefusal::Number(column) => Refusal::Number(column),
        LineRefusal::NoMemory => Refusal::Memory,
    }
}

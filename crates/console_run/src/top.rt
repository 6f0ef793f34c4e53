//! The top call: a script is read from a source, and its replies are written to a sink.
ghost use Rattle.std.specs.Prelude.{◌≡◌, ◌≢◌, ◌⊎◌, ◌<◌, ◌≤◌, [], length, IfNone, IfOk, IfSome, OnOk, IfErr};
ghost use Rattle.clap.specs.Walk.{texts};
ghost use Rattle.leda_edge.specs.Causes.{Rose};
ghost use Rattle.leda_edge.specs.Parts.{StaysTold};
ghost use Rattle.leda_edge.specs.Stored.{stored, StaysStored};
ghost use Rattle.console_state.specs.State.{empty};
ghost use Rattle.console_run.specs.CommandLine.{AreTaken, is_strict, seed_of};
ghost use Rattle.console_run.specs.declared.workload.TheConstants.{LINE_COUNT};
ghost use Rattle.console_run.specs.Strict.{IsStop};
ghost use Rattle.console_run.specs.Answers.{Known};
ghost use Rattle.console_run.specs.Progress.{ReadWhole, IsEarly};
ghost use Rattle.console_run.specs.Ends.{Ends, IsUnbegun, outside};
ghost use Rattle.console_run.specs.WorkloadEnds.{EndsAtLine, EndsWorkload};
ghost use Rattle.console_run.specs.Performing.{Worked};

use crate::console::Console;
use crate::words::{WordsFault, asked_of};
use crate::workload::{Generator, LINE_COUNT};
use leda_edge::{Failed, Sink, Source, Store};
use std::alloc::Global;

/// How many bytes a script may have.
pub const SCRIPT_LIMIT: usize = 1_073_741_824;

/// How many bytes of the script are read at once.
const READ_ROOM: usize = 65_536;

/// How a run ended. The number of each is the program's exit status.
#[derive(Clone, Copy, Debug, PartialEq, Eq)]
pub enum Status {
    /// The script was read to its end, and every reply was written. Or the workload was run, and
    /// every line of its output was written.
    Done = 0,
    /// The run is strict, and a command was refused. The reply to it is the last one.
    Refused = 1,
    /// The words of the command line are refused. Nothing was read or written.
    Words = 2,
    /// A read failed. The lines that were read whole before it are answered.
    ReadFault = 3,
    /// A write failed. What was written is a front of the replies, or of a workload's output.
    WriteFault = 4,
    /// There was no memory for the buffers. Nothing was read or written.
    NoMemory = 5,
    /// The script has more than 1,073,741,824 bytes. The lines that ended within so many are
    /// answered.
    TooLong = 6,
    /// The run is strict, and there was no memory for a command or for its reply. The reply to it
    /// is the last one.
    MemoryRefused = 7,
}

/// Runs a script: one reply for each command is written, in order, before the next line is run.
///
/// `words` are the words of the command line, of which the first is the program's name. They are
/// taken as `leda [--strict] [--workload SEED]`, with a seed from 0 to 4,294,967,295. With
/// `--strict` the run ends behind the first refusal.
///
/// With `--workload` no script is read. The lines of the seed's workload are run in its place; what
/// is written is the first line of each reply to a query, and then a line that counts the lines
/// that were run and the replies that are refusals. With both words the first refusal is written
/// too, and is the last line.
pub fn run<S: Source, F: Store, K: Sink>(
    alloc: Global,
    words: &[&str],
    script: &mut S,
    files: &mut F,
    out: &mut K,
) -> Status
    requires { 0 < length words.now }
    // What was read, what was written and what the files hold, of the run of a script.
    ensures ends { IfNone (seed_of (texts words.now)) (Ends (is_strict (texts words.now)) result
        (outside (S.left script.old)
        (stored (F.files files.old) (F.faults files.old)) (K.held out.old))
        (outside (S.left script.new)
        (stored (F.files files.new) (F.faults files.new)) (K.held out.new))) }
    // The same, of the run of a workload.
    ensures workload { IfSome (seed_of (texts words.now)) (λ seed.
        EndsWorkload (is_strict (texts words.now)) seed result
        (outside (S.left script.old)
        (stored (F.files files.old) (F.faults files.old)) (K.held out.old))
        (outside (S.left script.new)
        (stored (F.files files.new) (F.faults files.new)) (K.held out.new))) }
    // The run of a workload reads nothing.
    ensures unread { IfSome (seed_of (texts words.now)) (λ _. script.new ≡ script.old) }
    // A run that doesn't begin touches nothing, whether it is told or not.
    ensures unbegun { IsUnbegun result
        → (script.new ≡ script.old) × (files.new ≡ files.old) × (out.new ≡ out.old) }
    ensures words { result ≡ Status.Words → AreTaken (texts words.now) → ⊥ }
    ensures taken { (result ≡ Status.Words) ⊎ (result ≡ Status.NoMemory)
        ⊎ AreTaken (texts words.now) }
    ensures read { result ≡ Status.ReadFault → Rose (S.faults script.old) (S.faults script.new) }
    ensures write { result ≡ Status.WriteFault → Rose (K.faults out.old) (K.faults out.new) }
    ensures reads { S.faults script.old ≤ S.faults script.new }
    ensures writes { K.faults out.old ≤ K.faults out.new }
    ensures left { StaysTold (S.left script.old) (S.left script.new) }
    ensures held { StaysTold (K.held out.old) (K.held out.new) }
    ensures store { StaysStored (stored (F.files files.old) (F.faults files.old))
        (stored (F.files files.new) (F.faults files.new)) }
{
    let asked = match asked_of(alloc, words) {
        Ok(asked) => asked,
        Err(WordsFault::Refused) => return Status::Words,
        Err(WordsFault::NoMemory) => return Status::NoMemory,
    };
    let Ok(mut console) = Console::new(alloc) else {
        return Status::NoMemory;
    };
    if let Some(seed) = asked.seed {
        return perform(asked.strict, seed, &mut console, files, out);
    }
    let Ok(mut room) = vec![in alloc; 0; READ_ROOM] else {
        return Status::NoMemory;
    };
    pump(asked.strict, &mut console, script, files, out, &mut room)
}

/// Runs the workload of a seed, and says how that ended.
fn perform<F: Store, K: Sink>(
    strict: bool,
    seed: u32,
    console: &mut Console,
    files: &mut F,
    out: &mut K,
) -> Status
    requires session { console.old.session ≡ empty }
    requires line { console.old.line.items ≡ [] }
    ensures ends { (left : Known) → EndsWorkload strict seed result
        (outside left (stored (F.files files.old) (F.faults files.old)) (K.held out.old))
        (outside left (stored (F.files files.new) (F.faults files.new)) (K.held out.new)) }
    ensures words { result ≢ Status.Words }
    ensures begun { IsUnbegun result → ⊥ }
    ensures read { result ≢ Status.ReadFault }
    ensures write { result ≡ Status.WriteFault → Rose (K.faults out.old) (K.faults out.new) }
    ensures writes { K.faults out.old ≤ K.faults out.new }
    ensures held { StaysTold (K.held out.old) (K.held out.new) }
    ensures store { StaysStored (stored (F.files files.old) (F.faults files.old))
        (stored (F.files files.new) (F.faults files.new)) }
{
    let refused = match work(strict, seed, console, files, out) {
        Ok(refused) => refused,
        Err(status) => return status,
    };
    match console.write_summary(refused, out) {
        Ok(()) => Status::Done,
        Err(Failed) => Status::WriteFault,
    }
}

/// Runs the lines of the workload of a seed.
///
/// How many of the replies are refusals.
///
/// # Errors
/// The status of a run that ends at the reply to one of them.
fn work<F: Store, K: Sink>(
    strict: bool,
    seed: u32,
    console: &mut Console,
    files: &mut F,
    out: &mut K,
) -> Result<u32, Status>
    requires session { console.old.session ≡ empty }
    requires line { console.old.line.items ≡ [] }
    ensures whole { IfOk result (λ refused. Worked strict seed
        (stored (F.files files.old) (F.faults files.old)) (K.held out.old) LINE_COUNT refused
        console.new.session
        (stored (F.files files.new) (F.faults files.new)) (K.held out.new)) }
    ensures cut { IfErr result (λ status. EndsAtLine strict seed status
        (stored (F.files files.old) (F.faults files.old)) (K.held out.old)
        (stored (F.files files.new) (F.faults files.new)) (K.held out.new)) }
    ensures stop { IfErr result IsStop }
    ensures cause { IfErr result (λ status. status ≡ Status.WriteFault
        → Rose (K.faults out.old) (K.faults out.new)) }
    ensures writes { K.faults out.old ≤ K.faults out.new }
    ensures held { StaysTold (K.held out.old) (K.held out.new) }
    ensures store { StaysStored (stored (F.files files.old) (F.faults files.old))
        (stored (F.files files.new) (F.faults files.new)) }
{
    let mut generator = Generator::new(seed);
    let mut refused = 0;
    for at in 0..LINE_COUNT {
        if console.work_line(strict, at, &mut generator, files, out)? {
            refused += 1;
        }
    }
    Ok(refused)
}

/// Answers the lines of the script, and says how that ended.
fn pump<S: Source, F: Store, K: Sink>(
    strict: bool,
    console: &mut Console,
    script: &mut S,
    files: &mut F,
    out: &mut K,
    room: &mut [u8],
) -> Status
    requires room { 0 < length room.old }
    requires session { console.old.session ≡ empty }
    requires line { console.old.line.items ≡ [] }
    ensures ends { Ends strict result
        (outside (S.left script.old)
        (stored (F.files files.old) (F.faults files.old)) (K.held out.old))
        (outside (S.left script.new)
        (stored (F.files files.new) (F.faults files.new)) (K.held out.new)) }
    ensures words { result ≢ Status.Words }
    ensures begun { IsUnbegun result → ⊥ }
    ensures read { result ≡ Status.ReadFault → Rose (S.faults script.old) (S.faults script.new) }
    ensures write { result ≡ Status.WriteFault → Rose (K.faults out.old) (K.faults out.new) }
    ensures reads { S.faults script.old ≤ S.faults script.new }
    ensures writes { K.faults out.old ≤ K.faults out.new }
    ensures left { StaysTold (S.left script.old) (S.left script.new) }
    ensures held { StaysTold (K.held out.old) (K.held out.new) }
    ensures store { StaysStored (stored (F.files files.old) (F.faults files.old))
        (stored (F.files files.new) (F.faults files.new)) }
{
    if let Err(status) = read_script(strict, console, script, files, out, room) {
        return status;
    }
    match console.finish(strict, files, out) {
        Ok(()) => Status::Done,
        Err(status) => status,
    }
}

/// Reads the script to its end, and answers the lines that an LF ends.
///
/// # Errors
/// The status of a run that ends before the script does.
fn read_script<S: Source, F: Store, K: Sink>(
    strict: bool,
    console: &mut Console,
    script: &mut S,
    files: &mut F,
    out: &mut K,
    room: &mut [u8],
) -> Result<(), Status>
    requires room { 0 < length room.old }
    requires session { console.old.session ≡ empty }
    requires line { console.old.line.items ≡ [] }
    ensures whole { OnOk result (ReadWhole strict
        (S.left script.old) (stored (F.files files.old) (F.faults files.old)) (K.held out.old)
        (S.left script.new) (stored (F.files files.new) (F.faults files.new)) (K.held out.new)
        console.new.session console.new.line.items) }
    ensures ends { IfErr result (λ status.
        Ends strict status
        (outside (S.left script.old)
        (stored (F.files files.old) (F.faults files.old)) (K.held out.old))
        (outside (S.left script.new)
        (stored (F.files files.new) (F.faults files.new)) (K.held out.new))) }
    ensures early { IfErr result IsEarly }
    ensures read { IfErr result (λ status. status ≡ Status.ReadFault
        → Rose (S.faults script.old) (S.faults script.new)) }
    ensures write { IfErr result (λ status. status ≡ Status.WriteFault
        → Rose (K.faults out.old) (K.faults out.new)) }
    ensures reads { S.faults script.old ≤ S.faults script.new }
    ensures writes { K.faults out.old ≤ K.faults out.new }
    ensures left { StaysTold (S.left script.old) (S.left script.new) }
    ensures held { StaysTold (K.held out.old) (K.held out.new) }
    ensures store { StaysStored (stored (F.files files.old) (F.faults files.old))
        (stored (F.files files.new) (F.faults files.new)) }
{
    let mut taken = 0;
    while taken < SCRIPT_LIMIT {
        let most = room.len().min(SCRIPT_LIMIT - taken);
        let Ok(count) = script.read(&mut room[..most]) else {
            return Err(Status::ReadFault);
        };
        if count == 0 {
            return Ok(());
        }
        console.feed(strict, files, out, &room[..count])?;
        taken += count;
    }
    match script.read(room) {
        Ok(0) => Ok(()),
        Ok(_) => Err(Status::TooLong),
        Err(Failed) => Err(Status::ReadFault),
    }
}

//! The words of the command line.
ghost use Rattle.std.specs.Prelude.{◌≡◌, [], IfOk, IsErrOf};
ghost use Rattle.clap.specs.Words.{Text, app_of, fault_of, first_of, first_value, found_of, matches_of};
ghost use Rattle.clap.specs.Walk.{texts};
ghost use Rattle.console_run.specs.CommandLine.{AreTaken, is_strict, leda, seed_in, seed_of};

use clap::error::ErrorKind;
use clap::{Arg, ArgAction, ArgMatches, Command};
use leda_base::natural_of;
use std::alloc::{AllocError, Global};

/// What the words ask for.
#[derive(Clone, Copy, Debug, PartialEq, Eq)]
pub(crate) struct Asked {
    /// The run ends behind the first refusal.
    pub(crate) strict: bool,
    /// The workload of this seed is run, and no script is read.
    pub(crate) seed: Option<u32>,
}

/// Why the words ask for nothing.
#[derive(Clone, Copy, Debug, PartialEq, Eq)]
pub(crate) enum WordsFault {
    /// They aren't those of a call of `leda`.
    Refused,
    /// There was no memory to read them.
    NoMemory,
}

/// What the words of the command line, of which the first is the program's name, ask for.
///
/// # Errors
/// `Refused` where they are taken by no `leda [--strict] [--workload SEED]`, `NoMemory` for want of
/// memory.
pub(crate) fn asked_of(alloc: Global, words: &[&str]) -> Result<Asked, WordsFault>
    ensures taken { IfOk result (λ _. AreTaken (texts words.now)) }
    ensures strict { IfOk result (λ asked. asked.strict ≡ is_strict (texts words.now)) }
    ensures seed { IfOk result (λ asked. asked.seed ≡ seed_of (texts words.now)) }
    ensures refused { IsErrOf result WordsFault.Refused → AreTaken (texts words.now) → ⊥ }
{
    let matches = matches_of(alloc, words)?;
    let strict = matches.get_str("strict") == Some("true");
    let Some(text) = matches.get_str("workload") else {
        return Ok(Asked { strict, seed: None });
    };
    match seed_in(text) {
        None => Err(WordsFault::Refused),
        Some(seed) => Ok(Asked {
            strict,
            seed: Some(seed),
        }),
    }
}

/// What stands among the words.
fn matches_of<'a>(alloc: Global, words: &'a [&'a str]) -> Result<ArgMatches<'a>, WordsFault>
    ensures read { IfOk result (λ _. fault_of leda (texts words.entry.now) ≡ []) }
    ensures values { IfOk result (λ matches. (id : Text)
        → first_value (found_of matches) id
        ≡ first_of id (matches_of leda (texts words.entry.now))) }
    ensures refused { IsErrOf result WordsFault.Refused
        → fault_of leda (texts words.entry.now) ≡ [] → ⊥ }
{
    let Ok(leda) = command_line(alloc) else {
        return Err(WordsFault::NoMemory);
    };
    match leda.try_get_matches_from(words) {
        Ok(matches) => Ok(matches),
        Err(error) if error.kind() == ErrorKind::OutOfMemory => Err(WordsFault::NoMemory),
        Err(_) => Err(WordsFault::Refused),
    }
}

/// The seed that a text writes: digits with a value that a `u32` can hold.
fn seed_in(text: &str) -> Option<u32>
    ensures { result ≡ seed_in text.now }
{
    u32::try_from(natural_of(text.as_bytes())?).ok()
}

/// What is asked of the words: `leda [--strict] [--workload SEED]`, without flags for help and for
/// the version.
fn command_line<'a>(alloc: Global) -> Result<Command<'a>, AllocError>
    ensures { IfOk result (λ command. app_of command ≡ leda) }
{
    let strict = Arg::new(alloc, "strict")
        .long("strict")
        .action(ArgAction::SetTrue);
    let workload = Arg::new(alloc, "workload")
        .long("workload")
        .action(ArgAction::Set);
    Command::new(alloc, "leda")
        .disable_help_flag(true)
        .disable_version_flag(true)
        .arg(strict)?
        .arg(workload)
}

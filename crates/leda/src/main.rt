//! The console `leda`: a script on standard input, its replies on standard output, files beside it.
#![tactic(auto)]

use console_run::{Status, run};
use leda_edge::{FileStore, StdSink, StdSource};
use std::env;
use std::process::ExitCode;

/// The exit status where the words of the command line can't be had.
const NO_WORDS: u8 = 8;

fn main(rt: HostRuntime) -> ExitCode {
    match answer(&rt) {
        Some(status) => ExitCode::from(status as u8),
        None => ExitCode::from(NO_WORDS),
    }
}

// How the run on the real streams and files ended, or `None` where there is no word.
fn answer(rt: &HostRuntime) -> Option<Status> {
    let args = env::args(rt).ok()?;
    let Ok(texts) = args.collect::<Vec<String>>(rt.alloc()) else {
        return Some(Status::NoMemory);
    };
    let Ok(words) = texts
        .iter()
        .map(|text| text.as_str())
        .collect::<Vec<&str>>(rt.alloc())
    else {
        return Some(Status::NoMemory);
    };
    if words.is_empty() {
        return None;
    }
    let mut script = StdSource::new(rt.stdin());
    let mut files = FileStore::new(rt);
    let mut out = StdSink::new(rt.stdout());
    Some(run(
        rt.alloc(),
        words.as_slice(),
        &mut script,
        &mut files,
        &mut out,
    ))
}

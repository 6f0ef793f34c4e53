//! What the run of a workload writes, beside the run of its lines as a script.
ghost use Rattle.std.specs.Prelude.{◌<◌, length};

use crate::tests::run_by;
use crate::workload::{Generator, LINE_COUNT};
use crate::{Status, run};
use leda_edge::{FileStore, MemSink, SureSource};
use std::test::Fail;

/// The lines of the workload of a seed as a script, and the places of its queries.
fn script_of(rt: &HostRuntime, seed: u32) -> Result<(Vec<u8>, Vec<usize>), Fail> {
    let mut generator = Generator::new(seed);
    let mut script = Vec::new(rt.alloc());
    let mut queries = Vec::new(rt.alloc());
    for at in 0..LINE_COUNT {
        let mut line = Vec::with_capacity(rt.alloc(), 64)?;
        if generator.put_line(at, &mut line) {
            queries.push(at as usize)?;
        }
        script.extend_from_slice(line.as_slice())?;
        script.push(b'\n')?;
    }
    Ok((script, queries))
}

/// Runs a script by these words into a sink that fails at one write, and gives the status and the
/// bytes written.
fn run_into(
    rt: &HostRuntime,
    words: &[&str],
    script: &[u8],
    failing: u64,
) -> Result<(Status, MemSink), Fail>
    requires { 0 < length words.now }
{
    let mut source = SureSource::new(Vec::from_slice(rt.alloc(), script)?);
    let fails = Vec::from_slice(rt.alloc(), &[failing])?;
    let mut sink = MemSink::new(rt.alloc(), 1_000_000, fails)?;
    let mut files = FileStore::new(rt);
    let ended = run(rt.alloc(), words, &mut source, &mut files, &mut sink);
    Ok((ended, sink))
}

/// What is to be written of a workload whose lines have these replies: the first lines of those to
/// queries, the last one too where it ends a strict run, and else the summary.
fn output_of(
    rt: &HostRuntime,
    replies: &[u8],
    queries: &[usize],
    strict: bool,
) -> Result<Vec<u8>, Fail> {
    let mut output = Vec::new(rt.alloc());
    let mut lines = 0usize;
    let mut refused = 0u32;
    for line in replies.split(|byte| *byte == b'\n') {
        if line.first() != Some(&b'=') && line.first() != Some(&b'!') {
            continue;
        }
        let is_refusal = line.first() == Some(&b'!');
        if queries.contains(&lines) || (strict && is_refusal) {
            output.extend_from_slice(line)?;
            output.push(b'\n')?;
        }
        lines = lines.saturating_add(1);
        if is_refusal {
            refused = refused.saturating_add(1);
        }
    }
    if !strict || refused == 0 {
        let summary = format!(in rt.alloc(); "= workload {lines} {refused}\n")?;
        output.extend_from_slice(summary.as_bytes())?;
    }
    Ok(output)
}

#[test]
fn the_lines_are_drawn_in_their_order(rt: HostRuntime) -> Result<(), Fail> {
    let (script, queries) = script_of(&rt, 1)?;
    let lines: Vec<&[u8]> = script.split(|byte| *byte == b'\n').collect(rt.alloc())?;
    assert_eq!(rt; lines.len(), 2_011);
    let rows = [
        (0, "node"),
        (399, "node"),
        (400, "edge n375 n154 |{196}|"),
        (401, "edge n71 n235 |{795}|"),
        (1_999, "edge n89 n294 |{901}|"),
        (2_000, "edge_array c labels"),
        (2_001, "edge_map one 1"),
        (2_002, "hide_node n264"),
        (2_003, "reach n1 n2"),
        (2_004, "sp n1 c"),
        (2_005, "dijkstra n1 c"),
        (2_006, "maxflow n1 n2 c"),
        (2_007, "matching"),
        (2_008, "restore_all"),
        (2_009, "matching"),
        (2_010, ""),
    ];
    for (at, line) in rows {
        assert_eq!(rt; lines[at], line.as_bytes(), "at {at}");
    }
    assert_eq!(rt;
        queries.as_slice(),
        [2_003, 2_004, 2_005, 2_006, 2_007, 2_009].as_slice()
    );
    Ok(())
}

#[test]
fn the_lines_are_run_as_those_of_a_script(rt: HostRuntime) -> Result<(), Fail> {
    let (script, queries) = script_of(&rt, 1)?;
    let (ended, replies) = run_into(&rt, &["leda"], script.as_slice(), 0)?;
    assert_eq!(rt; ended, Status::Done);
    let output = output_of(&rt, replies.bytes(), queries.as_slice(), false)?;
    for _ in 0..2 {
        let (ended, sink) = run_into(&rt, &["leda", "--workload", "1"], b"node x\n", 0)?;
        assert_eq!(rt; ended, Status::Done);
        assert_eq!(rt; sink.bytes(), output.as_slice());
    }
    let (ended, sink) = run_into(&rt, &["leda", "--workload=2"], b"", 0)?;
    assert_eq!(rt; ended, Status::Done);
    assert!(rt; sink.bytes() != output.as_slice());
    Ok(())
}

#[test]
fn a_strict_workload_ends_as_its_script_does(rt: HostRuntime) -> Result<(), Fail> {
    let (script, queries) = script_of(&rt, 7)?;
    let (ended, replies) = run_into(&rt, &["leda", "--strict"], script.as_slice(), 0)?;
    let output = output_of(&rt, replies.bytes(), queries.as_slice(), true)?;
    let words = ["leda", "--workload", "7", "--strict"];
    let (status, sink) = run_into(&rt, &words, b"", 0)?;
    assert_eq!(rt; status, ended);
    assert_eq!(rt; sink.bytes(), output.as_slice());
    Ok(())
}

#[test]
fn a_workload_ends_at_each_failing_write(rt: HostRuntime) -> Result<(), Fail> {
    let words = ["leda", "--workload", "4294967295"];
    let (_, whole) = run_into(&rt, &words, b"", 0)?;
    let mut front = Vec::new(rt.alloc());
    for (line, call) in whole
        .bytes()
        .split_inclusive(|byte| *byte == b'\n')
        .zip(1..)
    {
        let (ended, sink) = run_into(&rt, &words, b"", call)?;
        assert_eq!(rt; ended, Status::WriteFault, "at call {call}");
        assert_eq!(rt; sink.bytes(), front.as_slice(), "at call {call}");
        front.extend_from_slice(line)?;
    }
    assert_eq!(rt; front.as_slice(), whole.bytes());
    Ok(())
}

#[test]
fn a_seed_is_a_number_of_32_bits(rt: HostRuntime) -> Result<(), Fail> {
    for seed in ["x", "", "-1", "1.0", "4294967296", "18446744073709551616"] {
        let (ended, sink) = run_by(&rt, &["leda", "--workload", seed], "node\n")?;
        assert_eq!(rt; ended, Status::Words, "by {seed:?}");
        assert_eq!(rt; sink.bytes(), b"".as_slice());
    }
    let (ended, _) = run_by(&rt, &["leda", "--workload"], "node\n")?;
    assert_eq!(rt; ended, Status::Words);
    let words = ["leda", "--workload", "1", "--workload", "1"];
    let (ended, _) = run_by(&rt, &words, "node\n")?;
    assert_eq!(rt; ended, Status::Words);
    Ok(())
}

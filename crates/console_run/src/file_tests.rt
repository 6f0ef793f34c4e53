//! What runs do with files, over a store in memory.

use crate::{Status, run};
use leda_edge::{MemSink, MemStore, SureSource};
use std::alloc::Global;
use std::test::Fail;

/// A file with ends of lines by CR LF, a comment, and no line that says that it is directed.
const BY_HAND: &str =
    "# made by hand\r\nLEDA.GRAPH\r\ndouble\r\nvoid\r\n2\r\n|{a}|b}|\r\n|{2.5}|\r\n\
     1\r\n2 1 0 |{}|\r\n";

/// The same graph, as it is written.
const WRITTEN: &str = "LEDA.GRAPH\ndouble\nvoid\n-1\n2\n|{a}|b}|\n|{2.5}|\n1\n2 1 0 |{}|\n";

/// A store of files, of which the calls with these numbers fail.
fn store_of(alloc: Global, files: &[(&str, &str)], fails: &[u64]) -> Result<MemStore, Fail> {
    let mut held = Vec::new(alloc);
    for (name, text) in files {
        let name = String::from_str(alloc, name)?;
        held.push((name, Vec::from_slice(alloc, text.as_bytes())?))?;
    }
    Ok(MemStore::new(held, Vec::from_slice(alloc, fails)?))
}

/// Runs a script over a store.
fn run_over(alloc: Global, script: &str, files: &mut MemStore) -> Result<(Status, MemSink), Fail> {
    let mut source = SureSource::new(Vec::from_slice(alloc, script.as_bytes())?);
    let mut sink = MemSink::new(alloc, 4096, Vec::new(alloc))?;
    let ended = run(alloc, &["leda"], &mut source, files, &mut sink);
    Ok((ended, sink))
}

/// Whether the store has the file, and it holds this text.
fn has_file(files: &MemStore, name: &str, text: &str) -> bool {
    match files.file(name) {
        Some(bytes) => bytes == text.as_bytes(),
        None => false,
    }
}

#[test]
fn a_graph_is_loaded_and_saved(rt: HostRuntime) -> Result<(), Fail> {
    let mut files = store_of(rt.alloc(), &[("g", BY_HAND)], &[])?;
    let script = "load g\nget_label n1\nsave h\nload h\nget_label n1\nget_label n3\nsave k\n";
    let (ended, sink) = run_over(rt.alloc(), script, &mut files)?;
    assert_eq!(rt; ended, Status::Done);
    assert_eq!(rt;
        sink.bytes(),
        b"= 2 1\n= |{a}|b}|\n= 2 1\n= 2 1\n! dead n1\n= |{a}|b}|\n= 2 1\n".as_slice()
    );
    for (name, text) in [("h", WRITTEN), ("k", WRITTEN), ("g", BY_HAND)] {
        assert!(rt; has_file(&files, name, text), "the file {name}");
    }
    Ok(())
}

#[test]
fn an_array_covers_nothing_of_a_graph_that_is_loaded_later(rt: HostRuntime) -> Result<(), Fail> {
    let mut files = store_of(rt.alloc(), &[("g", BY_HAND)], &[])?;
    let script = "node\nnode_array a 5\nnode_map m 6\nload g\nget a n1\nget a n2\nset a n3 4\n\
                  get m n3\nnode_array b labels\nedge_array c labels\nnode_array b 7\nget b n3\n";
    let (ended, sink) = run_over(rt.alloc(), script, &mut files)?;
    assert_eq!(rt; ended, Status::Done);
    assert_eq!(rt;
        sink.bytes(),
        b"= n1\n=\n=\n= 2 1\n! dead n1\n! covered n2\n! covered n3\n= 6\n! label n2\n! label e1\n\
          =\n= 7\n"
            .as_slice()
    );
    Ok(())
}

#[test]
fn a_failed_call_of_the_store_changes_nothing(rt: HostRuntime) -> Result<(), Fail> {
    let mut files = store_of(rt.alloc(), &[], &[1])?;
    let (ended, sink) = run_over(rt.alloc(), "node\nsave f\nsave f\n", &mut files)?;
    assert_eq!(rt; ended, Status::Done);
    assert_eq!(rt; sink.bytes(), b"= n1\n! store\n= 1 0\n".as_slice());

    let one_sided = "LEDA.GRAPH\nvoid\nvoid\n-1\n2\n|{}|\n|{}|\n2\n1 2 2 |{}|\n2 1 0 |{}|\n";
    let cut_off = "LEDA.GRAPH\nvoid\nvoid\n-1\n2\n|{}|\n|{}|\n2\n1 2 0 |{}|\n";
    let held = [
        ("t", cut_off),
        ("r", one_sided),
        ("x", "hello\n"),
        ("y", ""),
    ];
    let refusals = [
        "! file truncated 10\n",
        "! file reversal 9\n",
        "! file header 1\n",
        "! file truncated 1\n",
        "! absent\n",
    ];
    // Without a failing call, and then with one at each load.
    for failing in 0..6 {
        let mut files = store_of(rt.alloc(), &held, &[failing])?;
        let script = "node\nload t\nload r\nload x\nload y\nload q\ncount\n";
        let (ended, sink) = run_over(rt.alloc(), script, &mut files)?;
        assert_eq!(rt; ended, Status::Done);
        let mut replies = Vec::from_slice(rt.alloc(), b"= n1\n")?;
        for (call, refusal) in (1..).zip(refusals) {
            let reply = if call == failing {
                "! store\n"
            } else {
                refusal
            };
            replies.extend_from_slice(reply.as_bytes())?;
        }
        replies.extend_from_slice(b"= 1 0\n")?;
        assert_eq!(rt;
            sink.bytes(),
            replies.as_slice(),
            "where call {failing} fails"
        );
    }
    Ok(())
}

#[test]
fn a_text_of_no_graph_is_refused_by_its_first_fault(rt: HostRuntime) -> Result<(), Fail> {
    let rows = [
        ("-3\n", "! file kind 4\n"),
        ("-1\nx\n", "! file count 5\n"),
        ("100001\n", "! file limit 4\n"),
        ("-1\n1\n|{a}|\n", "! file label 6\n"),
        ("-1\n1\n|{}|\n1\n1 2 0 |{}|\n", "! file ends 8\n"),
        ("-1\n1\n|{}|\n1\n1 1 1 |{}|\n", "! file reversal 8\n"),
        ("-1\n0\n0\nx\n", "! file trailing 7\n"),
    ];
    for (rest, refusal) in rows {
        let mut text = String::from_str(rt.alloc(), "LEDA.GRAPH\nvoid\nvoid\n")?;
        text.push_str(rest)?;
        let mut files = store_of(rt.alloc(), &[("f", text.as_str())], &[])?;
        let (_, sink) = run_over(rt.alloc(), "node\nload f\ncount\n", &mut files)?;
        let mut replies = Vec::from_slice(rt.alloc(), b"= n1\n")?;
        replies.extend_from_slice(refusal.as_bytes())?;
        replies.extend_from_slice(b"= 1 0\n")?;
        assert_eq!(rt; sink.bytes(), replies.as_slice(), "of {rest:?}");
    }
    Ok(())
}

#[test]
fn a_text_that_is_cut_off_is_refused(rt: HostRuntime) -> Result<(), Fail> {
    // Without the last bytes, which end its last line, each is whole.
    for (text, end) in [(WRITTEN, 1), (BY_HAND, 2)] {
        for count in 0..text.len().saturating_sub(end) {
            let front = text.get(..count).ok_or("a front")?;
            let mut files = store_of(rt.alloc(), &[("f", front)], &[])?;
            let (ended, sink) = run_over(rt.alloc(), "node\nload f\ncount\n", &mut files)?;
            assert_eq!(rt; ended, Status::Done);
            assert!(rt;
                sink.bytes().starts_with(b"= n1\n! file "),
                "of {count} bytes"
            );
            assert!(rt; sink.bytes().ends_with(b"\n= 1 0\n"), "of {count} bytes");
        }
    }
    Ok(())
}

#[test]
fn a_text_has_lines_and_numbers_of_any_length_within_its_limits(
    rt: HostRuntime,
) -> Result<(), Fail> {
    // A front, bytes that are repeated, how often, and what stands behind them.
    let rows = [
        (
            "#",
            "x",
            65_535,
            "\nLEDA.GRAPH\nvoid\nvoid\n0\n0\n",
            "= 0 0\n",
        ),
        (
            "#",
            "x",
            65_536,
            "\nLEDA.GRAPH\nvoid\nvoid\n0\n0\n",
            "! file limit 1\n",
        ),
        (
            "LEDA.GRAPH\nvoid\nvoid\n0\n0\n#",
            "x",
            65_536,
            "",
            "! file limit 6\n",
        ),
        (
            "LEDA.GRAPH\nany\nvoid\n1\n|{",
            "x",
            60_000,
            "}|\n0\n",
            "= 1 0\n",
        ),
        (
            "LEDA.GRAPH\nany\nvoid\n1\n|{",
            "x",
            60_001,
            "}|\n0\n",
            "! file limit 5\n",
        ),
        ("LEDA.GRAPH\n", "x", 255, "\nvoid\n0\n0\n", "= 0 0\n"),
        (
            "LEDA.GRAPH\n",
            "x",
            256,
            "\nvoid\n0\n0\n",
            "! file limit 2\n",
        ),
        ("LEDA.GRAPH\nvoid\nvoid\n", "0", 1000, "\n0\n", "= 0 0\n"),
        (
            "LEDA.GRAPH\nvoid\nvoid\n",
            "9",
            1000,
            "\n0\n",
            "! file limit 4\n",
        ),
        (
            "LEDA.GRAPH\nvoid\nvoid\n1\n|{}|\n1\n",
            "0",
            1000,
            "1 1 0 |{}|",
            "= 1 1\n",
        ),
        (
            "LEDA.GRAPH\nvoid\nvoid\n1\n|{}|\n1\n",
            "9",
            1000,
            " 1 0 |{}|",
            "! file ends 7\n",
        ),
        ("LEDA.GRAPH\nany\nvoid\n1\n|{", "\0", 3, "}|\n0", "= 1 0\n"),
        (
            "LEDA.GRAPH",
            "\0",
            1,
            "\nvoid\nvoid\n0\n0\n",
            "! file header 1\n",
        ),
        (
            "LEDA.GRAPH\nvoid\nvoid\n0\n",
            "\0",
            1,
            "0\n",
            "! file count 5\n",
        ),
    ];
    for (front, unit, count, rest, reply) in rows {
        let mut text = String::from_str(rt.alloc(), front)?;
        text.push_str(unit.repeat(rt.alloc(), count)?.as_str())?;
        text.push_str(rest)?;
        let mut files = store_of(rt.alloc(), &[("f", text.as_str())], &[])?;
        let (_, sink) = run_over(rt.alloc(), "load f\n", &mut files)?;
        assert_eq!(rt; sink.bytes(), reply.as_bytes(), "of {count} times {unit:?}");
    }
    Ok(())
}

#[test]
fn a_failed_save_leaves_other_files(rt: HostRuntime) -> Result<(), Fail> {
    let held = [("f", BY_HAND), ("g", BY_HAND), ("h", WRITTEN)];
    let mut files = store_of(rt.alloc(), &held, &[2])?;
    let script = "load g\nsave f\ncount\nload g\n";
    let (ended, sink) = run_over(rt.alloc(), script, &mut files)?;
    assert_eq!(rt; ended, Status::Done);
    assert_eq!(rt; sink.bytes(), b"= 2 1\n! store\n= 2 1\n= 2 1\n".as_slice());
    for (name, text) in [("g", BY_HAND), ("h", WRITTEN)] {
        assert!(rt; has_file(&files, name, text), "the file {name}");
    }
    Ok(())
}

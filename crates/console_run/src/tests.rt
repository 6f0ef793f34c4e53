//! What a run writes and answers, on small scripts and at its limits.
ghost use Rattle.std.specs.Prelude.{◌<◌, None, length};

use crate::{Status, run};
use leda_edge::{Failed, FileStore, MemSink, MemSource, Source, SureSink, SureSource};
use std::process::Abort;
use std::test::Fail;

/// Runs a script whose reads give at most `piece` bytes.
pub(crate) fn run_of(
    rt: &HostRuntime,
    script: &str,
    piece: usize,
) -> Result<(Status, MemSink), Fail>
    requires { 0 < piece }
{
    let bytes = Vec::from_slice(rt.alloc(), script.as_bytes())?;
    let mut source = MemSource::new(bytes, piece, Vec::new(rt.alloc()));
    let mut sink = MemSink::new(rt.alloc(), 4096, Vec::new(rt.alloc()))?;
    let mut files = FileStore::new(rt);
    let ended = run(rt.alloc(), &["leda"], &mut source, &mut files, &mut sink);
    Ok((ended, sink))
}

/// Fails where a script isn't answered with the replies that stand beside it.
pub(crate) fn answers(
    rt: &HostRuntime,
    stop: &impl Abort,
    rows: &[(&str, &str)],
) -> Result<(), Fail> {
    for (script, replies) in rows {
        let (ended, sink) = run_of(rt, script, 4096)?;
        assert_eq!(stop; ended, Status::Done, "after {script:?}");
        assert_eq!(stop; sink.bytes(), replies.as_bytes(), "after {script:?}");
    }
    Ok(())
}

#[test]
fn answers_each_command(rt: HostRuntime) -> Result<(), Fail> {
    let rows = [
        ("", ""),
        (
            "node\nnode\nedge n1 n2\nedge n1 n3",
            "= n1\n= n2\n= e1\n! unknown n3\n",
        ),
        (
            "node\nedge n1 n1\nedge n2 n3\nedge n1 n3\nedge n1 n1\n",
            "= n1\n= e1\n! unknown n2\n! unknown n3\n= e2\n",
        ),
        (
            "load nowhere\nload\ncount\n",
            "! absent\n! syntax 5\n= 0 0\n",
        ),
        ("\n # a comment\n\t\r\nnode\r\n", "= n1\n"),
        (
            "node n1\nvertex\nedge\nedge n0 n1\nedge n1 \n",
            "! syntax 6\n! syntax 1\n! syntax 5\n! syntax 6\n! syntax 8\n",
        ),
        ("node\u{0}\n\u{e9}\nnode", "! syntax 1\n! syntax 1\n= n1\n"),
        (
            "node\nnode\nnode\nedge n1 n2\nreach n1 n2\nreach n1 n3\nreach n1 n1\n",
            "= n1\n= n2\n= n3\n= e1\n= walk e1\n= closed n1 n2\n= walk\n",
        ),
        (
            "node\nreach n1 n2\nreach n3 n2\nreach n1 e1\nreach n1\nreach n1 n1 n1\n",
            "= n1\n! unknown n2\n! unknown n3\n! syntax 10\n! syntax 9\n! syntax 13\n",
        ),
        (
            "node |{a b}|\nnode\nedge n1 n2 |{7}|\nget_label n1\nget_label n2\nget_label e1\n",
            "= n1\n= n2\n= e1\n= |{a b}|\n= |{}|\n= |{7}|\n",
        ),
        (
            "node\nnode\nedge n1 n2\nedge n1 n1\nedge n2 n1\ncount\nnodes\nedges\nout n1\nin n1\n",
            "= n1\n= n2\n= e1\n= e2\n= e3\n= 2 3\n= n1 n2\n= e1 e2 e3\n= e1 e2\n= e2 e3\n",
        ),
        (
            "node\nnode\nedge n1 n2\nedge n1 n1\nedge n1 n2\nfirst_adj n1\nlast_adj n1\nfirst_adj n2\n\
             adj_succ e1\nadj_succ e3\nadj_pred e2\nadj_pred e1\n",
            "= n1\n= n2\n= e1\n= e2\n= e3\n= e1\n= e3\n= nil\n= e2\n= nil\n= e1\n= nil\n",
        ),
        (
            "node\nnode\nedge n1 n2\nedge n1 n1\ncyclic_adj_succ e1\ncyclic_adj_succ e2\n\
             cyclic_adj_pred e1\ncyclic_adj_pred e2\nsource e1\ntarget e1\n",
            "= n1\n= n2\n= e1\n= e2\n= e2\n= e1\n= e2\n= e1\n= n1\n= n2\n",
        ),
        (
            "node\nnode\nedge n1 n2\nedge n1 n2\nedge_before e2 n1 |{x}|\nedge_behind e2 n2\nout n1\n\
             edges\nget_label e3\nlabel e3 |{y z}|\nget_label e3\nlabel n1 |{w}|\nget_label n1\n",
            "= n1\n= n2\n= e1\n= e2\n= e3\n= e4\n= e1 e3 e2 e4\n= e1 e2 e3 e4\n= |{x}|\n=\n\
             = |{y z}|\n=\n= |{w}|\n",
        ),
        (
            "node\nnode\nedge n1 n2\nedge n1 n2\nedge n1 n2\nhide_edge e2\ndel_edge e1\ndel_edge e2\n\
             edge n1 n2\nrestore_edge e2\nout n1\ndel_edge e1\nrev_all\nout n2\nout n1\nsource e2\n",
            "= n1\n= n2\n= e1\n= e2\n= e3\n=\n=\n! hidden e2\n= e4\n=\n= e2 e3 e4\n! dead e1\n=\n\
             = e2 e3 e4\n=\n= n2\n",
        ),
        (
            "node\nnode\nmake_undirected\nedge n1 n2\nedge n1 n1\nout n1\nreach n1 n2\nin n1\n\
             make_directed\nout n1\nin n1\n",
            "= n1\n= n2\n=\n= e1\n= e2\n= e1 e2 e2\n! undirected\n! undirected\n=\n= e1 e2\n= e2\n",
        ),
        (
            "node\nnode\nedge n1 n1\nedge n1 n2\nedge n1 n2\nhide_edge e1\nhide_node n2\nout n1\n\
             restore_edge e1\nout n1\nrestore_all\nout n1\n",
            "= n1\n= n2\n= e1\n= e2\n= e3\n=\n=\n=\n=\n= e1\n=\n= e1 e2 e3\n",
        ),
        (
            "node\nnode\nedge n1 n2\nedge n2 n1\nset_reversal e1 e2\nface_succ e1\nedge n1 n2\n\
             face_succ e3\nset_reversal e1 e3\nrev_edge e1\nreversal e2\nout n2\nmake_map\n\
             make_undirected\nface_succ e2\n",
            "= n1\n= n2\n= e1\n= e2\n=\n= e2\n= e3\n! reversal e3\n! opposite\n=\n= nil\n= e2 e1\n\
             = 1\n=\n! undirected\n",
        ),
        (
            "node\ndel_node n1\nnode\nout n1\n",
            "= n1\n=\n= n2\n! dead n1\n",
        ),
        (
            "node\nnode\nedge n1 n2\nedge n1 n2\nhide_edge e1\nhide_node n2\nout n1\ndel_edge e2\n\
             restore_node n2\nout n1\nrestore_edge e1\nout n1\nrestore_edge e1\n",
            "= n1\n= n2\n= e1\n= e2\n=\n=\n=\n! hidden e2\n=\n= e2\n=\n= e1 e2\n! not_hidden e1\n",
        ),
        (
            "node\nnode\nnode\nedge n1 n2\nedge n1 n3\nedge n2 n1\nrev_edge e1\nout n2\nin n1\n\
             move_edge e3 n3 n2\nout n2\nout n3\nhide_edge e2\ndel_node n3\nedges\nrestore_edge e2\n\
             hide_node n1\nedges\nhide_node n1\nnodes\nrestore_all\nnodes\nedges\nclear\ncount\nnode\n",
            "= n1\n= n2\n= n3\n= e1\n= e2\n= e3\n=\n= e3 e1\n= e3 e1\n=\n= e1\n= e3\n=\n=\n= e1\n\
             ! dead e2\n=\n=\n! hidden n1\n= n2\n=\n= n1 n2\n= e1\n=\n= 0 0\n= n4\n",
        ),
        (
            "node\nnode\nedge n1 n2\nedge n2 n1\nedge n1 n2\nset_reversal e1 e2\nset_reversal e1 e3\n\
             set_reversal e1 e1\nreversal e2\nreversal e3\nset_reversal e2 e3\nreversal e1\n",
            "= n1\n= n2\n= e1\n= e2\n= e3\n=\n! opposite\n! opposite\n= e1\n= nil\n=\n= nil\n",
        ),
        (
            "node\nnode\nedge n1 n2\nedge n1 n2\nhide_edge e1\nhide_edge e1\nout n1\nreach n1 n2\n\
             source e1\ncount\nrestore_edge e1\nrestore_edge e1\nout n1\nreach n1 n2\nhide_edge e3\n",
            "= n1\n= n2\n= e1\n= e2\n=\n! hidden e1\n= e2\n= walk e2\n! hidden e1\n= 2 1\n=\n\
             ! not_hidden e1\n= e1 e2\n= walk e1\n! unknown e3\n",
        ),
        (
            "list l\nappend l 4\npush l 3\ninsert_behind i1 9\ninsert_before i1 -9223372036854775808\n\
             del_item i1\ndel_item i1\ninsert_behind i1 2\ninsert_before i9 2\nclear\ndel_item i2\n",
            "=\n= i1\n= i2\n= i3\n= i4\n=\n! dead i1\n! dead i1\n! unknown i9\n=\n=\n",
        ),
        (
            "dict d\nqueue q\nlist d\nlist list\nlist i5\npush d 4\npush x 4\nappend q 1\n\
             push list 9223372036854775808\npush\npush list 1\n",
            "=\n=\n! taken d\n=\n! syntax 6\n! object d\n! object x\n! object q\n! number 11\n\
             ! syntax 5\n= i1\n",
        ),
        (
            "list l\nappend l 4\npush l 3\ninsert_behind i1 9\nsize l\ndel_item i1\ncyclic_succ i3\n\
             cyclic_pred i3\ncontents i1\nassign i3 -7\ncontents i3\nmove_to_front i3\nreverse_items l\n\
             cyclic_succ i2\nkey i2\nprio i3\nchange_inf i3 1\ndrop l\nsize l\ncontents i2\n\
             queue l\nsize l\ncontents i4\n",
            "=\n= i1\n= i2\n= i3\n= 3\n=\n= i2\n= i2\n! dead i1\n=\n= -7\n=\n=\n= i3\n\
             ! object i2\n! object i3\n! object i3\n=\n! object l\n! dead i2\n=\n= 0\n! unknown i4\n",
        ),
    ];
    for (script, replies) in rows {
        for piece in [1, 5, 100_000] {
            let (ended, sink) = run_of(&rt, script, piece)?;
            assert_eq!(rt; ended, Status::Done, "after {script:?}");
            assert_eq!(rt; sink.bytes(), replies.as_bytes(), "after {script:?}");
        }
    }
    Ok(())
}

/// Runs a script by these words, and gives the status and the bytes written.
pub(crate) fn run_by(
    rt: &HostRuntime,
    words: &[&str],
    script: &str,
) -> Result<(Status, MemSink), Fail>
    requires { 0 < length words.now }
{
    let mut source = SureSource::new(Vec::from_slice(rt.alloc(), script.as_bytes())?);
    let mut sink = MemSink::new(rt.alloc(), 64, Vec::new(rt.alloc()))?;
    let mut files = FileStore::new(rt);
    let ended = run(rt.alloc(), words, &mut source, &mut files, &mut sink);
    Ok((ended, sink))
}

#[test]
fn refuses_other_words(rt: HostRuntime) -> Result<(), Fail> {
    for word in [
        "--fast",
        "--help",
        "-h",
        "--version",
        "-V",
        "--strict=yes",
        "--stric",
        "strict",
        "-",
        "",
    ] {
        let (ended, sink) = run_by(&rt, &["leda", word], "node\n")?;
        assert_eq!(rt; ended, Status::Words, "by {word:?}");
        assert_eq!(rt; sink.bytes(), b"".as_slice());
    }
    for words in [["leda", "--strict", "--strict"], ["leda", "--", "--strict"]] {
        let (ended, _) = run_by(&rt, &words, "node\n")?;
        assert_eq!(rt; ended, Status::Words, "by {words:?}");
    }
    let (ended, sink) = run_by(&rt, &["leda", "--"], "node x\nnode\n")?;
    assert_eq!(rt; ended, Status::Done);
    assert_eq!(rt; sink.bytes(), b"! syntax 6\n= n1\n".as_slice());
    Ok(())
}

#[test]
fn a_strict_run_ends_at_the_first_refusal(rt: HostRuntime) -> Result<(), Fail> {
    let rows = [
        (
            "node\nnode x\nnode\n",
            "= n1\n! syntax 6\n",
            Status::Refused,
        ),
        ("node\nout n2", "= n1\n! unknown n2\n", Status::Refused),
        ("load nowhere\nnode\n", "! absent\n", Status::Refused),
        ("# a comment\n\nnode\n", "= n1\n", Status::Done),
    ];
    for (script, replies, status) in rows {
        let (ended, sink) = run_by(&rt, &["leda", "--strict"], script)?;
        assert_eq!(rt; ended, status, "after {script:?}");
        assert_eq!(rt; sink.bytes(), replies.as_bytes(), "after {script:?}");
    }
    let (ended, sink) = run_by(&rt, &["leda"], "node x\nnode\n")?;
    assert_eq!(rt; ended, Status::Done);
    assert_eq!(rt; sink.bytes(), b"! syntax 6\n= n1\n".as_slice());
    Ok(())
}

#[test]
fn a_sure_outside_has_no_fault(rt: HostRuntime) -> Result<(), Fail> {
    let mut source = SureSource::new(Vec::from_slice(rt.alloc(), b"node\nedge n1 n1")?);
    let mut sink = SureSink::new();
    let mut files = FileStore::new(&rt);
    let ended = run(rt.alloc(), &["leda"], &mut source, &mut files, &mut sink);
    assert_eq!(rt; ended, Status::Done);
    Ok(())
}

/// Ends a script of five commands at the first call that is to fail, and gives the status and the
/// bytes written.
fn faulty_run(rt: &HostRuntime, read: u64, write: u64) -> Result<(Status, MemSink), Fail> {
    let script = Vec::from_slice(rt.alloc(), b"node\nnode\nedge n1 n2\nedge n1 n3\nnode")?;
    let mut source = MemSource::new(script, 5, Vec::from_slice(rt.alloc(), &[read])?);
    let mut sink = MemSink::new(rt.alloc(), 64, Vec::from_slice(rt.alloc(), &[write])?)?;
    let mut files = FileStore::new(rt);
    let ended = run(rt.alloc(), &["leda"], &mut source, &mut files, &mut sink);
    Ok((ended, sink))
}

#[test]
fn stops_at_each_failing_read(rt: HostRuntime) -> Result<(), Fail> {
    // What is answered by the lines that ended within so many pieces of five bytes.
    let rows = [
        (1, ""),
        (2, "= n1\n"),
        (3, "= n1\n= n2\n"),
        (4, "= n1\n= n2\n"),
        (5, "= n1\n= n2\n"),
        (6, "= n1\n= n2\n= e1\n"),
        (7, "= n1\n= n2\n= e1\n"),
        (8, "= n1\n= n2\n= e1\n! unknown n3\n"),
        (9, "= n1\n= n2\n= e1\n! unknown n3\n"),
    ];
    for (call, replies) in rows {
        let (status, sink) = faulty_run(&rt, call, 0)?;
        assert_eq!(rt; status, Status::ReadFault, "at call {call}");
        assert_eq!(rt; sink.bytes(), replies.as_bytes(), "at call {call}");
    }
    let (status, _) = faulty_run(&rt, 10, 0)?;
    assert_eq!(rt; status, Status::Done);
    Ok(())
}

#[test]
fn stops_at_each_failing_write(rt: HostRuntime) -> Result<(), Fail> {
    let rows = [
        (1, ""),
        (2, "= n1\n"),
        (3, "= n1\n= n2\n"),
        (4, "= n1\n= n2\n= e1\n"),
        (5, "= n1\n= n2\n= e1\n! unknown n3\n"),
    ];
    for (call, replies) in rows {
        let (status, sink) = faulty_run(&rt, 0, call)?;
        assert_eq!(rt; status, Status::WriteFault, "at call {call}");
        assert_eq!(rt; sink.bytes(), replies.as_bytes(), "at call {call}");
    }
    Ok(())
}

/// A source that gives the same piece over and over, and then a last one.
#[derive(Drop)]
struct Repeated<'a> {
    piece: &'a [u8],
    times: u64,
    last: &'a [u8],
}

impl<'a> Source for Repeated<'a> {
    ghost left = { λ _. None };

    ghost faults = { λ _. 0 };

    fn read(&mut self, buf: &mut [u8]) -> Result<usize, Failed> {
        let piece = if self.times > 0 {
            self.piece
        } else {
            self.last
        };
        if self.times > 0 {
            self.times -= 1;
        } else {
            self.last = b"";
        }
        let count = piece.len().min(buf.len());
        buf[..count].copy_from_slice(&piece[..count]);
        Ok(count)
    }
}

#[test]
fn a_full_graph_takes_no_more(rt: HostRuntime) -> Result<(), Fail> {
    let mut sink = MemSink::new(rt.alloc(), 8_000_000, Vec::new(rt.alloc()))?;
    let mut files = FileStore::new(&rt);
    let mut nodes = Repeated {
        piece: b"node\n",
        times: 100_000,
        last: b"node\nedge n1 n100001\nedge n100000 n1",
    };
    let ended = run(rt.alloc(), &["leda"], &mut nodes, &mut files, &mut sink);
    assert_eq!(rt; ended, Status::Done);
    assert!(rt;
        sink.bytes()
            .ends_with(b"= n100000\n! full nodes\n! unknown n100001\n= e1\n")
    );

    let mut sink = MemSink::new(rt.alloc(), 8_000_000, Vec::new(rt.alloc()))?;
    let mut edges = Repeated {
        piece: b"node\nedge n1 n1\nedge n1 n1\nedge n1 n1\nedge n1 n1\n",
        times: 100_000,
        last: b"edge n1 n1\nedge n1 n100001",
    };
    let ended = run(rt.alloc(), &["leda"], &mut edges, &mut files, &mut sink);
    assert_eq!(rt; ended, Status::Done);
    assert!(rt;
        sink.bytes()
            .ends_with(b"= e400000\n! full edges\n! unknown n100001\n")
    );
    Ok(())
}

#[test]
fn a_script_is_at_most_so_long(rt: HostRuntime) -> Result<(), Fail> {
    let mut line = vec![in rt.alloc(); b'x'; 65_536]?;
    assert_eq!(rt; line.len(), 65_536);
    line[0] = b'#';
    line[65_535] = b'\n';
    for (last, status) in [
        (b"".as_slice(), Status::Done),
        (b"x".as_slice(), Status::TooLong),
    ] {
        let mut sink = MemSink::new(rt.alloc(), 64, Vec::new(rt.alloc()))?;
        let mut files = FileStore::new(&rt);
        let mut source = Repeated {
            piece: line.as_slice(),
            times: 16_384,
            last,
        };
        let ended = run(rt.alloc(), &["leda"], &mut source, &mut files, &mut sink);
        assert_eq!(rt; ended, status);
        assert_eq!(rt; sink.bytes(), b"".as_slice());
    }
    Ok(())
}

#[test]
fn a_line_is_at_most_so_long(rt: HostRuntime) -> Result<(), Fail> {
    let mut script = vec![in rt.alloc(); b' '; 65_532]?;
    // 65,536 bytes that are a command, then 65,537 bytes, whatever they hold.
    script.extend_from_slice(b"node\nnode")?;
    for _ in 0..65_533 {
        script.push(b' ')?;
    }
    script.extend_from_slice(b"\nnode")?;
    let mut source = SureSource::new(script);
    let mut sink = MemSink::new(rt.alloc(), 64, Vec::new(rt.alloc()))?;
    let mut files = FileStore::new(&rt);
    let ended = run(rt.alloc(), &["leda"], &mut source, &mut files, &mut sink);
    assert_eq!(rt; ended, Status::Done);
    assert_eq!(rt; sink.bytes(), b"= n1\n! line\n= n2\n".as_slice());
    Ok(())
}

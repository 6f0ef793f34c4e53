//! Texts that are read, and graphs that are written.
ghost use Rattle.std.specs.Prelude.{IfOk};
ghost use Rattle.graph_defs.specs.Plain.{IsPlainGraph};

use super::*;
use graph_defs::{PlainGraph, TextKind};
use std::alloc::Global;
use std::test::Fail;

const GIVEN: &[u8] =
    b"# by hand\r\nLEDA.GRAPH\r\ndouble\r\nvoid\r\n2\r\n|{a}|b}|\r\n|{2.5}|\r\n1\r\n2 1 0 |{}|\r\n";

const SAVED: &[u8] = b"LEDA.GRAPH\ndouble\nvoid\n-1\n2\n|{a}|b}|\n|{2.5}|\n1\n2 1 0 |{}|\n";

const MAP: &[u8] = b"LEDA.GRAPH\nint\nint\n-2\n2\n|{}|\n|{ }|\n2\n1 2 2 |{7}|\n2 1 1 |{-7}|\n";

/// Texts that begin with the name of the format and the types `void`, with what is wrong.
const FAULTS: [(&[u8], TextKind, u32); 24] = [
    (b"-3", TextKind::Kind, 4),
    (b"-1\nx", TextKind::Count, 5),
    (b"-1\n-2", TextKind::Count, 5),
    (b"100001", TextKind::Limit, 4),
    (
        b"00000000000000000000000000000000000000000000100001\n",
        TextKind::Limit,
        4,
    ),
    (b"-1\n1\n|{a}|", TextKind::Label, 6),
    (b"1\n|{}| x\n", TextKind::Label, 5),
    (b"1\n|{|\n", TextKind::Label, 5),
    (b"-1\n1\n|{}|\n1\n1 2 0 |{}|", TextKind::Ends, 8),
    (b"-1\n1\n|{}|\n1\n0 1 0 |{}|", TextKind::Ends, 8),
    (b"-1\n1\n|{}|\n1\n1", TextKind::Ends, 8),
    (b"-1\n1\n|{}|\n1\n1 1 1 |{}|", TextKind::Reversal, 8),
    (b"-1\n1\n|{}|\n1\n1 1 2 |{}|", TextKind::Reversal, 8),
    (b"-1\n1\n|{}|\n1\n1 1 0|{}|", TextKind::Reversal, 8),
    (b"-1\n1\n|{}|\n1\n1 1 0 ", TextKind::Label, 8),
    (b"-1\n0\n0\nx", TextKind::Trailing, 7),
    (b"-1\n0\n400001", TextKind::Limit, 6),
    (b"-1\n0\n", TextKind::Truncated, 6),
    (b"-1\n0", TextKind::Truncated, 6),
    (b"\n \t\r\n -1 \n#\n0\n", TextKind::Truncated, 9),
    (b"-1\n2\n|{}|\n|{}|\n2\n1 2 0 |{}|", TextKind::Truncated, 10),
    (
        b"-1\n2\n|{}|\n|{}|\n2\n1 2 2 |{}|\n2 1 0 |{}|",
        TextKind::Reversal,
        9,
    ),
    (
        b"-1\n2\n|{}|\n|{}|\n2\n1 2 0 |{}|\n2 1 1 |{}|",
        TextKind::Reversal,
        10,
    ),
    (
        b"-1\n2\n|{}|\n|{}|\n2\n1 2 2 |{}|\n1 2 1 |{}|",
        TextKind::Reversal,
        9,
    ),
];

/// Texts with a run of `y` in their middle, of so many bytes, with what is wrong.
const RUNS: [(&[u8], usize, &[u8], TextKind, u32); 9] = [
    (b"hello", 0, b"", TextKind::Header, 1),
    (b"", 0, b"", TextKind::Truncated, 1),
    (b"# ", 65_535, b"\n", TextKind::Limit, 1),
    (b"# ", 65_534, b"\nLEDA.GRAPH\n", TextKind::Truncated, 3),
    (b"LEDA.GRAPH\n", 256, b"\n", TextKind::Limit, 2),
    (b"LEDA.GRAPH\n", 255, b"\n", TextKind::Truncated, 3),
    (
        b"LEDA.GRAPH\nvoid\nvoid\n1\n|{",
        60_001,
        b"}|\n",
        TextKind::Limit,
        5,
    ),
    (
        b"LEDA.GRAPH\nvoid\nvoid\n1\n|{",
        60_000,
        b"}|\n",
        TextKind::Label,
        5,
    ),
    (
        b"LEDA.GRAPH\nvoid\nvoid\n0\n0\n",
        65_537,
        b"",
        TextKind::Limit,
        6,
    ),
];

/// The graph that a text stands for.
fn graph_of(alloc: Global, text: &[u8]) -> Result<PlainGraph, Fail>
    ensures { IfOk result IsPlainGraph }
{
    if text.len() > TEXT_LIMIT {
        return Err("the text is too long")?;
    }
    match read(alloc, text) {
        Ok(graph) => Ok(graph),
        Err(_) => Err("the text is one of a graph")?,
    }
}

/// Why a text isn't read, if it isn't.
fn refusal_of(alloc: Global, text: &[u8]) -> Option<TextRefusal> {
    if text.len() > TEXT_LIMIT {
        return None;
    }
    read(alloc, text).err()
}

#[test]
fn what_is_written_is_read_again(rt: HostRuntime) -> Result<(), Fail> {
    for (text, want) in [(GIVEN, SAVED), (SAVED, SAVED), (MAP, MAP)] {
        let graph = graph_of(rt.alloc(), text)?;
        assert_eq!(rt; write(rt.alloc(), &graph)?.as_slice(), want);
    }
    Ok(())
}

#[test]
fn a_graph_is_as_its_lines_say(rt: HostRuntime) -> Result<(), Fail> {
    let graph = graph_of(rt.alloc(), MAP)?;
    assert!(rt; !graph.directed);
    assert_eq!(rt; graph.node_type.as_slice(), b"int".as_slice());
    assert_eq!(rt; graph.nodes.as_slice().len(), 2);
    let edges = graph.edges.as_slice();
    assert_eq!(rt; edges.len(), 2);
    assert_eq!(rt; (edges[0].from, edges[0].to, edges[0].rev), (0, 1, Some(1)));
    assert_eq!(rt; edges[0].label.as_slice(), b"7".as_slice());
    assert_eq!(rt; (edges[1].from, edges[1].to, edges[1].rev), (1, 0, Some(0)));
    Ok(())
}

#[test]
fn each_fault_stands_at_its_line(rt: HostRuntime) -> Result<(), Fail> {
    for (rest, kind, line) in FAULTS {
        let mut text = b"LEDA.GRAPH\nvoid\nvoid\n".to_vec(rt.alloc())?;
        text.extend_from_slice(rest)?;
        let refusal = refusal_of(rt.alloc(), text.as_slice());
        assert_eq!(rt; refusal, Some(TextRefusal::At(kind, line)));
    }
    Ok(())
}

#[test]
fn what_is_too_long_is_a_fault_of_its_line(rt: HostRuntime) -> Result<(), Fail> {
    for (front, count, back, kind, line) in RUNS {
        let mut text = front.to_vec(rt.alloc())?;
        for _ in 0..count {
            text.push(b'y')?;
        }
        text.extend_from_slice(back)?;
        let refusal = refusal_of(rt.alloc(), text.as_slice());
        assert_eq!(rt; refusal, Some(TextRefusal::At(kind, line)));
    }
    Ok(())
}

#[test]
fn no_front_of_a_text_is_a_graph(rt: HostRuntime) {
    for len in 0..57 {
        assert!(rt; refusal_of(rt.alloc(), &SAVED[..len]).is_some());
    }
    assert!(rt; refusal_of(rt.alloc(), &SAVED[..57]).is_none());
}

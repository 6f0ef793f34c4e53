//! Tests of every form of line, by the table of commands.
use super::*;
use crate::argument::Arg;
use crate::word::{EditWord, QueryWord, Word};
use std::alloc::AllocError;
use std::process::Abort;
use std::test::Fail;

/// How many arguments a command has, and the nodes that the first of them name.
fn assert_command(
    rt: &impl Abort,
    alloc: Global,
    line: &[u8],
    word: Word,
    count: usize,
    nodes: &[u32],
) {
    match parse_line(alloc, line) {
        Ok(Line::Command(command)) => {
            assert_eq!(rt; command.word(), word);
            assert_eq!(rt; command.args().len(), count);
            assert_eq!(rt; command.forms().len(), count);
            for (arg, node) in command.args().iter().zip(nodes) {
                assert!(rt;
                    matches!(arg, Arg::Node(number) if number == node),
                    "at {line:?}"
                );
            }
        }
        _ => panic!(rt; "no command at {line:?}"),
    }
}

#[test]
fn reads_commands(rt: HostRuntime) {
    let edge = Word::Edit(EditWord::Edge);
    assert_command(&rt, rt.alloc(), b"node", Word::Edit(EditWord::Node), 1, &[]);
    assert_command(
        &rt,
        rt.alloc(),
        b" edge\tn4294967295 \r n20\r",
        edge,
        3,
        &[4_294_967_295, 20],
    );
    assert_command(
        &rt,
        rt.alloc(),
        b"reach n9 n9 ",
        Word::Query(QueryWord::Reach),
        2,
        &[9, 9],
    );
}

#[test]
fn reads_nothing_in_blanks_and_comments(rt: HostRuntime) {
    for line in ["", " \t\r ", "#", "# node", "  #x n1", "\t#edge n1 n2"] {
        let answer = parse_line(rt.alloc(), line.as_bytes());
        assert!(rt; matches!(&answer, Ok(Line::Nothing)), "at {line:?}");
    }
}

#[test]
fn refuses_bytes_that_are_no_text(rt: HostRuntime) {
    let cases: [(&[u8], u32); 4] = [
        (b"\xff\xfe", 1),
        (b"edge \x80n1 n2", 6),
        (b"edge n1\0 n2", 6),
        (b"edge\x0bn1 n2", 1),
    ];
    for (line, column) in cases {
        let refusal = parse_line(rt.alloc(), line).err();
        assert_eq!(rt; refusal, Some(LineRefusal::Syntax(column)), "at {line:?}");
    }
}

/// The line that has so many blanks between these two texts.
fn spread(alloc: Global, front: &[u8], count: usize, back: &[u8]) -> Result<Vec<u8>, AllocError> {
    let mut line = front.to_vec(alloc)?;
    line.extend_from_slice(vec![in alloc; b' '; count]?.as_slice())?;
    line.extend_from_slice(back)?;
    Ok(line)
}

#[test]
fn a_line_has_a_limit(rt: HostRuntime) -> Result<(), Fail> {
    let cases = [
        ("", 65_536, "", None),
        ("", 65_537, "", Some(LineRefusal::LongLine)),
        ("#", 65_535, "", None),
        ("#", 65_536, "", Some(LineRefusal::LongLine)),
        ("", 65_535, "x", Some(LineRefusal::Syntax(65_536))),
        ("edge", 65_530, "n1", Some(LineRefusal::Syntax(65_537))),
    ];
    for (front, count, back, fault) in cases {
        let line = spread(rt.alloc(), front.as_bytes(), count, back.as_bytes())?;
        let refusal = parse_line(rt.alloc(), &line).err();
        assert_eq!(rt; refusal, fault, "at {count} blanks behind {front:?}");
    }
    Ok(())
}

ghost use Rattle.std.specs.Prelude.{◌≤◌};

use super::*;
use cr_base::FiberId;
use cr_io::{MemorySink, MemorySource, OpenGate};
use cr_schedule::Entry;
use cr_value::Text;
use std::alloc::Global;
use std::process::Abort;
use std::sync::Wait;
use std::test::Fail;
use std::thread::Threads;

const USAGE: &str =
    "usage: crystal_ec COMMAND FILE [TRACE] [--workers N] [--budget N] [--trace FILE]\n";

/// How the outside behaves: the bytes of a piece, and the numbers of the calls that fail.
#[derive(Clone, Copy)]
struct Outside {
    piece: usize,
    read_fails: u64,
    write_fails: u64,
    ghost some: { 1 ≤ piece },
}

const SOUND: Outside = Outside {
    piece: 65_536,
    read_fails: 0,
    write_fails: 0,
};

fn words_of(alloc: Global, words: &[&str]) -> Result<Vec<Text>, Fail> {
    let mut texts = Vec::new(alloc);
    for word in words {
        texts.push(Text::of(alloc, word)?)?;
    }
    Ok(texts)
}

/// What `tool` answers for these words and these bytes.
fn answer<R: Threads + Wait + Sync>(
    rt: &R,
    alloc: Global,
    words: &[&str],
    bytes: &[u8],
    outside: &Outside,
) -> Result<Ran<MemorySink, MemorySink>, Fail> {
    let words = words_of(alloc, words)?;
    let mut source = MemorySource::new(
        alloc,
        bytes.to_vec(alloc)?,
        outside.piece,
        vec![in alloc; outside.read_fails]?,
    );
    let mut old_trace = MemorySource::new(alloc, Vec::new(alloc), 1, Vec::new(alloc));
    let fails = vec![in alloc; outside.write_fails]?;
    let out = MemorySink::with_room(alloc, 100_000, outside.piece, fails)?;
    let err = MemorySink::with_room(alloc, 1_000, outside.piece, Vec::new(alloc))?;
    let mut new_trace = MemorySink::with_room(alloc, 0, 1, Vec::new(alloc))?;
    Ok(tool(
        rt,
        alloc,
        &words,
        &mut source,
        &mut old_trace,
        out,
        err,
        &mut new_trace,
        &OpenGate,
    ))
}

/// What one command writes of one program, and its status.
#[derive(Clone, Copy)]
struct Case {
    command: &'static str,
    text: &'static str,
    out: &'static str,
    err: &'static str,
    status: u8,
}

const fn writes(text: &'static str, out: &'static str, err: &'static str, status: u8) -> Case {
    Case {
        command: "run",
        text,
        out,
        err,
        status,
    }
}

const fn formats(text: &'static str, out: &'static str, err: &'static str, status: u8) -> Case {
    Case {
        command: "format",
        text,
        out,
        err,
        status,
    }
}

fn check<R: Abort + Threads + Wait + Sync>(
    rt: &R,
    alloc: Global,
    case: Case,
    piece: usize,
) -> Result<(), Fail>
    requires { 1 ≤ piece }
{
    let outside = Outside {
        piece,
        read_fails: 0,
        write_fails: 0,
    };
    let text = case.text;
    let ran = answer(
        rt,
        alloc,
        &[case.command, "a.cr"],
        text.as_bytes(),
        &outside,
    )?;
    assert_eq!(rt; ran.out.bytes(), case.out.as_bytes(), "{text}");
    assert_eq!(rt; ran.err.bytes(), case.err.as_bytes(), "{text}");
    assert_eq!(rt; ran.report.status, case.status, "{text}");
    Ok(())
}

#[test]
fn sums_and_refusals(rt: HostRuntime) -> Result<(), Fail> {
    let unbuilt = "1:1: X0 not built yet\n";
    let cases = [
        writes("puts 1 + 2\n", "3\n", "", 0),
        writes("", "", "", 0),
        writes("puts 0", "0\n", "", 0),
        writes(
            "\nputs 999999999 + 999999999\n\nputs 7",
            "1999999998\n7\n",
            "",
            0,
        ),
        writes("puts 1\nx\n", "", "2:1: X0 not built yet\n", 3),
        writes(
            "puts 1\n\nputs 2\nputs  3",
            "",
            "4:1: X0 not built yet\n",
            3,
        ),
        // What is no program of the language is refused by its tokens or its grammar first.
        writes("puts 01", "", "1:6: L5 bad number\n", 3),
        writes("puts 1\nputs 2 $", "", "2:8: L2 unexpected byte\n", 3),
        writes("puts \"a", "", "1:6: L3 string not closed\n", 3),
        writes("puts \"\\q\"", "", "1:7: L4 bad escape\n", 3),
        writes("puts 1 +\nputs )", "", "2:6: P1 unexpected token\n", 3),
        writes("puts 1234567890", "", unbuilt, 3),
        writes("puts 1 +2", "", unbuilt, 3),
        writes("puts 1 + 2 + 3", "", unbuilt, 3),
        writes("puts 1 ", "", unbuilt, 3),
        writes("puts", "", unbuilt, 3),
        writes("puts -1", "", unbuilt, 3),
        writes("puts 1\r\n", "", unbuilt, 3),
        writes(" ", "", unbuilt, 3),
        // `format` takes every program.
        formats("puts 1+2 if true", "if true\n  puts(1 + 2)\nend\n", "", 0),
        formats("# a\n\nx = 1 # b\n", "x = 1\n", "", 0),
        formats("", "", "", 0),
        formats("puts 1 +\nputs )", "", "2:6: P1 unexpected token\n", 3),
        formats("puts )\nputs 01", "", "2:6: L5 bad number\n", 3),
    ];
    for case in cases {
        check(&rt, rt.alloc(), case, 1)?;
        check(&rt, rt.alloc(), case, 65_536)?;
    }
    Ok(())
}

#[test]
fn words_that_are_no_command_line(rt: HostRuntime) -> Result<(), Fail> {
    let lines: [&[&str]; 10] = [
        &[],
        &["run"],
        &["run", ""],
        &["run", "-a.cr"],
        &["run", "--", "a.cr"],
        &["run", "a.cr", "b.cr"],
        &["--help"],
        &["check", "a.cr"],
        &["format"],
        &["format", "a.cr", "b.cr"],
    ];
    for line in lines {
        let ran = answer(&rt, rt.alloc(), line, b"puts 1", &SOUND)?;
        assert_eq!(rt; ran.report.ending, Ending::Usage);
        assert_eq!(rt; ran.report.status, 2);
        assert_eq!(rt; ran.err.bytes(), USAGE.as_bytes());
        assert_eq!(rt; ran.out.bytes().len(), 0);
    }
    Ok(())
}

#[test]
fn the_outside_fails(rt: HostRuntime) -> Result<(), Fail> {
    let write = Outside {
        piece: 65_536,
        read_fails: 0,
        write_fails: 2,
    };
    let ran = answer(
        &rt,
        rt.alloc(),
        &["run", "a.cr"],
        b"puts 1\nputs 2\n",
        &write,
    )?;
    assert_eq!(rt; ran.report.ending, Ending::WriteFault(Which::Out));
    assert_eq!(rt; ran.report.status, 7);
    assert_eq!(rt; ran.out.bytes(), b"1\n".as_slice());
    assert_eq!(rt; ran.err.bytes(), b"write fault: out\n".as_slice());

    let read = Outside {
        piece: 65_536,
        read_fails: 2,
        write_fails: 0,
    };
    let ran = answer(&rt, rt.alloc(), &["run", "a.cr"], b"puts 1 + 2\n", &read)?;
    assert_eq!(rt; ran.report.ending, Ending::ReadFault(Which::Source));
    assert_eq!(rt; ran.report.status, 6);
    assert_eq!(rt; ran.out.bytes().len(), 0);
    assert_eq!(rt; ran.err.bytes(), b"read fault: source\n".as_slice());
    Ok(())
}

#[test]
fn the_output_fails_a_still_command(rt: HostRuntime) -> Result<(), Fail> {
    let write = Outside {
        piece: 4,
        read_fails: 0,
        write_fails: 2,
    };
    let ran = answer(&rt, rt.alloc(), &["format", "a.cr"], b"puts 1\n", &write)?;
    assert_eq!(rt; ran.report.ending, Ending::WriteFault(Which::Out));
    assert_eq!(rt; ran.out.bytes(), b"puts".as_slice());
    assert_eq!(rt; ran.err.bytes(), b"write fault: out\n".as_slice());
    Ok(())
}

fn spaces(alloc: Global, count: usize) -> Result<Vec<u8>, Fail> {
    Ok(vec![in alloc; b' '; count]?)
}

#[test]
fn limits_of_a_source(rt: HostRuntime) -> Result<(), Fail> {
    let alloc = rt.alloc();
    let ran = answer(
        &rt,
        alloc,
        &["run", "a.cr"],
        &spaces(alloc, 1_048_577)?,
        &SOUND,
    )?;
    assert_eq!(rt; ran.report.ending, Ending::SourceTooLong);
    assert_eq!(rt; ran.report.status, 3);
    assert_eq!(rt; ran.err.bytes(), b"source too long\n".as_slice());

    let ran = answer(
        &rt,
        alloc,
        &["run", "a.cr"],
        &spaces(alloc, 1_048_576)?,
        &SOUND,
    )?;
    assert_eq!(rt; ran.err.bytes(), b"1:1: X0 not built yet\n".as_slice());

    let mut lines = Vec::new(alloc);
    for _ in 0..1000 {
        lines.extend_from_slice(b"puts 7\n")?;
    }
    let ran = answer(&rt, alloc, &["run", "a.cr"], &lines, &SOUND)?;
    assert_eq!(rt; ran.report.ending, Ending::Finished);
    assert_eq!(rt; ran.out.bytes().len(), 2000);
    lines.push(b'\n')?;
    let ran = answer(&rt, alloc, &["run", "a.cr"], &lines, &SOUND)?;
    assert_eq!(rt; ran.err.bytes(), b"1001:1: X0 not built yet\n".as_slice());
    assert_eq!(rt; ran.out.bytes().len(), 0);
    Ok(())
}

#[test]
fn the_history_counts_reductions(rt: HostRuntime) -> Result<(), Fail> {
    for (text, count) in [
        ("puts 1 + 2\n", 2),
        ("puts 1", 1),
        ("\nputs 1\nputs 2 + 3\n\n", 4),
    ] {
        let ran = answer(&rt, rt.alloc(), &["run", "a.cr"], text.as_bytes(), &SOUND)?;
        assert_eq!(rt; ran.report.history.length(), 1, "{text}");
        let steps = Entry::Steps {
            fiber: FiberId(0),
            count,
            clause: None,
            partner: None,
            partner_clause: None,
        };
        assert_eq!(rt; ran.report.history.entry(0), steps, "{text}");
    }
    let ran = answer(&rt, rt.alloc(), &["run", "a.cr"], b"\n\n", &SOUND)?;
    assert_eq!(rt; ran.report.history.length(), 0);
    Ok(())
}

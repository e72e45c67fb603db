ghost use Rattle.std.specs.Prelude.{◌≤◌};
ghost use Rattle.cr_schedule.specs.Entry.{HasLine};

use super::*;
use cr_base::FiberId;
use cr_io::{Failed, MemorySink};
use std::alloc::Global;
use std::test::Fail;

fn sink(alloc: Global, room: usize, piece: usize, failing: &[u64]) -> Result<MemorySink, Fail> {
    let failing = failing.to_vec(alloc)?;
    let sink = MemorySink::with_room(alloc, room, piece.max(1), failing)?;
    Ok(sink)
}

fn steps(
    fiber: u32,
    count: u32,
    clause: Option<u32>,
    partner: Option<u32>,
    partner_clause: Option<u32>,
) -> Entry {
    Entry::Steps {
        fiber: FiberId(fiber),
        count,
        clause,
        partner: partner.map(FiberId),
        partner_clause,
    }
}

fn plain_steps(fiber: u32, count: u32) -> Entry
    requires fiber { fiber ≤ LAST_FIBER }
    requires some { 1 ≤ count }
    requires most { count ≤ MOST_STEPS }
    ensures { HasLine result }
{
    Entry::Steps {
        fiber: FiberId(fiber),
        count,
        clause: None,
        partner: None,
        partner_clause: None,
    }
}

#[test]
fn a_line_is_one_entry_and_an_entry_one_line(rt: HostRuntime) -> Result<(), Fail> {
    let last = steps(
        65_535,
        50_000_000,
        Some(199_999),
        Some(65_535),
        Some(199_999),
    );
    let rows: [(&[u8], Entry); 9] = [
        (b"s 0 6 - - -\n", steps(0, 6, None, None, None)),
        (b"s 0 3 1 - -\n", steps(0, 3, Some(1), None, None)),
        (b"s 0 3 0 1 0\n", steps(0, 3, Some(0), Some(1), Some(0))),
        (b"s 10 1 - 9 -\n", steps(10, 1, None, Some(9), None)),
        (b"s 0 1 - 0 7\n", steps(0, 1, None, Some(0), Some(7))),
        (b"s 65535 50000000 199999 65535 199999\n", last),
        (b"w 1\n", Entry::Wait(FiberId(1))),
        (b"r 0\n", Entry::Resume(FiberId(0))),
        (b"r 65535\n", Entry::Resume(FiberId(65_535))),
    ];
    for (text, entry) in rows {
        let history = read_trace(rt.alloc(), text)?;
        assert_eq!(rt; history.length(), 1, "{text:?}");
        assert_eq!(rt; history.entry(0), entry, "{text:?}");
        let mut sink = sink(rt.alloc(), 100, 1, &[])?;
        assert_eq!(rt; write_trace(&mut sink, &history), Ok(()));
        assert_eq!(rt; sink.bytes(), text);
    }
    Ok(())
}

#[test]
fn the_first_bad_line_is_reported_from_1(rt: HostRuntime) -> Result<(), Fail> {
    let rows: [(&[u8], u64); 31] = [
        (b"\n", 1),
        (b"w 0", 1),
        (b"w\n", 1),
        (b"w \n", 1),
        (b"w -\n", 1),
        (b"w +1\n", 1),
        (b"w 00\n", 1),
        (b"w 65536\n", 1),
        (b"w 0 \n", 1),
        (b"w  0\n", 1),
        (b"w 0\r\n", 1),
        (b" r 0\n", 1),
        (b"R 0\n", 1),
        (b"r 4294967296\n", 1),
        (b"s 0 0 - - -\n", 1),
        (b"s 0 01 - - -\n", 1),
        (b"s 0 50000001 - - -\n", 1),
        (b"s 0 1 200000 - -\n", 1),
        (b"s 0 1 - 65536 -\n", 1),
        (b"s 0 1 - 0 200000\n", 1),
        (b"s 0 1 - - 0\n", 1),
        (b"s 0 1 - -\n", 1),
        (b"s 0 1 - - - -\n", 1),
        (b"s 0 1\t- - -\n", 1),
        (b"s 0 1 - - -", 1),
        (b"crystal-ec 2 11 0 1\n", 1),
        (b"w 0\n\n", 2),
        (b"w 0\nr 0", 2),
        (b"w 0\nr 0\nw x\nw y\n", 3),
        (b"s 0 25 - - -\nr 1\ns 1 15 - -\n", 3),
        (b"s 0 25 - - -\nr 1\ns 1 15 - - -\n\nr 1\n", 4),
    ];
    for (text, line) in rows {
        let fault = read_trace(rt.alloc(), text).map(|history| history.length());
        assert_eq!(rt; fault, Err(TraceFault::BadLine(line)), "{text:?}");
    }
    Ok(())
}

#[test]
fn an_empty_text_is_the_empty_history(rt: HostRuntime) -> Result<(), Fail> {
    let history = read_trace(rt.alloc(), b"")?;
    assert_eq!(rt; history.length(), 0);
    let mut sink = sink(rt.alloc(), 0, 1, &[])?;
    assert_eq!(rt; write_trace(&mut sink, &history), Ok(()));
    assert_eq!(rt; sink.bytes().len(), 0);
    Ok(())
}

#[test]
fn what_is_pushed_stands_in_order(rt: HostRuntime) -> Result<(), Fail> {
    let mut history = History::new(rt.alloc());
    history.push(plain_steps(0, 25))?;
    history.reserve(2)?;
    history.push_reserved(Entry::Resume(FiberId(1)));
    history.push_reserved(plain_steps(1, 15));
    history.push(plain_steps(0, 8))?;
    assert_eq!(rt; history.spent(), 49);
    let mut sink = sink(rt.alloc(), 100, 100, &[])?;
    assert_eq!(rt; write_trace(&mut sink, &history), Ok(()));
    assert_eq!(rt;
        sink.bytes(),
        b"s 0 25 - - -\nr 1\ns 1 15 - - -\ns 0 8 - - -\n".as_slice()
    );
    Ok(())
}

/// 100,000 lines.
fn long_text(alloc: Global) -> Result<Vec<u8>, Fail> {
    let mut text = Vec::new(alloc);
    for _ in 0..25_000 {
        text.extend_from_slice(b"s 0 25 - - -\nr 1\ns 1 15 0 65535 199999\nw 1\n")?;
    }
    Ok(text)
}

#[test]
fn a_long_trace_is_read_and_written(rt: HostRuntime) -> Result<(), Fail> {
    let text = long_text(rt.alloc())?;
    let history = read_trace(rt.alloc(), &text)?;
    assert_eq!(rt; history.length(), 100_000);
    for piece in [1, 1000, 1_000_000] {
        let mut sink = sink(rt.alloc(), text.len(), piece, &[])?;
        assert_eq!(rt; write_trace(&mut sink, &history), Ok(()));
        assert!(rt; sink.bytes() == text.as_slice());
    }
    Ok(())
}

#[test]
fn a_sink_that_fails_keeps_a_front(rt: HostRuntime) -> Result<(), Fail> {
    let text = long_text(rt.alloc())?;
    let history = read_trace(rt.alloc(), &text)?;
    let mut sink_of_1 = sink(rt.alloc(), text.len(), 1, &[3])?;
    assert_eq!(rt; write_trace(&mut sink_of_1, &history), Err(Failed));
    assert_eq!(rt; sink_of_1.bytes(), b"s ".as_slice());
    assert_eq!(rt; sink_of_1.faults(), 1);

    let mut sink = sink(rt.alloc(), text.len(), 1000, &[30])?;
    assert_eq!(rt; write_trace(&mut sink, &history), Err(Failed));
    assert!(rt; text.as_slice().starts_with(sink.bytes()));
    assert_eq!(rt; sink.faults(), 1);
    Ok(())
}

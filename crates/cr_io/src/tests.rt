use super::*;
use std::alloc::{AllocError, Global};
use std::io::{Read, Write};
use std::process::Abort;
use std::test::Fail;
use std::{fs, io};

// An input or an output that fails.
#[derive(Drop)]
struct Broken;

impl Read for Broken {
    fn read(&mut self, _buf: &mut [u8]) -> io::Result<usize> {
        Err(io::Error::from(io::ErrorKind::Other))
    }
}

impl Write for Broken {
    fn write(&mut self, _buf: &[u8]) -> io::Result<usize> {
        Err(io::Error::from(io::ErrorKind::Other))
    }

    fn flush(&mut self) -> io::Result<()> {
        Ok(())
    }
}

// An output that takes nothing.
#[derive(Drop)]
struct Idle;

impl Write for Idle {
    fn write(&mut self, _buf: &[u8]) -> io::Result<usize> {
        Ok(0)
    }

    fn flush(&mut self) -> io::Result<()> {
        Ok(())
    }
}

fn memory_source(
    alloc: Global,
    bytes: &[u8],
    piece: usize,
    failing: &[u64],
) -> Result<MemorySource, Fail> {
    let bytes = bytes.to_vec(alloc)?;
    let failing = failing.to_vec(alloc)?;
    Ok(MemorySource::new(alloc, bytes, piece.max(1), failing))
}

fn memory_sink(
    alloc: Global,
    room: usize,
    piece: usize,
    failing: &[u64],
) -> Result<MemorySink, Fail> {
    let failing = failing.to_vec(alloc)?;
    let sink = MemorySink::with_room(alloc, room, piece.max(1), failing)?;
    Ok(sink)
}

// The four calls' answers, into a buffer of four bytes.
#[test]
fn a_memory_source_gives_pieces_and_fails_at_listed_calls(rt: HostRuntime) -> Result<(), Fail> {
    let rows: [(&[u8], usize, &[u64], [Result<usize, Failed>; 4]); 5] = [
        (b"abc", 1, &[], [Ok(1), Ok(1), Ok(1), Ok(0)]),
        (b"abcdefg", 9, &[], [Ok(4), Ok(3), Ok(0), Ok(0)]),
        (b"", 3, &[], [Ok(0), Ok(0), Ok(0), Ok(0)]),
        (b"abc", 2, &[2, 3], [Ok(2), Err(Failed), Err(Failed), Ok(1)]),
        (b"abc", 2, &[1, 7], [Err(Failed), Ok(2), Ok(1), Ok(0)]),
    ];
    for (bytes, piece, failing, answers) in rows {
        let mut source = memory_source(rt.alloc(), bytes, piece, failing)?;
        let mut buf = [0; 4];
        for want in answers {
            assert_eq!(rt; source.read(&mut buf), want, "from {bytes:?}");
        }
    }
    Ok(())
}

// The three writes' answers, and what is written then.
#[test]
fn a_memory_sink_takes_pieces_within_its_room(rt: HostRuntime) -> Result<(), Fail> {
    let rows: [(usize, usize, &[u64], [Result<usize, Failed>; 3], &[u8]); 5] = [
        (9, 9, &[], [Ok(3), Ok(3), Ok(3)], b"abcabcabc"),
        (9, 1, &[], [Ok(1), Ok(1), Ok(1)], b"aaa"),
        (4, 9, &[], [Ok(3), Ok(1), Err(Failed)], b"abca"),
        (9, 9, &[2], [Ok(3), Err(Failed), Ok(3)], b"abcabc"),
        (0, 1, &[], [Err(Failed), Err(Failed), Err(Failed)], b""),
    ];
    for (room, piece, failing, answers, written) in rows {
        let mut sink = memory_sink(rt.alloc(), room, piece, failing)?;
        let mut faults = 0u64;
        for want in answers {
            assert_eq!(rt; sink.write(b"abc"), want, "with room {room}");
            faults = faults.saturating_add(u64::from(want.is_err()));
        }
        assert_eq!(rt; sink.write(b""), Ok(0));
        assert_eq!(rt; sink.bytes(), written, "with room {room}");
        assert_eq!(rt; sink.faults(), faults, "with room {room}");
    }
    Ok(())
}

#[test]
fn read_all_reads_to_the_end_within_the_limit(rt: HostRuntime) -> Result<(), Fail> {
    let rows: [(&[u8], usize, &[u64], usize, Result<&[u8], ReadAll>); 9] = [
        (b"", 1, &[], 0, Ok(b"")),
        (b"abc", 1, &[], 3, Ok(b"abc")),
        (b"abc", 9, &[4], 3, Ok(b"abc")),
        (b"abc", 1, &[], 2, Err(ReadAll::TooLong)),
        (b"abc", 9, &[], 2, Err(ReadAll::TooLong)),
        (b"a", 1, &[], 0, Err(ReadAll::TooLong)),
        (b"abc", 1, &[3], 9, Err(ReadAll::Fault)),
        (b"abc", 1, &[4], 3, Err(ReadAll::Fault)),
        (b"abc", 1, &[3], 1, Err(ReadAll::TooLong)),
    ];
    for (bytes, piece, failing, limit, want) in rows {
        let mut source = memory_source(rt.alloc(), bytes, piece, failing)?;
        let got = read_all(rt.alloc(), &mut source, limit);
        is_read(&rt, got, want);
    }
    Ok(())
}

fn is_read(rt: &impl Abort, got: Result<Vec<u8>, ReadAll>, want: Result<&[u8], ReadAll>) {
    match (got, want) {
        (Ok(got), Ok(want)) => assert_eq!(rt; got.as_slice(), want),
        (Err(got), Err(want)) => assert_eq!(rt; got, want),
        (got, want) => panic!(rt; "{got:?} in place of {want:?}"),
    }
}

fn sevens(alloc: Global, len: usize) -> Result<Vec<u8>, AllocError> {
    vec![in alloc; 7u8; len]
}

#[test]
fn read_all_reads_more_than_one_buffer(rt: HostRuntime) -> Result<(), Fail> {
    let mut source = SureSource::new(rt.alloc(), sevens(rt.alloc(), 65_537)?);
    let got = read_all(rt.alloc(), &mut source, 65_537)?;
    assert_eq!(rt; got.len(), 65_537);
    assert!(rt; got.iter().all(|byte| *byte == 7));
    Ok(())
}

#[test]
fn put_all_goes_on_after_a_short_write_and_stops_at_a_fault(rt: HostRuntime) -> Result<(), Fail> {
    let rows: [(usize, usize, &[u64], Result<(), Failed>, &[u8]); 5] = [
        (9, 1, &[], Ok(()), b"hello"),
        (5, 2, &[4], Ok(()), b"hello"),
        (4, 3, &[], Err(Failed), b"hell"),
        (9, 2, &[2], Err(Failed), b"he"),
        (9, 2, &[1], Err(Failed), b""),
    ];
    for (room, piece, failing, want, written) in rows {
        let mut sink = memory_sink(rt.alloc(), room, piece, failing)?;
        assert_eq!(rt; put_all(&mut sink, b"hello"), want, "with room {room}");
        assert_eq!(rt; sink.bytes(), written, "with room {room}");
    }
    Ok(())
}

#[test]
fn a_sure_sink_takes_what_fits(rt: HostRuntime) -> Result<(), Fail> {
    let mut sink = SureSink::with_room(rt.alloc(), 5)?;
    assert_eq!(rt; sink.write(b"he"), Ok(2));
    assert_eq!(rt; put_all(&mut sink, b"llo"), Ok(()));
    assert_eq!(rt; sink.bytes(), b"hello".as_slice());
    assert_eq!(rt; sink.room(), 0);
    Ok(())
}

#[test]
fn an_input_of_the_system_is_read_to_its_end_or_fails(rt: HostRuntime) {
    let mut text = StdSource::new(Some(b"abc".as_slice()));
    is_read(&rt, read_all(rt.alloc(), &mut text, 3), Ok(b"abc"));
    assert_eq!(rt; text.faults(), 0);

    let mut broken = StdSource::new(Some(Broken));
    is_read(
        &rt,
        read_all(rt.alloc(), &mut broken, 3),
        Err(ReadAll::Fault),
    );
    assert_eq!(rt; broken.faults(), 1);

    let mut missing = StdSource::<Broken>::new(None);
    is_read(
        &rt,
        read_all(rt.alloc(), &mut missing, 3),
        Err(ReadAll::Fault),
    );
    assert_eq!(rt; missing.faults(), 1);
}

#[test]
fn an_output_of_the_system_takes_all_or_fails(rt: HostRuntime) {
    let mut taken = StdSink::new(Some(Vec::new(rt.alloc())));
    assert_eq!(rt; put_all(&mut taken, b"abc"), Ok(()));
    assert_eq!(rt; taken.faults(), 0);

    let mut broken = StdSink::new(Some(Broken));
    assert_eq!(rt; put_all(&mut broken, b"abc"), Err(Failed));
    assert_eq!(rt; broken.faults(), 1);

    let mut idle = StdSink::new(Some(Idle));
    assert_eq!(rt; put_all(&mut idle, b"abc"), Err(Failed));
    assert_eq!(rt; idle.faults(), 1);

    let mut missing = StdSink::<Idle>::new(None);
    assert_eq!(rt; put_all(&mut missing, b"abc"), Err(Failed));
    assert_eq!(rt; missing.faults(), 1);
}

fn is_sink<K: Sink + Send + Drop>(_: &K) {}

#[test]
fn sinks_go_to_threads(rt: HostRuntime) -> Result<(), Fail> {
    is_sink(&memory_sink(rt.alloc(), 1, 1, &[])?);
    is_sink(&StdSink::new(Some(rt.stdout())));
    is_sink(&StdSink::new(Some(rt.stderr())));
    is_sink(&StdSink::new(fs::create(&rt, "/nowhere/at/all").ok()));
    Ok(())
}

#[test]
fn an_open_gate_lets_each_worker_pass() {
    OpenGate.pass(0, 0);
    OpenGate.pass(1, 7);
}

//! Each call once with memory, through its bound, and faults in mid-stream.

use poets_io::{
    ReadFault, Sink, Source, StdSink, StdSource, SureSink, SureSource, TextSink, TextSource,
    read_up_to, write_all,
};
use poets_value::List;
use std::alloc::Global;
use std::io;
use std::io::{ErrorKind, Read, Write};
use std::process::Abort;

// A list of these items.
fn list<T: Copy + Drop>(rt: &(impl Abort + AllocGlobal), items: &[T]) -> List<T> {
    let mut all = List::new(rt.alloc());
    for item in items {
        assert!(rt; all.push(*item).is_ok());
    }
    all
}

// So many bytes.
fn long(rt: &(impl Abort + AllocGlobal), length: usize) -> Vec<u8> {
    let made = vec![in rt.alloc(); b'x'; length];
    assert!(rt; made.is_ok());
    made.unwrap()
}

// A source of these bytes by steps, with these failing calls.
fn text_source(
    rt: &(impl Abort + AllocGlobal),
    bytes: &[u8],
    step: usize,
    fails: &[u64],
) -> TextSource {
    TextSource::new(rt.alloc(), list(rt, bytes), step.max(1), list(rt, fails))
}

// A sink in memory with these failing calls.
fn text_sink(rt: &(impl Abort + AllocGlobal), fails: &[u64]) -> TextSink {
    let made = TextSink::new(rt.alloc(), list(rt, fails));
    assert!(rt; made.is_ok());
    made.unwrap()
}

// A reader whose second call fails.
#[derive(Drop)]
struct Flaky<'a> {
    bytes: &'a [u8],
    calls: u32,
    kind: ErrorKind,
}

impl Read for Flaky<'_> {
    fn read(&mut self, buf: &mut [u8]) -> io::Result<usize> {
        self.calls = self.calls.saturating_add(1);
        if self.calls == 2 {
            return Err(self.kind.into());
        }
        self.bytes.read(buf)
    }
}

// A writer that takes three bytes at a time, and is interrupted at its third call.
#[derive(Drop)]
struct Narrow {
    held: Vec<u8>,
    calls: u32,
}

impl Write for Narrow {
    fn write(&mut self, buf: &[u8]) -> io::Result<usize> {
        self.calls = self.calls.saturating_add(1);
        if self.calls == 3 {
            return Err(ErrorKind::Interrupted.into());
        }
        let count = buf.len().min(3);
        self.held.extend_from_slice(&buf[..count])?;
        Ok(count)
    }

    fn flush(&mut self) -> io::Result<()> {
        Ok(())
    }
}

// Whether the next read into a buffer of eight bytes gives these, or fails where there are none.
fn reads_one<S: Source>(source: &mut S, wanted: Option<&str>) -> bool {
    let mut buf = [b'.'; 8];
    let Ok(count) = source.read(&mut buf) else {
        return wanted.is_none();
    };
    match wanted {
        Some(wanted) => &buf[..count] == wanted.as_bytes(),
        None => false,
    }
}

// Whether the next reads are these, in order.
fn reads<S: Source>(source: &mut S, wanted: &[Option<&str>]) -> bool {
    for piece in wanted {
        if !reads_one(source, *piece) {
            return false;
        }
    }
    true
}

// Whether the source read up to the limit is these bytes.
fn reads_whole<S: Source>(
    alloc: Global,
    source: &mut S,
    limit: usize,
    wanted: &[u8],
) -> Result<bool, ReadFault> {
    match read_up_to(alloc, source, limit) {
        Ok(text) => Ok(text.as_slice() == wanted),
        Err(fault) => Err(fault),
    }
}

// Whether each of three pieces is taken.
fn takes_pieces<K: Sink>(sink: &mut K) -> (bool, bool, bool) {
    let first = write_all(sink, b"first line\n").is_ok();
    let second = write_all(sink, b"second\n").is_ok();
    (first, second, write_all(sink, b"!").is_ok())
}

#[test]
fn a_source_fills_the_buffer(rt: HostRuntime) {
    let pieces = [Some("abcdefgh"), Some("ijk"), Some("")];
    let mut sure = SureSource::new(rt.alloc(), list(&rt, b"abcdefghijk"));
    assert!(rt; reads(&mut sure, &pieces));
    let mut of_slice = StdSource::new(b"abcdefghijk".as_slice());
    assert!(rt; reads(&mut of_slice, &pieces));
}

#[test]
fn a_source_fails_at_the_calls_named_and_then_goes_on(rt: HostRuntime) {
    let mut source = text_source(&rt, b"abcdefg", 3, &[2, 4]);
    let pieces = [Some("abc"), None, Some("def"), None, Some("g"), Some("")];
    assert!(rt; reads(&mut source, &pieces));
}

#[test]
fn a_fault_of_the_reader_is_a_fault(rt: HostRuntime) {
    let mut flaky = StdSource::new(Flaky {
        bytes: b"abcdefghijk",
        calls: 0,
        kind: ErrorKind::BrokenPipe,
    });
    assert!(rt; reads(&mut flaky, &[Some("abcdefgh"), None, Some("ijk"), Some("")]));
}

#[test]
fn a_read_that_was_interrupted_is_tried_again(rt: HostRuntime) {
    let mut flaky = StdSource::new(Flaky {
        bytes: b"abcdefghijk",
        calls: 0,
        kind: ErrorKind::Interrupted,
    });
    assert!(rt; reads(&mut flaky, &[Some("abcdefgh"), Some("ijk"), Some("")]));
}

#[test]
fn a_text_is_read_whole_up_to_the_limit(rt: HostRuntime) {
    for step in [1, 2, 5, 99] {
        for (limit, wanted) in [(4, Err(ReadFault::TooLong)), (5, Ok(true)), (6, Ok(true))] {
            let mut source = text_source(&rt, b"abcde", step, &[]);
            let read = reads_whole(rt.alloc(), &mut source, limit, b"abcde");
            assert!(rt; read == wanted, "steps of {step} up to {limit}");
        }
    }
}

#[test]
fn a_sure_source_is_read_whole(rt: HostRuntime) {
    for (text, limit) in [("", 0), ("ab", 2)] {
        let mut source = SureSource::new(rt.alloc(), list(&rt, text.as_bytes()));
        let read = reads_whole(rt.alloc(), &mut source, limit, text.as_bytes());
        assert!(rt; read == Ok(true));
    }
}

#[test]
fn a_text_longer_than_a_block_is_read_whole(rt: HostRuntime) {
    let bytes = long(&rt, 70_001);
    for (limit, wanted) in [
        (2, Err(ReadFault::TooLong)),
        (70_000, Err(ReadFault::TooLong)),
        (70_001, Ok(true)),
    ] {
        let mut source = StdSource::new(bytes.as_slice());
        let read = reads_whole(rt.alloc(), &mut source, limit, &bytes);
        assert!(rt; read == wanted, "up to {limit}");
    }
}

#[test]
fn no_read_follows_the_first_fault(rt: HostRuntime) {
    let mut source = text_source(&rt, b"abcdefg", 3, &[2]);
    let read = reads_whole(rt.alloc(), &mut source, 9, b"abcdefg");
    assert!(rt; read == Err(ReadFault::Failed));
    assert!(rt; reads(&mut source, &[Some("def"), Some("g"), Some("")]));
}

#[test]
fn a_sink_in_memory_is_called_once_for_each_piece(rt: HostRuntime) {
    for (fails, wanted, held) in [
        (1, (false, true, true), "second\n!"),
        (2, (true, false, true), "first line\n!"),
        (3, (true, true, false), "first line\nsecond\n"),
        (4, (true, true, true), "first line\nsecond\n!"),
    ] {
        let mut sink = text_sink(&rt, &[fails]);
        let taken = takes_pieces(&mut sink);
        assert!(rt; taken == wanted, "failing at call {fails}");
        assert!(rt; sink.bytes() == held.as_bytes());
    }
}

// Writes so many bytes.
fn fill<K: Sink>(rt: &(impl Abort + AllocGlobal), sink: &mut K, length: usize) {
    assert!(rt; write_all(sink, &long(rt, length)).is_ok());
}

#[test]
fn a_sink_in_memory_has_room_for_a_whole_text(rt: HostRuntime) {
    let mut sink = text_sink(&rt, &[]);
    fill(&rt, &mut sink, 8_388_608);
    fill(&rt, &mut sink, 8_388_607);
    for (piece, taken) in [("yz", false), ("z", true), ("z", false)] {
        assert!(rt; write_all(&mut sink, piece.as_bytes()).is_ok() == taken);
    }
    assert!(rt; sink.bytes().len() == 16_777_216);
}

#[test]
fn an_empty_piece_makes_no_call(rt: HostRuntime) {
    let mut sink = text_sink(&rt, &[1]);
    assert!(rt; write_all(&mut sink, b"").is_ok());
    assert!(rt; takes_pieces(&mut sink) == (false, true, true));
}

#[test]
fn a_sure_sink_counts_what_it_takes(rt: HostRuntime) {
    let mut sink = SureSink::new();
    assert!(rt; takes_pieces(&mut sink) == (true, true, true));
    assert!(rt; sink.taken() == 19);
}

#[test]
fn a_writer_takes_whole_pieces(rt: HostRuntime) {
    let mut held = Vec::new(rt.alloc());
    assert!(rt; takes_pieces(&mut StdSink::new(&mut held)) == (true, true, true));
    assert!(rt; held.as_slice() == b"first line\nsecond\n!".as_slice());
}

#[test]
fn a_piece_goes_on_where_the_writer_stopped(rt: HostRuntime) {
    let mut narrow = Narrow {
        held: Vec::new(rt.alloc()),
        calls: 0,
    };
    assert!(rt; takes_pieces(&mut StdSink::new(&mut narrow)) == (true, true, true));
    assert!(rt; narrow.held.as_slice() == b"first line\nsecond\n!".as_slice());
    assert!(rt; narrow.calls == 9);
}

#[test]
fn a_writer_that_takes_nothing_is_a_fault(rt: HostRuntime) {
    let mut room = [b'.'; 14];
    let mut sink = StdSink::new(room.as_mut_slice());
    assert!(rt; takes_pieces(&mut sink) == (true, false, false));
    assert!(rt; room.as_slice() == b"first line\nsec".as_slice());
}

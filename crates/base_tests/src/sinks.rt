// Sinks: in memory, over a file, and writing all to any.

use lotos_outside::memory_sink::MemorySink;
use lotos_outside::sink::{Sink, SinkFault, write_all};
use lotos_outside::stream_sink::StreamSink;
use std::fs;
use std::test::Fail;

// Whether of three calls of a sink the one with this number fails, and what the others were given is written.
fn fails_at(rt: &HostRuntime, failing: u64) -> Result<bool, Fail> {
    let fails = Vec::from_slice(rt.alloc(), &[failing])?;
    let mut sink = MemorySink::new(Vec::new(rt.alloc()), fails);
    for call in [1, 2, 3] {
        let due = if call == failing {
            Err(SinkFault::Failed)
        } else {
            Ok(2)
        };
        if sink.write(b"ab") != due {
            return Ok(false);
        }
    }
    Ok(sink.bytes() == b"abab".as_slice())
}

#[test]
fn each_call_can_be_told_to_fail(rt: HostRuntime) -> Result<(), Fail> {
    for failing in [1, 2, 3] {
        assert!(rt; fails_at(&rt, failing)?, "call {failing}");
    }
    Ok(())
}

// A sink that takes at most one byte a call, and none once it is full.
#[derive(Drop)]
struct Narrow {
    bytes: Vec<u8>,
    room: usize,
    faults: u64,
}

impl Sink for Narrow {
    ghost use Rattle.std.specs.Prelude.{Some};

    ghost written = { λ sink. Some sink.bytes.items };

    ghost faults = { λ sink. sink.faults };

    fn write(&mut self, piece: &[u8]) -> Result<usize, SinkFault> {
        if self.bytes.len() >= self.room {
            self.faults = self.faults.saturating_add(1);
            return Ok(0);
        }
        let Some(byte) = piece.first() else {
            return Ok(0);
        };
        self.bytes.push(*byte)?;
        Ok(1)
    }
}

#[test]
fn all_is_written_in_as_many_calls_as_it_takes(rt: HostRuntime) -> Result<(), Fail> {
    let mut sink = Narrow {
        bytes: Vec::new(rt.alloc()),
        room: 9,
        faults: 0,
    };
    write_all(&mut sink, b"abc")?;
    write_all(&mut sink, b"")?;
    write_all(&mut sink, b"d")?;
    assert_eq!(rt; sink.bytes.as_slice(), b"abcd".as_slice());
    Ok(())
}

#[test]
fn a_sink_that_takes_nothing_more_is_a_fault(rt: HostRuntime) -> Result<(), Fail> {
    let mut sink = Narrow {
        bytes: Vec::new(rt.alloc()),
        room: 2,
        faults: 0,
    };
    assert_eq!(rt; write_all(&mut sink, b"abc"), Err(SinkFault::Failed));
    assert_eq!(rt; sink.bytes.as_slice(), b"ab".as_slice());
    Ok(())
}

#[test]
fn a_sink_that_fails_ends_the_writing(rt: HostRuntime) -> Result<(), Fail> {
    let fails = Vec::from_slice(rt.alloc(), &[2])?;
    let mut sink = MemorySink::new(Vec::new(rt.alloc()), fails);
    write_all(&mut sink, b"ab")?;
    assert_eq!(rt; write_all(&mut sink, b"cd"), Err(SinkFault::Failed));
    assert_eq!(rt; sink.bytes(), b"ab".as_slice());
    Ok(())
}

#[test]
fn a_file_that_is_only_read_fails(rt: HostRuntime) -> Result<(), Fail> {
    fs::write(&rt, "input", "abc")?;
    let mut sink = StreamSink::new(fs::open(&rt, "input")?);
    assert_eq!(rt; write_all(&mut sink, b"d"), Err(SinkFault::Failed));
    assert_eq!(rt; fs::read(&rt, "input")?.as_slice(), b"abc".as_slice());
    Ok(())
}

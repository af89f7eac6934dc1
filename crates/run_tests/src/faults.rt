// Files that can't be read, and an output that can't be written.

use crate::call::{RUN, STOP, STOP_TRACE, call, call_into};
use lotos_outside::memory_sink::MemorySink;
use lotos_outside::sink::{Sink, SinkFault};
use lotos_run::status::Status;
use std::test::Fail;

const READ_FAULT_TEXT: &[u8] = b"read fault\n";

// The number of the fetch that fails, and the status: the first fetch is that of the specification, the second that of the
// script, and there is no third.
const FETCHES: [(u64, Status); 3] = [
    (1, Status::ReadFault),
    (2, Status::ReadFault),
    (3, Status::Done),
];

// The number of the write that fails, the status, and how many bytes are written.
const WRITES: [(u64, Status, usize); 4] = [
    (0, Status::Done, 27),
    (1, Status::WriteFault, 0),
    (2, Status::WriteFault, 1),
    (3, Status::WriteFault, 2),
];

#[test]
fn a_fetch_that_fails_is_a_read_fault(rt: HostRuntime) -> Result<(), Fail> {
    for &(number, due) in &FETCHES {
        let ended = call(&rt, &RUN, STOP, b"", &[number])?;
        let text = if number < 3 {
            READ_FAULT_TEXT
        } else {
            STOP_TRACE
        };
        assert_eq!(rt; ended.status, due, "call {number}");
        assert_eq!(rt; ended.written.as_slice(), text, "call {number}");
    }
    Ok(())
}

// A sink that takes one byte a call, and fails at one of its calls.
#[derive(Drop)]
struct OneByte {
    bytes: Vec<u8>,
    fails: u64,
    calls: u64,
    faults: u64,
}

impl Sink for OneByte {
    ghost use Rattle.std.specs.Prelude.{Some};

    ghost written = { λ sink. Some sink.bytes.items };

    ghost faults = { λ sink. sink.faults };

    fn write(&mut self, piece: &[u8]) -> Result<usize, SinkFault> {
        self.calls = self.calls.saturating_add(1);
        if self.calls == self.fails {
            self.faults = self.faults.saturating_add(1);
            return Err(SinkFault::Failed);
        }
        let Some(byte) = piece.first() else {
            return Ok(0);
        };
        self.bytes.push(*byte)?;
        Ok(1)
    }
}

#[test]
fn a_prefix_is_written_where_the_output_fails(rt: HostRuntime) -> Result<(), Fail> {
    for &(fails, status, count) in &WRITES {
        let mut out = OneByte {
            bytes: Vec::new(rt.alloc()),
            fails,
            calls: 0,
            faults: 0,
        };
        let ended = call_into(&rt, &RUN, STOP, b"", &[], &mut out)?;
        assert_eq!(rt; ended, status, "call {fails}");
        assert_eq!(rt;
            out.bytes.as_slice(),
            STOP_TRACE.get(..count).ok_or("count")?
        );
    }
    Ok(())
}

#[test]
fn nothing_is_written_where_the_first_write_fails(rt: HostRuntime) -> Result<(), Fail> {
    let fails = Vec::from_slice(rt.alloc(), &[1])?;
    let mut out = MemorySink::new(Vec::new(rt.alloc()), fails);
    let status = call_into(&rt, &RUN, STOP, b"", &[], &mut out)?;
    assert_eq!(rt; status, Status::WriteFault);
    assert_eq!(rt; out.bytes(), b"".as_slice());
    assert_eq!(rt; status.number(), 4);
    Ok(())
}

// A sink in memory.

ghost use Rattle.std.specs.Prelude.{◌≡◌, ◌≤◌, ◌↔◌, [], ◌++◌, length, Contains, IfOk, OnOk, IsErrOf};
ghost use Rattle.lotos_outside.specs.Counts.{next_count};

use crate::sink::{Sink, SinkFault};
use std::marker::Model;

/// A sink in memory, which fails at the calls that it was told to fail at, and at no other.
#[derive(Drop)]
pub struct MemorySink {
    into: Vec<u8>,
    fails: Vec<u64>,
    calls: u64,
    faults: u64,
}

impl Model for MemorySink {
    ghost use Rattle.lotos_outside.specs.Sink.{SinkState};

    ghost Value = { SinkState };

    ghost view = { λ s. record { written = s.into.items; fails = s.fails.items; calls = s.calls; faults = s.faults } };
}

impl MemorySink {
    /// An empty sink, which appends to `into` and fails at the calls with these numbers, counted from 1.
    pub fn new(into: Vec<u8>, fails: Vec<u64>) -> MemorySink
        requires { into.items ≡ [] }
        ensures { result ≡ record { written = []; fails = fails.items; calls = 0; faults = 0 } }
    {
        MemorySink {
            into,
            fails,
            calls: 0,
            faults: 0,
        }
    }

    /// What was written.
    pub fn bytes(&self) -> &[u8]
        ensures { result.now ≡ self.now.written }
    {
        &self.into
    }
}

impl Sink for MemorySink {
    ghost use Rattle.std.specs.Prelude.{Some};

    ghost written = { λ sink. Some sink.written };

    ghost faults = { λ sink. sink.faults };

    fn write(&mut self, piece: &[u8]) -> Result<usize, SinkFault>
        ensures ok { OnOk result (self.new ≡
            record self.old { calls = next_count self.old.calls; written = self.old.written ++ piece.now }) }
        ensures whole { IfOk result (λ count. count ≡ length piece.now) }
        ensures failed { IsErrOf result SinkFault.Failed →
            self.new ≡ record self.old { calls = next_count self.old.calls; faults = next_count self.old.faults } }
        ensures memory { IsErrOf result SinkFault.Memory → self.new ≡ record self.old { calls = next_count self.old.calls } }
        ensures fails { IsErrOf result SinkFault.Failed ↔ Contains self.old.fails (next_count self.old.calls) }
        ensures never_fewer { self.old.faults ≤ self.new.faults }
    {
        self.calls = self.calls.saturating_add(1);
        if self.fails.contains(&self.calls) {
            self.faults = self.faults.saturating_add(1);
            return Err(SinkFault::Failed);
        }
        self.into.extend_from_slice(piece)?;
        Ok(piece.len())
    }
}

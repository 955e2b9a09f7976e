//! A sink in memory.

ghost use Rattle.std.specs.Prelude.{◌≡◌, ◌==◌, [], IfOk};
ghost use Rattle.std.specs.List.{list_any};
ghost use Rattle.std.specs.Result.{is_err};
ghost use Rattle.io_model.specs.Sink.{Puts};
ghost use Rattle.io_model.specs.MemSink.{told_by, refuses, after_put};

use crate::sink::{Sink, SinkFault};
use std::alloc::Global;
use std::marker::Model;
use upd_text::{CallList, NoMemory};

/// Tells its bytes, and fails at the puts that it was told to fail at. They are counted from 0.
#[derive(Drop)]
pub struct MemSink {
    written: Vec<u8>,
    room: u32,
    failing: CallList,
    calls: u64,
    faults: u64,
}

impl Model for MemSink {
    ghost use Rattle.std.specs.Prelude.{◌≤◌, vec_len, vec_capacity};
    ghost use Rattle.io_model.specs.MemSink.{Kept};

    ghost Value = { Kept };

    ghost view = { λ s. record { written = s.written.items; room = s.room; failing = s.failing; calls = s.calls; faults = s.faults } };

    ghost invariant = { λ s. s.room ≤ vec_capacity s.written };
}

impl MemSink {
    /// A sink for at most `room` bytes, without any.
    pub fn new(alloc: Global, room: u32, failing: CallList) -> Result<MemSink, NoMemory>
        ensures { IfOk result (λ s. s ≡ record { written = []; room = room; failing = failing; calls = 0; faults = 0 }) }
    {
        let written = Vec::with_capacity(alloc, room as usize)?;
        Ok(MemSink {
            written,
            room,
            failing,
            calls: 0,
            faults: 0,
        })
    }

    /// The bytes that were written.
    pub fn written(&self) -> &[u8]
        ensures { result.now ≡ self.now.written }
    {
        self.written.as_slice()
    }

    fn refuses(&self, bytes: &[u8]) -> bool
        ensures { result ≡ refuses self.now bytes.now }
    {
        is_among(self.failing.as_slice(), self.calls)
            || (self.room as usize) < self.written.len() + bytes.len()
    }
}

fn is_among(list: &[u64], n: u64) -> bool
    ensures { result ≡ list_any (λ m. m == n) list.now }
{
    list.contains(&n)
}

impl Sink for MemSink {
    ghost means = { told_by };

    fn put(&mut self, bytes: &[u8]) -> Result<(), SinkFault>
        ensures puts { Puts (told_by self.old) bytes.now result (told_by self.new) }

        // It fails exactly where its number is in the list or its bytes don't fit, and then writes none of them.
        ensures answer { is_err result ≡ refuses self.old bytes.now }
        ensures exact { self.new ≡ after_put self.old bytes.now }
    {
        let refused = self.refuses(bytes);
        self.calls = self.calls.saturating_add(1);
        if refused {
            self.faults = self.faults.saturating_add(1);
            return Err(SinkFault);
        }
        match self.written.extend_from_slice(bytes) {
            Ok(()) => Ok(()),
            Err(_) => Err(SinkFault),
        }
    }
}

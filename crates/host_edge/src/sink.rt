//! Standard output as a sink.

ghost use Rattle.std.specs.Prelude.{◌≡◌};
ghost use Rattle.host_edge.specs.Faults.{answer_of, count_of};

use crate::failure::{Failure, Failures};
use io_model::{Sink, SinkFault};
use std::io::{self, Write};

/// Standard output. It tells nothing of what was written, and counts each failed write.
#[derive(Drop)]
pub struct HostSink<R: Print + Drop> {
    rt: R,
    failures: Failures,
}

impl<R: Print + Drop> HostSink<R> {
    pub fn new(rt: R) -> HostSink<R>
        ensures { result.failures.count ≡ 0 }
    {
        HostSink {
            rt,
            failures: Failures::none(),
        }
    }

    /// The writes that failed.
    pub fn failures(&self) -> &Failures {
        &self.failures
    }

    /// Notes elsewhere what failed first.
    pub fn hand_first(&mut self, noted: &mut Failures)
        ensures { noted.new.count ≡ noted.old.count }
    {
        noted.follow(&mut self.failures);
    }
}

/// Counts a write that failed.
fn settle(failures: &mut Failures, done: io::Result<()>) -> Result<(), SinkFault>
    ensures answer { result ≡ answer_of (record {}) done }
    ensures count { failures.new.count ≡ count_of failures.old.count done }
{
    match done {
        Ok(()) => Ok(()),
        Err(reason) => {
            failures.add(Failure::of("standard output", reason));
            Err(SinkFault)
        }
    }
}

impl<R: Print + Drop> Sink for HostSink<R> {
    ghost use Rattle.std.specs.Prelude.{None};

    ghost means = { λ s. record { told = None; faults = s.failures.count } };

    fn put(&mut self, bytes: &[u8]) -> Result<(), SinkFault> {
        let done = io::writer(&self.rt).write_all(bytes);
        settle(&mut self.failures, done)
    }
}

//! A sink that drops what it is given.

ghost use Rattle.std.specs.Prelude.{◌≡◌, None, IsOk};
ghost use Rattle.io_model.specs.Sink.{Written, Puts};

use crate::sink::{Sink, SinkFault};

/// Takes every text, keeps none and tells nothing. A put never fails.
#[derive(Clone, Copy, Debug, PartialEq, Eq)]
pub struct NoSink {}

impl NoSink {
    pub fn new() -> NoSink {
        NoSink {}
    }
}

impl Sink for NoSink {
    ghost means = { λ _. record { told = None; faults = 0 } };

    fn put(&mut self, bytes: &[u8]) -> Result<(), SinkFault>
        ensures puts { let nothing : Written = record { told = None; faults = 0 } in Puts nothing bytes.now result nothing }
        ensures sure { IsOk result }
    {
        let _ = bytes.len();
        Ok(())
    }
}

//! A sink of texts.

/// A put failed. A front of its bytes may have been written.
#[derive(Clone, Copy, Debug, PartialEq, Eq)]
pub struct SinkFault;

/// Takes texts, as standard output does.
pub trait Sink {
    ghost use Rattle.io_model.specs.Sink.{Written, Puts};

    /// The bytes that were written, where the sink tells them, and how often a put failed.
    ghost means: { Self → Written };

    /// Writes the bytes behind those that were written before.
    fn put(&mut self, bytes: &[u8]) -> Result<(), SinkFault>
        ensures puts { Puts (means self.old) bytes.now result (means self.new) };
}

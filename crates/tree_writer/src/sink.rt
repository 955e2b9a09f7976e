//! A sink of files.

use upd_text::Name;

/// An add failed. The file may be there in any form.
#[derive(Clone, Copy, Debug, PartialEq, Eq)]
pub struct TreeFault;

/// Takes the files of a tree, as a folder does.
pub trait TreeSink {
    ghost use Rattle.tree_writer.specs.Sink.{Added, Takes};

    /// The files that were added, where the sink tells them, and how often an add failed.
    ghost means: { Self → Added };

    /// StandBehind a file behind those that were added before.
    fn add(&mut self, path: &Name, bytes: &[u8]) -> Result<(), TreeFault>
        ensures puts { Takes (means self.old) path.now bytes.now result (means self.new) };
}

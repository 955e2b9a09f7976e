//! Where the target stands.

ghost use Rattle.std.specs.Prelude.{◌≡◌, ◌≢◌, true, length, option_map, IfOk};
ghost use Rattle.file_module.specs.Contents.{Contents, content, InContent, IsThere, WhenTold, with_start, with_append, with_settle, with_move, with_remove};
ghost use Rattle.file_module.specs.Calls.{EndsWhole, EndsFresh, Reads};

use device_model::Down;

/// One of the three contents.
#[derive(Clone, Copy, Debug, PartialEq, Eq)]
pub enum Slot {
    /// What the module replaces.
    Target,
    /// What a rollback brings back.
    Saved,
    /// What is being written.
    Fresh,
}

/// Three contents, each bytes or absent, which the place tells or doesn't. A place that is off answers `Off` to each call, and
/// nothing changes. One that is on answers `Off` only where its count of losses rose in the call, and `Fault` only where its
/// count of faults rose. What a condition or an answer says of a content, it says where the contents are told.
pub trait Place {
    /// What the place means.
    ghost means: { Self → Contents };

    /// How many bytes a slot has, or `None` where it is absent. It fails where what stands at the target is neither a file nor
    /// absent.
    fn length(&mut self, slot: Slot) -> Result<Option<u64>, Down>
        ensures ends { EndsWhole (λ m. m) (means self.old) result (means self.new) }
        ensures value { IfOk result (λ n. WhenTold (means self.old) (n ≡ option_map length (content slot (means self.old)))) }
        ensures regular { IfOk result (λ n. WhenTold (means self.old) (slot ≡ Slot.Target → (means self.old).regular ≡ true)) };

    /// Reads bytes of a slot from an offset on. Condition: the range lies in the slot.
    fn read(&mut self, slot: Slot, at: u64, into: &mut [u8]) -> Result<(), Down>
        requires { WhenTold (means self.old) (InContent at (length into.old) (content slot (means self.old))) }
        ensures ends { EndsWhole (λ m. m) (means self.old) result (means self.new) }
        ensures same_length { length into.new ≡ length into.old }
        ensures bytes { WhenTold (means self.old) (Reads (content slot (means self.old)) at into.new result) };

    /// Makes the fresh content empty. Until it is settled, a loss or a failure may leave anything there.
    fn start(&mut self) -> Result<(), Down>
        ensures { EndsFresh with_start (means self.old) result (means self.new) };

    /// Adds bytes at the end of the fresh content, which isn't settled then. Condition: it is there.
    fn append(&mut self, bytes: &[u8]) -> Result<(), Down>
        requires { WhenTold (means self.old) (IsThere (means self.old).fresh) }
        ensures { EndsFresh (with_append bytes.now) (means self.old) result (means self.new) };

    /// After it, the fresh content survives a loss as it stands.
    fn settle(&mut self) -> Result<(), Down>
        ensures { EndsFresh with_settle (means self.old) result (means self.new) };

    /// Moves the fresh content into another slot. Conditions: it is there, and settled.
    fn move_to(&mut self, slot: Slot) -> Result<(), Down>
        requires there { WhenTold (means self.old) (IsThere (means self.old).fresh) }
        requires settled { (means self.old).settled ≡ true }
        requires other { slot ≢ Slot.Fresh }
        ensures { EndsWhole (with_move slot) (means self.old) result (means self.new) };

    /// Makes a slot absent.
    fn remove(&mut self, slot: Slot) -> Result<(), Down>
        ensures { EndsWhole (with_remove slot) (means self.old) result (means self.new) };
}

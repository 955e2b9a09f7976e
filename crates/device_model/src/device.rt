//! The device.

ghost use Rattle.std.specs.Prelude.{◌≡◌, ◌+◌, ◌≤◌, length, Option};
ghost use Rattle.device_model.specs.Disk.{KeepsDisk, IsWhole};
ghost use Rattle.device_model.specs.Work.{cleared, with_bytes, work_synced};
ghost use Rattle.device_model.specs.State.{State, EndsRead, EndsWrite, EndsSync, EndsWork, EndsChild, EndsAsk, EndsPause, IsPlain, Reads};

use crate::calls::{Asked, Call, Down, Off, Part, Query, Ran};
use upd_text::Name;

/// How many bytes the area of a device has.
pub const AREA: u32 = 266_240;

/// How many events one state of a deployment makes at the most.
pub const STATE_EVENTS: u32 = 6_000;

/// How many events a journal must take before a command begins: those of 28 states, and a loss.
pub const ROOM: u32 = 168_001;

/// A disk, a work folder, children and a journal. A device that is off answers `Off` to each call, and nothing changes. One
/// that is on answers `Off` only where its count of losses rose in the call, and `Fault` only where its count of faults rose.
pub trait Device {
    /// What the device was set up to do, as plain data.
    type Plan;

    /// What the device means.
    ghost means: { Self → State };

    /// The plan, where it has one. No call changes it.
    ghost plan: { Self → Option Self.Plan };

    /// How many further events the journal can take.
    fn room(&self) -> u32
        ensures { result ≡ (means self.now).room };

    /// Reads bytes of the area from an offset on. It changes nothing.
    fn disk_read(&mut self, at: u32, into: &mut [u8]) -> Result<(), Down>
        requires room { 1 ≤ (means self.old).room }
        requires range { at + length into.old ≤ AREA }
        ensures plan { plan self.new ≡ plan self.old }
        ensures ends { EndsRead (means self.old) result (means self.new) }
        ensures bytes { Reads (means self.old).disk at into.new result }
        ensures leaves { KeepsDisk (means self.old).disk (means self.new).disk };

    /// Writes bytes into the area from an offset on. Until a sync, a loss may leave any bytes there.
    fn disk_write(&mut self, at: u32, bytes: &[u8]) -> Result<(), Down>
        requires room { 1 ≤ (means self.old).room }
        requires range { at + length bytes.now ≤ AREA }
        ensures plan { plan self.new ≡ plan self.old }
        ensures ends { EndsWrite at bytes.now (means self.old) result (means self.new) };

    /// After it, nothing is unsynced.
    fn disk_sync(&mut self) -> Result<(), Down>
        requires room { 1 ≤ (means self.old).room }
        ensures plan { plan self.new ≡ plan self.old }
        ensures ends { EndsSync (means self.old) result (means self.new) }
        ensures leaves { KeepsDisk (means self.old).disk (means self.new).disk };

    /// Takes all files out of the work folder.
    fn work_clear(&mut self) -> Result<(), Down>
        requires room { 1 ≤ (means self.old).room }
        ensures plan { plan self.new ≡ plan self.old }
        ensures ends { EndsWork cleared (means self.old) result (means self.new) }
        ensures leaves { KeepsDisk (means self.old).disk (means self.new).disk };

    /// Adds bytes at the end of a file in the work folder, or makes it with these bytes.
    fn work_append(&mut self, part: Part, path: &Name, bytes: &[u8]) -> Result<(), Down>
        requires room { 1 ≤ (means self.old).room }
        ensures plan { plan self.new ≡ plan self.old }
        ensures ends { EndsWork (with_bytes part path.now bytes.now) (means self.old) result (means self.new) }
        ensures leaves { KeepsDisk (means self.old).disk (means self.new).disk };

    /// After it, the work folder survives a loss as it stands.
    fn work_sync(&mut self) -> Result<(), Down>
        requires room { 1 ≤ (means self.old).room }
        ensures plan { plan self.new ≡ plan self.old }
        ensures ends { EndsWork work_synced (means self.old) result (means self.new) }
        ensures leaves { KeepsDisk (means self.old).disk (means self.new).disk };

    /// Starts a child that is no question, and waits for its end.
    fn run_child(&mut self, call: &Call) -> Ran
        requires room { 3 ≤ (means self.old).room }
        requires plain { IsPlain call.now }
        ensures plan { plan self.new ≡ plan self.old }
        ensures ends { EndsChild call.now (means self.old) result (means self.new) }
        ensures leaves { KeepsDisk (means self.old).disk (means self.new).disk };

    /// Asks a module, and waits for its reply.
    fn ask_child(&mut self, payload: u8, kind: &Name, query: Query) -> Asked
        requires room { 3 ≤ (means self.old).room }
        ensures plan { plan self.new ≡ plan self.old }
        ensures ends { EndsAsk (Call.Ask payload kind.now query) (means self.old) result (means self.new) }
        ensures leaves { KeepsDisk (means self.old).disk (means self.new).disk };

    /// Waits for so many seconds.
    fn pause(&mut self, seconds: u32) -> Result<(), Off>
        requires room { 2 ≤ (means self.old).room }
        ensures plan { plan self.new ≡ plan self.old }
        ensures ends { EndsPause seconds (means self.old) result (means self.new) }
        ensures leaves { KeepsDisk (means self.old).disk (means self.new).disk };

    /// A disk that is told has a whole area.
    ghost whole: { (device : Self) → IsWhole 266240 (means device).disk };
}

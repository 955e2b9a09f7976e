//! The flow of one boot.

ghost use Rattle.std.specs.Prelude.{◌≡◌, ◌≤◌, true, IsTrue};
ghost use Rattle.flow_table.specs.Valid.{is_valid};
ghost use Rattle.record_codec.specs.declared.entry.Entry.{Entry};
ghost use Rattle.slot_store.specs.Kept.{IsOf};
ghost use Rattle.slot_store.specs.Put.{IsFull};
ghost use Rattle.flow_drive.specs.Drive.{Drove, IsDecided, cut_off};

use crate::calls::run_state;
use crate::payloads::StateEnd;
use device_model::{Device, Down, ROOM};
use flow_table::{Outcome, Position, State, Step, next};
use record_codec::Db;
use script_names::Site;
use slot_store::Store;

/// How a deployment went on.
#[derive(Clone, Copy, Debug, PartialEq, Eq)]
pub enum DriveEnd {
    /// It is at its end, with this outcome.
    Ended(Outcome),
    /// It waits for an order.
    Waits,
    /// It goes on after a reboot.
    RebootNeeded,
    /// Power was lost.
    Off,
    DiskFault,
}

fn cut_off(down: Down) -> DriveEnd
    ensures { result ≡ cut_off down }
{
    match down {
        Down::Off => DriveEnd::Off,
        Down::Fault => DriveEnd::DiskFault,
    }
}

/// Goes through the states of the store's entry from a position on. Each position is put before the first call of its
/// state. Conditions: the device is on, the store is of this device and has an entry, the position is valid, and the
/// journal takes all that may come. It takes no memory.
pub fn drive<D: Device>(
    store: &mut Store,
    site: &Site,
    device: &mut D,
    entry: Position,
    stop: bool,
) -> DriveEnd
    requires on { (D.means device.old).on ≡ true }
    requires room { ROOM ≤ (D.means device.old).room }
    requires entry { IsFull store.old.db }
    requires valid { IsTrue (is_valid entry) }
    requires of { IsOf store.old (D.means device.old).disk }
    ensures plan { D.plan device.new ≡ D.plan device.old }
    ensures decided { IsDecided result }
    ensures drove { (e : Entry) → store.old.db ≡ Db.Full e → Drove site.now e stop entry result store.new (D.means device.old) (D.means device.new) }
{
    let mut position = entry;
    'states: loop {
        match store.put(device, &position) {
            Ok(()) => {}
            Err(down) => return cut_off(down),
        }
        match position.state {
            State::Idle => return DriveEnd::Ended(position.outcome),
            State::Wait => return DriveEnd::Waits,
            _ => {}
        }
        let Db::Full(held) = store.db() else {
            return DriveEnd::Waits;
        };
        let heard = match run_state(device, site, held, &position) {
            StateEnd::Off => return DriveEnd::Off,
            StateEnd::Heard(heard) => heard,
        };
        match next(&position, heard, stop) {
            Step::Stop => return DriveEnd::RebootNeeded,
            Step::Enter(entered) => position = entered,
        }
    }
}

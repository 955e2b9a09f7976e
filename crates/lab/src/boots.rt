//! Boots in a row.

ghost use Rattle.std.specs.Prelude.{◌≡◌, ◌≤◌, ◌+◌, true, false, [], ◌∷◌, ℕ, All, length, IfOk};
ghost use Rattle.device_model.specs.Disk.{IsSettled};
ghost use Rattle.device_mem.specs.Mem.{mem_of, state_of};
ghost use Rattle.client_top.specs.Answers.{row_of, is_synced};
ghost use Rattle.lab.specs.Campaign.{Campaigned, Campaigns, simulates};
ghost use Rattle.lab.specs.declared.runs.BootRun.{BootRun as Run};

use crate::runs::{BootRun, CommandList, Runs, kept};
use client_top::{Status, obey};
use client_words::Command;
use device_mem::MemDevice;
use device_model::ROOM;
use io_model::{MemSource, NoSink};
use script_names::Site;
use std::alloc::Global;
use upd_text::NoMemory;

/// Brings power on, and obeys the command.
fn obey_after_power_on(
    alloc: Global,
    command: Command,
    site: &Site,
    source: &mut MemSource,
    device: &mut MemDevice,
) -> Status
    requires room { ROOM ≤ (state_of device.old).room + length (state_of device.old).journal }
    requires obeyed { simulates command ≡ false }
    ensures campaign { (room : ℕ) → Campaigned site.now (command ∷ []) (mem_of device.old) (mem_of device.new) source.old source.new
        ((record { command = command; events = record { events = (state_of device.new).journal; room = room }; status = result }) ∷ []) }
    ensures settled { is_synced (row_of result).basis ≡ true → IsSettled (state_of device.new).disk }
{
    device.power_on();
    obey(alloc, command, site, source, &mut NoSink::new(), device)
}

/// One boot. It was made also where there is no memory to keep what it did.
pub(crate) fn boot(
    alloc: Global,
    command: Command,
    site: &Site,
    source: &mut MemSource,
    device: &mut MemDevice,
) -> Result<BootRun, NoMemory>
    requires room { ROOM ≤ (state_of device.old).room + length (state_of device.old).journal }
    requires obeyed { simulates command ≡ false }
    ensures campaign { (run : Run) × Campaigned site.now (command ∷ []) (mem_of device.old) (mem_of device.new) source.old source.new (run ∷ []) × IfOk result (λ r. r ≡ run) }
    ensures settled { IfOk result (λ r. is_synced (row_of r.status).basis ≡ true → IsSettled (state_of device.new).disk) }
{
    let status = obey_after_power_on(alloc, command, site, source, device);
    let events = kept(alloc, device.journal())?;
    Ok(BootRun {
        command,
        events,
        status,
    })
}

/// Makes a boot for each command, in their order: brings power on, obeys the command, and keeps what it did. `site` is the
/// device's own type and scripts, `source` the tree that may be installed. Conditions: an empty journal of the device has room
/// for `ROOM` events, and no command simulates. After `NoMemory` the boots up to one were made.
pub fn campaign(
    alloc: Global,
    site: &Site,
    source: &mut MemSource,
    boots: &CommandList,
    device: &mut MemDevice,
) -> Result<Runs, NoMemory>
    requires room { ROOM ≤ (state_of device.old).room + length (state_of device.old).journal }
    requires obeyed { All (λ c. simulates c ≡ false) boots.now }
    ensures { Campaigns site.now boots.now (mem_of device.old) (mem_of device.new) source.old source.new result }
{
    let mut runs = Runs::new(alloc);
    for i in 0..boots.len() {
        runs.push(boot(alloc, *boots.at(i), site, source, device)?)?;
    }
    Ok(runs)
}

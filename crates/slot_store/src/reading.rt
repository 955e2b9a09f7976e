//! Reading what an area picks.

ghost use Rattle.std.specs.Prelude.{◌≡◌, ◌<◌, ◌≤◌, true, length, slice_index, IfOk, IfSome};
ghost use Rattle.device_model.specs.Disk.{KeepsDisk};
ghost use Rattle.device_model.specs.State.{EndsSync, EndsRead};
ghost use Rattle.device_model.specs.How.{Waited, how_of};
ghost use Rattle.slot_store.specs.Mount.{ReadEnds};

use crate::layout::{SLOT, cells_of, offset_of, start_of};
use device_model::{AREA, Device, Down};

/// Which slot is picked, which of its cells, and that cell.
#[derive(Clone, Copy)]
pub(crate) struct Found {
    pub(crate) picked: u8,
    pub(crate) cell_picked: u8,
    pub(crate) cell: [u8; 64],
}

/// Syncs, so that nothing may be lost any more.
fn settle<D: Device>(device: &mut D) -> Result<(), Down>
    requires on { (D.means device.old).on ≡ true }
    requires room { 1 ≤ (D.means device.old).room }
    ensures plan { D.plan device.new ≡ D.plan device.old }
    ensures ends { EndsSync (D.means device.old) result (D.means device.new) }
    ensures leaves { KeepsDisk (D.means device.old).disk (D.means device.new).disk }
{
    device.disk_sync()
}

/// Reads one byte of the area.
fn read_byte<D: Device>(device: &mut D, at: u32) -> Result<u8, Down>
    requires on { (D.means device.old).on ≡ true }
    requires room { 1 ≤ (D.means device.old).room }
    requires range { at < AREA }
    ensures plan { D.plan device.new ≡ D.plan device.old }
    ensures ends { EndsRead (D.means device.old) result (D.means device.new) }
    ensures leaves { KeepsDisk (D.means device.old).disk (D.means device.new).disk }
    ensures byte { IfOk result (λ byte. IfSome (D.means device.old).disk (λ d. byte ≡ slice_index d.area at)) }
{
    let mut byte = [0];
    match device.disk_read(at, &mut byte) {
        Ok(()) => Ok(byte[0]),
        Err(down) => Err(down),
    }
}

/// Syncs, and reads the slot that byte 0 of the area picks, and the cell that this slot's selector picks.
pub(crate) fn read_picked<D: Device>(device: &mut D, slot: &mut [u8]) -> Result<Found, Down>
    requires on { (D.means device.old).on ≡ true }
    requires room { 1 ≤ (D.means device.old).room }
    requires whole { length slot.old ≡ SLOT }
    ensures plan { D.plan device.new ≡ D.plan device.old }
    ensures waited { Waited (how_of result) (D.means device.old) (D.means device.new) }
    ensures ends { ReadEnds (D.means device.old) result slot.new (D.means device.new) }
    ensures picked { IfOk result (λ found. found.picked ≤ 1) }
    ensures cell { IfOk result (λ found. found.cell_picked ≤ 1) }
{
    match settle(device) {
        Ok(()) => {}
        Err(down) => return Err(down),
    }
    let selector = match read_byte(device, 0) {
        Ok(selector) => selector,
        Err(down) => return Err(down),
    };
    match device.disk_read(start_of(selector), slot) {
        Ok(()) => {}
        Err(down) => return Err(down),
    }
    let start = cells_of(selector);
    let cell_selector = match read_byte(device, start) {
        Ok(cell_selector) => cell_selector,
        Err(down) => return Err(down),
    };
    let mut cell = [0; 64];
    match device.disk_read(start + offset_of(cell_selector), &mut cell) {
        Ok(()) => {}
        Err(down) => return Err(down),
    }
    Ok(Found {
        picked: selector % 2,
        cell_picked: cell_selector % 2,
        cell,
    })
}

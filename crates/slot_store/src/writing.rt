//! Writing a record, and writing a cell.

ghost use Rattle.std.specs.Prelude.{◌≡◌, ◌+◌, ◌-◌, ◌≤◌, true, length, OnOk, IfSome, IsTrue, IsFalse, ◌<◌, ◌∷◌, []};
ghost use Rattle.device_model.specs.Disk.{ChangesOnly};
ghost use Rattle.device_model.specs.State.{after_write, after_sync};
ghost use Rattle.device_model.specs.How.{how_of};
ghost use Rattle.flow_table.specs.Valid.{is_valid};
ghost use Rattle.record_codec.specs.declared.entry.Db.TheVariants.{Full};
ghost use Rattle.record_codec.specs.declared.entry.Entry.{Entry};
ghost use Rattle.slot_store.specs.Mount.{is_old};
ghost use Rattle.slot_store.specs.Slots.{picked_slot};
ghost use Rattle.slot_store.specs.Kept.{IsStorable, IsPicked, HasRecord};
ghost use Rattle.record_codec.specs.Spelling.{record_length};
ghost use Rattle.slot_store.specs.Written.{Keeps, IsPastRecord, IsPastCell, HasFresh, HasCell};
ghost use Rattle.slot_store.specs.Put.{Wrote, Turns, Holds, IsCellPicked, KeepsSlots, Replaces};

use crate::layout::{CELLS, SLOT, cells_of, offset_of, start_of};
use device_model::{AREA, Device, Down};
use flow_table::Position;
use record_codec::{Entry, encode_cell, encode_into};

/// Writes bytes.
fn write_bytes<D: Device>(device: &mut D, at: u32, bytes: &[u8]) -> Result<(), Down>
    requires on { (D.means device.old).on ≡ true }
    requires room { 1 ≤ (D.means device.old).room }
    requires range { at + length bytes.now ≤ AREA }
    ensures plan { D.plan device.new ≡ D.plan device.old }
    ensures wrote { Wrote (how_of result) (D.means device.old) (D.means device.new) }
    ensures ok { OnOk result (D.means device.new ≡ after_write at bytes.now (D.means device.old)) }
    ensures leaves { ChangesOnly at (length bytes.now) (D.means device.old).disk (D.means device.new).disk }
{
    match device.disk_write(at, bytes) {
        Ok(()) => Ok(()),
        Err(down) => Err(down),
    }
}

/// Writes bytes and syncs.
fn write_synced<D: Device>(device: &mut D, at: u32, bytes: &[u8]) -> Result<(), Down>
    requires on { (D.means device.old).on ≡ true }
    requires room { 1 ≤ (D.means device.old).room }
    requires range { at + length bytes.now ≤ AREA }
    ensures plan { D.plan device.new ≡ D.plan device.old }
    ensures wrote { Wrote (how_of result) (D.means device.old) (D.means device.new) }
    ensures ok { OnOk result (D.means device.new ≡ after_sync (after_write at bytes.now (D.means device.old))) }
    ensures leaves { ChangesOnly at (length bytes.now) (D.means device.old).disk (D.means device.new).disk }
{
    match write_bytes(device, at, bytes) {
        Ok(()) => {}
        Err(down) => return Err(down),
    }
    device.disk_sync()
}

/// Writes what is to stand at a place, syncs, sets the selector that picks the place, and syncs.
fn write_and_pick<D: Device>(
    device: &mut D,
    at: u32,
    bytes: &[u8],
    selector: u32,
    number: u8,
) -> Result<(), Down>
    requires on { (D.means device.old).on ≡ true }
    requires room { 1 ≤ (D.means device.old).room }
    requires range { at + length bytes.now ≤ AREA }
    requires selector { selector < AREA }
    ensures plan { D.plan device.new ≡ D.plan device.old }
    ensures wrote { Wrote (how_of result) (D.means device.old) (D.means device.new) }
    ensures ok { OnOk result (D.means device.new ≡ after_sync (after_write selector (number ∷ []) (after_sync (after_write at bytes.now (D.means device.old))))) }
    ensures leaves { Replaces at bytes.now selector (D.means device.old) (D.means device.new).disk }
{
    match write_synced(device, at, bytes) {
        Ok(()) => {}
        Err(down) => return Err(down),
    }
    write_synced(device, selector, &[number])
}

/// Writes the record of an entry into the slot that isn't picked, with no cell, and then picks that slot. The buffer takes
/// the record.
pub(crate) fn write_record<D: Device>(
    device: &mut D,
    picked: u8,
    entry: &Entry,
    buffer: &mut [u8],
) -> Result<(), Down>
    requires on { (D.means device.old).on ≡ true }
    requires room { 1 ≤ (D.means device.old).room }
    requires picked { picked ≤ 1 }
    requires storable { IsStorable entry.now }
    requires whole { length buffer.old ≡ SLOT }
    requires is_picked { IfSome (D.means device.old).disk (IsPicked picked) }
    ensures plan { D.plan device.new ≡ D.plan device.old }
    ensures wrote { Wrote (how_of result) (D.means device.old) (D.means device.new) }
    ensures turns { Turns entry.now (D.means device.old).disk (D.means device.new).disk }
    ensures ok { OnOk result (IfSome (D.means device.new).disk (Holds entry.now (1 - picked) 0)) }
    ensures version { OnOk result (IfSome (D.means device.new).disk (λ d. IsFalse (is_old (picked_slot d.area)))) }
    ensures fresh { OnOk result (IfSome (D.means device.new).disk (λ d. HasFresh entry.now (1 - picked) d.area)) }
    ensures spares { IfSome (D.means device.old).disk (λ d. Keeps (IsPastRecord (1 - picked) (record_length entry.now)) d.area (D.means device.new).disk) }
{
    let size = encode_into(entry, buffer);
    let other = 1 - picked;
    match write_bytes(device, start_of(other), &buffer[..size as usize]) {
        Ok(()) => {}
        Err(down) => return Err(down),
    }
    write_and_pick(device, cells_of(other), &[0; CELLS], 0, other)
}

/// Writes the cell of a position where the picked slot has the one that isn't picked, and then picks it.
pub(crate) fn write_cell<D: Device>(
    device: &mut D,
    picked: u8,
    cell: u8,
    position: &Position,
) -> Result<(), Down>
    requires on { (D.means device.old).on ≡ true }
    requires room { 1 ≤ (D.means device.old).room }
    requires picked { picked ≤ 1 }
    requires cell { cell ≤ 1 }
    requires valid { IsTrue (is_valid position.now) }
    requires is_picked { IfSome (D.means device.old).disk (IsCellPicked picked cell) }
    ensures plan { D.plan device.new ≡ D.plan device.old }
    ensures wrote { Wrote (how_of result) (D.means device.old) (D.means device.new) }
    ensures turns { (e : Entry) → IfSome (D.means device.old).disk (λ d. HasRecord (Full e) cell d.area)
        → Turns (record e { position = position.now }) (D.means device.old).disk (D.means device.new).disk }
    ensures slots { IfSome (D.means device.old).disk (λ d. KeepsSlots d.area (D.means device.new).disk) }
    ensures written { OnOk result (IfSome (D.means device.new).disk (λ d. HasCell position.now picked (1 - cell) d.area)) }
    ensures spares { IfSome (D.means device.old).disk (λ d. Keeps (IsPastCell picked (1 - cell)) d.area (D.means device.new).disk) }
    ensures ok { (e : Entry) → IfSome (D.means device.old).disk (λ d. HasRecord (Full e) cell d.area)
        → OnOk result (IfSome (D.means device.new).disk (Holds (record e { position = position.now }) picked (1 - cell))) }
{
    let other = 1 - cell;
    let start = cells_of(picked);
    write_and_pick(
        device,
        start + offset_of(other),
        &encode_cell(position),
        start,
        other,
    )
}

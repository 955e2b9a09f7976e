//! The store.

ghost use Rattle.std.specs.Prelude.{◌≡◌, ◌≤◌, ◌-◌, false, true, length, IfOk, IfSome, OnOk, IsTrue, IsFalse, Option};
ghost use Rattle.flow_table.specs.Valid.{is_valid};
ghost use Rattle.record_codec.specs.Cells.{cell};
ghost use Rattle.record_codec.specs.Spelling.{IsRight, IfFull, record_length};
ghost use Rattle.device_model.specs.Disk.{Disk};
ghost use Rattle.device_model.specs.How.{Waited, how_of};
ghost use Rattle.slot_store.specs.Slots.{OldOrNew, Sound, placed, picked_slot};
ghost use Rattle.slot_store.specs.Kept.{IsOf, IsPicked, IsStorable};
ghost use Rattle.slot_store.specs.Mount.{mount_how, MountEnds, LookEnds, AddsNoDb, is_old};
ghost use Rattle.slot_store.specs.Put.{IsFull, moved, Wrote, IsPut, KeepsSlots};
ghost use Rattle.slot_store.specs.Written.{Keeps, IsPastRecord, IsPastCell, IsSpared, HasPut, put_to, put_first, put_further, size_of};

use crate::layout::SLOT;
use crate::reading::read_picked;
use crate::writing::{write_cell, write_record};
use device_model::{Device, Down};
use flow_table::Position;
use record_codec::{Db, DecodeFault, Entry, LARGEST_RECORD, decode, decode_cell, is_first_version};
use std::alloc::Global;
use std::marker::Model;
use upd_text::NoMemory;

/// The database for which an area stands, and a buffer for a slot.
#[derive(Drop)]
pub struct Store {
    picked: u8,
    cell: u8,
    loaded: bool,
    db: Db,
    buffer: Vec<u8>,
}

impl Model for Store {
    ghost use Rattle.std.specs.Prelude.{◌≡◌, ◌≤◌, length};
    ghost use Rattle.record_codec.specs.Spelling.{IfFull};
    ghost use Rattle.slot_store.specs.Kept.{Kept, IsStorable};
    ghost use Rattle.slot_store.specs.declared.layout.TheConstants.{SLOT};

    ghost Value = { Kept };

    ghost view = { λ s. record { picked = s.picked; cell = s.cell; loaded = s.loaded; db = s.db } };

    ghost invariant = { λ s. (s.picked ≤ 1) × (s.cell ≤ 1) × IfFull IsStorable s.db × (length s.buffer.items ≡ SLOT) };
}

/// Why a device has no store.
#[derive(Clone, Copy, Debug, PartialEq, Eq)]
pub enum MountFault {
    /// Power was lost.
    Off,
    DiskFault,
    /// The picked slot is no record: the offset of its first wrong field. Or its picked cell is none: 200,000 and the offset
    /// of the cell's first wrong byte.
    BadStore(u32),
    NoMemory,
}

impl Store {
    /// Syncs, and reads the slot that byte 0 of the area picks, and the cell that the slot's own selector picks. Where that
    /// slot has a record of the older version, the entry is written again at its position, in the way of a first put. It needs
    /// memory for one slot and for what its record says.
    pub fn mount<D: Device>(alloc: Global, device: &mut D) -> Result<Store, MountFault>
        requires on { (D.means device.old).on ≡ true }
        requires room { 1 ≤ (D.means device.old).room }
        ensures plan { D.plan device.new ≡ D.plan device.old }
        ensures wrote { Wrote (mount_how result) (D.means device.old) (D.means device.new) }
        ensures adds { AddsNoDb (D.means device.old).disk (D.means device.new).disk }
        ensures ends { MountEnds (D.means device.old) result (D.means device.new) }
    {
        let (mut store, is_old) = match Store::read(alloc, device) {
            Ok(read) => read,
            Err(fault) => return Err(fault),
        };
        if !is_old {
            return Ok(store);
        }
        match store.put_record(device) {
            Ok(()) => Ok(store),
            Err(Down::Off) => Err(MountFault::Off),
            Err(Down::Fault) => Err(MountFault::DiskFault),
        }
    }

    /// Syncs, and reads what is picked. It answers whether the picked slot has a record of the older version.
    fn read<D: Device>(alloc: Global, device: &mut D) -> Result<(Store, bool), MountFault>
        requires on { (D.means device.old).on ≡ true }
        requires room { 1 ≤ (D.means device.old).room }
        ensures plan { D.plan device.new ≡ D.plan device.old }
        ensures waited { Waited (mount_how result) (D.means device.old) (D.means device.new) }
        ensures ends { LookEnds (D.means device.old) result (D.means device.new) }
    {
        let Ok(mut buffer) = zeros(alloc, SLOT as usize) else {
            return Err(MountFault::NoMemory);
        };
        let found = match read_picked(device, &mut buffer) {
            Ok(found) => found,
            Err(Down::Off) => return Err(MountFault::Off),
            Err(Down::Fault) => return Err(MountFault::DiskFault),
        };
        let db = match decode(alloc, &buffer) {
            Ok(db) => db,
            Err(DecodeFault::NotARecord(offset)) => return Err(MountFault::BadStore(offset)),
            Err(DecodeFault::NoMemory) => return Err(MountFault::NoMemory),
        };
        let db = match placed(db, &found.cell) {
            Ok(db) => db,
            Err(offset) => return Err(MountFault::BadStore(offset)),
        };
        let is_old = is_old_entry(&db, &buffer);
        Ok((
            Store {
                picked: found.picked,
                cell: found.cell_picked,
                loaded: false,
                db,
                buffer,
            },
            is_old,
        ))
    }

    /// The database.
    pub fn db(&self) -> &Db
        ensures value { result.now ≡ self.now.db }
        ensures right { IfFull IsRight self.now.db }
    {
        &self.db
    }

    /// Takes another entry in place of what is there, and writes nothing. Conditions: the entry is right, and its record
    /// fits a slot.
    pub fn load(&mut self, entry: Entry)
        requires right { IsRight entry }
        requires fits { record_length entry ≤ LARGEST_RECORD }
        ensures takes { self.new ≡ record self.old { db = Db.Full entry; loaded = true } }
        ensures of { (disk : Option Disk) → IsOf self.old disk → IsOf self.new disk }
    {
        self.db = Db::Full(entry);
        self.loaded = true;
    }

    /// Puts the entry at a position. The first put after an entry was loaded writes its record into the slot that isn't
    /// picked, and picks that; every other one writes the cell of that slot that isn't picked, and picks it. Where it is
    /// stopped, the old one stands or the new one, and the store isn't used again.
    pub fn put<D: Device>(&mut self, device: &mut D, position: &Position) -> Result<(), Down>
        requires on { (D.means device.old).on ≡ true }
        requires room { 1 ≤ (D.means device.old).room }
        requires entry { IsFull self.old.db }
        requires valid { IsTrue (is_valid position.now) }
        requires of { IsOf self.old (D.means device.old).disk }
        ensures plan { D.plan device.new ≡ D.plan device.old }
        ensures wrote { Wrote (how_of result) (D.means device.old) (D.means device.new) }
        ensures ok { OnOk result (IsPut (moved position.now self.old.db) self.new (D.means device.old) (D.means device.new)) }
        ensures any { OldOrNew (moved position.now self.old.db) (D.means device.old).disk (D.means device.new).disk }
        ensures sound { Sound (D.means device.old).disk → Sound (D.means device.new).disk }
        // A put that writes a cell leaves all bytes of the slots.
        ensures slots { self.old.loaded ≡ false → IfSome (D.means device.old).disk (λ d. KeepsSlots d.area (D.means device.new).disk) }
        // The bytes that it doesn't write stay, wherever it is stopped.
        ensures spares { IfSome (D.means device.old).disk (λ d. Keeps (IsSpared self.old) d.area (D.means device.new).disk) }
        // And those that it writes.
        ensures written { OnOk result (IfSome (D.means device.new).disk (λ d. HasPut self.old.loaded self.new d.area)) }
        // And what the store then keeps.
        ensures store { OnOk result (self.new ≡ put_to position.now self.old) }
    {
        self.take_to(position);
        if self.loaded {
            self.put_record(device)
        } else {
            self.put_cell(device)
        }
    }

    /// Takes the entry to a position, and writes nothing.
    fn take_to(&mut self, position: &Position)
        requires valid { IsTrue (is_valid position.now) }
        ensures { self.new ≡ record self.old { db = moved position.now self.old.db } }
    {
        take_db_to(&mut self.db, position);
    }

    /// Writes the entry's record into the slot that isn't picked, and picks that.
    fn put_record<D: Device>(&mut self, device: &mut D) -> Result<(), Down>
        requires on { (D.means device.old).on ≡ true }
        requires room { 1 ≤ (D.means device.old).room }
        requires entry { IsFull self.old.db }
        requires is_picked { IfSome (D.means device.old).disk (IsPicked self.old.picked) }
        ensures plan { D.plan device.new ≡ D.plan device.old }
        ensures wrote { Wrote (how_of result) (D.means device.old) (D.means device.new) }
        ensures ok { OnOk result (IsPut self.old.db self.new (D.means device.old) (D.means device.new)) }
        ensures any { OldOrNew self.old.db (D.means device.old).disk (D.means device.new).disk }
        ensures sound { Sound (D.means device.old).disk → Sound (D.means device.new).disk }
        ensures version { OnOk result (IfSome (D.means device.new).disk (λ d. IsFalse (is_old (picked_slot d.area)))) }
        ensures spares { IfSome (D.means device.old).disk (λ d. Keeps (IsPastRecord (1 - self.old.picked) (size_of self.old.db)) d.area (D.means device.new).disk) }
        ensures written { OnOk result (IfSome (D.means device.new).disk (λ d. HasPut true self.new d.area)) }
        ensures store { OnOk result (self.new ≡ put_first self.old) }
    {
        let Db::Full(entry) = &self.db else {
            return Err(Down::Fault);
        };
        match write_record(device, self.picked, entry, &mut self.buffer) {
            Ok(()) => {}
            Err(down) => return Err(down),
        }
        self.picked = 1 - self.picked;
        self.cell = 0;
        self.loaded = false;
        Ok(())
    }

    /// Writes the entry's position into the cell that isn't picked, and picks that.
    fn put_cell<D: Device>(&mut self, device: &mut D) -> Result<(), Down>
        requires on { (D.means device.old).on ≡ true }
        requires room { 1 ≤ (D.means device.old).room }
        requires entry { IsFull self.old.db }
        requires put { self.old.loaded ≡ false }
        requires of { IsOf self.old (D.means device.old).disk }
        ensures plan { D.plan device.new ≡ D.plan device.old }
        ensures wrote { Wrote (how_of result) (D.means device.old) (D.means device.new) }
        ensures ok { OnOk result (IsPut self.old.db self.new (D.means device.old) (D.means device.new)) }
        ensures any { OldOrNew self.old.db (D.means device.old).disk (D.means device.new).disk }
        ensures sound { Sound (D.means device.old).disk → Sound (D.means device.new).disk }
        ensures slots { IfSome (D.means device.old).disk (λ d. KeepsSlots d.area (D.means device.new).disk) }
        ensures spares { IfSome (D.means device.old).disk (λ d. Keeps (IsPastCell self.old.picked (1 - self.old.cell)) d.area (D.means device.new).disk) }
        ensures written { OnOk result (IfSome (D.means device.new).disk (λ d. HasPut false self.new d.area)) }
        ensures store { OnOk result (self.new ≡ put_further self.old) }
    {
        let Db::Full(entry) = &self.db else {
            return Err(Down::Fault);
        };
        match write_cell(device, self.picked, self.cell, &entry.position) {
            Ok(()) => {}
            Err(down) => return Err(down),
        }
        self.cell = 1 - self.cell;
        Ok(())
    }
}

/// Takes an entry to a position.
fn take_db_to(db: &mut Db, position: &Position)
    ensures { db.new ≡ moved position.now db.old }
{
    match db {
        Db::Empty => {}
        Db::Full(entry) => entry.position = *position,
    }
}

/// Whether there is an entry, and the slot begins as its record of the older version does.
#[tactic(auto, unfolding(crate::specs::Mount::is_old))]
fn is_old_entry(db: &Db, slot: &[u8]) -> bool
    ensures entry { IsTrue result → IsFull db.now }
    ensures slot { IsTrue result → IsTrue (is_old slot.now) }
    ensures only { IsFull db.now → IsTrue (is_old slot.now) → IsTrue result }
{
    match db {
        Db::Empty => false,
        Db::Full(_) => is_first_version(slot),
    }
}

/// The database, with its entry at the position that the cell says.
fn placed(db: Db, bytes: &[u8; 64]) -> Result<Db, u32>
    requires storable { IfFull IsStorable db }
    ensures is { result ≡ placed db (cell bytes.now) }
    ensures storable { IfOk result (IfFull IsStorable) }
{
    match db {
        Db::Empty => Ok(Db::Empty),
        Db::Full(entry) => match decode_cell(bytes) {
            Ok(None) => Ok(Db::Full(entry)),
            Ok(Some(position)) => Ok(Db::Full(Entry { position, ..entry })),
            Err(offset) => Err(200_000 + offset),
        },
    }
}

fn zeros(alloc: Global, count: usize) -> Result<Vec<u8>, NoMemory>
    ensures { IfOk result (λ zeros. length zeros.items ≡ count) }
{
    Ok(vec![in alloc; 0u8; count]?)
}

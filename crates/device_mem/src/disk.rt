//! A disk in memory.

ghost use Rattle.std.specs.Prelude.{◌≡◌, ◌+◌, ◌≤◌, length, replicate, take, drop, false, All, IfOk};
ghost use Rattle.device_model.specs.Disk.{IsByte};

use crate::bytes::{mark, tear_unsynced, unmark, write_at, zeros};
use crate::script::Tear;
use std::alloc::Global;
use upd_text::NoMemory;

/// An area of bytes, what it was at the last sync, and which bytes were written since. No call changes its size.
#[derive(Drop)]
pub struct MemDisk {
    area: Vec<u8>,
    before: Vec<u8>,
    unsynced: Vec<bool>,
    ghost before_is: { length before.items ≡ length area.items },
    ghost unsynced_is: { length unsynced.items ≡ length area.items },
    ghost bytes: { All IsByte area.items },
}

impl MemDisk {
    ghost use Rattle.device_model.specs.Disk.{overwritten, written, synced, marked, IsTorn, IsSpoiled};
    ghost use Rattle.device_mem.specs.Tears.{torn};
    ghost use Rattle.device_mem.specs.Parts.{disk_of, fresh_disk};

    /// A disk of so many zeros, of which nothing is unsynced. It takes all its memory here.
    pub fn new(alloc: Global, size: usize) -> Result<MemDisk, NoMemory>
        ensures disk { IfOk result (λ d. disk_of d ≡ fresh_disk (replicate size 0)) }
        ensures before { IfOk result (λ d. d.before.items ≡ replicate size 0) }
    {
        MemDisk::with_area(alloc, zeros(alloc, size)?)
    }

    /// A disk with this area, of which nothing is unsynced.
    pub(crate) fn with_area(alloc: Global, area: Vec<u8>) -> Result<MemDisk, NoMemory>
        ensures disk { IfOk result (λ d. disk_of d ≡ fresh_disk area.items) }
        ensures before { IfOk result (λ d. d.before.items ≡ area.items) }
    {
        let before = area.to_vec(alloc)?;
        let unsynced = vec![in alloc; false; area.len()]?;
        Ok(MemDisk {
            area,
            before,
            unsynced,
        })
    }

    /// The bytes of the area.
    pub fn area(&self) -> &[u8]
        ensures { result.now ≡ self.now.area.items }
    {
        &self.area
    }

    /// Reads bytes from an offset on.
    pub fn read(&self, at: usize, into: &mut [u8])
        requires { at + length into.old ≤ length self.now.area.items }
        ensures { into.new ≡ take (length into.new) (drop at self.now.area.items) }
    {
        into.copy_from_slice(&self.area[at..at + into.len()]);
    }

    /// Writes bytes, which are unsynced then.
    pub fn write(&mut self, at: usize, bytes: &[u8])
        requires { at + length bytes.now ≤ length self.old.area.items }
        ensures disk { disk_of self.new ≡ written at bytes.now (disk_of self.old) }
        ensures before { self.new.before.items ≡ self.old.before.items }
        ensures size { length self.new.area.items ≡ length self.old.area.items }
    {
        write_at(&mut self.area, at, bytes);
        mark(&mut self.unsynced, at, bytes.len());
    }

    /// Writes bytes, which are synced then.
    pub fn set(&mut self, at: usize, bytes: &[u8])
        requires { at + length bytes.now ≤ length self.old.area.items }
        ensures area { self.new.area.items ≡ overwritten at bytes.now self.old.area.items }
        ensures before { self.new.before.items ≡ overwritten at bytes.now self.old.before.items }
        ensures unsynced { self.new.unsynced.items ≡ overwritten at (replicate (length bytes.now) false) self.old.unsynced.items }
        ensures size { length self.new.area.items ≡ length self.old.area.items }
    {
        write_at(&mut self.area, at, bytes);
        write_at(&mut self.before, at, bytes);
        self.unsynced[at..at + bytes.len()].fill(false);
    }

    /// A write fails: its bytes stand as they were, and may be lost.
    pub fn spoil(&mut self, at: usize, count: usize)
        requires { at + count ≤ length self.old.area.items }
        ensures disk { disk_of self.new ≡ record (disk_of self.old) { unsynced = marked at count self.old.unsynced.items } }
        ensures spoiled { IsSpoiled at count (disk_of self.old) (disk_of self.new) }
        ensures before { self.new.before.items ≡ self.old.before.items }
    {
        mark(&mut self.unsynced, at, count);
    }

    /// After it nothing is unsynced.
    pub fn sync(&mut self)
        ensures disk { disk_of self.new ≡ synced (disk_of self.old) }
        ensures before { self.new.before.items ≡ self.old.area.items }
    {
        self.before.copy_from_slice(&self.area);
        unmark(&mut self.unsynced);
    }

    /// Power is lost: the unsynced bytes are torn.
    pub fn tear(&mut self, tear: Tear)
        ensures told { IsTorn 0 0 (disk_of self.old) (disk_of self.new) }
        ensures torn { disk_of self.new ≡ torn tear self.old.before.items (disk_of self.old) }
        ensures before { self.new.before.items ≡ self.new.area.items }
    {
        tear_unsynced(&mut self.area, &self.before, &self.unsynced, tear);
        self.before.copy_from_slice(&self.area);
        unmark(&mut self.unsynced);
    }
}

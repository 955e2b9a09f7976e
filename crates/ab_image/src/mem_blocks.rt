//! Blocks in memory.

ghost use Rattle.std.specs.Prelude.{◌≡◌, ◌+◌, ◌≤◌, ◌<◌, ◌^◌, length, true, IfOk};
ghost use Rattle.upd_text.specs.Counts.{counted};
ghost use Rattle.ab_image.specs.declared.layout.TheConstants.{LEAST_SIZE};

use crate::blocks::Blocks;
use device_mem::{LossList, MemDisk, Moment, Tear, moment_at};
use device_model::Down;
use std::alloc::Global;
use upd_text::{CallList, NoMemory};

/// Blocks in memory, which tell everything. Two lists say where they lose power and where they fail.
#[derive(Drop)]
pub struct MemBlocks {
    on: bool,
    disk: MemDisk,
    losing: LossList,
    failing: CallList,
    calls: u64,
    losses: u64,
    faults: u64,
    ghost least: { LEAST_SIZE ≤ length disk.area.items },
    ghost most: { length disk.area.items < 2 ^ 60 },
}

fn count_one(count: u64) -> u64
    ensures { result ≡ counted count }
{
    count.saturating_add(1)
}

impl MemBlocks {
    ghost use Rattle.ab_image.specs.MemBlocks.{fresh, powered, lost, failing, with_bytes, with_write, with_spoil, with_sync, next_moment, called};
    ghost use Rattle.ab_image.specs.Mem.{mem_of, medium_of};
    ghost use Rattle.ab_image.specs.Blocks.{LosesPower};

    /// Blocks that are on, with an area of so many zeros of which nothing is unsynced.
    pub fn new(
        alloc: Global,
        size: u32,
        losses: LossList,
        faults: CallList,
    ) -> Result<MemBlocks, NoMemory>
        requires { LEAST_SIZE ≤ size }
        ensures { IfOk result (λ m. mem_of m ≡ fresh size losses faults) }
    {
        Ok(MemBlocks {
            on: true,
            disk: MemDisk::new(alloc, size as usize)?,
            losing: losses,
            failing: faults,
            calls: 0,
            losses: 0,
            faults: 0,
        })
    }

    /// Writes bytes into the area, synced.
    pub fn set(&mut self, at: u64, bytes: &[u8])
        requires { at + length bytes.now ≤ length (mem_of self.old).disk.area }
        ensures { mem_of self.new ≡ with_bytes at bytes.now (mem_of self.old) }
    {
        self.disk.set(at as usize, bytes);
    }

    /// The bytes of the area.
    pub fn area(&self) -> &[u8]
        ensures { result.now ≡ (mem_of self.now).disk.area }
    {
        self.disk.area()
    }

    /// Brings power back, and changes nothing else.
    pub fn power_on(&mut self)
        ensures { mem_of self.new ≡ powered (mem_of self.old) }
    {
        self.on = true;
    }

    /// What the next call meets, which is counted.
    fn count_call(&mut self) -> Moment
        ensures moment { result ≡ next_moment (mem_of self.old) }
        ensures called { mem_of self.new ≡ called (mem_of self.old) }
    {
        let moment = moment_at(&self.losing, &self.failing, self.calls);
        self.calls = count_one(self.calls);
        moment
    }

    fn fail(&mut self)
        ensures { mem_of self.new ≡ failing (mem_of self.old) }
    {
        self.faults = count_one(self.faults);
    }

    /// Power is lost, and the unsynced bytes are torn.
    fn lose(&mut self, tear: Tear)
        requires on { self.old.on ≡ true }
        ensures exact { mem_of self.new ≡ lost tear (mem_of self.old) }
        ensures loss { LosesPower 0 0 (medium_of (mem_of self.old)) (medium_of (mem_of self.new)) }
    {
        self.disk.tear(tear);
        self.losses = count_one(self.losses);
        self.on = false;
    }

    fn write_and_lose(&mut self, at: u64, bytes: &[u8], tear: Tear)
        requires on { self.old.on ≡ true }
        requires range { at + length bytes.now ≤ length (mem_of self.old).disk.area }
        ensures exact { mem_of self.new ≡ lost tear (with_write at bytes.now (mem_of self.old)) }
        ensures loss { LosesPower at (length bytes.now) (medium_of (mem_of self.old)) (medium_of (mem_of self.new)) }
    {
        self.disk.write(at as usize, bytes);
        self.lose(tear);
    }

    fn sync_and_lose(&mut self, tear: Tear)
        requires on { self.old.on ≡ true }
        ensures exact { mem_of self.new ≡ lost tear (with_sync (mem_of self.old)) }
        ensures loss { LosesPower 0 0 (medium_of (mem_of self.old)) (medium_of (mem_of self.new)) }
    {
        self.disk.sync();
        self.lose(tear);
    }
}

impl Blocks for MemBlocks {
    ghost use Rattle.std.specs.Prelude.{◌≡◌, ◌+◌, ◌≤◌, length};
    ghost use Rattle.std.proofs.Common.{refl};
    ghost use Rattle.device_model.specs.Disk.{KeepsDisk};
    ghost use Rattle.device_model.specs.State.{Reads};
    ghost use Rattle.ab_image.specs.Blocks.{EndsRead, EndsWrite, EndsSync};
    ghost use Rattle.ab_image.specs.MemBlocks.{ActsMem, with_write, with_spoil, with_sync};
    ghost use Rattle.ab_image.specs.Mem.{mem_of, medium_of};

    ghost means = { λ m. medium_of (mem_of m) };

    ghost whole = { λ m. record { least = m.least; most = m.most; disk = record { size = refl; bytes = m.disk.bytes; flags = m.disk.unsynced_is } } };

    fn size(&self) -> u64 {
        self.disk.area().len() as u64
    }

    #[tactic(auto, using(crate::proofs::Losing::read_keeps))]
    fn read(&mut self, at: u64, into: &mut [u8]) -> Result<(), Down>
        requires range { at + length into.old ≤ (medium_of (mem_of self.old)).size }
        ensures ends { EndsRead (medium_of (mem_of self.old)) result (medium_of (mem_of self.new)) }
        ensures bytes { Reads (medium_of (mem_of self.old)).disk at into.new result }
        ensures leaves { KeepsDisk (medium_of (mem_of self.old)).disk (medium_of (mem_of self.new)).disk }
        ensures exact { ActsMem (λ m. m) (λ m. m) (mem_of self.old) result (mem_of self.new) }
    {
        if !self.on {
            return Err(Down::Off);
        }
        match self.count_call() {
            Moment::Loses(loss) => {
                self.lose(loss.tear);
                Err(Down::Off)
            }
            Moment::Fails => {
                self.fail();
                Err(Down::Fault)
            }
            Moment::Fine => {
                self.disk.read(at as usize, into);
                Ok(())
            }
        }
    }

    fn write(&mut self, at: u64, bytes: &[u8]) -> Result<(), Down>
        requires range { at + length bytes.now ≤ (medium_of (mem_of self.old)).size }
        ensures ends { EndsWrite at bytes.now (medium_of (mem_of self.old)) result (medium_of (mem_of self.new)) }
        ensures exact { ActsMem (with_write at bytes.now) (with_spoil at (length bytes.now)) (mem_of self.old) result (mem_of self.new) }
    {
        if !self.on {
            return Err(Down::Off);
        }
        match self.count_call() {
            Moment::Loses(loss) => {
                if loss.before {
                    self.lose(loss.tear);
                } else {
                    self.write_and_lose(at, bytes, loss.tear);
                }
                Err(Down::Off)
            }
            Moment::Fails => {
                self.disk.spoil(at as usize, bytes.len());
                self.fail();
                Err(Down::Fault)
            }
            Moment::Fine => {
                self.disk.write(at as usize, bytes);
                Ok(())
            }
        }
    }

    #[tactic(auto, using(crate::proofs::Losing::sync_keeps))]
    fn sync(&mut self) -> Result<(), Down>
        ensures ends { EndsSync (medium_of (mem_of self.old)) result (medium_of (mem_of self.new)) }
        ensures leaves { KeepsDisk (medium_of (mem_of self.old)).disk (medium_of (mem_of self.new)).disk }
        ensures exact { ActsMem with_sync (λ m. m) (mem_of self.old) result (mem_of self.new) }
    {
        if !self.on {
            return Err(Down::Off);
        }
        match self.count_call() {
            Moment::Loses(loss) => {
                if loss.before {
                    self.lose(loss.tear);
                } else {
                    self.sync_and_lose(loss.tear);
                }
                Err(Down::Off)
            }
            Moment::Fails => {
                // What is unsynced stays so.
                self.fail();
                Err(Down::Fault)
            }
            Moment::Fine => {
                self.disk.sync();
                Ok(())
            }
        }
    }
}

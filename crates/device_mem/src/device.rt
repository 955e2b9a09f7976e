//! A device in memory.

ghost use Rattle.std.specs.Prelude.{◌≡◌, ◌+◌, ◌≤◌, true, false, length, Some, [], ◌∷◌, IfOk, IfSome};
ghost use Rattle.upd_text.specs.Counts.{counted};

use crate::area::AreaBytes;
use crate::disk::MemDisk;
use crate::folder::MemFolder;
use crate::log::{MemLog, count_one};
use crate::moment::{Moment, moment_at};
use crate::script::{Script, Tear};
use crate::work::WorkList;
use device_model::{Answer, Call, Event, EventList};
use std::alloc::Global;
use upd_text::NoMemory;

/// A device in memory, which tells everything. A script says how its children end, where it loses power and where it fails.
#[derive(Drop)]
pub struct MemDevice {
    pub(crate) on: bool,
    pub(crate) disk: MemDisk,
    pub(crate) folder: MemFolder,
    pub(crate) log: MemLog,
    pub(crate) calls: u64,
    pub(crate) faults: u64,
    pub(crate) starved: u64,
    ghost area_is: { length disk.area.items ≡ 266240 },
    ghost faults_are: { log.plan.script.faults ≡ [] → faults ≡ starved },
}

impl MemDevice {
    ghost use Rattle.device_model.specs.Disk.{KeepsDisk, area_of};
    ghost use Rattle.device_model.specs.State.{LosesPower, LosesStarted, AfterChild, after_write};
    ghost use Rattle.device_mem.specs.Folders.{given_files};
    ghost use Rattle.device_mem.specs.Moment.{moment_at, IsPlanned};
    ghost use Rattle.device_mem.specs.Script.{is_cut, end_of};
    ghost use Rattle.device_mem.specs.Parts.{fresh_disk, fresh_work};
    ghost use Rattle.device_mem.specs.MemState.{FollowsPlan, fresh, powered, failing, starving, lost, lost_child, with_device, with_end, with_sync};
    ghost use Rattle.device_mem.specs.Mem.{mem_of, state_of};

    /// A device that is on, with this area, of which nothing is unsynced, and room for so many events. Nothing has happened
    /// yet, and its work folder has no file.
    pub fn new(
        alloc: Global,
        area: AreaBytes,
        room: u32,
        script: Script,
    ) -> Result<MemDevice, NoMemory>
        ensures { IfOk result (λ m. mem_of m ≡ fresh (fresh_disk area) fresh_work room script) }
    {
        Ok(MemDevice {
            on: true,
            disk: MemDisk::with_area(alloc, area.into_bytes())?,
            folder: MemFolder::new(alloc),
            log: MemLog::new(alloc, room, script)?,
            calls: 0,
            faults: 0,
            starved: 0,
        })
    }

    /// Brings power back. The journal is empty then, and all else stays.
    pub fn power_on(&mut self)
        ensures { mem_of self.new ≡ powered (mem_of self.old) }
    {
        self.on = true;
        self.log.begin();
    }

    /// The events since power came on last. They, and the counts, are such as the script gives.
    pub fn journal(&self) -> &EventList
        ensures events { result.now.events ≡ (state_of self.now).journal }
        ensures room { result.now.room ≡ (state_of self.now).room }
        ensures follows { FollowsPlan (mem_of self.now) }
    {
        &self.log.journal
    }

    /// The bytes of the area.
    pub fn area(&self) -> &[u8]
        ensures { Some result.now ≡ area_of (state_of self.now).disk }
    {
        self.disk.area()
    }

    /// The files of the work folder as they were at the first start of a child since the last clear. There is none where no
    /// child was started since, and where the folder was unknown then.
    pub fn given(&self) -> &WorkList
        ensures { IfSome (state_of self.now).work (λ w. result.now ≡ given_files w.given) }
    {
        self.folder.given()
    }

    /// How many calls failed since the work folder found no memory.
    pub fn starved(&self) -> u64
        ensures { result ≡ (mem_of self.now).starved }
    {
        self.starved
    }

    pub(crate) fn count_call(&mut self) -> Moment
        ensures moment { result ≡ moment_at self.old.log.plan.script.losses self.old.log.plan.script.faults self.old.calls }
        ensures planned { IsPlanned self.old.log.plan.script.losses self.old.log.plan.script.faults result }
        ensures rest { self.new ≡ record self.old { calls = counted self.old.calls } }
    {
        let script = &self.log.plan.script;
        let moment = moment_at(&script.losses, &script.faults, self.calls);
        self.calls = count_one(self.calls);
        moment
    }

    /// Power is lost, and the unsynced bytes are torn.
    pub(crate) fn lose(&mut self, tear: Tear)
        requires on { self.old.on ≡ true }
        requires room { 1 ≤ self.old.log.journal.room }
        requires planned { self.old.log.plan.script.losses ≡ [] → ⊥ }
        ensures loss { LosesPower 0 0 (state_of self.old) (state_of self.new) }
        ensures leaves { KeepsDisk (state_of self.old).disk (state_of self.new).disk }
        ensures plan { self.new.log.plan ≡ self.old.log.plan }
        ensures exact { mem_of self.new ≡ lost (Event.Loss ∷ []) tear (mem_of self.old) }
    {
        self.disk.tear(tear);
        self.folder.lose();
        self.log.note_loss();
        self.on = false;
    }

    pub(crate) fn fault(&mut self)
        requires { self.old.log.plan.script.faults ≡ [] → ⊥ }
        ensures plan { self.new.log.plan ≡ self.old.log.plan }
        ensures exact { mem_of self.new ≡ failing (mem_of self.old) }
    {
        self.faults = count_one(self.faults);
    }

    /// The folder found no memory.
    pub(crate) fn starve(&mut self)
        ensures plan { self.new.log.plan ≡ self.old.log.plan }
        ensures exact { mem_of self.new ≡ starving (mem_of self.old) }
    {
        self.faults = count_one(self.faults);
        self.starved = count_one(self.starved);
    }

    pub(crate) fn write_and_lose(&mut self, at: u32, bytes: &[u8], tear: Tear)
        requires on { self.old.on ≡ true }
        requires room { 1 ≤ self.old.log.journal.room }
        requires range { at + length bytes.now ≤ 266240 }
        requires planned { self.old.log.plan.script.losses ≡ [] → ⊥ }
        ensures loss { LosesPower at (length bytes.now) (state_of self.old) (state_of self.new) }
        ensures plan { self.new.log.plan ≡ self.old.log.plan }
        ensures exact { mem_of self.new ≡ lost (Event.Loss ∷ []) tear (with_device (after_write at bytes.now) (mem_of self.old)) }
    {
        self.disk.write(at as usize, bytes);
        self.lose(tear);
    }

    pub(crate) fn sync_and_lose(&mut self, tear: Tear)
        requires on { self.old.on ≡ true }
        requires room { 1 ≤ self.old.log.journal.room }
        requires planned { self.old.log.plan.script.losses ≡ [] → ⊥ }
        ensures loss { LosesPower 0 0 (state_of self.old) (state_of self.new) }
        ensures leaves { KeepsDisk (state_of self.old).disk (state_of self.new).disk }
        ensures plan { self.new.log.plan ≡ self.old.log.plan }
        ensures exact { mem_of self.new ≡ lost (Event.Loss ∷ []) tear (with_sync (mem_of self.old)) }
    {
        self.disk.sync();
        self.lose(tear);
    }

    pub(crate) fn start_and_end(&mut self, call: &Call, answer: Answer)
        requires room { 2 ≤ self.old.log.journal.room }
        requires goes_on { is_cut self.old.log.plan.script self.old.log.started ≡ false }
        requires answer { answer ≡ end_of self.old.log.plan.script self.old.log.taken call.now }
        ensures ends { AfterChild (Event.Start call.now ∷ Event.End answer ∷ []) (state_of self.old) (state_of self.new) }
        ensures plan { self.new.log.plan ≡ self.old.log.plan }
        ensures exact { mem_of self.new ≡ with_end call.now answer (mem_of self.old) }
    {
        self.folder.start(self.log.plan.script.meddle);
        self.log.note_child(call, answer);
    }

    pub(crate) fn start_and_lose(&mut self, call: &Call, tear: Tear)
        requires on { self.old.on ≡ true }
        requires room { 2 ≤ self.old.log.journal.room }
        requires planned { self.old.log.plan.script.losses ≡ [] → is_cut self.old.log.plan.script self.old.log.started ≡ true }
        ensures ends { LosesStarted call.now (state_of self.old) (state_of self.new) }
        ensures leaves { KeepsDisk (state_of self.old).disk (state_of self.new).disk }
        ensures plan { self.new.log.plan ≡ self.old.log.plan }
        ensures exact { mem_of self.new ≡ lost_child call.now tear (mem_of self.old) }
    {
        self.folder.start(self.log.plan.script.meddle);
        self.disk.tear(tear);
        self.folder.lose();
        self.log.note_cut(call);
        self.on = false;
    }
}

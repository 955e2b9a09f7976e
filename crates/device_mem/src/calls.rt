//! The calls of a device in memory.

use crate::device::MemDevice;
use crate::moment::Moment;
use crate::script::{Ending, Plan, Replying, Tear};
use device_model::{Answer, Asked, Call, Device, Down, Off, Part, Query, Ran};
use upd_text::Name;

impl Device for MemDevice {
    type Plan = Plan;

    ghost use Rattle.std.specs.Prelude.{Some, ◌≡◌, ◌+◌, ◌≤◌, length};
    ghost use Rattle.device_model.specs.Disk.{KeepsDisk};
    ghost use Rattle.device_model.specs.Work.{cleared, with_bytes, work_synced, work_failed};
    ghost use Rattle.device_model.specs.State.{EndsRead, EndsWrite, EndsSync, EndsWork, EndsChild, EndsAsk, EndsPause, IsPlain, Reads, after_write, after_work};
    ghost use Rattle.device_mem.specs.MemState.{with_device, with_sync, after_spoil};
    ghost use Rattle.device_mem.specs.Acts.{Acts, Grows, Runs, Asks, Pauses};
    ghost use Rattle.device_mem.specs.Mem.{mem_of, state_of, plan_of, is_whole};

    ghost means = { state_of };

    ghost plan = { λ m. Some (plan_of m) };

    ghost whole = { is_whole };

    fn room(&self) -> u32 {
        self.log.journal.room()
    }

    #[tactic(auto, using(device_model::proofs::Keeps::read_keeps))]
    fn disk_read(&mut self, at: u32, into: &mut [u8]) -> Result<(), Down>
        requires room { 1 ≤ (state_of self.old).room }
        requires range { at + length into.old ≤ 266240 }
        ensures plan { Some (plan_of self.new) ≡ Some (plan_of self.old) }
        ensures ends { EndsRead (state_of self.old) result (state_of self.new) }
        ensures bytes { Reads (state_of self.old).disk at into.new result }
        ensures leaves { KeepsDisk (state_of self.old).disk (state_of self.new).disk }
        ensures exact { Acts (λ m. m) (λ m. m) (mem_of self.old) result (mem_of self.new) }
    {
        if !self.on {
            return Err(Down::Off);
        }
        match self.count_call() {
            Moment::Loses(loss) => {
                self.lose(loss.tear);
                Err(Down::Off)
            }
            Moment::Fails => {
                self.fault();
                Err(Down::Fault)
            }
            Moment::Fine => {
                self.disk.read(at as usize, into);
                Ok(())
            }
        }
    }

    fn disk_write(&mut self, at: u32, bytes: &[u8]) -> Result<(), Down>
        requires room { 1 ≤ (state_of self.old).room }
        requires range { at + length bytes.now ≤ 266240 }
        ensures plan { Some (plan_of self.new) ≡ Some (plan_of self.old) }
        ensures ends { EndsWrite at bytes.now (state_of self.old) result (state_of self.new) }
        ensures exact { Acts (with_device (after_write at bytes.now)) (with_device (after_spoil at (length bytes.now))) (mem_of self.old) result (mem_of self.new) }
    {
        if !self.on {
            return Err(Down::Off);
        }
        match self.count_call() {
            Moment::Loses(loss) => {
                if loss.before {
                    self.lose(loss.tear);
                } else {
                    self.write_and_lose(at, bytes, loss.tear);
                }
                Err(Down::Off)
            }
            Moment::Fails => {
                self.disk.spoil(at as usize, bytes.len());
                self.fault();
                Err(Down::Fault)
            }
            Moment::Fine => {
                self.disk.write(at as usize, bytes);
                Ok(())
            }
        }
    }

    #[tactic(auto, using(device_model::proofs::Keeps::sync_keeps))]
    fn disk_sync(&mut self) -> Result<(), Down>
        requires room { 1 ≤ (state_of self.old).room }
        ensures plan { Some (plan_of self.new) ≡ Some (plan_of self.old) }
        ensures ends { EndsSync (state_of self.old) result (state_of self.new) }
        ensures leaves { KeepsDisk (state_of self.old).disk (state_of self.new).disk }
        ensures exact { Acts with_sync (λ m. m) (mem_of self.old) result (mem_of self.new) }
    {
        if !self.on {
            return Err(Down::Off);
        }
        match self.count_call() {
            Moment::Loses(loss) => {
                if loss.before {
                    self.lose(loss.tear);
                } else {
                    self.sync_and_lose(loss.tear);
                }
                Err(Down::Off)
            }
            Moment::Fails => {
                // What is unsynced stays so.
                self.fault();
                Err(Down::Fault)
            }
            Moment::Fine => {
                self.disk.sync();
                Ok(())
            }
        }
    }

    #[tactic(auto, using(device_model::proofs::Keeps::work_keeps))]
    fn work_clear(&mut self) -> Result<(), Down>
        requires room { 1 ≤ (state_of self.old).room }
        ensures plan { Some (plan_of self.new) ≡ Some (plan_of self.old) }
        ensures ends { EndsWork cleared (state_of self.old) result (state_of self.new) }
        ensures leaves { KeepsDisk (state_of self.old).disk (state_of self.new).disk }
        ensures exact { Acts (with_device (after_work cleared)) (with_device (after_work work_failed)) (mem_of self.old) result (mem_of self.new) }
    {
        if !self.on {
            return Err(Down::Off);
        }
        match self.count_call() {
            Moment::Loses(loss) => {
                if loss.before {
                    self.lose(loss.tear);
                } else {
                    self.folder.clear();
                    self.lose(loss.tear);
                }
                Err(Down::Off)
            }
            Moment::Fails => {
                self.folder.fail();
                self.fault();
                Err(Down::Fault)
            }
            Moment::Fine => {
                self.folder.clear();
                Ok(())
            }
        }
    }

    #[tactic(auto, using(device_model::proofs::Keeps::work_keeps))]
    fn work_append(&mut self, part: Part, path: &Name, bytes: &[u8]) -> Result<(), Down>
        requires room { 1 ≤ (state_of self.old).room }
        ensures plan { Some (plan_of self.new) ≡ Some (plan_of self.old) }
        ensures ends { EndsWork (with_bytes part path.now bytes.now) (state_of self.old) result (state_of self.new) }
        ensures leaves { KeepsDisk (state_of self.old).disk (state_of self.new).disk }
        ensures exact { Grows (with_device (after_work (with_bytes part path.now bytes.now))) (with_device (after_work work_failed)) (mem_of self.old) result (mem_of self.new) }
    {
        if !self.on {
            return Err(Down::Off);
        }
        match self.count_call() {
            Moment::Loses(loss) => {
                if loss.before {
                    self.lose(loss.tear);
                } else {
                    self.folder.lose_appended(part, path, bytes);
                    self.lose(loss.tear);
                }
                Err(Down::Off)
            }
            Moment::Fails => {
                self.folder.fail();
                self.fault();
                Err(Down::Fault)
            }
            Moment::Fine => match self.folder.append(part, path, bytes) {
                Ok(()) => Ok(()),
                Err(_) => {
                    self.starve();
                    Err(Down::Fault)
                }
            },
        }
    }

    #[tactic(auto, using(device_model::proofs::Keeps::work_keeps))]
    fn work_sync(&mut self) -> Result<(), Down>
        requires room { 1 ≤ (state_of self.old).room }
        ensures plan { Some (plan_of self.new) ≡ Some (plan_of self.old) }
        ensures ends { EndsWork work_synced (state_of self.old) result (state_of self.new) }
        ensures leaves { KeepsDisk (state_of self.old).disk (state_of self.new).disk }
        ensures exact { Acts (with_device (after_work work_synced)) (with_device (after_work work_failed)) (mem_of self.old) result (mem_of self.new) }
    {
        if !self.on {
            return Err(Down::Off);
        }
        match self.count_call() {
            Moment::Loses(loss) => {
                if loss.before {
                    self.lose(loss.tear);
                } else {
                    self.folder.sync();
                    self.lose(loss.tear);
                }
                Err(Down::Off)
            }
            Moment::Fails => {
                self.folder.fail();
                self.fault();
                Err(Down::Fault)
            }
            Moment::Fine => {
                self.folder.sync();
                Ok(())
            }
        }
    }

    #[tactic(auto, using(device_model::proofs::Keeps::child_keeps))]
    fn run_child(&mut self, call: &Call) -> Ran
        requires room { 3 ≤ (state_of self.old).room }
        requires plain { IsPlain call.now }
        ensures plan { Some (plan_of self.new) ≡ Some (plan_of self.old) }
        ensures ends { EndsChild call.now (state_of self.old) result (state_of self.new) }
        ensures leaves { KeepsDisk (state_of self.old).disk (state_of self.new).disk }
        ensures exact { Runs call.now (mem_of self.old) result (mem_of self.new) }
    {
        if !self.on {
            return Ran::Off;
        }
        let moment = self.count_call();
        if let Moment::Loses(loss) = moment {
            if loss.before {
                self.lose(loss.tear);
            } else {
                self.start_and_lose(call, loss.tear);
            }
            return Ran::Off;
        }
        if self.log.is_cut() {
            self.start_and_lose(call, Tear::New);
            return Ran::Off;
        }
        match self.log.ending(call) {
            Ending::Exit(code) => {
                self.start_and_end(call, Answer::Exit(code));
                Ran::Exit(code)
            }
            Ending::NotStarted => {
                self.start_and_end(call, Answer::NotStarted);
                Ran::NotStarted
            }
        }
    }

    #[tactic(auto, using(device_model::proofs::Keeps::ask_keeps))]
    fn ask_child(&mut self, payload: u8, kind: &Name, query: Query) -> Asked
        requires room { 3 ≤ (state_of self.old).room }
        ensures plan { Some (plan_of self.new) ≡ Some (plan_of self.old) }
        ensures ends { EndsAsk (Call.Ask payload kind.now query) (state_of self.old) result (state_of self.new) }
        ensures leaves { KeepsDisk (state_of self.old).disk (state_of self.new).disk }
        ensures exact { Asks (Call.Ask payload kind.now query) (mem_of self.old) result (mem_of self.new) }
    {
        if !self.on {
            return Asked::Off;
        }
        let call = Call::Ask {
            payload,
            kind: kind.twin(),
            query,
        };
        let moment = self.count_call();
        if let Moment::Loses(loss) = moment {
            if loss.before {
                self.lose(loss.tear);
            } else {
                self.start_and_lose(&call, loss.tear);
            }
            return Asked::Off;
        }
        if self.log.is_cut() {
            self.start_and_lose(&call, Tear::New);
            return Asked::Off;
        }
        match self.log.replying(payload, query) {
            Replying::Reply(code, text) => {
                self.start_and_end(&call, Answer::Reply(code, text.twin()));
                Asked::Reply(code, text)
            }
            Replying::NotStarted => {
                self.start_and_end(&call, Answer::NotStarted);
                Asked::NotStarted
            }
        }
    }

    #[tactic(auto, using(device_model::proofs::Keeps::pause_keeps))]
    fn pause(&mut self, seconds: u32) -> Result<(), Off>
        requires room { 2 ≤ (state_of self.old).room }
        ensures plan { Some (plan_of self.new) ≡ Some (plan_of self.old) }
        ensures ends { EndsPause seconds (state_of self.old) result (state_of self.new) }
        ensures leaves { KeepsDisk (state_of self.old).disk (state_of self.new).disk }
        ensures exact { Pauses seconds (mem_of self.old) result (mem_of self.new) }
    {
        if !self.on {
            return Err(Off);
        }
        match self.count_call() {
            Moment::Loses(loss) => {
                if loss.before {
                    self.lose(loss.tear);
                } else {
                    self.log.note_pause(seconds);
                    self.lose(loss.tear);
                }
                Err(Off)
            }
            Moment::Fails => {
                self.log.note_pause(seconds);
                Ok(())
            }
            Moment::Fine => {
                self.log.note_pause(seconds);
                Ok(())
            }
        }
    }
}

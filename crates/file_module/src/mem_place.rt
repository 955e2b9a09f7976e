//! A place in memory.

ghost use Rattle.std.specs.Prelude.{◌≡◌, ◌≢◌, ◌≤◌, ◌+◌, true, false, length, Some, None, MatchOption, IfOk, option_map};
ghost use Rattle.upd_text.specs.Counts.{counted};
ghost use Rattle.file_module.specs.Contents.{content, with_content, InContent, IsThere, WhenTold, with_start, with_append, with_settle, with_move, with_remove};
ghost use Rattle.file_module.specs.Calls.{EndsWhole, EndsFresh, Reads, Gives, Loses, failed};
ghost use Rattle.file_module.specs.MemShelf.{empty_shelf, next_moment, called, with_place, with_effect, CanHappen, with_append_if, torn, lost, fits, Acts, Appends};

use crate::held::Held;
use crate::place::{Place, Slot};
use device_mem::{LossList, Moment, Tear, moment_at};
use device_model::Down;
use std::alloc::Global;
use std::marker::Model;
use upd_text::{CallList, NoMemory};

/// Three contents in memory, of which it tells everything. It loses its power and fails at the calls that it was told to.
#[derive(Drop)]
pub struct MemPlace {
    on: bool,
    target: Held,
    saved: Held,
    fresh: Held,
    settled: bool,
    room: u32,
    losses: LossList,
    failing: CallList,
    calls: u64,
    faults: u64,
    lost: u64,
}

impl Model for MemPlace {
    ghost use Rattle.std.specs.Prelude.{◌≡◌, true};
    ghost use Rattle.file_module.specs.MemShelf.{MemShelf};

    ghost Value = { MemShelf };

    ghost view = { λ m. record {
      place = record { on = m.on; told = true; regular = true; target = m.target.content; saved = m.saved.content; fresh = m.fresh.content; settled = m.settled; faults = m.faults; losses = m.lost };
      room = m.room;
      losses = m.losses;
      failing = m.failing;
      calls = m.calls;
    } };

    ghost invariant = { λ m. (m.target.room ≡ m.room) × ((m.saved.room ≡ m.room) × (m.fresh.room ≡ m.room)) };
}

/// What a call does, where it is done.
#[derive(Clone, Copy)]
enum Effect {
    Nothing,
    Start,
    Settle,
    Move(Slot),
    Remove(Slot),
}

fn count_one(count: u64) -> u64
    ensures { result ≡ counted count }
{
    if count < u64::MAX { count + 1 } else { count }
}

impl MemPlace {
    /// A place that is on, with room for so many bytes in each of the three contents, which are absent.
    pub fn new(
        alloc: Global,
        room: u32,
        losses: LossList,
        faults: CallList,
    ) -> Result<MemPlace, NoMemory>
        ensures { IfOk result (λ m. m ≡ empty_shelf room losses faults) }
    {
        Ok(MemPlace {
            on: true,
            target: Held::new(alloc, room)?,
            saved: Held::new(alloc, room)?,
            fresh: Held::new(alloc, room)?,
            settled: true,
            room,
            losses,
            failing: faults,
            calls: 0,
            faults: 0,
            lost: 0,
        })
    }

    /// Puts a content into a slot. A fresh one is settled. Condition: it fits the room.
    pub fn set(&mut self, slot: Slot, bytes: &[u8])
        requires { length bytes.now ≤ self.old.room }
        ensures { self.new ≡ with_place (with_content slot (Some bytes.now)) self.old }
    {
        match slot {
            Slot::Target => self.target.set(bytes),
            Slot::Saved => self.saved.set(bytes),
            Slot::Fresh => {
                self.fresh.set(bytes);
                self.settled = true;
            }
        }
    }

    /// The content of a slot, or none where it is absent.
    pub fn content(&self, slot: Slot) -> Option<&[u8]>
        ensures { MatchOption result (content slot self.now.place ≡ None) (λ bytes. content slot self.now.place ≡ Some bytes.now) }
    {
        match slot {
            Slot::Target => self.target.content(),
            Slot::Saved => self.saved.content(),
            Slot::Fresh => self.fresh.content(),
        }
    }

    /// Brings power back. All else stays.
    pub fn power_on(&mut self)
        ensures { self.new ≡ record self.old { place = record self.old.place { on = true } } }
    {
        self.on = true;
    }

    fn count_call(&mut self) -> Moment
        ensures moment { result ≡ next_moment self.old }
        ensures rest { self.new ≡ called self.old }
    {
        let moment = moment_at(&self.losses, &self.failing, self.calls);
        self.calls = count_one(self.calls);
        moment
    }

    /// A call fails, and changes nothing.
    fn fail(&mut self)
        ensures { self.new ≡ with_place failed self.old }
    {
        self.faults = count_one(self.faults);
    }

    fn tear(&mut self, tear: Tear)
        ensures { self.new ≡ with_place (torn tear) self.old }
    {
        if !self.settled {
            match tear {
                Tear::Old => self.fresh.clear(),
                Tear::New => {}
                Tear::Byte(_) => self.fresh.set(&[]),
            }
        }
        self.settled = true;
    }

    /// Power is lost.
    #[tactic(auto, using(crate::proofs::Losing::torn_loses))]
    fn lose(&mut self, tear: Tear)
        ensures loses { Loses self.old.place self.new.place }
        ensures exact { self.new ≡ lost tear self.old }
    {
        self.on = false;
        self.lost = count_one(self.lost);
        self.tear(tear);
    }

    fn clear(&mut self, slot: Slot)
        ensures { self.new ≡ with_place (with_remove slot) self.old }
    {
        match slot {
            Slot::Target => self.target.clear(),
            Slot::Saved => self.saved.clear(),
            Slot::Fresh => {
                self.fresh.clear();
                self.settled = true;
            }
        }
    }

    fn begin(&mut self)
        ensures { self.new ≡ with_place with_start self.old }
    {
        self.fresh.set(&[]);
        self.settled = false;
    }

    fn add(&mut self, bytes: &[u8])
        requires { fits (length bytes.now) self.old ≡ true }
        ensures { self.new ≡ with_place (with_append bytes.now) self.old }
    {
        self.fresh.append(bytes);
        self.settled = false;
    }

    /// Adds the bytes where they fit.
    fn add_if(&mut self, bytes: &[u8])
        ensures { self.new ≡ with_append_if bytes.now self.old }
    {
        if self.fresh.fits(bytes.len()) {
            self.add(bytes);
        }
    }

    /// Moves the fresh content into another slot.
    fn put_in(&mut self, slot: Slot)
        requires { slot ≢ Slot.Fresh }
        ensures { self.new ≡ with_place (with_move slot) self.old }
    {
        match slot {
            Slot::Target => std::mem::swap(&mut self.target, &mut self.fresh),
            Slot::Saved => std::mem::swap(&mut self.saved, &mut self.fresh),
            Slot::Fresh => {}
        }
        self.fresh.clear();
        self.settled = true;
    }

    fn apply(&mut self, effect: Effect)
        requires { CanHappen effect }
        ensures { self.new ≡ with_place (with_effect effect) self.old }
    {
        match effect {
            Effect::Nothing => {}
            Effect::Start => self.begin(),
            Effect::Settle => self.settled = true,
            Effect::Move(slot) => self.put_in(slot),
            Effect::Remove(slot) => self.clear(slot),
        }
    }

    /// One call with this effect, by what is planned for its number.
    fn act(&mut self, effect: Effect) -> Result<(), Down>
        requires { CanHappen effect }
        ensures told { self.old.place.told ≡ true }
        ensures regular { self.old.place.regular ≡ true }
        ensures ends { EndsWhole (with_effect effect) self.old.place result self.new.place }
        ensures exact { Acts (with_place (with_effect effect)) self.old result self.new }
    {
        if !self.on {
            return Err(Down::Off);
        }
        match self.count_call() {
            Moment::Loses(loss) => {
                if loss.before {
                    self.lose(loss.tear);
                } else {
                    self.apply(effect);
                    self.lose(loss.tear);
                }
                Err(Down::Off)
            }
            Moment::Fails => {
                self.fail();
                Err(Down::Fault)
            }
            Moment::Fine => {
                self.apply(effect);
                Ok(())
            }
        }
    }

    fn size(&self, slot: Slot) -> Option<u64>
        ensures { result ≡ option_map length (content slot self.now.place) }
    {
        match self.content(slot) {
            Some(bytes) => Some(bytes.len() as u64),
            None => None,
        }
    }

    fn copy_out(&self, slot: Slot, at: u64, into: &mut [u8])
        requires { InContent at (length into.old) (content slot self.now.place) }
        ensures same_length { length into.new ≡ length into.old }
        ensures bytes { Gives (content slot self.now.place) at into.new }
    {
        if let Some(bytes) = self.content(slot) {
            let at = at as usize;
            into.copy_from_slice(&bytes[at..at + into.len()]);
        }
    }
}

impl Place for MemPlace {
    ghost means = { λ m. m.place };

    fn length(&mut self, slot: Slot) -> Result<Option<u64>, Down>
        ensures ends { EndsWhole (λ m. m) self.old.place result self.new.place }
        ensures value { IfOk result (λ n. WhenTold self.old.place (n ≡ option_map length (content slot self.old.place))) }
        ensures regular { IfOk result (λ n. WhenTold self.old.place (slot ≡ Slot.Target → self.old.place.regular ≡ true)) }
        ensures exact { Acts (λ m. m) self.old result self.new }
    {
        match self.act(Effect::Nothing) {
            Ok(()) => Ok(self.size(slot)),
            Err(down) => Err(down),
        }
    }

    fn read(&mut self, slot: Slot, at: u64, into: &mut [u8]) -> Result<(), Down>
        requires { WhenTold self.old.place (InContent at (length into.old) (content slot self.old.place)) }
        ensures ends { EndsWhole (λ m. m) self.old.place result self.new.place }
        ensures same_length { length into.new ≡ length into.old }
        ensures bytes { WhenTold self.old.place (Reads (content slot self.old.place) at into.new result) }
        ensures exact { Acts (λ m. m) self.old result self.new }
    {
        match self.act(Effect::Nothing) {
            Ok(()) => {
                self.copy_out(slot, at, into);
                Ok(())
            }
            Err(down) => Err(down),
        }
    }

    #[tactic(auto, using(crate::proofs::Losing::whole_is_fresh))]
    fn start(&mut self) -> Result<(), Down>
        ensures ends { EndsFresh with_start self.old.place result self.new.place }
        ensures exact { Acts (with_place with_start) self.old result self.new }
    {
        self.act(Effect::Start)
    }

    fn append(&mut self, bytes: &[u8]) -> Result<(), Down>
        requires { WhenTold self.old.place (IsThere self.old.place.fresh) }
        ensures ends { EndsFresh (with_append bytes.now) self.old.place result self.new.place }
        ensures exact { Appends bytes.now self.old result self.new }
    {
        if !self.on {
            return Err(Down::Off);
        }
        match self.count_call() {
            Moment::Loses(loss) => {
                if loss.before {
                    self.lose(loss.tear);
                } else {
                    self.add_if(bytes);
                    self.lose(loss.tear);
                }
                Err(Down::Off)
            }
            Moment::Fails => {
                self.fail();
                Err(Down::Fault)
            }
            Moment::Fine => {
                if self.fresh.fits(bytes.len()) {
                    self.add(bytes);
                    Ok(())
                } else {
                    self.fail();
                    Err(Down::Fault)
                }
            }
        }
    }

    #[tactic(auto, using(crate::proofs::Losing::whole_is_fresh))]
    fn settle(&mut self) -> Result<(), Down>
        ensures ends { EndsFresh with_settle self.old.place result self.new.place }
        ensures exact { Acts (with_place with_settle) self.old result self.new }
    {
        self.act(Effect::Settle)
    }

    fn move_to(&mut self, slot: Slot) -> Result<(), Down>
        requires there { WhenTold self.old.place (IsThere self.old.place.fresh) }
        requires settled { self.old.place.settled ≡ true }
        requires other { slot ≢ Slot.Fresh }
        ensures ends { EndsWhole (with_move slot) self.old.place result self.new.place }
        ensures exact { Acts (with_place (with_move slot)) self.old result self.new }
    {
        self.act(Effect::Move(slot))
    }

    fn remove(&mut self, slot: Slot) -> Result<(), Down>
        ensures ends { EndsWhole (with_remove slot) self.old.place result self.new.place }
        ensures exact { Acts (with_place (with_remove slot)) self.old result self.new }
    {
        self.act(Effect::Remove(slot))
    }
}

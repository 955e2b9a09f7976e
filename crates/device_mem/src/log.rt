//! The journal of a device in memory, and what it took from its script.

ghost use Rattle.std.specs.Prelude.{◌≡◌, ◌+◌, ◌-◌, ◌<◌, ◌≤◌, ◌^◌, true, false, length, [], ◌∷◌, ◌++◌, IfOk, min};
ghost use Rattle.upd_text.specs.Counts.{counted};
ghost use Rattle.device_model.specs.State.{IsPlain};
ghost use Rattle.device_mem.specs.Script.{is_cut, end_of, taken_after, answer_of, reply_of, reply_to};
ghost use Rattle.device_mem.specs.Fits.{Fits, Fits-prop};
ghost use Rattle.device_mem.specs.Losses.{count_losses};

use crate::script::{Ending, Plan, Replying, Script, ending_at, is_cut_at, reply_for};
use device_model::{Answer, Call, Event, EventList, Query};
use std::alloc::Global;
use upd_text::NoMemory;

pub(crate) fn count_one(count: u64) -> u64
    ensures { result ≡ counted count }
{
    if count < u64::MAX { count + 1 } else { count }
}

#[derive(Drop)]
pub struct MemLog {
    pub(crate) journal: EventList,
    pub(crate) taken: u32,
    pub(crate) started: u64,
    pub(crate) losses: u64,
    pub(crate) plan: Plan,
    ghost fits: { Fits plan.script plan.taken plan.started journal.events taken started } by { Fits-prop plan.script plan.taken plan.started journal.events taken started },
    ghost losses_are: { losses ≡ min (plan.losses + count_losses journal.events) (2 ^ 64 - 1) },
    ghost taken_within: { taken ≤ length plan.script.answers },
}

impl MemLog {
    ghost use Rattle.device_mem.specs.Log.{log_of, noted};
    ghost use Rattle.device_model.specs.declared.calls.Event.TheVariants as event;

    pub(crate) fn new(alloc: Global, room: u32, script: Script) -> Result<MemLog, NoMemory>
        ensures { IfOk result (λ l. log_of l ≡ record { journal = []; room = room; losses = 0; taken = 0; started = 0; plan = record { script = script; taken = 0; started = 0; losses = 0 } }) }
    {
        let journal = EventList::with_room(alloc, room)?;
        Ok(MemLog {
            journal,
            taken: 0,
            started: 0,
            losses: 0,
            plan: Plan {
                script,
                taken: 0,
                started: 0,
                losses: 0,
            },
        })
    }

    /// A new boot begins.
    pub(crate) fn begin(&mut self)
        ensures { log_of self.new ≡ record (log_of self.old) { journal = []; room = self.old.journal.room + length self.old.journal.events; plan = record { script = self.old.plan.script; taken = self.old.taken; started = self.old.started; losses = self.old.losses } } }
    {
        self.plan.taken = self.taken;
        self.plan.started = self.started;
        self.plan.losses = self.losses;
        self.journal.clear();
    }

    pub(crate) fn is_cut(&self) -> bool
        ensures { result ≡ is_cut self.now.plan.script self.now.started }
    {
        is_cut_at(&self.plan.script, self.started)
    }

    pub(crate) fn ending(&self, call: &Call) -> Ending
        requires { IsPlain call.now }
        ensures { answer_of result ≡ end_of self.now.plan.script self.now.taken call.now }
    {
        match call {
            Call::Module { .. } => ending_at(&self.plan.script, self.taken),
            Call::Ask { .. } => unreachable!(),
            Call::Script(_) => ending_at(&self.plan.script, self.taken),
            Call::SystemReboot => ending_at(&self.plan.script, self.taken),
        }
    }

    pub(crate) fn replying(&self, payload: u8, query: Query) -> Replying
        ensures { reply_of result ≡ reply_to self.now.plan.script payload query }
    {
        reply_for(&self.plan.script, payload, query)
    }

    pub(crate) fn note_pause(&mut self, seconds: u32)
        requires { 1 ≤ self.old.journal.room }
        ensures { log_of self.new ≡ noted (Event.Pause seconds ∷ []) (log_of self.old) }
    {
        note(&mut self.journal, Event::Pause(seconds));
    }

    pub(crate) fn note_loss(&mut self)
        requires room { 1 ≤ self.old.journal.room }
        requires planned { self.old.plan.script.losses ≡ [] → ⊥ }
        ensures { log_of self.new ≡ record (noted (Event.Loss ∷ []) (log_of self.old)) { losses = counted self.old.losses } }
    {
        note(&mut self.journal, Event::Loss);
        self.losses = count_one(self.losses);
    }

    /// A child was started, and has ended so.
    pub(crate) fn note_child(&mut self, call: &Call, answer: Answer)
        requires room { 2 ≤ self.old.journal.room }
        requires goes_on { is_cut self.old.plan.script self.old.started ≡ false }
        requires answer { answer ≡ end_of self.old.plan.script self.old.taken call.now }
        ensures { log_of self.new ≡ record (noted (Event.Start call.now ∷ Event.End answer ∷ []) (log_of self.old)) { taken = taken_after self.old.plan.script self.old.taken call.now; started = counted self.old.started } }
    {
        self.taken = taken_by(&self.plan.script, self.taken, call);
        self.started = count_one(self.started);
        note(&mut self.journal, Event::Start(call.twin()));
        note(&mut self.journal, Event::End(answer));
    }

    /// A child was started, and power was lost.
    pub(crate) fn note_cut(&mut self, call: &Call)
        requires room { 2 ≤ self.old.journal.room }
        requires planned { self.old.plan.script.losses ≡ [] → is_cut self.old.plan.script self.old.started ≡ true }
        ensures { log_of self.new ≡ record (noted (Event.Start call.now ∷ Event.Loss ∷ []) (log_of self.old)) { losses = counted self.old.losses; taken = taken_after self.old.plan.script self.old.taken call.now; started = counted self.old.started } }
    {
        self.taken = taken_by(&self.plan.script, self.taken, call);
        // The answer is taken, and never given.
        self.started = count_one(self.started);
        note(&mut self.journal, Event::Start(call.twin()));
        note(&mut self.journal, Event::Loss);
        self.losses = count_one(self.losses);
    }
}

/// Adds an event for which there is room.
fn note(journal: &mut EventList, event: Event)
    requires { 1 ≤ journal.old.room }
    ensures { journal.new ≡ record { events = journal.old.events ++ event ∷ []; room = journal.old.room - 1 } }
{
    journal.push(event).unwrap();
}

/// How many answers are taken after a child's start.
fn taken_by(script: &Script, taken: u32, call: &Call) -> u32
    ensures { result ≡ taken_after script.now taken call.now }
{
    let count = script.answers.len();
    let next = if taken < count { taken + 1 } else { count };
    match call {
        Call::Module { .. } => next,
        Call::Ask { .. } => taken,
        Call::Script(_) => next,
        Call::SystemReboot => next,
    }
}

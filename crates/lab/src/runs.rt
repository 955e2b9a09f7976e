//! What boots did.

ghost use Rattle.std.specs.Prelude.{◌≡◌, IfOk};

use client_top::Status;
use client_words::Command;
use device_model::{Event, EventList};
use std::alloc::Global;
use upd_text::{ListOf, NoMemory};

/// The commands of a campaign, one for each boot.
pub type CommandList = ListOf<Command>;

/// What one boot did: its command, the events of its journal, and its answer.
#[derive(Drop)]
pub struct BootRun {
    pub command: Command,
    pub events: EventList,
    pub status: Status,
}

/// What the boots of a campaign did, in their order.
pub type Runs = ListOf<BootRun>;

/// The same event.
fn twin(event: &Event) -> Event
    ensures { result ≡ event.now }
{
    match event {
        Event::Start(call) => Event::Start(call.twin()),
        Event::End(answer) => Event::End(answer.twin()),
        Event::Pause(seconds) => Event::Pause(*seconds),
        Event::Loss => Event::Loss,
    }
}

/// The events of a journal, kept beside it.
pub(crate) fn kept(alloc: Global, journal: &EventList) -> Result<EventList, NoMemory>
    ensures { IfOk result (λ events. events.events ≡ journal.now.events) }
{
    let mut events = EventList::with_room(alloc, journal.len())?;
    for i in 0..journal.len() {
        events.push(twin(journal.at(i)))?;
    }
    Ok(events)
}

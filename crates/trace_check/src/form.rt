//! Which notes have a text.

ghost use Rattle.std.specs.Prelude.{◌≡◌, length, slice_get, MatchOption};
ghost use Rattle.std.specs.List.{list_all};
ghost use Rattle.flow_table.specs.Valid.{is_valid};
ghost use Rattle.trace_check.specs.Form.{nowhere, is_place, is_kind, calls_noted, is_noted, lists_fit, has_text};

use crate::note::{NoteEnd, NoteHead};
use crate::way::is_same;
use device_model::{Call, Event, EventList};
use flow_table::{MOST_KINDS, Outcome, Position, Reboot, State};
use upd_text::{KindList, Name};

/// Where the empty database stands.
const NOWHERE: Position = Position {
    state: State::Idle,
    outcome: Outcome::Undecided,
    undoable: false,
    reboot: Reboot::No,
    n: 0,
};

fn is_valid(p: &Position) -> bool
    ensures { result ≡ is_valid p.now }
{
    p.state.allows_outcome(p.outcome)
        && p.state.allows_undoable(p.undoable)
        && p.state.allows_reboot(p.reboot)
        && p.state.allows_count(p.n)
}

/// Whether a database may stand at the position.
pub(crate) fn is_place(p: &Position) -> bool
    ensures { result ≡ is_place p.now }
{
    is_valid(p) || is_same(p, &NOWHERE)
}

/// Whether the payload has this type.
fn is_kind(kinds: &KindList, payload: u8, kind: &Name) -> bool
    ensures { result ≡ is_kind (slice_get kinds.now payload) kind.now }
{
    match kinds.as_slice().get(payload as usize) {
        None => false,
        Some(noted) => noted.bytes() == kind.bytes(),
    }
}

fn calls_noted(kinds: &KindList, call: &Call) -> bool
    ensures { result ≡ calls_noted kinds.now call.now }
{
    match call {
        Call::Module { payload, kind, .. } => is_kind(kinds, *payload, kind),
        Call::Ask { payload, kind, .. } => is_kind(kinds, *payload, kind),
        Call::Script(_) => true,
        Call::SystemReboot => true,
    }
}

pub(crate) fn is_noted(kinds: &KindList, event: &Event) -> bool
    ensures { result ≡ is_noted kinds.now event.now }
{
    match event {
        Event::Start(call) => calls_noted(kinds, call),
        Event::End(_) => true,
        Event::Pause(_) => true,
        Event::Loss => true,
    }
}

fn are_noted(kinds: &KindList, events: &[Event]) -> bool
    ensures { result ≡ list_all (is_noted kinds.now) events.now }
{
    events.iter().all(|event| is_noted(kinds, event))
}

pub(crate) fn lists_fit(head: &NoteHead, end: NoteEnd) -> bool
    ensures { result ≡ lists_fit head.now end }
{
    match end {
        NoteEnd::Nothing => {
            head.kinds.len() == 0 && head.scripts.len() == 0 && head.site.len() == 0
        }
        _ => 1 <= head.kinds.len() && head.kinds.len() <= u32::from(MOST_KINDS),
    }
}

/// Whether the note of these three parts has a text.
pub(crate) fn has_text(head: &NoteHead, events: &EventList, end: NoteEnd) -> bool
    ensures { result ≡ has_text head.now events.now.events end }
{
    is_place(&head.from) && lists_fit(head, end) && are_noted(&head.kinds, events.as_slice())
}

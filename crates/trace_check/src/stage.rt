//! Reading notes line by line.

ghost use Rattle.std.specs.Prelude.{◌≡◌, [], MatchResult};
ghost use Rattle.trace_check.specs.Stages.{takes_kind, takes_script, takes_own, with_kind, with_script, with_own, with_event, more_step, end_step, open_step, step};
ghost use Rattle.trace_check.specs.declared.stage.LineFault.TheVariants.{Wrong};

use crate::events::event_in;
use crate::form::lists_fit;
use crate::lines::{deed_in, end_in, from_in, name_in, script_in, tag};
use crate::note::{Deed, Note, NoteHead, NoteList};
use device_model::EventList;
use flow_table::{MOST_KINDS, Position};
use script_names::{ScriptList, ScriptName};
use std::alloc::Global;
use upd_text::{KindList, NoMemory};

/// What was read since the last note ended.
#[derive(Drop)]
pub(crate) enum Stage {
    /// Nothing.
    Between,
    /// The command.
    Booted(Deed),
    /// What its boot began with, as far as it is told, and the events so far.
    Open(NoteHead, EventList),
}

/// Why a line doesn't go on.
#[derive(Clone, Copy, Debug, PartialEq, Eq)]
pub(crate) enum LineFault {
    /// No note goes on with it.
    Wrong,
    NoMemory,
}

impl From<NoMemory> for LineFault {
    ghost use Rattle.std.specs.Prelude.{◌≡◌};
    ghost use Rattle.trace_check.specs.declared.stage.LineFault.TheVariants as fault;

    ghost from_gives = { λ _ e. e ≡ fault.NoMemory };

    fn from(_e: NoMemory) -> LineFault {
        LineFault::NoMemory
    }
}

/// The head of a note of which the command and the position are known.
fn bare(alloc: Global, deed: Deed, from: Position) -> Stage
    ensures { result ≡ Stage.Open (record { deed = deed; from = from; kinds = []; scripts = []; site = [] }) (record { events = []; room = 0 }) }
{
    let head = NoteHead {
        deed,
        from,
        kinds: KindList::new(alloc),
        scripts: ScriptList::new(alloc),
        site: ScriptList::new(alloc),
    };
    Stage::Open(head, EventList::new(alloc))
}

fn takes_kind(head: &NoteHead, events: &EventList) -> bool
    ensures { result ≡ takes_kind head.now events.now.events }
{
    events.len() == 0
        && head.scripts.len() == 0
        && head.site.len() == 0
        && head.kinds.len() < u32::from(MOST_KINDS)
}

fn takes_script(head: &NoteHead, events: &EventList, script: &ScriptName) -> bool
    ensures { result ≡ takes_script head.now events.now.events script.now }
{
    events.len() == 0
        && head.site.len() == 0
        && head.kinds.len() > 0
        && head.scripts.len() < 64
        && head.scripts.is_last(script.name())
}

fn takes_own(head: &NoteHead, events: &EventList, script: &ScriptName) -> bool
    ensures { result ≡ takes_own head.now events.now.events script.now }
{
    events.len() == 0
        && head.kinds.len() > 0
        && head.site.len() < 64
        && head.site.is_last(script.name())
}

#[tactic(auto, unfolding(crate::specs::Stages::with_kind))]
fn with_kind(head: NoteHead, events: EventList, text: &[u8]) -> Result<Stage, LineFault>
    ensures { MatchResult result (λ new. with_kind head events text.now ≡ Some new) (λ fault. fault ≡ Wrong → with_kind head events text.now ≡ None) }
{
    let Some(name) = name_in(text) else {
        return Err(LineFault::Wrong);
    };
    if !takes_kind(&head, &events) {
        return Err(LineFault::Wrong);
    }
    let mut head = head;
    head.kinds.push(name)?;
    Ok(Stage::Open(head, events))
}

#[tactic(auto, unfolding(crate::specs::Stages::with_script))]
fn with_script(head: NoteHead, events: EventList, text: &[u8]) -> Result<Stage, LineFault>
    ensures { MatchResult result (λ new. with_script head events text.now ≡ Some new) (λ fault. fault ≡ Wrong → with_script head events text.now ≡ None) }
{
    let Some(script) = script_in(text) else {
        return Err(LineFault::Wrong);
    };
    if !takes_script(&head, &events, &script) {
        return Err(LineFault::Wrong);
    }
    let mut head = head;
    head.scripts.push_last(script)?;
    Ok(Stage::Open(head, events))
}

#[tactic(auto, unfolding(crate::specs::Stages::with_own))]
fn with_own(head: NoteHead, events: EventList, text: &[u8]) -> Result<Stage, LineFault>
    ensures { MatchResult result (λ new. with_own head events text.now ≡ Some new) (λ fault. fault ≡ Wrong → with_own head events text.now ≡ None) }
{
    let Some(script) = script_in(text) else {
        return Err(LineFault::Wrong);
    };
    if !takes_own(&head, &events, &script) {
        return Err(LineFault::Wrong);
    }
    let mut head = head;
    head.site.push_last(script)?;
    Ok(Stage::Open(head, events))
}

#[tactic(auto, unfolding(crate::specs::Stages::with_event))]
fn with_event(
    alloc: Global,
    head: NoteHead,
    events: EventList,
    text: &[u8],
) -> Result<Stage, LineFault>
    ensures { MatchResult result (λ new. with_event head events text.now ≡ Some new) (λ fault. fault ≡ Wrong → with_event head events text.now ≡ None) }
{
    let Some(event) = event_in(alloc, &head.kinds, text)? else {
        return Err(LineFault::Wrong);
    };
    let mut events = events;
    events.push(event)?;
    Ok(Stage::Open(head, events))
}

/// A line that doesn't end the note.
#[tactic(auto, unfolding(crate::specs::Stages::more_step))]
fn more_step(
    alloc: Global,
    head: NoteHead,
    events: EventList,
    text: &[u8],
) -> Result<Stage, LineFault>
    ensures { MatchResult result (λ new. more_step head events text.now ≡ Some new) (λ fault. fault ≡ Wrong → more_step head events text.now ≡ None) }
{
    if let Some(name) = tag(text, b"kind ") {
        return with_kind(head, events, name);
    }
    if let Some(name) = tag(text, b"script ") {
        return with_script(head, events, name);
    }
    if let Some(name) = tag(text, b"site ") {
        return with_own(head, events, name);
    }
    with_event(alloc, head, events, text)
}

#[tactic(auto, unfolding(crate::specs::Stages::end_step))]
fn end_step(
    head: NoteHead,
    events: EventList,
    notes: &mut NoteList,
    text: &[u8],
) -> Result<Stage, LineFault>
    ensures { MatchResult result (λ new. end_step head events notes.old text.now ≡ Some (new, notes.new)) (λ fault. fault ≡ Wrong → end_step head events notes.old text.now ≡ None) }
{
    match end_in(text) {
        Some(end) if lists_fit(&head, end) => {
            notes.push(Note { head, events, end })?;
            Ok(Stage::Between)
        }
        _ => Err(LineFault::Wrong),
    }
}

fn open_step(
    alloc: Global,
    head: NoteHead,
    events: EventList,
    notes: &mut NoteList,
    text: &[u8],
) -> Result<Stage, LineFault>
    ensures { MatchResult result (λ new. open_step head events notes.old text.now ≡ Some (new, notes.new)) (λ fault. fault ≡ Wrong → open_step head events notes.old text.now ≡ None) }
{
    if let Some(words) = tag(text, b"end ") {
        return end_step(head, events, notes, words);
    }
    more_step(alloc, head, events, text)
}

/// What a line leads to, without its newline.
#[tactic(auto, unfolding(crate::specs::Stages::step))]
pub(crate) fn step(
    alloc: Global,
    stage: Stage,
    notes: &mut NoteList,
    text: &[u8],
) -> Result<Stage, LineFault>
    ensures { MatchResult result (λ new. step stage notes.old text.now ≡ Some (new, notes.new)) (λ fault. fault ≡ Wrong → step stage notes.old text.now ≡ None) }
{
    match stage {
        Stage::Between => match deed_in(text) {
            Some(deed) => Ok(Stage::Booted(deed)),
            None => Err(LineFault::Wrong),
        },
        Stage::Booted(deed) => match from_in(text) {
            Some(from) => Ok(bare(alloc, deed, from)),
            None => Err(LineFault::Wrong),
        },
        Stage::Open(head, events) => open_step(alloc, head, events, notes, text),
    }
}

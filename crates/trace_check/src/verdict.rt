//! The verdict on notes.

ghost use Rattle.std.specs.Prelude.{◌≡◌, ℕ, ◌≤◌, ◌<◌, ◌^◌, ◌↔◌, IsTrue, false, length, Option, Some, None, MatchOption, All};
ghost use Rattle.flow_table.specs.declared.position.Position.{Position as A_position};
ghost use Rattle.trace_check.specs.Follows.{opening_of, powered, is_loss, without_loss, Follows, MayDiffer};
ghost use Rattle.trace_check.specs.Way.{stands_still, can_stand, is_stay, same_end, ends_as, ends_at, RanTo};
ghost use Rattle.trace_check.specs.Verdicts.{Fault, BreaksAt, GoesFrom, Judged};

use crate::note::{Deed, Note, NoteEnd, NoteHead, NoteList};
use crate::way::{Way, is_same, walk};
use device_model::Event;
use flow_table::{MOST_KINDS, Opening, Order, Position, State, first, fresh};
use script_names::ScriptList;
use upd_text::{KindList, Name};

/// Whether notes are a way that the flow allows.
#[derive(Clone, Copy, Debug, PartialEq, Eq)]
pub enum Verdict {
    /// They are.
    Path,
    /// The first note that is not, and the first of its events that can't come.
    Broken { note: u32, event: u32 },
}

/// What the command does at the position from which the boot began.
fn opening(head: &NoteHead) -> Opening
    ensures { result ≡ opening_of head.now }
{
    match head.deed {
        Deed::Install => match head.from.state {
            State::Idle => Opening::Enter(fresh()),
            state => Opening::MustResume(state),
        },
        Deed::Resume => first(&head.from, Order::Resume),
        Deed::ResumeStop => first(&head.from, Order::ResumeStop),
        Deed::Commit => first(&head.from, Order::Commit),
        Deed::Rollback => first(&head.from, Order::Rollback),
    }
}

fn is_loss(event: &Event) -> bool
    ensures { result ≡ is_loss event.now }
{
    matches!(event, Event::Loss)
}

fn without_loss(events: &[Event]) -> &[Event]
    ensures { result.now ≡ without_loss events.now }
{
    match events.split_last() {
        None => events,
        Some((last, front)) => { if is_loss(last) { front } else { events } }
    }
}

/// The events without the loss that ends a boot that was cut off.
fn powered(note: &Note) -> &[Event]
    ensures events { result.now ≡ powered note.now.end note.now.events.events }
    ensures few { length note.now.events.events < 2 ^ 32 }
{
    let events = note.events.as_slice();
    match note.end {
        NoteEnd::Halted => without_loss(events),
        _ => events,
    }
}

fn is_stay(opening: Opening) -> bool
    ensures { result ≡ is_stay opening }
{
    matches!(opening, Opening::Stay)
}

fn can_stand(head: &NoteHead, end: NoteEnd) -> bool
    ensures { result ≡ can_stand head.now end }
{
    match end {
        NoteEnd::Nothing | NoteEnd::Halted => true,
        NoteEnd::Waits => is_stay(opening(head)),
        NoteEnd::Ended(_) | NoteEnd::RebootNeeded => false,
    }
}

/// Whether the boot may have put no position.
fn stands_still(head: &NoteHead, events: &[Event], end: NoteEnd) -> bool
    ensures { result ≡ stands_still head.now events.now end }
{
    events.is_empty() && can_stand(head, end)
}

fn same_end(a: NoteEnd, b: NoteEnd) -> bool
    ensures { result ≡ same_end a b }
{
    match (a, b) {
        (NoteEnd::Ended(o), NoteEnd::Ended(q)) => o as u8 == q as u8,
        (NoteEnd::Nothing, NoteEnd::Nothing) => true,
        (NoteEnd::Waits, NoteEnd::Waits) => true,
        (NoteEnd::RebootNeeded, NoteEnd::RebootNeeded) => true,
        (NoteEnd::Halted, NoteEnd::Halted) => true,
        _ => false,
    }
}

fn ends_as(through: Option<(NoteEnd, Position)>, end: NoteEnd) -> bool
    ensures { result ≡ ends_as through end }
{
    match through {
        None => false,
        Some((came, _)) => same_end(came, end),
    }
}

fn ends_at(through: Option<(NoteEnd, Position)>, end: NoteEnd, p: &Position) -> bool
    ensures { result ≡ ends_at through end p.now }
{
    match through {
        None => false,
        Some((came, last)) => same_end(came, end) && is_same(&last, p),
    }
}

/// Whether the boot went through states to this position.
fn ran_to(head: &NoteHead, events: &[Event], end: NoteEnd, p: &Position) -> bool
    requires kinds { length head.now.kinds ≤ MOST_KINDS }
    ensures { IsTrue result ↔ RanTo head.now events.now end p.now }
{
    match opening(head) {
        Opening::Enter(first) => {
            let way = walk(head, events, first, p);
            match end {
                NoteEnd::Halted => way.meets,
                end => ends_at(way.through, end, p),
            }
        }
        _ => false,
    }
}

/// Whether the note tells of a boot that leaves the database at this position.
fn leads_to(note: &Note, p: &Position) -> bool
    requires kinds { length note.now.head.kinds ≤ MOST_KINDS }
    ensures { IsTrue result ↔ Follows note.now p.now }
{
    let events = powered(note);
    if stands_still(&note.head, events, note.end) && is_same(p, &note.head.from) {
        return true;
    }
    ran_to(&note.head, events, note.end, p)
}

/// The first event that can't come in a boot that put a position, or the number of events where only the end can't.
fn ran_fault(head: &NoteHead, events: &[Event], end: NoteEnd) -> Option<usize>
    requires kinds { length head.now.kinds ≤ MOST_KINDS }
    requires moves { stands_still head.now events.now end ≡ false }
    ensures none { result ≡ None → (p : A_position) × RanTo head.now events.now end p }
    ensures some { (e : ℕ) → result ≡ Some e → Fault head.now events.now end e }
{
    match opening(head) {
        Opening::Enter(first) => {
            let way = walk(head, events, first, &head.from);
            match end {
                NoteEnd::Halted => {
                    if way.good == events.len() {
                        None
                    } else {
                        Some(way.good)
                    }
                }
                end => {
                    if ends_as(way.through, end) {
                        None
                    } else {
                        Some(way.good)
                    }
                }
            }
        }
        _ => Some(0),
    }
}

/// The first event that can't come where the note tells of no boot, or the number of its events where only its end can't.
pub(crate) fn fault_of(note: &Note) -> Option<u32>
    requires kinds { length note.now.head.kinds ≤ MOST_KINDS }
    ensures none { result ≡ None → (p : A_position) × Follows note.now p }
    ensures some { (e : ℕ) → result ≡ Some e → BreaksAt note.now e × ((p : A_position) → Follows note.now p → ⊥) }
{
    let events = powered(note);
    if stands_still(&note.head, events, note.end) {
        return None;
    }
    match ran_fault(&note.head, events, note.end) {
        None => None,
        Some(at) => Some(at as u32),
    }
}

/// Whether the payload types are the same, in the same order.
fn same_kinds(a: &KindList, b: &KindList) -> bool
    ensures { IsTrue result ↔ (a.now ≡ b.now) }
{
    if a.len() != b.len() {
        return false;
    }
    for i in 0..a.len() {
        if a.at(i).bytes() != b.at(i).bytes() {
            return false;
        }
    }
    true
}

/// Whether the scripts are the same.
fn same_scripts(a: &ScriptList, b: &ScriptList) -> bool
    ensures { IsTrue result ↔ (a.now ≡ b.now) }
{
    if a.len() != b.len() {
        return false;
    }
    for i in 0..a.len() {
        if a.at(i).name().bytes() != b.at(i).name().bytes() {
            return false;
        }
    }
    true
}

fn is_install(deed: Deed) -> bool
    ensures { IsTrue result ↔ (deed ≡ Deed.Install) }
{
    matches!(deed, Deed::Install)
}

fn is_nothing(end: NoteEnd) -> bool
    ensures { IsTrue result ↔ (end ≡ NoteEnd.Nothing) }
{
    matches!(end, NoteEnd::Nothing)
}

fn is_halted(end: NoteEnd) -> bool
    ensures { IsTrue result ↔ (end ≡ NoteEnd.Halted) }
{
    matches!(end, NoteEnd::Halted)
}

/// Whether the note may have other lists than the one before it.
fn may_differ(before: &Note, note: &Note) -> bool
    ensures { IsTrue result ↔ MayDiffer before.now note.now.head.from note.now }
{
    if is_install(note.head.deed) || is_nothing(before.end) || is_nothing(note.end) {
        return true;
    }
    is_install(before.head.deed)
        && is_halted(before.end)
        && is_same(&note.head.from, &before.head.from)
}

/// Whether the note goes on from the one before it.
pub(crate) fn goes_on(before: &Note, note: &Note) -> bool
    requires kinds { length before.now.head.kinds ≤ MOST_KINDS }
    ensures { IsTrue result ↔ GoesFrom (Some before.now) note.now }
{
    if !leads_to(before, &note.head.from) {
        return false;
    }
    may_differ(before, note)
        || (same_kinds(&note.head.kinds, &before.head.kinds)
            && same_scripts(&note.head.scripts, &before.head.scripts))
}

/// Whether the notes are a way that the flow allows. Else it tells the first note that isn't, and the first of its events that
/// can't come: 0 where the note doesn't go on from the one before it, the number of its events where only its end can't come.
/// It takes no memory.
pub fn judge(notes: &NoteList) -> Verdict
    requires kinds { All (λ n. length n.head.kinds ≤ MOST_KINDS) notes.now }
    ensures { Judged notes.now result }
{
    for i in 0..notes.len() {
        let note = notes.at(i);
        if i > 0 && !goes_on(notes.at(i - 1), note) {
            return Verdict::Broken { note: i, event: 0 };
        }
        if let Some(event) = fault_of(note) {
            return Verdict::Broken { note: i, event };
        }
    }
    Verdict::Path
}

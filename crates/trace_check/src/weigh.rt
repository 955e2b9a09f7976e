//! The answer on the text of a transcript. Its notes are judged as they are read, so that no more than two are held.

ghost use Rattle.std.specs.Prelude.{◌≡◌, ◌≤◌, ◌<◌, ◌-◌, ◌^◌, ◌++◌, ◌∷◌, ℕ, List, [], length, slice_get, None, Some, Err, All};
ghost use Rattle.flow_table.specs.declared.position.Position.{Position as A_position};
ghost use Rattle.trace_check.specs.declared.note.Note.{Note as A_note};
ghost use Rattle.trace_check.specs.Checked.{Weighed};
ghost use Rattle.trace_check.specs.Follows.{Follows};
ghost use Rattle.trace_check.specs.Reads.{Reads, AreRead};
ghost use Rattle.trace_check.specs.Verdicts.{GoesFrom, FailsAt, Judged, before};
ghost use Rattle.trace_check.specs.Weighing.{Knows};

use crate::check::{LONGEST_TRACE, TraceStatus};
use crate::note::{Note, NoteList};
use crate::notes::{ReadFault, first_line, is_between, read_line};
use crate::stage::Stage;
use crate::verdict::{Verdict, fault_of, goes_on};
use flow_table::MOST_KINDS;
use std::alloc::Global;

/// What is known of the notes so far.
#[derive(Drop)]
struct Front {
    verdict: Verdict,
    /// How many they are.
    count: u32,
    /// The last of them, where there is one.
    last: NoteList,
}

/// The first event with which a note breaks a chain behind the one before it, which the list has, or behind none.
fn breaks_at(last: &NoteList, note: &Note) -> Option<u32>
    requires kinds { length note.now.head.kinds ≤ MOST_KINDS }
    requires last { All (λ n. length n.head.kinds ≤ MOST_KINDS) last.now }
    ensures none { result ≡ None → GoesFrom (slice_get last.now 0) note.now × ((p : A_position) × Follows note.now p) }
    ensures some { (e : ℕ) → result ≡ Some e → FailsAt (slice_get last.now 0) note.now e }
{
    if last.len() > 0 && !goes_on(last.at(0), note) {
        return Some(0);
    }
    fault_of(note)
}

/// The verdict on so many notes and one more behind the last of them.
fn with_note(verdict: Verdict, count: u32, last: &NoteList, note: &Note) -> Verdict
    requires kinds { length note.now.head.kinds ≤ MOST_KINDS }
    requires last { All (λ n. length n.head.kinds ≤ MOST_KINDS) last.now }
    ensures { (notes : List A_note) → length notes ≡ count → slice_get last.now 0 ≡ before notes count → Judged notes verdict → Judged (notes ++ note.now ∷ []) result }
{
    match verdict {
        Verdict::Path => match breaks_at(last, note) {
            None => Verdict::Path,
            Some(event) => Verdict::Broken { note: count, event },
        },
        Verdict::Broken { .. } => verdict,
    }
}

/// Takes in the note that ended with a line, if one did.
fn take_in(alloc: Global, front: &mut Front, ended: &mut NoteList)
    requires one { length ended.old ≤ 1 }
    requires count { front.old.count < 2 ^ 32 - 1 }
    requires kinds { All (λ n. length n.head.kinds ≤ MOST_KINDS) ended.old }
    requires last { All (λ n. length n.head.kinds ≤ MOST_KINDS) front.old.last }
    ensures none { ended.new ≡ [] }
    ensures front { (notes : List A_note) → Knows notes front.old → Knows (notes ++ ended.old) front.new }
{
    if ended.len() == 0 {
        return;
    }
    front.verdict = with_note(front.verdict, front.count, &front.last, ended.at(0));
    front.count += 1;
    front.last = std::mem::replace(ended, NoteList::new(alloc));
}

fn status_of(fault: ReadFault) -> TraceStatus
    ensures { (text : List ℕ) → Reads text (Err fault) → Weighed text result }
{
    match fault {
        ReadFault::BadLine(k) => TraceStatus::BadLine(k),
        ReadFault::NoMemory => TraceStatus::NoMemory,
    }
}

fn answer_of(verdict: Verdict) -> TraceStatus
    ensures { (text : List ℕ) (notes : List A_note) → AreRead text notes → Judged notes verdict → Weighed text result }
{
    match verdict {
        Verdict::Path => TraceStatus::Path,
        Verdict::Broken { note, event } => TraceStatus::Broken { note, event },
    }
}

/// What is answered of the text: no notes are, before it is read to its end.
pub(crate) fn weigh(alloc: Global, text: &[u8]) -> TraceStatus
    requires { length text.now ≤ LONGEST_TRACE }
    ensures { Weighed text.now result }
{
    let mut front = Front {
        verdict: Verdict::Path,
        count: 0,
        last: NoteList::new(alloc),
    };
    let mut ended = NoteList::new(alloc);
    let mut stage = Stage::Between;
    let mut rest = text;
    let mut number: u32 = 1;
    'lines: while let Some((line, behind)) = first_line(rest) {
        stage = match read_line(alloc, stage, &mut ended, line, number) {
            Ok(new) => new,
            Err(fault) => return status_of(fault),
        };
        take_in(alloc, &mut front, &mut ended);
        rest = behind;
        number += 1;
    }
    if is_between(&stage) && rest.is_empty() {
        answer_of(front.verdict)
    } else {
        TraceStatus::BadLine(number)
    }
}

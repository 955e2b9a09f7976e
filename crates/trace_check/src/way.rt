//! Walking through the states of a boot by its events.

ghost use Rattle.std.specs.Prelude.{◌≡◌, ◌≤◌, ◌||◌, ◌&&◌, if◌then◌else◌, Some, None, length};
ghost use Rattle.trace_check.specs.Follows.{is_stop};
ghost use Rattle.trace_check.specs.Way.{IsWay, same_position};

use crate::calls::read_state;
use crate::note::{Deed, NoteEnd, NoteHead};
use crate::read::Stop;
use device_model::Event;
use flow_table::{MOST_KINDS, Position, State, Step, next};

/// Where events lead.
#[derive(Clone, Copy, Debug, PartialEq, Eq)]
pub(crate) struct Way {
    /// So many of the first events may come.
    pub(crate) good: usize,
    /// How all of them end that weren't cut off, and at which position.
    pub(crate) through: Option<(NoteEnd, Position)>,
    /// All of them may have been cut off at the position that is asked about.
    pub(crate) meets: bool,
}

pub(crate) fn is_same(p: &Position, q: &Position) -> bool
    ensures { result ≡ same_position p.now q.now }
{
    p.state as u8 == q.state as u8
        && p.outcome as u8 == q.outcome as u8
        && p.undoable == q.undoable
        && p.reboot as u8 == q.reboot as u8
        && p.n == q.n
}

fn is_stop(deed: Deed) -> bool
    ensures { result ≡ is_stop deed }
{
    matches!(deed, Deed::ResumeStop)
}

/// Whether the position that is asked about was met, now that all events may have led to p.
fn met(meets: bool, is_all: bool, p: &Position, target: &Position) -> bool
    ensures { result ≡ (meets || (is_all && same_position p.now target.now)) }
{
    meets || (is_all && is_same(p, target))
}

/// Nothing follows at this position.
fn resting(
    end: NoteEnd,
    p: Position,
    good: usize,
    is_all: bool,
    meets: bool,
    target: &Position,
) -> Way
    ensures good { result.good ≡ good }
    ensures through { result.through ≡ (if is_all then Some (end, p) else None) }
    ensures met { result.meets ≡ (meets || (is_all && same_position p target.now)) }
{
    Way {
        good,
        through: if is_all { Some((end, p)) } else { None },
        meets: met(meets, is_all, &p, target),
    }
}

/// Walks from the first position through one state after another.
pub(crate) fn walk(head: &NoteHead, events: &[Event], first: Position, target: &Position) -> Way
    requires few { length head.now.kinds ≤ MOST_KINDS }
    ensures { IsWay head.now first events.now target.now result }
{
    let stop = is_stop(head.deed);
    let mut p = first;
    let mut at = 0;
    let mut meets = false;
    'states: loop {
        let is_end = at == events.len();
        match p.state {
            State::Idle => return resting(NoteEnd::Ended(p.outcome), p, at, is_end, meets, target),
            State::Wait => return resting(NoteEnd::Waits, p, at, is_end, meets, target),
            _ => {}
        }
        let (heard, i) = match read_state(events, at, head, &p) {
            Ok(read) => read,
            Err(Stop::Cut) => {
                return Way {
                    good: events.len(),
                    through: None,
                    meets: met(meets, true, &p, target),
                };
            }
            Err(Stop::Wrong(i)) => {
                return Way {
                    good: i,
                    through: None,
                    meets,
                };
            }
        };
        let is_end = i == events.len();
        match next(&p, heard, stop) {
            Step::Stop => return resting(NoteEnd::RebootNeeded, p, i, is_end, meets, target),
            Step::Enter(entered) => {
                meets = met(meets, is_end, &p, target);
                p = entered;
                at = i;
            }
        }
    }
}

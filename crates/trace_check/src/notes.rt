//! Reading notes from their text.

ghost use Rattle.std.specs.Prelude.{◌≡◌, ◌↔◌, ℕ, ◌<◌, ◌-◌, ◌^◌, ◌∷◌, ◌++◌, true, length, IsTrue, IfOk, MatchOption};
ghost use Rattle.trace_check.specs.Lines.{lacks};
ghost use Rattle.trace_check.specs.Stages.{step};
ghost use Rattle.trace_check.specs.Reads.{Reads};

use crate::lines::mark_at;
use crate::note::NoteList;
use crate::stage::{LineFault, Stage, step};
use std::alloc::Global;

/// Why a text isn't that of notes.
#[derive(Clone, Copy, Debug, PartialEq, Eq)]
pub enum ReadFault {
    /// The first line, counted from 1, with which the text begins no notes; or the one behind its last newline, where it ends
    /// inside a note.
    BadLine(u32),
    NoMemory,
}

/// The first line of a text, without its newline, and what stands behind it.
pub(crate) fn first_line(text: &[u8]) -> Option<(&[u8], &[u8])>
    ensures { MatchOption result (lacks 10 text.now ≡ true) (λ p. (text.now ≡ p.0.now ++ 10 ∷ p.1.now) × (lacks 10 p.0.now ≡ true)) }
{
    match mark_at(text, b'\n') {
        None => None,
        Some(at) => Some((text.split_at(at).0, text.split_at(at + 1).1)),
    }
}

pub(crate) fn is_between(stage: &Stage) -> bool
    ensures { IsTrue result ↔ (stage.now ≡ Stage.Between) }
{
    matches!(stage, Stage::Between)
}

/// What the line with this number, counted from 1, leads to.
pub(crate) fn read_line(
    alloc: Global,
    stage: Stage,
    notes: &mut NoteList,
    line: &[u8],
    number: u32,
) -> Result<Stage, ReadFault>
    ensures goes_on { IfOk result (λ new. step stage notes.old line.now ≡ Some (new, notes.new)) }
    ensures bad { (k : ℕ) → result ≡ Err (ReadFault.BadLine k) → (k ≡ number) × (step stage notes.old line.now ≡ None) }
{
    match step(alloc, stage, notes, line) {
        Ok(new) => Ok(new),
        Err(LineFault::Wrong) => Err(ReadFault::BadLine(number)),
        Err(LineFault::NoMemory) => Err(ReadFault::NoMemory),
    }
}

/// The notes that the text is, one behind another. Condition: the text has fewer than 4,294,967,295 bytes.
pub fn read_notes(alloc: Global, text: &[u8]) -> Result<NoteList, ReadFault>
    requires { length text.now < 2 ^ 32 - 1 }
    ensures { Reads text.now result }
{
    let mut notes = NoteList::new(alloc);
    let mut stage = Stage::Between;
    let mut rest = text;
    let mut number: u32 = 1;
    'lines: while let Some((line, behind)) = first_line(rest) {
        stage = read_line(alloc, stage, &mut notes, line, number)?;
        rest = behind;
        number += 1;
    }
    if is_between(&stage) && rest.is_empty() {
        Ok(notes)
    } else {
        Err(ReadFault::BadLine(number))
    }
}

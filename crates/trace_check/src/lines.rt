//! What the lines of a note's text say.

ghost use Rattle.std.specs.Prelude.{◌≡◌, ◌≤◌, ◌<◌, ◌==◌, position, IfOk, IfSome, MatchOption, length, Some, None};
ghost use Rattle.trace_check.specs.Lines.{deed_in, tag, number_in, split, fields_in, position_in, from_in, end_in, is_line, script_in, name_in};

use crate::form::is_place;
use crate::note::{Deed, NoteEnd};
use crate::tell::from_line;
use crate::words::undoable_named;
use flow_table::{Outcome, Position, Reboot, State};
use io_model::Line;
use script_names::ScriptName;
use upd_text::{Name, read_decimal};

/// What stands behind a word.
pub(crate) fn tag<'a>(text: &'a [u8], word: &[u8]) -> Option<&'a [u8]>
    ensures { MatchOption result (tag word.now text.now ≡ None) (λ rest. tag word.now text.now ≡ Some rest.now) }
{
    if text.starts_with(word) && word.len() <= text.len() {
        Some(text.split_at(word.len()).1)
    } else {
        None
    }
}

/// A number of at most this.
#[tactic(auto, unfolding(crate::specs::Lines::number_in))]
pub(crate) fn number_in(most: u64, digits: &[u8]) -> Option<u64>
    ensures value { result ≡ number_in most digits.now }
    ensures most { IfSome result (λ n. n ≤ most) }
{
    let n = read_decimal(digits)?;
    if n <= most { Some(n) } else { None }
}

pub(crate) fn byte_in(digits: &[u8]) -> Option<u8>
    ensures { result ≡ number_in 255 digits.now }
{
    match number_in(255, digits) {
        Some(n) => Some(n as u8),
        None => None,
    }
}

/// The index of the first such byte.
pub(crate) fn mark_at(text: &[u8], mark: u8) -> Option<usize>
    ensures at { result ≡ position (λ b. b == mark) text.now }
    ensures within { IfSome result (λ i. i < length text.now) }
{
    text.iter().position(|b| *b == mark)
}

/// The text up to the first space, and what stands behind it.
#[tactic(auto, unfolding(crate::specs::Lines::split))]
pub(crate) fn split(text: &[u8]) -> Option<(&[u8], &[u8])>
    ensures { MatchOption result (split text.now ≡ None) (λ p. split text.now ≡ Some (p.0.now, p.1.now)) }
{
    let at = mark_at(text, b' ')?;
    Some((text.split_at(at).0, text.split_at(at + 1).1))
}

/// Whether the line is this text with a newline.
pub(crate) fn is_line(line: &Line, text: &[u8]) -> bool
    ensures { result ≡ is_line line.now text.now }
{
    match line.bytes().split_last() {
        Some((last, front)) => *last == b'\n' && front == text,
        None => false,
    }
}

/// The command that the line of a boot says.
#[tactic(auto, unfolding(crate::specs::Lines::deed_in))]
pub(crate) fn deed_in(text: &[u8]) -> Option<Deed>
    ensures { result ≡ deed_in text.now }
{
    Deed::read(tag(text, b"boot ")?)
}

pub(crate) fn name_in(text: &[u8]) -> Option<Name>
    ensures { result ≡ name_in text.now }
{
    match Name::read(text) {
        Ok(name) => Some(name),
        Err(_) => None,
    }
}

pub(crate) fn script_in(text: &[u8]) -> Option<ScriptName>
    ensures { result ≡ script_in text.now }
{
    ScriptName::read(&name_in(text)?)
}

#[tactic(auto, unfolding(crate::specs::Lines::fields_in))]
fn fields_in(
    state: &[u8],
    outcome: &[u8],
    undoable: &[u8],
    reboot: &[u8],
    n: &[u8],
) -> Option<Position>
    ensures { result ≡ fields_in state.now outcome.now undoable.now reboot.now n.now }
{
    let state = State::read(state)?;
    let outcome = Outcome::read(outcome)?;
    let undoable = undoable_named(undoable)?;
    let reboot = Reboot::read(reboot)?;
    let n = byte_in(n)?;
    Some(Position {
        state,
        outcome,
        undoable,
        reboot,
        n,
    })
}

#[tactic(auto, unfolding(crate::specs::Lines::position_in))]
fn position_in(text: &[u8]) -> Option<Position>
    ensures { result ≡ position_in text.now }
{
    let (state, text) = split(text)?;
    let (outcome, text) = split(text)?;
    let (undoable, text) = split(text)?;
    let (reboot, n) = split(text)?;
    fields_in(state, outcome, undoable, reboot, n)
}

/// The position that the line of it says.
#[tactic(auto, unfolding(crate::specs::Lines::from_in))]
pub(crate) fn from_in(text: &[u8]) -> Option<Position>
    ensures { result ≡ from_in text.now }
{
    let from = position_in(tag(text, b"from ")?)?;
    if is_place(&from) && is_line(&from_line(&from), text) {
        Some(from)
    } else {
        None
    }
}

/// How a boot ended, by the words.
#[tactic(auto, unfolding(crate::specs::Lines::end_in))]
pub(crate) fn end_in(text: &[u8]) -> Option<NoteEnd>
    ensures { result ≡ end_in text.now }
{
    if text == b"none".as_slice() {
        return Some(NoteEnd::Nothing);
    }
    if text == b"waits".as_slice() {
        return Some(NoteEnd::Waits);
    }
    if text == b"reboot-needed".as_slice() {
        return Some(NoteEnd::RebootNeeded);
    }
    if text == b"halted".as_slice() {
        return Some(NoteEnd::Halted);
    }
    let outcome = Outcome::read(tag(text, b"ended ")?)?;
    Some(NoteEnd::Ended(outcome))
}

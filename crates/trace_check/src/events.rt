//! What the line of an event says.

ghost use Rattle.std.specs.Prelude.{◌≡◌, IfOk};
ghost use Rattle.trace_check.specs.Lines.{called, called_in, run_in, bytes_in, reply_in, exit_in, pause_in, event_named, call_in, answer_in, event_in};

use crate::form::is_noted;
use crate::lines::{byte_in, name_in, number_in, split, tag};
use crate::spelling::is_spelled;
use device_model::{Answer, Call, Event, ModuleWord};
use hex::FromHexError;
use std::alloc::Global;
use upd_text::{KindList, Name, NoMemory, Text32};

fn called(payload: u8, kind: Name, word: ModuleWord) -> Event
    ensures { result ≡ called payload kind word }
{
    Event::Start(match word {
        ModuleWord::State(state) => Call::Module {
            payload,
            kind,
            state,
        },
        ModuleWord::Ask(query) => Call::Ask {
            payload,
            kind,
            query,
        },
    })
}

/// The call of a module, by the number of its payload and its word.
#[tactic(auto, unfolding(crate::specs::Lines::called_in))]
fn called_in(kinds: &KindList, text: &[u8]) -> Option<Event>
    ensures { result ≡ called_in kinds.now text.now }
{
    let (digits, word) = split(text)?;
    let payload = byte_in(digits)?;
    let kind = kinds.as_slice().get(payload as usize)?;
    let word = ModuleWord::read(word)?;
    Some(called(payload, kind.twin(), word))
}

#[tactic(auto, unfolding(crate::specs::Lines::run_in))]
fn run_in(text: &[u8]) -> Option<Event>
    ensures { result ≡ run_in text.now }
{
    let name = name_in(text)?;
    Some(Event::Start(Call::Script(name)))
}

/// The bytes of digits, two for each, and none for a dash.
#[tactic(auto, unfolding(crate::specs::Lines::bytes_in))]
fn bytes_in(alloc: Global, digits: &[u8]) -> Result<Option<Text32>, NoMemory>
    ensures { IfOk result (λ bytes. bytes ≡ bytes_in digits.now) }
{
    if digits == b"-".as_slice() {
        return Ok(Some(Text32::cut(b"")));
    }
    match hex::decode(alloc, digits) {
        Ok(bytes) => Ok(Some(Text32::cut(&bytes))),
        Err(FromHexError::OutOfMemory) => Err(NoMemory),
        Err(_) => Ok(None),
    }
}

#[tactic(auto, unfolding(crate::specs::Lines::reply_in))]
fn reply_in(alloc: Global, text: &[u8]) -> Result<Option<Event>, NoMemory>
    ensures { IfOk result (λ event. event ≡ reply_in text.now) }
{
    let Some((digits, told)) = split(text) else {
        return Ok(None);
    };
    let Some(code) = byte_in(digits) else {
        return Ok(None);
    };
    match bytes_in(alloc, told)? {
        Some(bytes) => Ok(Some(Event::End(Answer::Reply(code, bytes)))),
        None => Ok(None),
    }
}

#[tactic(auto, unfolding(crate::specs::Lines::exit_in))]
fn exit_in(text: &[u8]) -> Option<Event>
    ensures { result ≡ exit_in text.now }
{
    let code = byte_in(text)?;
    Some(Event::End(Answer::Exit(code)))
}

#[tactic(auto, unfolding(crate::specs::Lines::pause_in))]
fn pause_in(text: &[u8]) -> Option<Event>
    ensures { result ≡ pause_in text.now }
{
    let seconds = number_in(4_294_967_295, text)?;
    Some(Event::Pause(seconds as u32))
}

fn event_named(text: &[u8]) -> Option<Event>
    ensures { result ≡ event_named text.now }
{
    if text == b"reboot".as_slice() {
        return Some(Event::Start(Call::SystemReboot));
    }
    if text == b"not-started".as_slice() {
        return Some(Event::End(Answer::NotStarted));
    }
    if text == b"loss".as_slice() {
        return Some(Event::Loss);
    }
    None
}

#[tactic(auto, unfolding(crate::specs::Lines::answer_in))]
fn answer_in(alloc: Global, text: &[u8]) -> Result<Option<Event>, NoMemory>
    ensures { IfOk result (λ event. event ≡ answer_in text.now) }
{
    if let Some(text) = tag(text, b"exit ") {
        return Ok(exit_in(text));
    }
    if let Some(text) = tag(text, b"reply ") {
        return reply_in(alloc, text);
    }
    if let Some(text) = tag(text, b"pause ") {
        return Ok(pause_in(text));
    }
    Ok(event_named(text))
}

#[tactic(auto, unfolding(crate::specs::Lines::call_in))]
fn call_in(alloc: Global, kinds: &KindList, text: &[u8]) -> Result<Option<Event>, NoMemory>
    ensures { IfOk result (λ event. event ≡ call_in kinds.now text.now (answer_in text.now)) }
{
    if let Some(text) = tag(text, b"module ") {
        return Ok(called_in(kinds, text));
    }
    if let Some(text) = tag(text, b"ask ") {
        return Ok(called_in(kinds, text));
    }
    if let Some(text) = tag(text, b"run ") {
        return Ok(run_in(text));
    }
    answer_in(alloc, text)
}

/// The event that a line says, with the payload types of its note.
#[tactic(auto, unfolding(crate::specs::Lines::event_in))]
pub(crate) fn event_in(
    alloc: Global,
    kinds: &KindList,
    text: &[u8],
) -> Result<Option<Event>, NoMemory>
    ensures { IfOk result (λ event. event ≡ event_in kinds.now text.now) }
{
    match call_in(alloc, kinds, text)? {
        Some(event) if is_noted(kinds, &event) && is_spelled(&event, text) => { Ok(Some(event)) }
        _ => Ok(None),
    }
}

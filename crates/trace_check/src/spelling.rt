//! Whether a text says an event, without making its line.

ghost use Rattle.std.specs.Prelude.{◌≡◌, ◌++◌, codes, decimal};
ghost use Rattle.std.specs.Str.{bytes_eq};
ghost use Rattle.event_text.specs.Lines.{call_text, answer_text, line};
ghost use Rattle.trace_check.specs.Lines.{is_line};

use crate::lines::{is_line, tag};
use device_model::{Answer, Call, Event};
use event_text::line_of;
use upd_text::decimal;

/// Whether the text is the word with the name behind it.
fn is_joined(word: &[u8], name: &[u8], text: &[u8]) -> bool
    ensures { result ≡ bytes_eq (word.now ++ name.now) text.now }
{
    match tag(text, word) {
        None => false,
        Some(rest) => name == rest,
    }
}

fn is_numbered(word: &[u8], number: u64, text: &[u8]) -> bool
    ensures { result ≡ bytes_eq (word.now ++ decimal number) text.now }
{
    is_joined(word, decimal(number).bytes(), text)
}

/// Whether the text is the word, the number, a space and the name.
fn is_counted(word: &[u8], number: u8, name: &[u8], text: &[u8]) -> bool
    ensures { result ≡ bytes_eq (word.now ++ (decimal number ++ (codes " " ++ name.now))) text.now }
{
    let Some(rest) = tag(text, word) else {
        return false;
    };
    match tag(rest, decimal(u64::from(number)).bytes()) {
        None => false,
        Some(rest) => is_joined(b" ", name, rest),
    }
}

fn says_call(call: &Call, text: &[u8]) -> bool
    ensures { result ≡ bytes_eq (call_text call.now) text.now }
{
    match call {
        Call::Module { payload, state, .. } => {
            is_counted(b"module ", *payload, state.name().as_bytes(), text)
        }
        Call::Ask { payload, query, .. } => {
            is_counted(b"ask ", *payload, query.name().as_bytes(), text)
        }
        Call::Script(name) => is_joined(b"run ", name.bytes(), text),
        Call::SystemReboot => b"reboot".as_slice() == text,
    }
}

fn says_answer(answer: &Answer, text: &[u8]) -> bool
    ensures { result ≡ bytes_eq (answer_text answer.now) text.now }
{
    match answer {
        Answer::Exit(code) => is_numbered(b"exit ", u64::from(*code), text),
        Answer::Reply(_, _) => is_line(&line_of(&Event::End(answer.twin())), text),
        Answer::NotStarted => b"not-started".as_slice() == text,
    }
}

/// Whether the text is the event's line, without its newline.
pub(crate) fn is_spelled(event: &Event, text: &[u8]) -> bool
    ensures { result ≡ is_line (line event.now) text.now }
{
    match event {
        Event::Start(call) => says_call(call, text),
        Event::End(answer) => says_answer(answer, text),
        Event::Pause(seconds) => is_numbered(b"pause ", u64::from(*seconds), text),
        Event::Loss => b"loss".as_slice() == text,
    }
}

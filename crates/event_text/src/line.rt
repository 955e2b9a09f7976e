//! A line of text for each event.

ghost use Rattle.std.specs.Prelude.{◌≡◌, ◌+◌, ◌*◌, ◌<◌, ◌≤◌, ◌++◌, IfOk, length, slice_index, codes, decimal};
ghost use Rattle.std.specs.List.{flat_map};
ghost use Rattle.hex.specs.Hex.{lower_digits, encode_lower};
ghost use Rattle.event_text.specs.Lines.{call_text, answer_text, reply_text, line};

use device_model::{Answer, Call, Event, EventList};
use io_model::Line;
use std::alloc::Global;
use upd_text::{NoMemory, Text32, decimal};

/// The digit of a number below 16.
fn digit(n: u8) -> u8
    requires { n < 16 }
    ensures { result ≡ slice_index lower_digits n }
{
    b"0123456789abcdef"[n as usize]
}

/// Two digits for each byte.
fn add_digits(line: &mut Line, bytes: &[u8])
    requires { length line.old + 2 * length bytes.now ≤ 1000 }
    ensures text { line.new ≡ line.old ++ encode_lower bytes.now }
    ensures long { length line.new ≡ length line.old + 2 * length bytes.now }
{
    for byte in bytes {
        line.add(&[digit(*byte / 16), digit(*byte % 16)]);
    }
}

/// A word, a number, a space and a word.
fn numbered(word: &[u8], number: u8, last: &[u8]) -> Line
    requires word { length word.now ≤ 32 }
    requires last { length last.now ≤ 64 }
    ensures { result ≡ word.now ++ decimal number ++ codes " " ++ last.now ++ codes "\n" }
{
    let digits = decimal(u64::from(number));
    let mut line = Line::new();
    line.add(word);
    line.add(digits.bytes());
    line.add(b" ");
    line.add(last);
    line.add(b"\n");
    line
}

fn call_line(call: &Call) -> Line
    ensures { result ≡ call_text call.now ++ codes "\n" }
{
    match call {
        Call::Module { payload, state, .. } => {
            numbered(b"module ", *payload, state.name().as_bytes())
        }
        Call::Ask { payload, query, .. } => { numbered(b"ask ", *payload, query.name().as_bytes()) }
        Call::Script(name) => Line::named(b"run ", name.bytes()),
        Call::SystemReboot => Line::named(b"reboot", b""),
    }
}

/// Two digits for each byte of the text, and a dash where there is none.
fn reply_line(code: u8, text: &Text32) -> Line
    ensures { result ≡ codes "reply " ++ decimal code ++ codes " " ++ reply_text text.now ++ codes "\n" }
{
    let bytes = text.bytes();
    if bytes.is_empty() {
        return numbered(b"reply ", code, b"-");
    }
    let digits = decimal(u64::from(code));
    let mut line = Line::new();
    line.add(b"reply ");
    line.add(digits.bytes());
    line.add(b" ");
    add_digits(&mut line, bytes);
    line.add(b"\n");
    line
}

fn answer_line(answer: &Answer) -> Line
    ensures { result ≡ answer_text answer.now ++ codes "\n" }
{
    match answer {
        Answer::Exit(code) => Line::numbered(b"exit ", u64::from(*code)),
        Answer::Reply(code, text) => reply_line(*code, text),
        Answer::NotStarted => Line::named(b"not-started", b""),
    }
}

/// The line of an event. It takes no memory.
pub fn line_of(event: &Event) -> Line
    ensures { result ≡ line event.now }
{
    match event {
        Event::Start(call) => call_line(call),
        Event::End(answer) => answer_line(answer),
        Event::Pause(seconds) => Line::numbered(b"pause ", u64::from(*seconds)),
        Event::Loss => Line::named(b"loss", b""),
    }
}

/// The lines of all events of a journal.
pub fn spelled(alloc: Global, journal: &EventList) -> Result<Vec<u8>, NoMemory>
    ensures { IfOk result (λ text. text.items ≡ flat_map line journal.now.events) }
{
    let mut text = Vec::new(alloc);
    for event in journal.as_slice() {
        text.extend_from_slice(line_of(event).bytes())?;
    }
    Ok(text)
}

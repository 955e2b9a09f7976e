//! The words of a line.

ghost use Rattle.std.specs.Prelude.{◌<◌, ◌≤◌, IfOk, IfSome};

use device_model::{ModState, ModuleWord, Part, Query};
use std::alloc::Global;
use std::io::{self, ErrorKind};
use upd_text::{Name, read_decimal};

/// A line that asks for nothing.
pub fn wrong() -> io::Error {
    io::Error::new(ErrorKind::InvalidInput, "no line has this form")
}

/// The first word of a line and the rest.
pub fn parted(line: &str) -> (&str, &str) {
    line.split_once(' ').unwrap_or((line, ""))
}

/// The three words of a line, of which the last may have blanks.
pub fn three(line: &str) -> (&str, &str, &str) {
    let (first, rest) = parted(line);
    let (second, third) = parted(rest);
    (first, second, third)
}

/// A number that isn't above `most`.
pub fn number_to(text: &str, most: u64) -> io::Result<u64>
    ensures { IfOk result (λ n. n ≤ most) }
{
    match read_decimal(text.as_bytes()) {
        Some(found) if found <= most => Ok(found),
        _ => Err(wrong()),
    }
}

/// A number of 32 bits.
pub fn number(text: &str) -> io::Result<u32> {
    let found = number_to(text, u64::from(u32::MAX))?;
    Ok(found as u32)
}

/// The number of a payload.
pub fn payload(text: &str) -> io::Result<u8> {
    let found = number_to(text, 255)?;
    Ok(found as u8)
}

pub fn name(text: &[u8]) -> io::Result<Name> {
    match Name::read(text) {
        Ok(name) => Ok(name),
        Err(_) => Err(wrong()),
    }
}

/// `scripts`, or the number of a payload.
pub fn part(text: &str) -> io::Result<Part> {
    if text == "scripts" {
        return Ok(Part::Scripts);
    }
    Ok(Part::Tree(payload(text)?))
}

/// The state that a module's word names.
pub fn state(text: &str) -> io::Result<ModState> {
    match ModuleWord::read(text.as_bytes()) {
        Some(ModuleWord::State(state)) => Ok(state),
        _ => Err(wrong()),
    }
}

/// The question that a module's word names.
pub fn query(text: &str) -> io::Result<Query> {
    match ModuleWord::read(text.as_bytes()) {
        Some(ModuleWord::Ask(query)) => Ok(query),
        _ => Err(wrong()),
    }
}

fn digit(sign: u8) -> Option<u8>
    ensures { IfSome result (λ d. d < 16) }
{
    match sign {
        b'0'..=b'9' => Some(sign - b'0'),
        b'a'..=b'f' => Some(sign - b'a' + 10),
        _ => None,
    }
}

/// The byte in front, which may be `\` and two digits of base 16, and what stands behind it.
fn first(text: &[u8]) -> Option<(u8, &[u8])> {
    match text {
        [b'\\', high, low, rest @ ..] => Some((16 * digit(*high)? + digit(*low)?, rest)),
        [b'\\', ..] => None,
        [sign, rest @ ..] => Some((*sign, rest)),
        [] => None,
    }
}

/// The bytes that a text stands for.
pub fn bytes(alloc: Global, text: &str) -> io::Result<Vec<u8>> {
    let mut bytes = Vec::new(alloc);
    let mut rest = text.as_bytes();
    for _ in 0..text.len() {
        if rest.is_empty() {
            break;
        }
        let (byte, behind) = first(rest).ok_or(wrong())?;
        bytes.push(byte)?;
        rest = behind;
    }
    Ok(bytes)
}

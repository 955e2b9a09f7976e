//! Bytes in a line of text: a printed sign is itself, a newline is `\n`, and `\` and two digits of base 16 are any byte.

ghost use Rattle.std.specs.Prelude.{◌<◌, IfSome};

use crate::reason::{Reason, Stop};
use std::alloc::Global;
use upd_text::NoMemory;

fn digit(sign: u8) -> Option<u8>
    ensures { IfSome result (λ d. d < 16) }
{
    match sign {
        b'0'..=b'9' => Some(sign - b'0'),
        b'a'..=b'f' => Some(sign - b'a' + 10),
        _ => None,
    }
}

/// The byte that two digits stand for.
fn byte_of(high: u8, low: u8) -> Option<u8> {
    Some(16 * digit(high)? + digit(low)?)
}

/// The byte in front and what stands behind it.
fn first(text: &[u8]) -> Option<(u8, &[u8])> {
    match text {
        [b'\\', b'n', rest @ ..] => Some((b'\n', rest)),
        [b'\\', high, low, rest @ ..] => Some((byte_of(*high, *low)?, rest)),
        [b'\\', ..] => None,
        [sign, rest @ ..] => Some((*sign, rest)),
        [] => None,
    }
}

/// The bytes that a text stands for.
pub fn bytes_of(alloc: Global, text: &str) -> Result<Vec<u8>, Stop> {
    let mut bytes = Vec::new(alloc);
    let mut rest = text.as_bytes();
    for _ in 0..text.len() {
        if rest.is_empty() {
            break;
        }
        let Some((byte, behind)) = first(rest) else {
            return Err(Stop::Wrong(Reason::Bytes));
        };
        bytes.push(byte)?;
        rest = behind;
    }
    Ok(bytes)
}

/// Adds a byte as text.
fn add_byte(text: &mut String, byte: u8) -> Result<(), NoMemory> {
    match byte {
        b'\n' => text.push_str("\\n")?,
        b'\\' => text.push_str("\\5c")?,
        b' '..=b'~' => text.push(char::from(byte))?,
        _ => write!(text, "\\{byte:02x}")?,
    }
    Ok(())
}

/// The text that stands for bytes.
pub fn text_of(alloc: Global, bytes: &[u8]) -> Result<String, NoMemory> {
    let mut text = String::new(alloc);
    for byte in bytes {
        add_byte(&mut text, *byte)?;
    }
    Ok(text)
}

//! Numbers in a line.

ghost use Rattle.std.specs.Prelude.{◌≤◌, IfOk};

use crate::reason::{Reason, Stop};
use device_mem::AnswerList;
use device_model::Answer;
use upd_text::{CallList, read_decimal};

/// A number.
pub fn number(text: &str) -> Result<u64, Reason> {
    read_decimal(text.as_bytes()).ok_or(Reason::Number)
}

/// A number that isn't above `most`.
pub fn number_to(text: &str, most: u64) -> Result<u64, Reason>
    ensures { IfOk result (λ n. n ≤ most) }
{
    let found = number(text)?;
    if found > most {
        return Err(Reason::Number);
    }
    Ok(found)
}

/// Two parts of a text, which a blank parts.
pub fn parted(text: &str) -> Result<(&str, &str), Reason> {
    text.split_once(' ').ok_or(Reason::Number)
}

/// Adds the numbers of a line.
pub fn add_numbers(list: &mut CallList, text: &str) -> Result<(), Stop> {
    for word in text.split(' ') {
        list.push(number(word)?)?;
    }
    Ok(())
}

/// Adds the exits of a line.
pub fn add_exits(list: &mut AnswerList, text: &str) -> Result<(), Stop> {
    for word in text.split(' ') {
        let Ok(code) = word.parse::<u8>() else {
            return Err(Stop::Wrong(Reason::Number));
        };
        list.push(Answer::Exit(code))?;
    }
    Ok(())
}

//! Reading the fields of a record from the left.

ghost use Rattle.std.specs.Prelude.{◌≡◌, ◌≤◌, length, Ok, Err, OnErr, MatchOption, MatchResult, take};

mod cell;
mod fields;
mod lists;
mod whole;

use crate::fault::Wrong;
use crate::length::LARGEST_RECORD;
use std::marker::Model;

/// What is left to read, and at which offset of the record it stands.
#[derive(Drop)]
pub(crate) struct Reader<'a> {
    at: u32,
    rest: &'a [u8],
}

impl<'a> Model for Reader<'a> {
    ghost use Rattle.std.specs.Prelude.{◌≤◌, ◌+◌, length};
    ghost use Rattle.record_codec.specs.Reading.{Rest};
    ghost use Rattle.record_codec.specs.declared.length.TheConstants.{LARGEST_RECORD};

    ghost Value = { Rest };

    ghost view = { λ r. record { at = r.at; bytes = r.rest.now } };

    ghost invariant = { λ r. r.at + length r.rest.now ≤ LARGEST_RECORD };
}

impl<'a> Reader<'a> {
    ghost use Rattle.record_codec.specs.Reading.{Reads, any, bytes_at, number_at, literal_at, is_length};
    ghost use Rattle.std.specs.Int.{w8, w16, w32};

    /// The next bytes, where there are so many.
    #[tactic(auto, unfolding(crate::specs::Reading::bytes_at))]
    fn bytes(&mut self, n: usize) -> Option<&'a [u8]>
        ensures read { MatchOption result (bytes_at n self.old ≡ Err self.old.at) (λ x. bytes_at n self.old ≡ Ok (x.now, self.new)) }
        ensures same { MatchOption result (self.new ≡ self.old) (λ x. length x.now ≡ n) }
    {
        if self.rest.len() < n {
            return None;
        }
        let (front, rest) = self.rest.split_at(n);
        self.rest = rest;
        self.at += n as u32;
        Some(front)
    }

    #[tactic(auto, unfolding(crate::specs::Reading::number_at))]
    fn byte(&mut self) -> Result<u8, Wrong>
        ensures { Reads result (number_at w8 any self.old) self.new }
    {
        let at = self.at;
        match self.bytes(1) {
            Some(digits) => Ok(digits[0]),
            None => Err(Wrong { at }),
        }
    }

    #[tactic(auto, unfolding(crate::specs::Reading::number_at))]
    fn count(&mut self) -> Result<u16, Wrong>
        ensures { Reads result (number_at w16 any self.old) self.new }
    {
        let at = self.at;
        match self.bytes(2) {
            Some(digits) => Ok(u16::from_be_bytes([digits[0], digits[1]])),
            None => Err(Wrong { at }),
        }
    }

    /// The record's length.
    #[tactic(auto, unfolding(crate::specs::Reading::number_at))]
    fn end(&mut self) -> Result<u32, Wrong>
        ensures { Reads result (number_at w32 is_length self.old) self.new }
    {
        let at = self.at;
        match self.bytes(4) {
            Some(digits) => {
                let end = u32::from_be_bytes([digits[0], digits[1], digits[2], digits[3]]);
                if 16 <= end && end <= LARGEST_RECORD {
                    Ok(end)
                } else {
                    Err(Wrong { at })
                }
            }
            None => Err(Wrong { at }),
        }
    }

    #[tactic(auto, unfolding(crate::specs::Reading::literal_at))]
    fn literal(&mut self, text: &[u8]) -> Result<(), Wrong>
        ensures read { MatchResult result (λ _. literal_at text.now self.old ≡ Ok self.new) (λ e. literal_at text.now self.old ≡ Err e.at) }
        ensures same { OnErr result (self.new ≡ self.old) }
    {
        if !self.rest.starts_with(text) {
            return Err(Wrong { at: self.at });
        }
        let (_, rest) = self.rest.split_at(text.len());
        self.rest = rest;
        self.at += text.len() as u32;
        Ok(())
    }
}

/// The first n bytes, or all where there are fewer.
pub(crate) fn front(bytes: &[u8], n: usize) -> &[u8]
    ensures front { result.now ≡ take n bytes.now }
    ensures fits { length result.now ≤ n }
    ensures shorter { length result.now ≤ length bytes.now }
{
    if bytes.len() > n { &bytes[..n] } else { bytes }
}

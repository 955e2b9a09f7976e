//! Reading a whole record.

ghost use Rattle.std.specs.Prelude.{◌≡◌, ◌≤◌, length, Ok, Err, MatchResult};

use super::{Reader, front};
use crate::entry::{Entry, Version};
use crate::fault::{DecodeFault, Wrong};
use crate::length::LARGEST_RECORD;
use flow_table::{MOST_KINDS, Position};
use std::alloc::Global;

/// The fields before the offset 16.
#[derive(Clone, Copy)]
pub(crate) struct Head {
    pub(crate) position: Position,
    pub(crate) count: u8,
    pub(crate) id: u16,
    pub(crate) end: u32,
}

impl<'a> Reader<'a> {
    ghost use Rattle.record_codec.specs.Reading.{Reads, Builds, Gives, version_at, is_kind_count, number_at, marks_at, body_at, within, head_at, entry_at};
    ghost use Rattle.std.specs.Int.{w8};

    pub(crate) fn new(bytes: &'a [u8]) -> Self
        requires { length bytes.now ≤ LARGEST_RECORD }
        ensures { result ≡ record { at = 0; bytes = bytes.now } }
    {
        Reader { at: 0, rest: bytes }
    }

    #[tactic(auto, unfolding(crate::specs::Reading::body_at))]
    fn body(&mut self, alloc: Global, head: Head) -> Result<Entry, DecodeFault>
        ensures { Builds result (body_at head self.old) self.new }
    {
        let before = self.map(alloc)?;
        let new = self.named_map(alloc)?;
        let kinds = self.kinds(alloc, head.count)?;
        let scripts = self.scripts(alloc)?;
        Ok(Entry {
            position: head.position,
            id: head.id,
            before,
            new,
            kinds,
            scripts,
        })
    }

    /// Leaves out what stands behind the record's end.
    fn end_at(&mut self, end: u32)
        ensures { self.new ≡ within end self.old }
    {
        let left = end.saturating_sub(self.at) as usize;
        self.rest = front(self.rest, left);
    }

    /// The record's version, by its first four bytes.
    #[tactic(auto, unfolding(crate::specs::Reading::version_at))]
    fn version(&mut self) -> Result<Version, Wrong>
        ensures { Reads result (version_at self.old) self.new }
    {
        match self.literal(b"MUP1") {
            Ok(()) => Ok(Version::First),
            Err(_) => match self.literal(b"MUP2") {
                Ok(()) => Ok(Version::Second),
                Err(wrong) => Err(wrong),
            },
        }
    }

    /// How many payloads there are: 1 to 8.
    #[tactic(auto, unfolding(crate::specs::Reading::number_at))]
    fn kind_count(&mut self) -> Result<u8, Wrong>
        ensures { Reads result (number_at w8 is_kind_count self.old) self.new }
    {
        let at = self.at;
        match self.bytes(1) {
            Some(digits) if 1 <= digits[0] && digits[0] <= MOST_KINDS => Ok(digits[0]),
            _ => Err(Wrong { at }),
        }
    }

    /// How many payloads there are, and the deployment's number.
    #[tactic(auto, unfolding(crate::specs::Reading::marks_at))]
    fn marks(&mut self, version: Version) -> Result<(u8, u16), Wrong>
        ensures { Reads result (marks_at version self.old) self.new }
    {
        match version {
            Version::First => {
                self.literal(&[0, 0, 0])?;
                Ok((1, 0))
            }
            Version::Second => {
                let count = self.kind_count()?;
                let id = self.count()?;
                Ok((count, id))
            }
        }
    }

    /// The head of a record, up to its length.
    #[tactic(auto, unfolding(crate::specs::Reading::head_at))]
    fn head(&mut self) -> Result<Head, Wrong>
        ensures { Reads result (head_at self.old) self.new }
    {
        let version = self.version()?;
        let position = self.position()?;
        let (count, id) = self.marks(version)?;
        let end = self.end()?;
        Ok(Head {
            position,
            count,
            id,
            end,
        })
    }

    /// All fields of a record.
    #[tactic(auto, unfolding(crate::specs::Reading::entry_at))]
    pub(crate) fn entry(&mut self, alloc: Global) -> Result<Entry, DecodeFault>
        ensures { Gives result (entry_at self.old) }
    {
        let head = self.head()?;
        let end = head.end;
        self.end_at(end);
        let entry = self.body(alloc, head)?;
        if self.at != end {
            return Err(DecodeFault::NotARecord(self.at));
        }
        Ok(entry)
    }
}

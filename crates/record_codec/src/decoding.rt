//! What bytes stand for.

ghost use Rattle.std.specs.Prelude.{◌≡◌, ◌≤◌, ℕ, List, ◌++◌, Ok, IfOk, nat_eq};
ghost use Rattle.std.specs.List.{starts_with};
ghost use Rattle.record_codec.specs.Reading.{Gives, database};
ghost use Rattle.record_codec.specs.Spelling.{magic, HasVersion, IsRight, IsFound, IfFull, record_of, record_length};
ghost use Rattle.record_codec.specs.declared.entry.Entry.{Entry};
ghost use Rattle.record_codec.specs.declared.entry.Version.{Version};
ghost use Rattle.record_codec.specs.declared.entry.Version.TheVariants.{First};
ghost use Rattle.record_codec.specs.declared.entry.Db.TheVariants.{Full};

use crate::entry::Db;
use crate::fault::DecodeFault;
use crate::length::LARGEST_RECORD;
use crate::reader::{Reader, front};
use std::alloc::Global;

#[tactic(auto, unfolding(crate::specs::Reading::database, crate::specs::Reading::limit))]
fn database(alloc: Global, bytes: &[u8]) -> Result<Db, DecodeFault>
    ensures { Gives result (database bytes.now) }
{
    if bytes.starts_with(&[0, 0, 0, 0]) {
        return Ok(Db::Empty);
    }
    let mut reader = Reader::new(front(bytes, LARGEST_RECORD as usize));
    Ok(Db::Full(reader.entry(alloc)?))
}

/// Whether bytes begin as a record of the first version does.
pub fn is_first_version(bytes: &[u8]) -> bool
    ensures { result ≡ starts_with nat_eq bytes.now (magic First) }
{
    bytes.starts_with(b"MUP1")
}

/// What the database holds by these bytes: nothing behind four zero bytes, or the entry whose record
/// they begin with. What follows has no meaning.
pub fn decode(alloc: Global, bytes: &[u8]) -> Result<Db, DecodeFault>
    // Which entry it is, and which field is wrong.
    ensures exact { Gives result (database bytes.now) }
    // What is read is right, and the bytes begin with its record.
    ensures found { IfOk result (IfFull (IsFound bytes.now)) }
    // What begins with a right record is read, unless memory runs out.
    ensures only { (v : Version) (e : Entry) (rest : List ℕ) → IsRight e → HasVersion v e → record_length e ≤ LARGEST_RECORD → bytes.now ≡ record_of v e ++ rest → Gives result (Ok (Full e)) }
{
    database(alloc, bytes)
}

//! The length of an entry's record.

ghost use Rattle.std.specs.Prelude.{◌≡◌, ◌≤◌, ◌+◌, ◌*◌, ◌^◌, ℕ, length};
ghost use Rattle.flow_table.specs.declared.position.Position.{Position};
ghost use Rattle.provides_map.specs.After.{after};
ghost use Rattle.record_codec.specs.Spelling.{pairs, kinds, scripts, record_length};

use crate::entry::Entry;
use provides_map::{Change, Provides, after_length};
use script_names::ScriptList;
use upd_text::KindList;

/// The most bytes that a record has.
pub const LARGEST_RECORD: u32 = 131_072;

fn map_length(map: &Provides) -> u64
    ensures exact { result ≡ length (pairs map.now) }
    ensures few { result ≤ 2 + 1156 * 2 ^ 32 }
{
    let mut sum: u64 = 2;
    for i in 0..map.len() {
        let (key, value) = map.pair(i);
        sum += 4 + key.bytes().len() as u64 + value.bytes().len() as u64;
    }
    sum
}

fn scripts_length(list: &ScriptList) -> u64
    ensures exact { result ≡ length (scripts list.now) }
    ensures few { result ≤ 1 + 129 * 64 }
{
    let mut sum: u64 = 1;
    for name in list.as_slice() {
        sum += 1 + name.name().bytes().len() as u64;
    }
    sum
}

fn kinds_length(list: &KindList) -> u64
    ensures exact { result ≡ length (kinds list.now) }
    ensures few { result ≤ 129 * 2 ^ 32 }
{
    let mut sum: u64 = 0;
    for kind in list.as_slice() {
        sum += 1 + kind.bytes().len() as u64;
    }
    sum
}

/// The length of the entry's record, also where it is more than a record may have.
#[tactic(auto, unfolding(crate::specs::Spelling::body))]
pub fn encoded_length(entry: &Entry) -> u64
    ensures { result ≡ record_length entry.now }
{
    16 + map_length(&entry.before)
        + map_length(&entry.new)
        + kinds_length(&entry.kinds)
        + scripts_length(&entry.scripts)
}

/// The length of the record of a deployment that begins over these provides: `encoded_length` of its entry, told before the
/// map of what the change makes of them is made.
#[tactic(auto, unfolding(crate::specs::Spelling::body))]
pub fn begun_length(
    before: &Provides,
    change: &Change,
    kinds: &KindList,
    scripts: &ScriptList,
) -> u64
    ensures { (position : Position) (id : ℕ)
        → result ≡ record_length (record { position = position; id = id; before = before.now; new = after before.now change.now; kinds = kinds.now; scripts = scripts.now }) }
{
    16 + map_length(before)
        + 2
        + after_length(before, change).bytes
        + kinds_length(kinds)
        + scripts_length(scripts)
}

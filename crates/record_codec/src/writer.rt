//! Writing the fields of a record from the left.

ghost use Rattle.std.specs.Prelude.{ℕ, List, ◌≡◌, ◌+◌, ◌<◌, ◌≤◌, ◌^◌, ◌++◌, ◌∷◌, [], length, take, drop};
ghost use Rattle.std.specs.Int.{w16, w32, to_be_bytes};
ghost use Rattle.std.specs.List.{flat_map};
ghost use Rattle.record_codec.specs.Spelling.{short_text, long_text, pair, pairs, kinds, scripts, position_bytes, body, head, record_of, record_length, IsRight};
ghost use Rattle.record_codec.specs.declared.entry.Entry.{Entry};
ghost use Rattle.record_codec.specs.declared.entry.Version.{Version};
ghost use Rattle.record_codec.specs.declared.entry.Version.TheVariants.{Second};
ghost use Rattle.record_codec.specs.Writing.{Puts};

use crate::entry::Entry;
use crate::length::LARGEST_RECORD;
use crate::position::bytes_of;
use flow_table::{MOST_KINDS, Position};
use provides_map::Provides;
use script_names::{ScriptList, ScriptName};
use upd_text::KindList;

/// Writes these bytes at an offset, and returns where they end.
pub(crate) fn put(into: &mut [u8], at: usize, bytes: &[u8]) -> usize
    requires { at + length bytes.now ≤ length into.old }
    ensures { Puts into.old at bytes.now into.new result }
{
    let end = at + bytes.len();
    into[at..end].copy_from_slice(bytes);
    end
}

#[tactic(auto, unfolding(crate::specs::Spelling::long_text))]
fn put_long(into: &mut [u8], at: usize, bytes: &[u8]) -> usize
    requires small { length bytes.now < 2 ^ 16 }
    requires fits { at + length (long_text bytes.now) ≤ length into.old }
    ensures { Puts into.old at (long_text bytes.now) into.new result }
{
    let at = put(into, at, &(bytes.len() as u16).to_be_bytes());
    put(into, at, bytes)
}

#[tactic(auto, unfolding(crate::specs::Spelling::short_text))]
fn put_short(into: &mut [u8], at: usize, bytes: &[u8]) -> usize
    requires small { length bytes.now < 2 ^ 8 }
    requires fits { at + length (short_text bytes.now) ≤ length into.old }
    ensures { Puts into.old at (short_text bytes.now) into.new result }
{
    let at = put(into, at, &[bytes.len() as u8]);
    put(into, at, bytes)
}

#[tactic(auto, unfolding(crate::specs::Spelling::pair))]
fn put_pair(into: &mut [u8], at: usize, key: &[u8], value: &[u8]) -> usize
    requires key { length key.now < 2 ^ 16 }
    requires value { length value.now < 2 ^ 16 }
    requires fits { at + length (pair (key.now, value.now)) ≤ length into.old }
    ensures { Puts into.old at (pair (key.now, value.now)) into.new result }
{
    let at = put_long(into, at, key);
    put_long(into, at, value)
}

fn put_pairs(into: &mut [u8], at: usize, map: &Provides) -> usize
    requires { at + length (flat_map pair map.now) ≤ length into.old }
    ensures { Puts into.old at (flat_map pair map.now) into.new result }
{
    let mut at = at;
    for i in 0..map.len() {
        let (key, value) = map.pair(i);
        at = put_pair(into, at, key.bytes(), value.bytes());
    }
    at
}

#[tactic(auto, unfolding(crate::specs::Spelling::pairs))]
fn put_map(into: &mut [u8], at: usize, map: &Provides) -> usize
    requires small { length map.now < 2 ^ 16 }
    requires fits { at + length (pairs map.now) ≤ length into.old }
    ensures { Puts into.old at (pairs map.now) into.new result }
{
    let at = put(into, at, &(map.len() as u16).to_be_bytes());
    put_pairs(into, at, map)
}

fn put_names(into: &mut [u8], at: usize, names: &[ScriptName]) -> usize
    requires { at + length (flat_map short_text names.now) ≤ length into.old }
    ensures { Puts into.old at (flat_map short_text names.now) into.new result }
{
    let mut at = at;
    for name in names {
        at = put_short(into, at, name.name().bytes());
    }
    at
}

#[tactic(auto, unfolding(crate::specs::Spelling::kinds))]
fn put_kinds(into: &mut [u8], at: usize, list: &KindList) -> usize
    requires { at + length (kinds list.now) ≤ length into.old }
    ensures { Puts into.old at (kinds list.now) into.new result }
{
    let mut at = at;
    for kind in list.as_slice() {
        at = put_short(into, at, kind.bytes());
    }
    at
}

#[tactic(auto, unfolding(crate::specs::Spelling::scripts))]
fn put_scripts(into: &mut [u8], at: usize, list: &ScriptList) -> usize
    requires { at + length (scripts list.now) ≤ length into.old }
    ensures { Puts into.old at (scripts list.now) into.new result }
{
    let names = list.as_slice();
    let at = put(into, at, &[names.len() as u8]);
    put_names(into, at, names)
}

/// All that stands from offset 16 on; returns where it ends.
#[tactic(auto, unfolding(crate::specs::Spelling::body))]
fn put_body(entry: &Entry, into: &mut [u8]) -> usize
    requires right { IsRight entry.now }
    requires fits { record_length entry.now ≤ length into.old }
    ensures { Puts into.old 16 (body entry.now) into.new result }
{
    let at = put_map(into, 16, &entry.before);
    let at = put_map(into, at, &entry.new);
    let at = put_kinds(into, at, &entry.kinds);
    put_scripts(into, at, &entry.scripts)
}

/// The bytes before offset 16.
#[tactic(auto, unfolding(crate::specs::Spelling::head, crate::specs::Spelling::position_bytes))]
fn head(entry: &Entry, end: u32) -> [u8; 16]
    requires end { end ≡ record_length entry.now }
    requires few { length entry.now.kinds ≤ MOST_KINDS }
    ensures { result ≡ head Second entry.now }
{
    let [state, outcome, undoable, reboot, n] = bytes_of(&entry.position);
    let count = entry.kinds.len() as u8;
    let [high, low] = entry.id.to_be_bytes();
    let [a, b, c, d] = end.to_be_bytes();
    [
        b'M', b'U', b'P', b'2', state, outcome, undoable, reboot, n, count, high, low, a, b, c, d,
    ]
}

/// Writes the record of an entry, of version 2, to the front, and returns its length. What follows it stays.
pub fn encode_into(entry: &Entry, into: &mut [u8]) -> u32
    requires right { IsRight entry.now }
    requires fits { record_length entry.now ≤ length into.old }
    requires small { record_length entry.now ≤ LARGEST_RECORD }
    ensures length { result ≡ record_length entry.now }
    ensures written { into.new ≡ record_of Second entry.now ++ drop (record_length entry.now) into.old }
{
    let end = put_body(entry, into) as u32;
    put(into, 0, &head(entry, end));
    end
}

/// Puts another position into the record that the bytes begin with, of either version. What follows it stays.
pub fn patch(bytes: &mut [u8], position: &Position)
    requires { (v : Version) × (e : Entry) × (rest : List ℕ) × IsRight e × (bytes.old ≡ record_of v e ++ rest) }
    ensures { (v : Version) (e : Entry) (rest : List ℕ) → bytes.old ≡ record_of v e ++ rest → bytes.new ≡ record_of v (record e { position = position.now }) ++ rest }
{
    put(bytes, 4, &bytes_of(position));
}

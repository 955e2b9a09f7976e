//! Laws of records.

ghost use Rattle.std.specs.Prelude.{◌≡◌, ◌≤◌, ◌<◌, ◌+◌, ◌↔◌, ℕ, List, ◌++◌, length, take, drop, slice_index, Some, Ok, Err, ◌||◌, IsTrue, IsFalse, nat_eq, codes, map};
ghost use Rattle.std.specs.List.{starts_with};
ghost use Rattle.flow_table.specs.Valid.{is_valid};
ghost use Rattle.flow_table.specs.declared.position.Position.{Position};
ghost use Rattle.provides_map.specs.Pairs.{Pairs, IsMap};
ghost use Rattle.provides_map.specs.After.{broken};
ghost use Rattle.record_codec.specs.Reading.{database, Rest, position_at};
ghost use Rattle.record_codec.specs.Spelling.{HasVersion, IsRight, IsFound, record_of, record_length, position_bytes};
ghost use Rattle.record_codec.specs.Held.{marked};
ghost use Rattle.record_codec.specs.Cells.{IsCell, cell, cell_of};
ghost use Rattle.record_codec.specs.declared.entry.Db.TheVariants.{Full};
ghost use Rattle.record_codec.specs.declared.entry.Entry.{Entry};
ghost use Rattle.record_codec.specs.declared.entry.Version.{Version};

use crate::length::LARGEST_RECORD;

/// No entry has two records of one version, and no record begins another one.
pub fn one_record()
    ensures { (v w : Version) (e f : Entry) (x y : List ℕ) → IsRight e → IsRight f → HasVersion v e → HasVersion w f → record_length e ≤ LARGEST_RECORD → record_length f ≤ LARGEST_RECORD
        → record_of v e ++ x ≡ record_of w f ++ y → (v ≡ w) × (e ≡ f) }
{}

/// Bytes say an entry exactly where they begin with a record of it.
pub fn records_are_read()
    ensures { (e : Entry) (bytes : List ℕ) → ((i : ℕ) → slice_index bytes i < 256) → (database bytes ≡ Ok (Full e)) ↔ IsFound bytes e }
{}

/// 64 bytes say a position exactly where they are its cell, and the cells of two positions differ.
pub fn one_cell()
    ensures read { (p : Position) (bytes : List ℕ) → length bytes ≡ 64 → ((i : ℕ) → slice_index bytes i < 256) → (cell bytes ≡ Ok (Some p)) ↔ IsCell bytes p }
    ensures differ { (p q : Position) → IsTrue (is_valid p) → IsTrue (is_valid q) → cell_of p ≡ cell_of q → p ≡ q }
{}

/// The first four bytes are wrong exactly where the offset is 0.
pub fn faults_of_the_front()
    ensures zero { (bytes : List ℕ) (offset : ℕ) → database bytes ≡ Err offset
        → (offset ≡ 0) ↔ IsFalse (starts_with nat_eq bytes (codes "MUP1") || starts_with nat_eq bytes (codes "MUP2")) }
    ensures later { (bytes : List ℕ) (offset : ℕ) → database bytes ≡ Err offset
        → IsTrue (starts_with nat_eq bytes (codes "MUP1") || starts_with nat_eq bytes (codes "MUP2")) → 4 ≤ offset }
{}

/// A valid position is spelled in five bytes, from which it is read, and what is read as a position
/// is valid and spelled so.
pub fn one_spelling_of_positions()
    ensures read { (p : Position) (at : ℕ) (rest : List ℕ) → IsTrue (is_valid p)
        → position_at (record { at = at; bytes = position_bytes p ++ rest }) ≡ Ok (p, record { at = at + 5; bytes = rest }) }
    ensures found { (r rest : Rest) (p : Position) → ((i : ℕ) → slice_index r.bytes i < 256)
        → position_at r ≡ Ok (p, rest)
        → IsTrue (is_valid p) × (r.bytes ≡ position_bytes p ++ rest.bytes) × (rest.at ≡ r.at + 5) }
{}

/// The record of an entry at another position is the same record with that position's bytes.
pub fn records_differ_by_position()
    ensures right { (e : Entry) (p : Position) → IsRight e → IsTrue (is_valid p) → IsRight (record e { position = p }) }
    ensures length { (e : Entry) (p : Position) → record_length (record e { position = p }) ≡ record_length e }
    ensures bytes { (v : Version) (e : Entry) (p : Position)
        → record_of v (record e { position = p }) ≡ take 4 (record_of v e) ++ position_bytes p ++ drop 9 (record_of v e) }
{}

/// A broken map is the map with its name marked, pair by pair.
pub fn broken_marks_the_name()
    ensures { (ps : Pairs) → IsMap ps → broken ps ≡ map marked ps }
{}

//! How long a map is in a record.

ghost use Rattle.std.specs.Prelude.{◌≡◌, ◌<◌, ◌≤◌, ◌+◌, ◌*◌, ◌^◌};
ghost use Rattle.provides_map.specs.After.{after};
ghost use Rattle.provides_map.specs.Merge.{map_length, is_own, own_length};

use crate::change::Change;
use crate::effect::{group_key, name_key};
use crate::marks::Marks;
use crate::merge::{Places, next_pair};
use crate::provides::Provides;
use upd_text::Name;

/// How many pairs a map has, and how many bytes they take in a record: of each pair two for the
/// length of its key, two for that of its value, and both texts.
#[derive(Clone, Copy, Debug, PartialEq, Eq)]
pub struct MapLength {
    pub pairs: u64,
    pub bytes: u64,
}

impl MapLength {
    // One pair more, with texts of these lengths.
    fn and_pair(self, key: usize, value: usize) -> MapLength
        requires pairs { self.pairs + 1 < 2 ^ 64 }
        requires bytes { self.bytes + 4 + key + value < 2 ^ 64 }
        ensures { result ≡ record { pairs = self.pairs + 1; bytes = self.bytes + (4 + key + value) } }
    {
        MapLength {
            pairs: self.pairs + 1,
            bytes: self.bytes + (4 + key as u64 + value as u64),
        }
    }
}

// Whether the change sets the value of the key itself.
fn is_own(change: &Change, key: &Name) -> bool
    ensures { result ≡ is_own change.now key.now }
{
    key.bytes() == b"artifact_name".as_slice()
        || (change.group.is_some() && key.bytes() == b"artifact_group".as_slice())
}

// The pairs that the change sets itself: its name, and its group where it has one.
fn own_length(change: &Change) -> MapLength
    ensures exact { result ≡ own_length change.now }
    ensures few { result.pairs ≤ 2 }
    ensures short { result.bytes ≤ 1156 * result.pairs }
{
    let none = MapLength { pairs: 0, bytes: 0 };
    let name = none.and_pair(name_key().bytes().len(), change.name.bytes().len());
    match &change.group {
        None => name,
        Some(group) => name.and_pair(group_key().bytes().len(), group.bytes().len()),
    }
}

/// The length of the map that `after` makes. It takes no memory: a map that is too long for a
/// record is told before it is made.
pub fn after_length(current: &Provides, change: &Change) -> MapLength
    ensures exact { result ≡ map_length (after current.now change.now) }
    ensures few { result.pairs ≤ 2 ^ 33 }
    ensures short { result.bytes ≤ 1156 * result.pairs }
{
    let mut sum = own_length(change);
    let mut marks = Marks::of(&change.clears, current, 0);
    let mut at = Places {
        held: 0,
        brought: 0,
    };
    while let Some((key, value)) = next_pair(
        &change.clears,
        current,
        &change.provides,
        &mut marks,
        &mut at,
    ) {
        if !is_own(change, key) {
            sum = sum.and_pair(key.bytes().len(), value.bytes().len());
        }
    }
    sum
}

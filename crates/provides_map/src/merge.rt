//! The pairs held that stay and the pairs brought, as one list in key order.

ghost use Rattle.std.specs.Prelude.{◌≡◌, ◌≤◌, ◌<◌, ◌+◌, ◌∷◌, [], ℕ, List, length, drop, filter, slice_get, slice_index_or, Some, MatchOption, IfSome, IfOk, IsTrue};
ghost use Rattle.provides_map.specs.Pairs.{put_all, IsMap};
ghost use Rattle.provides_map.specs.After.{stays};
ghost use Rattle.provides_map.specs.Marks.{AreMarks};
ghost use Rattle.provides_map.specs.Merge.{rest, lesser, side_of, AreWithin, HasPair};

use crate::change::Clears;
use crate::marks::Marks;
use crate::provides::Provides;
use std::alloc::Global;
use std::cmp::Ordering;
use upd_text::{Name, NoMemory, Value};

/// How far both maps were read.
#[derive(Clone, Copy)]
pub(crate) struct Places {
    pub(crate) held: u32,
    pub(crate) brought: u32,
}

// Where the next pair is. A key on both sides has the value that is brought.
pub(crate) enum Side {
    Held,
    Brought,
    Both,
}

// Whether the pair held at this place stays.
fn stays(clears: &Clears, held: &Provides, marks: &mut Marks, at: u32) -> bool
    requires place { at < length held.now }
    requires marks { AreMarks clears.now held.now marks.old }
    ensures marks { AreMarks clears.now held.now marks.new }
    ensures value { result ≡ stays clears.now (slice_index_or held.now at ([], [])) }
{
    let key = held.pair(at).0;
    if key.bytes() == b"artifact_name".as_slice() {
        return false;
    }
    !marks.is_cleared(clears, held, at)
}

// The first place from this one on whose pair stays, or the end.
fn first_kept(clears: &Clears, held: &Provides, marks: &mut Marks, start: u32) -> u32
    requires place { start ≤ length held.now }
    requires marks { AreMarks clears.now held.now marks.old }
    ensures marks { AreMarks clears.now held.now marks.new }
    ensures same { filter (stays clears.now) (drop result held.now) ≡ filter (stays clears.now) (drop start held.now) }
    ensures onward { start ≤ result }
    ensures within { result ≤ length held.now }
    ensures stays { (p : List ℕ × List ℕ) → slice_get held.now result ≡ Some p → IsTrue (stays clears.now p) }
{
    let mut at = start;
    while at < held.len() {
        if stays(clears, held, marks, at) {
            return at;
        }
        at += 1;
    }
    at
}

// The side of the lesser key.
fn lesser(held: &Name, brought: &Name) -> Side
    ensures { result ≡ lesser held.now brought.now }
{
    match held.cmp(brought) {
        Ordering::Less => Side::Held,
        Ordering::Equal => Side::Both,
        Ordering::Greater => Side::Brought,
    }
}

#[tactic(auto, using(crate::proofs::MergeLemmas::side_rules))]
fn next_side(held: &Provides, brought: &Provides, at: Places) -> Option<Side>
    ensures side { result ≡ side_of (drop at.held held.now) (drop at.brought brought.now) }
    ensures pair { IfSome result (HasPair held.now brought.now at) }
    ensures held { IsMap held.now }
    ensures brought { IsMap brought.now }
{
    if held.len() <= at.held {
        if brought.len() <= at.brought {
            return None;
        }
        return Some(Side::Brought);
    }
    if brought.len() <= at.brought {
        return Some(Side::Held);
    }
    let key = held.pair(at.held).0;
    Some(lesser(key, brought.pair(at.brought).0))
}

/// The next pair, and both places behind it. None exactly where no pair is left.
pub(crate) fn next_pair<'a>(
    clears: &Clears,
    held: &'a Provides,
    brought: &'a Provides,
    marks: &mut Marks,
    at: &mut Places,
) -> Option<(&'a Name, &'a Value)>
    requires places { AreWithin held.now brought.now at.old }
    requires marks { AreMarks clears.now held.now marks.old }
    ensures marks { AreMarks clears.now held.now marks.new }
    ensures within { AreWithin held.now brought.now at.new }
    ensures held { IsMap held.now }
    ensures brought { IsMap brought.now }
    ensures onward { IfSome result (λ _. at.old.held + at.old.brought < at.new.held + at.new.brought) }
    ensures pairs { MatchOption result (rest clears.now held.now brought.now at.old ≡ [])
        (λ p. rest clears.now held.now brought.now at.old ≡ (p.0.now, p.1.now) ∷ rest clears.now held.now brought.now at.new) }
{
    at.held = first_kept(clears, held, marks, at.held);
    let Places {
        held: i,
        brought: j,
    } = *at;
    match next_side(held, brought, *at)? {
        Side::Held => {
            at.held = i + 1;
            Some(held.pair(i))
        }
        Side::Brought => {
            at.brought = j + 1;
            Some(brought.pair(j))
        }
        Side::Both => {
            *at = Places {
                held: i + 1,
                brought: j + 1,
            };
            Some(brought.pair(j))
        }
    }
}

/// The pairs held that stay, and over them those brought. The only error is want of memory.
pub(crate) fn merged(
    alloc: Global,
    clears: &Clears,
    held: &Provides,
    brought: &Provides,
) -> Result<Provides, NoMemory>
    ensures { IfOk result (λ p. p ≡ put_all (filter (stays clears.now) held.now) brought.now) }
{
    let mut new = Provides::new(alloc);
    let mut marks = Marks::of(clears, held, 0);
    let mut at = Places {
        held: 0,
        brought: 0,
    };
    while let Some((key, value)) = next_pair(clears, held, brought, &mut marks, &mut at) {
        // for the proof: no key is empty
        let _key = key.bytes();
        new.push_last(key.twin(), value.twin())?;
    }
    Ok(new)
}

ghost use Rattle.std.specs.Prelude.{◌≡◌, ◌↔◌, [], IsTrue};
ghost use Rattle.provides_map.specs.Match.{is_match, Matches, some_suffix};

use std::marker::Model;
use upd_text::Name;

pub(crate) const STAR: u8 = b'*';

/// A name in which each `*` stands for any bytes, also none, and every other byte for itself.
#[derive(Drop)]
pub struct Pattern {
    name: Name,
}

impl Model for Pattern {
    ghost use Rattle.std.specs.Prelude.{List, ℕ};

    ghost Value = { List ℕ };

    ghost view = { λ p. p.name };
}

impl Pattern {
    /// The name as a pattern.
    pub fn of(name: Name) -> Pattern
        ensures { result ≡ name }
    {
        Pattern { name }
    }

    /// The name that `of` took.
    pub fn name(&self) -> &Name
        ensures { result.now ≡ self.now }
    {
        &self.name
    }

    /// Whether the pattern matches the key. It takes no memory, and about as many steps as the
    /// pattern's length times the key's.
    #[tactic(auto, using(crate::proofs::Pieces::decides_match))]
    pub fn matches(&self, key: &Name) -> bool
        ensures decides { IsTrue result ↔ Matches self.now key.now }
        ensures value { result ≡ is_match self.now key.now }
    {
        matches(self.name.bytes(), key.bytes())
    }
}

// Whether the pattern matches the key: the bytes in front of its first star one by one, then the rest.
fn matches(pattern: &[u8], key: &[u8]) -> bool
    ensures { result ≡ is_match pattern.now key.now }
{
    let mut i = 0;
    while i < pattern.len() && pattern[i] != STAR {
        if key.len() <= i || key[i] != pattern[i] {
            return false;
        }
        i += 1;
    }
    if i == pattern.len() {
        return i == key.len();
    }
    behind_star(&pattern[i + 1..], &key[i..])
}

// Whether what is behind a star matches an end of the key: the bytes behind the last star one by
// one, from the end, then what is before them.
fn behind_star(pattern: &[u8], key: &[u8]) -> bool
    ensures { result ≡ some_suffix (is_match pattern.now) key.now }
{
    let mut i = pattern.len();
    let mut j = key.len();
    while 0 < i && pattern[i - 1] != STAR {
        if j == 0 || key[j - 1] != pattern[i - 1] {
            return false;
        }
        i -= 1;
        j -= 1;
    }
    i == 0 || between_stars(&pattern[..i], &key[..j])
}

// The same, from the left. What is behind the last star that was met is tried at one place of the
// key after another, and where the next star is met the places before it are done with: whatever
// matches behind a later place matches behind this one too.
fn between_stars(pattern: &[u8], key: &[u8]) -> bool
    ensures { result ≡ some_suffix (is_match pattern.now) key.now }
{
    let mut star = 0;
    let mut start = 0;
    let mut i = 0;
    let mut j = 0;
    while j < key.len() {
        if i < pattern.len() && pattern[i] == STAR {
            i += 1;
            star = i;
            start = j;
        } else if i < pattern.len() && pattern[i] == key[j] {
            i += 1;
            j += 1;
        } else {
            start += 1;
            i = star;
            j = start;
        }
    }
    only_stars(&pattern[i..])
}

fn only_stars(pattern: &[u8]) -> bool
    ensures { result ≡ is_match pattern.now [] }
{
    let mut i = 0;
    while i < pattern.len() && pattern[i] == STAR {
        i += 1;
    }
    i == pattern.len()
}

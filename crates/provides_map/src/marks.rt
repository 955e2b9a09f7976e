//! Which keys held no pattern matches, told for many keys at once: where there are many of both, a
//! pattern is read once for all of them.

ghost use Rattle.std.specs.Prelude.{◌≡◌, ◌≤◌, ◌<◌, not, length};
ghost use Rattle.std.specs.List.{list_any};
ghost use Rattle.provides_map.specs.Match.{is_match};
ghost use Rattle.provides_map.specs.Place.{key_at};
ghost use Rattle.provides_map.specs.After.{is_cleared};
ghost use Rattle.provides_map.specs.Marks.{Tells, AreMarks};

use crate::change::{Clears, PatternList};
use crate::provides::Provides;
use crate::window::{WINDOW, Window};

/// Of the `WINDOW` keys held from the place `start` on, or those that there are, which aren't cleared.
#[derive(Drop)]
pub(crate) struct Marks {
    start: u32,
    left: u64,
}

impl Marks {
    /// The marks from this place on.
    pub(crate) fn of(clears: &Clears, held: &Provides, start: u32) -> Marks
        requires { start ≤ length held.now }
        ensures marks { AreMarks clears.now held.now result }
        ensures start { result.start ≡ start }
    {
        match clears {
            Clears::All => Marks { start, left: 0 },
            Clears::Listed(patterns) => Marks {
                start,
                left: unmatched(patterns, held, start),
            },
        }
    }

    /// Whether the key at this place is cleared. Where it has no mark yet, the marks from it on
    /// take the place of these.
    pub(crate) fn is_cleared(&mut self, clears: &Clears, held: &Provides, at: u32) -> bool
        requires place { at < length held.now }
        requires marks { AreMarks clears.now held.now self.old }
        ensures marks { AreMarks clears.now held.now self.new }
        ensures value { result ≡ is_cleared clears.now (key_at held.now at) }
    {
        if at < self.start || WINDOW <= at - self.start {
            *self = Marks::of(clears, held, at);
        }
        (self.left >> (at - self.start)) & 1 == 0
    }
}

// Which of the keys none of the patterns matches.
fn unmatched(patterns: &PatternList, held: &Provides, start: u32) -> u64
    requires { start ≤ length held.now }
    ensures { Tells held.now start result (λ key. not (list_any (λ p. is_match p key) patterns.now)) }
{
    let window = Window::of(held, start);
    let mut left = u64::MAX;
    for pattern in patterns.as_slice() {
        left &= !window.matched(left, pattern.name().bytes());
    }
    left
}

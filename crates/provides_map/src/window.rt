//! Which of the keys held at `WINDOW` places in a row a pattern matches. A word has a bit for each
//! of them, so that a pattern is tried on all at once.

ghost use Rattle.std.specs.Prelude.{◌≡◌, ◌≤◌, ◌<◌, ◌&&◌, ℕ, List, Bool, length, max};
ghost use Rattle.provides_map.specs.Pairs.{Pairs};
ghost use Rattle.provides_map.specs.Match.{is_match};
ghost use Rattle.provides_map.specs.Marks.{Tells};
ghost use Rattle.provides_map.specs.Window.{AddsBytes, AddsEnd, TellsKeys, TellsRow};

use crate::pattern::STAR;
use crate::provides::Provides;
use crate::row::{LONGEST, PLACES, Row};

/// How many keys a word tells of.
pub(crate) const WINDOW: u32 = 64;

/// Some keys, byte by byte.
#[derive(Drop)]
pub(crate) struct Window {
    // Those that have this byte at this place.
    same: [[u64; LONGEST]; 256],
    // Those that have so many bytes.
    ends: [u64; PLACES],
    longest: usize,
}

impl Window {
    /// The keys from this place on.
    pub(crate) fn of(held: &Provides, start: u32) -> Window
        requires { start ≤ length held.now }
        ensures { TellsKeys held.now start result }
    {
        let mut window = Window {
            same: [[0; LONGEST]; 256],
            ends: [0; PLACES],
            longest: 0,
        };
        let count = (held.len() - start).min(WINDOW);
        for k in 0..count {
            window.add(k, held.pair(start + k).0.bytes());
        }
        window
    }

    // Key number k.
    fn add(&mut self, k: u32, key: &[u8])
        requires room { k < 64 }
        requires short { length key.now ≤ 128 }
        ensures same { AddsBytes self.old.same self.new.same k key.now }
        ensures ends { AddsEnd self.old.ends self.new.ends k key.now }
        ensures longest { self.new.longest ≡ max self.old.longest (length key.now) }
    {
        let bit = 1_u64 << k;
        for j in 0..key.len() {
            let words = &mut self.same[key[j] as usize];
            words[j] |= bit;
        }
        self.ends[key.len()] |= bit;
        self.longest = self.longest.max(key.len());
    }

    /// Of these keys the ones that the pattern matches: those that have the bytes in front of its
    /// first star, and what is behind them by the rest.
    pub(crate) fn matched(&self, among: u64, pattern: &[u8]) -> u64
        requires within { self.now.longest ≤ 128 }
        requires short { length pattern.now ≤ 128 }
        ensures { (held : Pairs) (start : ℕ) (test : List ℕ → Bool) → TellsKeys held start self.now → Tells held start among test
            → Tells held start result (λ key. test key && is_match pattern.now key) }
    {
        let mut front = among;
        let mut i = 0;
        while i < pattern.len() && pattern[i] != STAR {
            front &= self.same[pattern[i] as usize][i];
            i += 1;
        }
        if i == pattern.len() {
            return front & self.ends[i];
        }
        if front == 0 {
            return 0;
        }
        front & self.row_of(&pattern[i + 1..]).any_from(i)
    }

    // The row of the pattern, byte by byte from its end.
    fn row_of(&self, pattern: &[u8]) -> Row
        requires { self.now.longest ≤ 128 }
        ensures row { (held : Pairs) (start : ℕ) → TellsKeys held start self.now → TellsRow held start result (is_match pattern.now) }
        ensures places { result.places ≤ 129 }
    {
        let mut row = Row {
            words: self.ends,
            places: self.longest + 1,
        };
        let mut i = pattern.len();
        while 0 < i {
            i -= 1;
            if pattern[i] == STAR {
                row.star();
            } else {
                row.byte(&self.same[pattern[i] as usize]);
            }
        }
        row
    }
}

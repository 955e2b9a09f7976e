//! Behind how many of their bytes keys match the rest of a pattern.

ghost use Rattle.std.specs.Prelude.{◌≡◌, ◌≤◌, ◌<◌, ℕ, List, Bool};
ghost use Rattle.provides_map.specs.Pairs.{Pairs};
ghost use Rattle.provides_map.specs.Match.{some_suffix, first_then};
ghost use Rattle.provides_map.specs.Marks.{Tells};
ghost use Rattle.provides_map.specs.Window.{TellsRow, TellsByte, behind};

/// How many bytes a name has at most.
pub(crate) const LONGEST: usize = 128;

/// How many places there are before, between and behind them.
pub(crate) const PLACES: usize = 129;

/// For each place the keys of which what is behind it matches. No key has more places than `places`.
#[derive(Drop)]
pub(crate) struct Row {
    pub(crate) words: [u64; PLACES],
    pub(crate) places: usize,
}

impl Row {
    /// The row of the pattern with a star before it.
    pub(crate) fn star(&mut self)
        requires { self.old.places ≤ 129 }
        ensures row { (held : Pairs) (start : ℕ) (test : List ℕ → Bool) → TellsRow held start self.old test
            → TellsRow held start self.new (some_suffix test) }
        ensures places { self.new.places ≤ 129 }
    {
        let mut any = 0;
        for j in (0..self.places).rev() {
            any |= self.words[j];
            self.words[j] = any;
        }
    }

    /// The row of the pattern with one byte more before it, which these keys have at each place.
    pub(crate) fn byte(&mut self, same: &[u64; LONGEST])
        requires { self.old.places ≤ 129 }
        ensures row { (held : Pairs) (start byte : ℕ) (test : List ℕ → Bool) → TellsRow held start self.old test
            → TellsByte held start byte same.now → TellsRow held start self.new (first_then byte test) }
        ensures places { self.new.places ≤ 129 }
    {
        let mut any = 0;
        let places = self.places.saturating_sub(1);
        for j in 0..places {
            let word = self.words[j + 1] & same[j];
            self.words[j] = word;
            any |= word;
        }
        self.places = if any == 0 { 0 } else { places };
    }

    /// The keys of which what is behind this place, or a later one, matches.
    pub(crate) fn any_from(&self, start: usize) -> u64
        requires { self.now.places ≤ 129 }
        ensures { (held : Pairs) (begin : ℕ) (test : List ℕ → Bool) → TellsRow held begin self.now test
            → Tells held begin result (behind start (some_suffix test)) }
    {
        let mut any = 0;
        for j in start..self.places {
            any |= self.words[j];
        }
        any
    }
}

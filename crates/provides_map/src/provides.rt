ghost use Rattle.std.specs.Prelude.{◌≡◌, ◌<◌, ◌^◌, [], length, slice_get, Some, OnOk, OnErr, option_copied, IfOk, IfErr};
ghost use Rattle.provides_map.specs.Place.{IsAt, IsGap};
ghost use Rattle.provides_map.specs.Pairs.{get, put, IsMap};

mod appending;

use std::alloc::Global;
use std::cmp::Ordering;
use std::marker::Model;
use upd_text::{Name, NoMemory, Value};

/// A map of names to values. It is seen as its pairs, each key once, in byte order of the keys, a
/// prefix first; both the look-up and the order follow from that list.
#[derive(Drop)]
pub struct Provides {
    pairs: Vec<(Name, Value)>,
}

impl Model for Provides {
    ghost use Rattle.provides_map.specs.Pairs.{Pairs, IsMap};

    ghost Value = { Pairs };

    ghost view = { λ p. p.pairs.items };

    ghost invariant = { λ p. IsMap p.pairs.items };
}

impl Provides {
    /// A map with no pair. It takes no memory yet.
    pub fn new(alloc: Global) -> Provides
        ensures { result ≡ [] }
    {
        Provides {
            pairs: Vec::new(alloc),
        }
    }

    /// How many pairs there are.
    pub fn len(&self) -> u32
        ensures value { result ≡ length self.now }
        ensures map { IsMap self.now }
    {
        self.pairs.len() as u32
    }

    /// The pair at place `i` in byte order of the keys.
    pub fn pair(&self, i: u32) -> (&Name, &Value)
        requires { i < length self.now }
        ensures { slice_get self.now i ≡ Some (result.0.now, result.1.now) }
    {
        let (name, value) = &self.pairs[i as usize];
        (name, value)
    }
}

impl Provides {
    /// The value of the key. None exactly where the key isn't there.
    pub fn get(&self, key: &Name) -> Option<&Value>
        ensures { option_copied result ≡ get self.now key.now }
    {
        match self.search(key) {
            Ok(at) => {
                let pair = &self.pairs[at];
                Some(&pair.1)
            }
            Err(_) => None,
        }
    }

    /// Puts the pair in its place, over the one that has the key where there is one.
    ///
    /// The only error is want of memory, which also comes where a new key would be the pair number
    /// 2^32. Then the map is as it was.
    pub fn insert(&mut self, key: Name, value: Value) -> Result<(), NoMemory>
        ensures ok { OnOk result (self.new ≡ put self.old key value) }
        ensures err { OnErr result (self.new ≡ self.old) }
    {
        let _ = key.bytes();
        let _ = value.bytes();
        match self.search(&key) {
            Ok(at) => {
                self.pairs[at] = (key, value);
                Ok(())
            }
            Err(at) => {
                if self.pairs.len() >= 0xffff_ffff {
                    return Err(NoMemory);
                }
                self.pairs.insert(at, (key, value))?;
                Ok(())
            }
        }
    }

    // Where the key is, or where it would go.
    fn search(&self, key: &Name) -> Result<usize, usize>
        ensures found { IfOk result (IsAt self.now key.now) }
        ensures absent { IfErr result (IsGap self.now key.now) }
    {
        let mut low = 0;
        let mut high = self.pairs.len();
        while low < high {
            let mid = low + (high - low) / 2;
            let pair = &self.pairs[mid];
            match pair.0.cmp(key) {
                Ordering::Less => low = mid + 1,
                Ordering::Equal => return Ok(mid),
                Ordering::Greater => high = mid,
            }
        }
        Err(low)
    }
}

impl Provides {
    /// The same pairs. The only error is want of memory.
    pub fn copy(&self, alloc: Global) -> Result<Provides, NoMemory>
        ensures { IfOk result (λ p. p ≡ self.now) }
    {
        let mut pairs = Vec::new(alloc);
        let held = self.pairs.as_slice();
        for (key, value) in held {
            pairs.push((key.twin(), value.twin()))?;
        }
        Ok(Provides { pairs })
    }
}

//! Building a map in order.

ghost use Rattle.std.specs.Prelude.{◌≡◌, ◌++◌, ◌∷◌, [], OnOk, OnErr, IsTrue};
ghost use Rattle.upd_text.specs.Order.{is_below};
ghost use Rattle.provides_map.specs.Last.{last_key};

use super::Provides;
use upd_text::{Name, NoMemory, Value};

impl Provides {
    /// Whether the key is above all keys of the map.
    pub fn is_last(&self, key: &Name) -> bool
        ensures { result ≡ is_below (last_key self.now) key.now }
    {
        match self.pairs.last() {
            None => {
                let _name = key.bytes();
                true
            }
            Some(pair) => pair.0.cmp(key).is_lt(),
        }
    }

    /// Adds a pair behind all others. A refusal changes nothing.
    pub fn push_last(&mut self, key: Name, value: Value) -> Result<(), NoMemory>
        requires { IsTrue (is_below (last_key self.old) key) }
        ensures ok { OnOk result (self.new ≡ self.old ++ (key, value) ∷ []) }
        ensures err { OnErr result (self.new ≡ self.old) }
    {
        let _name = key.bytes();
        let _value = value.bytes();
        if self.pairs.len() >= 0xffff_ffff {
            return Err(NoMemory);
        }
        self.pairs.push((key, value))?;
        Ok(())
    }
}

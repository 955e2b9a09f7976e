//! Reading the maps, the payload type and the scripts.

ghost use Rattle.std.specs.Prelude.{◌≡◌, ◌≤◌, ◌&&◌, [], IfOk, IsTrue, nat_le};

use super::Reader;
use crate::fault::{DecodeFault, Wrong};
use crate::text::{is_kind, is_named, name_from, script_from, value_from};
use provides_map::Provides;
use script_names::{ScriptList, ScriptName};
use std::alloc::Global;
use upd_text::{KindList, Name, Value};

impl<'a> Reader<'a> {
    ghost use Rattle.record_codec.specs.Reading.{Reads, Builds, number_at, text_at, pair_at, items_at, map_at, named_map_at, kinds_at, script_at, scripts_at};
    ghost use Rattle.std.specs.Int.{w8, w16};
    ghost use Rattle.upd_text.specs.Order.{is_below, itself};
    ghost use Rattle.provides_map.specs.Last.{last_key, key_of};
    ghost use Rattle.script_names.specs.Scripts.{last_script};
    ghost use Rattle.record_codec.specs.Keys.{is_name, is_value};
    ghost use Rattle.record_codec.specs.Spelling.{is_kind};

    #[tactic(auto, unfolding(crate::specs::Reading::text_at))]
    fn key(&mut self, pairs: &Provides) -> Result<Name, Wrong>
        ensures above { IfOk result (λ name. IsTrue (is_below (last_key pairs.now) name)) }
        ensures read { Reads result (text_at w16 (λ k. is_name k && is_below (last_key pairs.now) k) self.old) self.new }
    {
        let at = self.at;
        let Ok(size) = self.count() else {
            return Err(Wrong { at });
        };
        let Some(text) = self.bytes(size as usize) else {
            return Err(Wrong { at });
        };
        match name_from(text) {
            Some(name) if pairs.is_last(&name) => Ok(name),
            _ => Err(Wrong { at }),
        }
    }

    #[tactic(auto, unfolding(crate::specs::Reading::text_at))]
    fn value(&mut self) -> Result<Value, Wrong>
        ensures { Reads result (text_at w16 is_value self.old) self.new }
    {
        let at = self.at;
        let Ok(size) = self.count() else {
            return Err(Wrong { at });
        };
        let Some(text) = self.bytes(size as usize) else {
            return Err(Wrong { at });
        };
        match value_from(text) {
            Some(value) => Ok(value),
            None => Err(Wrong { at }),
        }
    }

    #[tactic(auto, unfolding(crate::specs::Reading::pair_at))]
    fn pair(&mut self, pairs: &Provides) -> Result<(Name, Value), Wrong>
        ensures read { Reads result (pair_at (last_key pairs.now) self.old) self.new }
        ensures above { IfOk result (λ pair. IsTrue (is_below (last_key pairs.now) pair.0)) }
    {
        let key = self.key(pairs)?;
        let value = self.value()?;
        Ok((key, value))
    }

    /// So many pairs, each key above the one before. Memory is taken for pairs that were read, and
    /// never for a count.
    fn pairs(&mut self, alloc: Global, count: u16) -> Result<Provides, DecodeFault>
        ensures { Builds result (items_at key_of pair_at count [] self.old) self.new }
    {
        let mut pairs = Provides::new(alloc);
        for _ in 0..count {
            let (key, value) = self.pair(&pairs)?;
            pairs.push_last(key, value)?;
        }
        Ok(pairs)
    }

    #[tactic(auto, unfolding(crate::specs::Reading::map_at))]
    pub(crate) fn map(&mut self, alloc: Global) -> Result<Provides, DecodeFault>
        ensures { Builds result (map_at self.old) self.new }
    {
        let count = self.count()?;
        self.pairs(alloc, count)
    }

    #[tactic(auto, unfolding(crate::specs::Reading::named_map_at))]
    pub(crate) fn named_map(&mut self, alloc: Global) -> Result<Provides, DecodeFault>
        ensures { Builds result (named_map_at self.old) self.new }
    {
        let at = self.at;
        let map = self.map(alloc)?;
        if !is_named(&map) {
            return Err(DecodeFault::NotARecord(at));
        }
        Ok(map)
    }

    #[tactic(auto, unfolding(crate::specs::Reading::text_at, crate::specs::Spelling::is_kind))]
    fn kind(&mut self) -> Result<Name, Wrong>
        ensures { Reads result (text_at w8 is_kind self.old) self.new }
    {
        let at = self.at;
        let Ok(size) = self.byte() else {
            return Err(Wrong { at });
        };
        let Some(text) = self.bytes(size as usize) else {
            return Err(Wrong { at });
        };
        match name_from(text) {
            Some(name) if is_kind(&name) => Ok(name),
            _ => Err(Wrong { at }),
        }
    }

    /// So many payload types.
    pub(crate) fn kinds(&mut self, alloc: Global, count: u8) -> Result<KindList, DecodeFault>
        ensures { Builds result (kinds_at count self.old) self.new }
    {
        let mut kinds = KindList::new(alloc);
        for _ in 0..count {
            let kind = self.kind()?;
            kinds.push(kind)?;
        }
        Ok(kinds)
    }

    #[tactic(auto, unfolding(crate::specs::Reading::text_at, crate::specs::Reading::script_at))]
    fn script(&mut self, names: &ScriptList) -> Result<ScriptName, Wrong>
        ensures read { Reads result (script_at (last_script names.now) self.old) self.new }
        ensures above { IfOk result (λ name. IsTrue (is_below (last_script names.now) name)) }
    {
        let at = self.at;
        let Ok(size) = self.byte() else {
            return Err(Wrong { at });
        };
        let Some(text) = self.bytes(size as usize) else {
            return Err(Wrong { at });
        };
        let Some(script) = script_from(text) else {
            return Err(Wrong { at });
        };
        if !names.is_last(script.name()) {
            return Err(Wrong { at });
        }
        Ok(script)
    }

    fn script_names(&mut self, alloc: Global, count: u8) -> Result<ScriptList, DecodeFault>
        requires { count ≤ 64 }
        ensures { Builds result (items_at itself script_at count [] self.old) self.new }
    {
        let mut names = ScriptList::new(alloc);
        for _ in 0..count {
            let name = self.script(&names)?;
            names.push_last(name)?;
        }
        Ok(names)
    }

    #[tactic(auto, unfolding(crate::specs::Reading::number_at))]
    fn script_count(&mut self) -> Result<u8, Wrong>
        ensures read { Reads result (number_at w8 (λ n. nat_le n 64) self.old) self.new }
        ensures few { IfOk result (λ n. n ≤ 64) }
    {
        let at = self.at;
        match self.bytes(1) {
            Some(digits) if digits[0] <= 64 => Ok(digits[0]),
            _ => Err(Wrong { at }),
        }
    }

    #[tactic(auto, unfolding(crate::specs::Reading::scripts_at))]
    pub(crate) fn scripts(&mut self, alloc: Global) -> Result<ScriptList, DecodeFault>
        ensures { Builds result (scripts_at self.old) self.new }
    {
        let count = self.script_count()?;
        self.script_names(alloc, count)
    }
}

//! Adding a script at its place.

ghost use Rattle.std.specs.Prelude.{◌≡◌, ◌↔◌, ◌<◌, ◌≤◌, length, Err, IfSome, IfNone, OnOk, OnErr, Contains, insert};
ghost use Rattle.std.specs.BTreeSet.{insert_key};
ghost use Rattle.upd_text.specs.Order.{byte_cmp};

use super::{ScriptList, ScriptName};
use std::cmp::Ordering;
use upd_text::Name;

/// Why a script wasn't added.
#[derive(Clone, Copy, Debug, PartialEq, Eq)]
pub enum AddFault {
    /// There are 64 scripts.
    Full,
    /// A script of this name is there.
    Doubled,
    /// An allocation was refused.
    NoMemory,
}

impl From<upd_text::NoMemory> for AddFault {
    ghost use Rattle.script_names.specs.declared.script.adding.AddFault.TheVariants.{NoMemory};

    ghost from_gives = { λ _ e. e ≡ NoMemory };

    fn from(_e: upd_text::NoMemory) -> AddFault {
        AddFault::NoMemory
    }
}

impl ScriptList {
    /// Before which script the name belongs, unless it is there.
    fn place_for(&self, name: &Name) -> Option<usize>
        ensures within { IfSome result (λ i. i ≤ length self.now) }
        ensures there { IfNone result (insert_key byte_cmp self.now name.now ≡ self.now) }
        ensures place { IfSome result (λ i. insert_key byte_cmp self.now name.now ≡ insert self.now i name.now) }
    {
        let scripts = self.scripts.as_slice();
        for (i, held) in scripts.iter().enumerate() {
            match name.cmp(&held.name) {
                Ordering::Less => return Some(i),
                Ordering::Equal => return None,
                Ordering::Greater => {}
            }
        }
        Some(scripts.len())
    }

    /// Adds a script at its place in byte order. `Full` exactly where there are 64, else `Doubled`
    /// exactly where its name is there, `NoMemory` where an allocation was refused. A refusal
    /// changes nothing.
    pub fn add(&mut self, script: ScriptName) -> Result<(), AddFault>
        ensures full { (result ≡ Err AddFault.Full) ↔ (length self.old ≡ 64) }
        ensures doubled { (result ≡ Err AddFault.Doubled) ↔ ((length self.old < 64) × Contains self.old script) }
        ensures ok { OnOk result (self.new ≡ insert_key byte_cmp self.old script) }
        ensures err { OnErr result (self.new ≡ self.old) }
    {
        let _name = script.name.bytes();
        if self.len() >= 64 {
            return Err(AddFault::Full);
        }
        let Some(at) = self.place_for(&script.name) else {
            return Err(AddFault::Doubled);
        };
        let Ok(()) = self.scripts.insert(at, script) else {
            return Err(AddFault::NoMemory);
        };
        Ok(())
    }
}

ghost use Rattle.std.specs.Prelude.{◌≡◌, ◌≤◌, codes, IfOk};
ghost use Rattle.std.specs.List.{list_any};
ghost use Rattle.std.specs.Str.{bytes_eq};
ghost use Rattle.provides_map.specs.After.{after, broken, HasName, allows, value_of, first_unmet, artifact_name, artifact_group, put_some};

use crate::change::{Change, ValueList, Want, WantList};
use crate::merge::merged;
use crate::provides::Provides;
use std::alloc::Global;
use upd_text::{Name, NoMemory, Value};

fn put_some(held: &mut Provides, key: Name, value: &Option<Name>) -> Result<(), NoMemory>
    ensures { IfOk result (λ _. held.new ≡ put_some held.old key value.now) }
{
    match value {
        None => Ok(()),
        Some(value) => held.insert(key, Value::of_name(value)),
    }
}

/// The provides once the change is made: the pairs of `current` that stay, over them those that
/// the change brings, then its group where it has one, then its name.
///
/// The name that is held never stays. The only error is want of memory.
#[tactic(auto, unfolding(crate::specs::After::after))]
pub fn after(alloc: Global, current: &Provides, change: &Change) -> Result<Provides, NoMemory>
    ensures { IfOk result (λ p. p ≡ after current.now change.now) }
{
    let mut new = merged(alloc, &change.clears, current, &change.provides)?;
    put_some(&mut new, group_key(), &change.group)?;
    new.insert(name_key(), Value::of_name(&change.name))?;
    Ok(new)
}

/// The key of the artifact's name.
#[tactic(auto, unfolding(upd_text::specs::Text::name_of))]
pub fn name_key() -> Name
    ensures { result ≡ artifact_name }
{
    Name::read(b"artifact_name").ok().unwrap()
}

/// The key of the artifact's group.
#[tactic(auto, unfolding(upd_text::specs::Text::name_of))]
pub fn group_key() -> Name
    ensures { result ≡ artifact_group }
{
    Name::read(b"artifact_group").ok().unwrap()
}

#[tactic(auto, unfolding(upd_text::specs::Text::name_of))]
fn suffix() -> Name
    ensures { result ≡ codes "_INCONSISTENT" }
{
    Name::read(b"_INCONSISTENT").ok().unwrap()
}

/// The same pairs, with `_INCONSISTENT` at the end of the value of `artifact_name`.
///
/// That value has to be there, with 1 to 128 bytes. The only error is want of memory.
#[tactic(auto, unfolding(crate::specs::After::broken))]
pub fn broken(alloc: Global, new: &Provides) -> Result<Provides, NoMemory>
    requires { HasName new.now }
    ensures { IfOk result (λ p. p ≡ broken new.now) }
{
    let mut all = new.copy(alloc)?;
    let name = name_key();
    if let Some(value) = new.get(&name) {
        let marked = Value::joined(value, &suffix());
        all.insert(name, marked)?;
    }
    Ok(all)
}

fn allows(allowed: &ValueList, value: &[u8]) -> bool
    ensures { result ≡ list_any (λ a. bytes_eq a value.now) allowed.now }
{
    allowed.as_slice().iter().any(|a| a.bytes() == value)
}

fn is_met(want: &Want, device_type: &Name, current: &Provides) -> bool
    ensures { result ≡ allows want.now.allowed (value_of device_type.now current.now want.now.key) }
{
    if want.key.bytes() == b"device_type".as_slice() {
        return allows(&want.allowed, device_type.bytes());
    }
    match current.get(&want.key) {
        Some(value) => allows(&want.allowed, value.bytes()),
        None => false,
    }
}

/// The key of the first want that isn't met, and none exactly where all are.
///
/// A want is met where the value of its key is one of those allowed. The value of `device_type` is
/// the device's own type, whatever is held under that key; any other key has the value that is
/// held, and one that isn't held is unmet.
pub fn first_unmet(wants: &WantList, device_type: &Name, current: &Provides) -> Option<Name>
    ensures { result ≡ first_unmet wants.now device_type.now current.now }
{
    for want in wants.as_slice() {
        if !is_met(want, device_type, current) {
            return Some(want.key.twin());
        }
    }
    None
}

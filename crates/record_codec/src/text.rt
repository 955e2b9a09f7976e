//! Names, values and scripts of bytes.

ghost use Rattle.std.specs.Prelude.{◌≡◌, if◌then◌else◌, Some, None};
ghost use Rattle.record_codec.specs.Keys.{is_name, is_value};
ghost use Rattle.record_codec.specs.Spelling.{is_kind, is_script, is_named};

use provides_map::{Provides, name_key};
use script_names::ScriptName;
use upd_text::{Name, Value, is_plain};

/// The name of these bytes, where they are one.
#[tactic(auto, using(crate::proofs::Texts::name_given))]
pub(crate) fn name_from(text: &[u8]) -> Option<Name>
    ensures { result ≡ (if is_name text.now then Some text.now else None) }
{
    Name::read(text).ok()
}

/// The value of these bytes, where they are one.
#[tactic(auto, using(crate::proofs::Texts::value_given))]
pub(crate) fn value_from(text: &[u8]) -> Option<Value>
    ensures { result ≡ (if is_value text.now then Some text.now else None) }
{
    Value::read(text).ok()
}

/// The script of an artifact that these bytes name.
#[tactic(auto, unfolding(crate::specs::Spelling::is_script), using(crate::proofs::Texts::no_place))]
pub(crate) fn script_from(text: &[u8]) -> Option<ScriptName>
    ensures { result ≡ (if is_script text.now then Some text.now else None) }
{
    let name = name_from(text)?;
    let script = ScriptName::read(&name)?;
    if !script.is_of_artifact() {
        return None;
    }
    Some(script)
}

/// Whether a name may be a payload type.
#[tactic(auto, unfolding(crate::specs::Spelling::is_kind), using(crate::proofs::Texts::name_true))]
pub(crate) fn is_kind(name: &Name) -> bool
    ensures { result ≡ is_kind name.now }
{
    is_plain(name.bytes())
}

/// Whether `artifact_name` is there, with 1 to 128 bytes.
#[tactic(auto, unfolding(crate::specs::Spelling::is_named))]
pub(crate) fn is_named(map: &Provides) -> bool
    ensures { result ≡ is_named map.now }
{
    match map.get(&name_key()) {
        Some(value) => {
            let size = value.bytes().len();
            1 <= size && size <= 128
        }
        None => false,
    }
}

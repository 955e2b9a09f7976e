ghost use Rattle.std.specs.Prelude.{◌≡◌, IfOk, option_map, option_and_then, codes};
ghost use Rattle.serde_json.specs.View.{view};
ghost use Rattle.artifact_meta.specs.Meta.{Answers, type_info_of, info_of, version_of, json_of, has_version, is_text, is_number};
ghost use Rattle.serde_json.specs.Find.{get, as_str, as_number, as_u64};

use crate::fault::{Field, MetaFault, MetaFile};
use crate::fields::{clears_in, kind_in, present, provides_in, wants_in};
use provides_map::{Clears, Provides, WantList};
use serde_json::Value as Json;
use std::alloc::Global;
use upd_text::{ListOf, Name, NoMemory};

/// The fields of type-info.
#[derive(Drop)]
pub struct TypeInfo {
    /// The type of the payload.
    pub kind: Name,
    /// The pairs that the artifact brings.
    pub provides: Provides,
    /// What it wants of the device, in byte order of the keys. A key with an empty list is no want.
    pub wants: WantList,
    /// Which provides go.
    pub clears: Clears,
}

/// The fields of type-info files, one for each payload in order.
pub type InfoList = ListOf<TypeInfo>;

// The JSON value of a file, if it has one.
#[tactic(auto, using(crate::proofs::Json::json_rules))]
pub(crate) fn parse(alloc: Global, bytes: &[u8]) -> Result<Option<Json>, NoMemory>
    ensures { IfOk result (λ json. option_map view json ≡ json_of bytes.now) }
{
    match Json::from_slice(alloc, bytes) {
        Ok(json) => Ok(Some(json)),
        Err(e) => {
            if e.is_memory() {
                return Err(NoMemory);
            }
            Ok(None)
        }
    }
}

/// Whether the file is an object whose `format` is the string `mender` and whose `version` is a
/// number that is read as the unsigned whole number 3, as `3.0` isn't.
///
/// The only error is want of memory. A file that is no JSON gives false.
#[tactic(auto, unfolding(crate::specs::Meta::version_of))]
pub fn read_version(alloc: Global, bytes: &[u8]) -> Result<bool, NoMemory>
    ensures { IfOk result (λ b. b ≡ version_of bytes.now) }
{
    match parse(alloc, bytes)? {
        None => Ok(false),
        Some(json) => Ok(has_version(&json)),
    }
}

fn is_mender(json: &Json) -> bool
    ensures { result ≡ is_text (codes "mender") (option_and_then as_str (get (codes "format") (view json.now))) }
{
    let Some(format) = json.get("format") else {
        return false;
    };
    let Some(text) = format.as_str() else {
        return false;
    };
    text == "mender"
}

fn is_three(json: &Json) -> bool
    ensures { result ≡ is_number 3 (option_and_then as_u64 (option_and_then as_number (get (codes "version") (view json.now)))) }
{
    let Some(version) = json.get("version") else {
        return false;
    };
    let Some(number) = version.as_u64() else {
        return false;
    };
    number == 3
}

fn has_version(json: &Json) -> bool
    ensures { result ≡ has_version (view json.now) }
{
    let mender = is_mender(json);
    let three = is_three(json);
    mender & three
}

/// The fields of the file, or its first fault.
///
/// A fault is `NotJson` of type-info, `Missing`, `WrongKind` or `BadText` of one of its fields, or
/// `NullType`; and `NoMemory`, which may come for any file.
#[tactic(auto, unfolding(crate::specs::Meta::type_info_of))]
pub fn read_type_info(alloc: Global, bytes: &[u8]) -> Result<TypeInfo, MetaFault>
    ensures { Answers result (type_info_of bytes.now) }
{
    match parse(alloc, bytes)? {
        None => Err(MetaFault::NotJson(MetaFile::TypeInfo)),
        Some(json) => info(alloc, &json),
    }
}

#[tactic(auto, unfolding(crate::specs::Meta::info_of))]
fn info(alloc: Global, json: &Json) -> Result<TypeInfo, MetaFault>
    ensures { Answers result (info_of (view json.now)) }
{
    if !json.is_object() {
        return Err(MetaFault::WrongKind(Field::InfoTop));
    }
    let kind = kind_in(Field::InfoType, json.get("type"))?;
    let provides = provides_in(alloc, present("artifact_provides", json))?;
    let wants = wants_in(alloc, present("artifact_depends", json))?;
    let clears = clears_in(alloc, present("clears_artifact_provides", json))?;
    Ok(TypeInfo {
        kind,
        provides,
        wants,
        clears,
    })
}

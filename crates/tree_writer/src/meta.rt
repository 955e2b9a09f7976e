//! The JSON values of header-info and type-info.

ghost use Rattle.std.specs.Prelude.{◌≡◌, ◌∷◌, [], List, map, OnOk, IfOk, Option, string_bytes, codes};
ghost use Rattle.serde_json.specs.Data.{string, array, no_members, object};
ghost use Rattle.serde_json.specs.View.{view, items_of, members_view};
ghost use Rattle.provides_map.specs.After.{artifact_name, artifact_group, device_type};
ghost use Rattle.tree_writer.specs.Texts.{puts, dictionary, strings, unless_none, unless_no_texts, unless_no_members, unless_all, header_depends, header_provides, payload_type, header_data, want_member, pair_member, info_data};

use crate::spec::{PayloadSpec, TreeSpec};
use provides_map::{Clears, PatternList, Provides, ValueList, WantList};
use serde_json::{Map, Value as Json, put};
use std::alloc::Global;
use std::str;
use upd_text::{Name, NoMemory};

// A string. The bytes were found to be UTF-8 before, so that the answer for others never comes.
fn string(alloc: Global, bytes: &[u8]) -> Result<Json, NoMemory>
    ensures { IfOk result (λ v. view v ≡ string bytes.now) }
{
    let Ok(text) = str::from_utf8(bytes) else {
        return Err(NoMemory);
    };
    Ok(Json::String(String::from_str(alloc, text)?))
}

#[tactic(auto, using(crate::proofs::Values::json_values))]
fn values(alloc: Global, list: &ValueList) -> Result<Json, NoMemory>
    ensures { IfOk result (λ v. view v ≡ strings list.now) }
{
    let mut items = Vec::new(alloc);
    for value in list.as_slice() {
        items.push(string(alloc, value.bytes())?)?;
    }
    Ok(Json::Array(items))
}

#[tactic(auto, using(crate::proofs::Values::json_values))]
fn patterns_of(alloc: Global, list: &PatternList) -> Result<Json, NoMemory>
    ensures { IfOk result (λ v. view v ≡ strings list.now) }
{
    let mut items = Vec::new(alloc);
    for pattern in list.as_slice() {
        items.push(string(alloc, pattern.name().bytes())?)?;
    }
    Ok(Json::Array(items))
}

fn put_values(
    members: &mut Map<String, Json>,
    alloc: Global,
    key: &str,
    list: &ValueList,
) -> Result<(), NoMemory>
    ensures { OnOk result (members_view members.new.entries ≡ puts (members_view members.old.entries) (unless_no_texts key.now list.now)) }
{
    if list.len() > 0 {
        put(members, alloc, key, values(alloc, list)?)?;
    }
    Ok(())
}

fn put_group(
    members: &mut Map<String, Json>,
    alloc: Global,
    group: &Option<Name>,
) -> Result<(), NoMemory>
    ensures { OnOk result (members_view members.new.entries ≡ puts (members_view members.old.entries) (unless_none artifact_group group.now)) }
{
    if let Some(name) = group {
        put(
            members,
            alloc,
            "artifact_group",
            string(alloc, name.bytes())?,
        )?;
    }
    Ok(())
}

#[tactic(auto, using(crate::proofs::Values::json_values))]
fn depends(alloc: Global, spec: &TreeSpec) -> Result<Json, NoMemory>
    ensures { IfOk result (λ v. view v ≡ dictionary (header_depends spec.now)) }
{
    let mut map = Map::new(alloc);
    put_values(&mut map, alloc, "artifact_group", &spec.needs_groups)?;
    put_values(&mut map, alloc, "artifact_name", &spec.needs_names)?;
    put(
        &mut map,
        alloc,
        "device_type",
        values(alloc, &spec.device_types)?,
    )?;
    Ok(Json::Object(map))
}

#[tactic(auto, using(crate::proofs::Values::json_values))]
fn provides(alloc: Global, spec: &TreeSpec) -> Result<Json, NoMemory>
    ensures { IfOk result (λ v. view v ≡ dictionary (header_provides spec.now)) }
{
    let mut map = Map::new(alloc);
    put_group(&mut map, alloc, &spec.group)?;
    put(
        &mut map,
        alloc,
        "artifact_name",
        string(alloc, spec.name.bytes())?,
    )?;
    Ok(Json::Object(map))
}

#[tactic(auto, using(crate::proofs::Values::json_values))]
fn payload_type(alloc: Global, payload: &PayloadSpec) -> Result<Json, NoMemory>
    ensures { IfOk result (λ v. view v ≡ payload_type payload.now) }
{
    let mut map = Map::new(alloc);
    put(
        &mut map,
        alloc,
        "type",
        string(alloc, payload.kind.bytes())?,
    )?;
    Ok(Json::Object(map))
}

#[tactic(auto, using(crate::proofs::Values::json_values))]
fn payload_types(alloc: Global, payloads: &[PayloadSpec]) -> Result<Json, NoMemory>
    ensures { IfOk result (λ v. view v ≡ array (items_of (map payload_type payloads.now))) }
{
    let mut items = Vec::new(alloc);
    for payload in payloads {
        items.push(payload_type(alloc, payload)?)?;
    }
    Ok(Json::Array(items))
}

/// The value of header-info.
#[tactic(auto, using(crate::proofs::Values::json_values))]
pub(crate) fn header(alloc: Global, spec: &TreeSpec) -> Result<Json, NoMemory>
    ensures { IfOk result (λ v. view v ≡ header_data spec.now) }
{
    let mut map = Map::new(alloc);
    put(&mut map, alloc, "artifact_depends", depends(alloc, spec)?)?;
    put(&mut map, alloc, "artifact_provides", provides(alloc, spec)?)?;
    put(
        &mut map,
        alloc,
        "payloads",
        payload_types(alloc, spec.payloads.as_slice())?,
    )?;
    Ok(Json::Object(map))
}

// A member whose key is a name. The answer for bytes that aren't UTF-8 never comes.
fn put_named(
    members: &mut Map<String, Json>,
    alloc: Global,
    key: &Name,
    value: Json,
) -> Result<(), NoMemory>
    ensures { OnOk result (members_view members.new.entries ≡ puts (members_view members.old.entries) ((key.now, view value) ∷ [])) }
{
    let Ok(key) = str::from_utf8(key.bytes()) else {
        return Err(NoMemory);
    };
    put(members, alloc, key, value)?;
    Ok(())
}

#[tactic(auto, using(crate::proofs::Values::json_values))]
fn wants(alloc: Global, list: &WantList) -> Result<Json, NoMemory>
    ensures { IfOk result (λ v. view v ≡ dictionary (map want_member list.now)) }
{
    let mut map = Map::new(alloc);
    for want in list.as_slice() {
        put_named(&mut map, alloc, &want.key, values(alloc, &want.allowed)?)?;
    }
    Ok(Json::Object(map))
}

#[tactic(auto, using(crate::proofs::Values::json_values))]
fn pairs(alloc: Global, provides: &Provides) -> Result<Json, NoMemory>
    ensures { IfOk result (λ v. view v ≡ dictionary (map pair_member provides.now)) }
{
    let mut map = Map::new(alloc);
    for i in 0..provides.len() {
        let (key, value) = provides.pair(i);
        put_named(&mut map, alloc, key, string(alloc, value.bytes())?)?;
    }
    Ok(Json::Object(map))
}

fn put_wants(
    members: &mut Map<String, Json>,
    alloc: Global,
    list: &WantList,
) -> Result<(), NoMemory>
    ensures { OnOk result (members_view members.new.entries ≡ puts (members_view members.old.entries) (unless_no_members (codes "artifact_depends") (map want_member list.now))) }
{
    if list.len() > 0 {
        put(members, alloc, "artifact_depends", wants(alloc, list)?)?;
    }
    Ok(())
}

fn put_pairs(
    members: &mut Map<String, Json>,
    alloc: Global,
    provides: &Provides,
) -> Result<(), NoMemory>
    ensures { OnOk result (members_view members.new.entries ≡ puts (members_view members.old.entries) (unless_no_members (codes "artifact_provides") (map pair_member provides.now))) }
{
    if provides.len() > 0 {
        put(members, alloc, "artifact_provides", pairs(alloc, provides)?)?;
    }
    Ok(())
}

fn put_clears(
    members: &mut Map<String, Json>,
    alloc: Global,
    clears: &Clears,
) -> Result<(), NoMemory>
    ensures { OnOk result (members_view members.new.entries ≡ puts (members_view members.old.entries) (unless_all clears.now)) }
{
    if let Clears::Listed(patterns) = clears {
        let list = patterns_of(alloc, patterns)?;
        put(members, alloc, "clears_artifact_provides", list)?;
    }
    Ok(())
}

/// The value of a payload's type-info.
#[tactic(auto, using(crate::proofs::Values::json_values))]
pub(crate) fn info(alloc: Global, payload: &PayloadSpec) -> Result<Json, NoMemory>
    ensures { IfOk result (λ v. view v ≡ info_data payload.now) }
{
    let mut map = Map::new(alloc);
    put_wants(&mut map, alloc, &payload.wants)?;
    put_pairs(&mut map, alloc, &payload.provides)?;
    put_clears(&mut map, alloc, &payload.clears)?;
    put(
        &mut map,
        alloc,
        "type",
        string(alloc, payload.kind.bytes())?,
    )?;
    Ok(Json::Object(map))
}

ghost use Rattle.std.specs.Prelude.{◌≡◌, ◌∷◌, [], codes, option_map, Ok, IfOk};
ghost use Rattle.serde_json.specs.View.{view, items_view};
ghost use Rattle.provides_map.specs.After.{artifact_name, artifact_group, device_type};
ghost use Rattle.upd_text.specs.Results.{Gives};
ghost use Rattle.artifact_meta.specs.Meta.{Answers, with_want};
ghost use Rattle.artifact_meta.specs.Header.{needed, needed_object, group_of, texts_or_none, header_wants, header_of, header_info_of, AreKinds};

use crate::fault::{Field, MetaFault, MetaFile};
use crate::fields::{name_in, present, values_in};
use crate::info::parse;
use crate::kinds::payload_kinds;
use provides_map::{ValueList, Want, WantList, group_key, name_key};
use serde_json::Value as Json;
use std::alloc::Global;
use upd_text::{KindList, ListOf, Name};

/// The fields of header-info.
#[derive(Drop)]
pub struct HeaderInfo {
    /// The types of the payloads, one for each in order.
    pub kinds: KindList,
    /// The artifact's name.
    pub name: Name,
    /// The artifact's group, where it has one.
    pub group: Option<Name>,
    /// What the artifact wants of the device: first its `device_type`, which is always there, then
    /// its `artifact_name` and its `artifact_group`, each where the file has a value for it.
    pub wants: WantList,
}

pub(crate) fn needed<'a>(field: Field, name: &str, json: &'a Json) -> Result<&'a Json, MetaFault>
    ensures { Gives MetaFault.NoMemory (λ v. view v.now) result (needed field name.now (view json.now)) }
{
    match present(name, json) {
        Some(found) => Ok(found),
        None => Err(MetaFault::Missing(field)),
    }
}

fn needed_object<'a>(field: Field, name: &str, json: &'a Json) -> Result<&'a Json, MetaFault>
    ensures { Gives MetaFault.NoMemory (λ v. view v.now) result (needed_object field name.now (view json.now)) }
{
    let found = needed(field, name, json)?;
    if found.is_object() {
        Ok(found)
    } else {
        Err(MetaFault::WrongKind(field))
    }
}

fn group_in(json: Option<&Json>) -> Result<Option<Name>, MetaFault>
    ensures { Answers result (group_of (option_map (λ v. view v.now) json.entry)) }
{
    let Some(json) = json else {
        return Ok(None);
    };
    let Some(text) = json.as_str() else {
        return Err(MetaFault::WrongKind(Field::ArtifactGroup));
    };
    if text.is_empty() {
        return Ok(None);
    }
    match Name::read(text.as_bytes()) {
        Ok(name) => Ok(Some(name)),
        Err(_) => Err(MetaFault::BadText(Field::ArtifactGroup)),
    }
}

fn values_or_none(alloc: Global, field: Field, json: Option<&Json>) -> Result<ValueList, MetaFault>
    ensures { Answers result (texts_or_none field (option_map (λ v. view v.now) json.entry)) }
{
    match json {
        None => Ok(ListOf::new(alloc)),
        Some(json) => values_in(alloc, field, json),
    }
}

// A list with no value gives no want.
fn push_want(wants: &mut WantList, key: Name, allowed: ValueList) -> Result<(), MetaFault>
    ensures { Gives MetaFault.NoMemory (λ _. wants.new) result (Ok (with_want wants.old key allowed)) }
{
    if allowed.len() > 0 {
        wants.push(Want { key, allowed })?;
    }
    Ok(())
}

#[tactic(auto, unfolding(crate::specs::Header::header_wants))]
fn header_wants(alloc: Global, depends: &Json) -> Result<WantList, MetaFault>
    ensures { Answers result (header_wants (view depends.now)) }
{
    let found = needed(Field::DeviceType, "device_type", depends)?;
    let types = values_in(alloc, Field::DeviceType, found)?;
    let names = values_or_none(alloc, Field::DependsName, present("artifact_name", depends))?;
    let groups = values_or_none(
        alloc,
        Field::DependsGroup,
        present("artifact_group", depends),
    )?;
    let mut wants = ListOf::new(alloc);
    wants.push(Want {
        key: device_type_key(),
        allowed: types,
    })?;
    push_want(&mut wants, name_key(), names)?;
    push_want(&mut wants, group_key(), groups)?;
    Ok(wants)
}

#[tactic(auto, unfolding(upd_text::specs::Text::name_of))]
fn device_type_key() -> Name
    ensures { result ≡ device_type }
{
    Name::read(b"device_type").ok().unwrap()
}

#[tactic(auto, unfolding(crate::specs::Header::header_of))]
fn header(alloc: Global, json: &Json) -> Result<HeaderInfo, MetaFault>
    ensures value { Answers result (header_of (view json.now)) }
    ensures kinds { IfOk result (λ header. AreKinds header.kinds) }
{
    if !json.is_object() {
        return Err(MetaFault::WrongKind(Field::HeaderTop));
    }
    let kinds = payload_kinds(alloc, json)?;
    let provides = needed_object(Field::HeaderProvides, "artifact_provides", json)?;
    let found = needed(Field::ArtifactName, "artifact_name", provides)?;
    let name = name_in(Field::ArtifactName, found)?;
    let group = group_in(present("artifact_group", provides))?;
    let depends = needed_object(Field::HeaderDepends, "artifact_depends", json)?;
    let wants = header_wants(alloc, depends)?;
    Ok(HeaderInfo {
        kinds,
        name,
        group,
        wants,
    })
}

/// The fields of the file, or its first fault.
///
/// A fault is `NotJson` of header-info, `Missing`, `WrongKind` or `BadText` of one of its fields,
/// `PayloadCount` or `NullType`; and `NoMemory`, which may come for any file.
#[tactic(auto, unfolding(crate::specs::Header::header_info_of))]
pub fn read_header_info(alloc: Global, bytes: &[u8]) -> Result<HeaderInfo, MetaFault>
    ensures value { Answers result (header_info_of bytes.now) }
    ensures kinds { IfOk result (λ header. AreKinds header.kinds) }
{
    match parse(alloc, bytes)? {
        None => Err(MetaFault::NotJson(MetaFile::HeaderInfo)),
        Some(json) => header(alloc, &json),
    }
}

//! The fields of the artifact, and what they want.

ghost use Rattle.std.specs.Prelude.{◌≡◌, ◌<◌, ◌^◌, [], length, map, option_map, IfSome, IfOk, IfErr, MatchOption};
ghost use Rattle.std.specs.Option.{option_or, option_copied};
ghost use Rattle.provides_map.specs.After.{first_unmet};
ghost use Rattle.artifact_meta.specs.Meta.{type_info_of, version_of};
ghost use Rattle.artifact_meta.specs.Header.{header_info_of, AreKinds};
ghost use Rattle.admit.specs.Kept.{numbered_text};
ghost use Rattle.admit.specs.Answers.{Gives, Own, IsCause};
ghost use Rattle.admit.specs.Table.{unless};
ghost use Rattle.admit.specs.Admit.{refuse_meta, has_info, no_type_info, stray_path, no_such_payload, text_of, other_kind, info_of, infos_after, fields_of, wants_of};

use crate::reading::{InfoText, Kept};
use crate::refusal::{AdmitFault, Refusal};
use crate::table::Head;
use artifact_meta::{
    HeaderInfo, InfoList, MetaFault, TypeInfo, read_header_info, read_type_info, read_version,
};
use provides_map::{Provides, first_unmet};
use std::alloc::Global;
use upd_text::Name;

#[derive(Drop)]
pub(crate) struct Fields {
    pub header: HeaderInfo,
    pub infos: InfoList,
}

fn header_of(alloc: Global, bytes: &[u8]) -> Result<HeaderInfo, AdmitFault>
    ensures value { Gives result (refuse_meta 0 (header_info_of bytes.now)) }
    ensures own { Own result }
    ensures kinds { IfOk result (λ header. AreKinds header.kinds) }
{
    match read_header_info(alloc, bytes) {
        Ok(header) => Ok(header),
        Err(MetaFault::NoMemory) => Err(AdmitFault::Memory),
        Err(fault) => Err(AdmitFault::Refused(Refusal::Meta(fault, 0))),
    }
}

// ---- the payloads that there are

fn has_info(heads: &[Head], payload: u32) -> bool
    ensures { result ≡ has_info heads.now payload }
{
    heads.iter().any(|head| head.place().is_info_of(payload))
}

/// The first payload but 0 without a type-info.
#[tactic(auto, unfolding(crate::specs::Admit::no_type_info))]
fn no_type_info(heads: &[Head], count: u32) -> Option<Refusal>
    ensures value { result ≡ no_type_info heads.now count }
    ensures cause { IfSome result IsCause }
{
    for payload in 1..count {
        if !has_info(heads, payload) {
            return Some(Refusal::NoTypeInfo(payload));
        }
    }
    None
}

fn stray_path(head: &Head, count: u32) -> Option<&Name>
    ensures { option_copied result ≡ stray_path count head.now.path }
{
    let payload = head.place().payload()?;
    if count <= u32::from(payload) {
        return head.path();
    }
    None
}

/// The first file of a payload that there isn't.
#[tactic(auto, unfolding(crate::specs::Admit::no_such_payload))]
fn no_such_payload(heads: &[Head], count: u32) -> Option<Refusal>
    ensures value { result ≡ no_such_payload heads.now count }
    ensures cause { IfSome result IsCause }
{
    for head in heads {
        if let Some(path) = stray_path(head, count) {
            return Some(Refusal::NoSuchPayload(path.twin()));
        }
    }
    None
}

// ---- what their type-infos say

fn text_of(texts: &[InfoText], payload: u32) -> Option<&[u8]>
    ensures { MatchOption result (text_of (map numbered_text texts.now) payload ≡ None) (λ text. text_of (map numbered_text texts.now) payload ≡ Some text.now) }
{
    for info in texts {
        if u32::from(info.payload) == payload {
            return Some(info.text.as_slice());
        }
    }
    None
}

fn read_info(alloc: Global, payload: u32, bytes: &[u8]) -> Result<TypeInfo, AdmitFault>
    ensures value { Gives result (refuse_meta payload (type_info_of bytes.now)) }
    ensures own { Own result }
{
    match read_type_info(alloc, bytes) {
        Ok(info) => Ok(info),
        Err(MetaFault::NoMemory) => Err(AdmitFault::Memory),
        Err(fault) => Err(AdmitFault::Refused(Refusal::Meta(fault, payload))),
    }
}

#[tactic(auto, unfolding(crate::specs::Admit::other_kind))]
fn other_kind(payload: u32, kind: &Name, info: &TypeInfo) -> Option<Refusal>
    ensures value { result ≡ other_kind payload kind.now info.now }
    ensures cause { IfSome result IsCause }
{
    if kind.bytes() == info.kind.bytes() {
        return None;
    }
    Some(Refusal::Meta(MetaFault::TypeDiffers, payload))
}

/// What is said of the payload of this type, or what is wrong with it.
#[tactic(auto, unfolding(crate::specs::Admit::info_of))]
fn info_of(
    alloc: Global,
    payload: u32,
    kind: &Name,
    texts: &[InfoText],
) -> Result<TypeInfo, AdmitFault>
    ensures value { Gives result (info_of payload kind.now (text_of (map numbered_text texts.now) payload)) }
    ensures own { Own result }
{
    let Some(text) = text_of(texts, payload) else {
        return Err(AdmitFault::Refused(Refusal::NoTypeInfo(payload)));
    };
    let info = read_info(alloc, payload, text)?;
    if let Some(refusal) = other_kind(payload, kind, &info) {
        return Err(AdmitFault::Refused(refusal));
    }
    Ok(info)
}

/// What is said of the payloads of these types, in order.
fn infos_of(alloc: Global, kinds: &[Name], texts: &[InfoText]) -> Result<InfoList, AdmitFault>
    ensures value { Gives result (infos_after [] kinds.now (map numbered_text texts.now)) }
    ensures own { Own result }
    ensures count { IfOk result (λ infos. length infos ≡ length kinds.now) }
{
    let mut infos = InfoList::new(alloc);
    for kind in kinds {
        let info = info_of(alloc, infos.len(), kind, texts)?;
        infos.push(info)?;
    }
    Ok(infos)
}

/// The fields, or what is wrong with them.
#[tactic(auto, unfolding(crate::specs::Admit::fields_of, crate::specs::Admit::bad_version))]
pub(crate) fn read_fields(alloc: Global, heads: &[Head], texts: &Kept) -> Result<Fields, AdmitFault>
    ensures value { Gives result (fields_of heads.now texts.now.version.items texts.now.header_info.items (map numbered_text texts.now.type_infos)) }
    ensures own { Own result }
    ensures kinds { IfOk result (λ fields. AreKinds fields.header.kinds) }
    ensures count { IfOk result (λ fields. length fields.infos ≡ length fields.header.kinds) }
{
    if !read_version(alloc, texts.version.as_slice())? {
        return Err(AdmitFault::Refused(Refusal::BadVersion));
    }
    let header = header_of(alloc, texts.header_info.as_slice())?;
    let count = header.kinds.len();
    if let Some(refusal) = no_type_info(heads, count) {
        return Err(AdmitFault::Refused(refusal));
    }
    if let Some(refusal) = no_such_payload(heads, count) {
        return Err(AdmitFault::Refused(refusal));
    }
    let infos = infos_of(alloc, header.kinds.as_slice(), texts.type_infos.as_slice())?;
    Ok(Fields { header, infos })
}

// ---- what they want

/// The first want that isn't met, of header-info and then of the payloads in order.
#[tactic(auto, using(crate::proofs::Wants::unmet_append))]
fn first_want(fields: &Fields, device_type: &Name, current: &Provides) -> Option<Name>
    ensures { result ≡ first_unmet (wants_of fields.now) device_type.now current.now }
{
    if let Some(key) = first_unmet(&fields.header.wants, device_type, current) {
        return Some(key);
    }
    for info in fields.infos.as_slice() {
        if let Some(key) = first_unmet(&info.wants, device_type, current) {
            return Some(key);
        }
    }
    None
}

/// What the artifact wants is met.
pub(crate) fn check_wants(
    fields: &Fields,
    device_type: &Name,
    current: &Provides,
) -> Result<(), Refusal>
    ensures value { result ≡ unless (option_map Refusal.Unmet (first_unmet (wants_of fields.now) device_type.now current.now)) }
    ensures cause { IfErr result IsCause }
{
    match first_want(fields, device_type, current) {
        Some(key) => Err(Refusal::Unmet(key)),
        None => Ok(()),
    }
}

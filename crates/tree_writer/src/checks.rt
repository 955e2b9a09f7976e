//! The causes for which no tree is written, but for those that lie in the tree itself.

ghost use Rattle.std.specs.Prelude.{◌≡◌, ◌+◌, ◌-◌, ◌<◌, ◌≤◌, ◌^◌, ◌==◌, ◌&&◌, not, [], length, map, take, drop, position, min, Some, None, IsSome, IfSome, IfOk, OnOk, IsOkAnd};
ghost use Rattle.std.specs.List.{list_all, list_any};
ghost use Rattle.std.specs.Str.{is_utf8};
ghost use Rattle.upd_text.specs.Parts.{is_plain};
ghost use Rattle.io_model.specs.Source.{path_at};
ghost use Rattle.script_names.specs.Scripts.{is_artifact_script};
ghost use Rattle.tree_writer.specs.Faults.{unless, first_of, name_causes, field_causes, spec_causes, paths_of, info_tests, same_path, is_fresh, first_stale, test_of, is_next_want, first_bad_want, bad_count, bad_kind, bad_file, bad_script, too_many_scripts, bad_want, are_text, group_is_text, pairs_are_text, wants_are_text, patterns_of, field_tests, first_failed, not_text, too_many_files};
ghost use Rattle.tree_writer.specs.Files.{tree_of};

use crate::fault::WriteFault;
use crate::order::is_below;
use crate::spec::{PayloadSpec, TreeSpec};
use artifact_meta::{Field, MOST_PAYLOADS};
use io_model::FileList;
use provides_map::{Clears, Provides, Want};
use script_names::ScriptName;
use std::str;
use upd_text::{Name, Value, is_plain};

/// What the paths of files are to be.
#[derive(Clone, Copy)]
pub(crate) enum Names {
    /// Names of files of a payload.
    Files,
    /// Names of scripts that an artifact may bring.
    Scripts,
}

const LONGEST_FILE: usize = 118;

const LONGEST_SCRIPT: usize = 113;

const MOST_SCRIPTS: u32 = 64;

const MOST_FILES: u64 = 256;

// ---- names of files and scripts

#[tactic(auto, using(admit::proofs::ScriptLemmas::no_script))]
fn is_artifact_script(name: &Name) -> bool
    ensures { result ≡ is_artifact_script name.now }
{
    match ScriptName::read(name) {
        Some(script) => script.is_of_artifact(),
        None => false,
    }
}

fn is_right(names: Names, name: &Name) -> bool
    ensures { result ≡ test_of names name.now }
{
    match names {
        Names::Files => is_plain(name.bytes()) && name.bytes().len() <= LONGEST_FILE,
        Names::Scripts => is_artifact_script(name) && name.bytes().len() <= LONGEST_SCRIPT,
    }
}

fn is_path_of(files: &FileList, i: u32, name: &Name) -> bool
    requires { i < length files.now }
    ensures { result ≡ same_path name.now (path_at files.now i) }
{
    match files.at(i).path() {
        Some(path) => name.bytes() == path.bytes(),
        None => false,
    }
}

// Whether one of the first i files has the path.
fn is_among(files: &FileList, i: u32, name: &Name) -> bool
    requires { i ≤ length files.now }
    ensures { result ≡ list_any (same_path name.now) (paths_of (take i files.now)) }
{
    for j in 0..i {
        if is_path_of(files, j, name) {
            return true;
        }
    }
    false
}

fn is_fresh(names: Names, files: &FileList, i: u32) -> bool
    requires { i < length files.now }
    ensures { result ≡ is_fresh (test_of names) (paths_of (take i files.now)) (path_at files.now i) }
{
    match files.at(i).path() {
        Some(name) => is_right(names, name) && !is_among(files, i, name),
        None => false,
    }
}

fn first_stale(names: Names, files: &FileList) -> Option<u32>
    ensures { result ≡ first_stale (test_of names) [] files.now }
{
    for i in 0..files.len() {
        if !is_fresh(names, files, i) {
            return Some(i);
        }
    }
    None
}

// ---- wants

fn is_next_want(last: &[u8], want: &Want) -> bool
    ensures { result ≡ is_next_want last.now want.now }
{
    want.allowed.len() > 0 && is_below(last, want.key.bytes())
}

fn first_bad_want(wants: &[Want]) -> Option<u32>
    requires { length wants.now < 2 ^ 32 }
    ensures { result ≡ first_bad_want 0 [] wants.now }
{
    let mut last: &[u8] = &[];
    for (i, want) in wants.iter().enumerate() {
        if !is_next_want(last, want) {
            return Some(i as u32);
        }
        last = want.key.bytes();
    }
    None
}

// ---- texts

#[tactic(auto, using(crate::proofs::Steps::text_rules))]
fn is_text(bytes: &[u8]) -> bool
    ensures { result ≡ is_utf8 bytes.now }
{
    match str::from_utf8(bytes) {
        Ok(_) => true,
        Err(_) => false,
    }
}

fn values_are_text(values: &[Value]) -> bool
    ensures { result ≡ are_text values.now }
{
    values.iter().all(|value| is_text(value.bytes()))
}

fn patterns_are_text(clears: &Clears) -> bool
    ensures { result ≡ are_text (patterns_of clears.now) }
{
    match clears {
        Clears::All => true,
        Clears::Listed(patterns) => patterns
            .as_slice()
            .iter()
            .all(|pattern| is_text(pattern.name().bytes())),
    }
}

fn group_is_text(group: &Option<Name>) -> bool
    ensures { result ≡ group_is_text group.now }
{
    match group {
        None => true,
        Some(name) => is_text(name.bytes()),
    }
}

fn wants_are_text(wants: &[Want]) -> bool
    ensures { result ≡ wants_are_text wants.now }
{
    wants.iter().all(|want| is_text(want.key.bytes()) && values_are_text(want.allowed.as_slice()))
}

fn pair_is_text(key: &Name, value: &Value) -> bool
    ensures { result ≡ (is_utf8 key.now && is_utf8 value.now) }
{
    is_text(key.bytes()) && is_text(value.bytes())
}

fn pairs_are_text(provides: &Provides) -> bool
    ensures { result ≡ pairs_are_text provides.now }
{
    for i in 0..provides.len() {
        let (key, value) = provides.pair(i);
        if !pair_is_text(key, value) {
            return false;
        }
    }
    true
}

fn kinds_are_text(payloads: &[PayloadSpec]) -> bool
    ensures { result ≡ list_all (λ payload. is_utf8 payload.kind) payloads.now }
{
    payloads.iter().all(|payload| is_text(payload.kind.bytes()))
}

fn all_pairs_are_text(payloads: &[PayloadSpec]) -> bool
    ensures { result ≡ list_all (λ payload. pairs_are_text payload.provides) payloads.now }
{
    payloads
        .iter()
        .all(|payload| pairs_are_text(&payload.provides))
}

fn all_wants_are_text(payloads: &[PayloadSpec]) -> bool
    ensures { result ≡ list_all (λ payload. wants_are_text payload.wants) payloads.now }
{
    payloads
        .iter()
        .all(|payload| wants_are_text(payload.wants.as_slice()))
}

fn all_patterns_are_text(payloads: &[PayloadSpec]) -> bool
    ensures { result ≡ list_all (λ payload. are_text (patterns_of payload.clears)) payloads.now }
{
    payloads
        .iter()
        .all(|payload| patterns_are_text(&payload.clears))
}

fn first_failed(rows: &[(Field, bool)]) -> Option<Field>
    ensures { result ≡ first_failed rows.now }
{
    for (field, good) in rows {
        if !*good {
            return Some(*field);
        }
    }
    None
}

fn first_not_text(spec: &TreeSpec) -> Option<Field>
    ensures { result ≡ first_failed (field_tests spec.now) }
{
    let payloads = spec.payloads.as_slice();
    let rows = [
        (Field::PayloadType, kinds_are_text(payloads)),
        (Field::ArtifactName, is_text(spec.name.bytes())),
        (Field::ArtifactGroup, group_is_text(&spec.group)),
        (
            Field::DeviceType,
            values_are_text(spec.device_types.as_slice()),
        ),
        (
            Field::DependsName,
            values_are_text(spec.needs_names.as_slice()),
        ),
        (
            Field::DependsGroup,
            values_are_text(spec.needs_groups.as_slice()),
        ),
        (Field::InfoProvides, all_pairs_are_text(payloads)),
        (Field::InfoDepends, all_wants_are_text(payloads)),
        (Field::InfoClears, all_patterns_are_text(payloads)),
    ];
    first_failed(rows.as_slice())
}

// ---- the rows of the table

fn check_count(count: u32) -> Result<(), WriteFault>
    ensures { result ≡ unless (bad_count count) }
{
    if 1 <= count && count <= u32::from(MOST_PAYLOADS) {
        return Ok(());
    }
    Err(WriteFault::PayloadCount(count))
}

fn first_bad_kind(payloads: &[PayloadSpec]) -> Option<usize>
    ensures first { result ≡ position (λ payload. not (is_plain payload.kind)) payloads.now }
    ensures below { IfSome result (λ k. k < length payloads.now) }
{
    payloads
        .iter()
        .position(|payload| !is_plain(payload.kind.bytes()))
}

fn check_kinds(payloads: &[PayloadSpec]) -> Result<(), WriteFault>
    requires { length payloads.now < 2 ^ 32 }
    ensures { result ≡ unless (bad_kind payloads.now) }
{
    match first_bad_kind(payloads) {
        Some(k) => Err(WriteFault::BadKind(k as u32)),
        None => Ok(()),
    }
}

fn check_files(payloads: &[PayloadSpec]) -> Result<(), WriteFault>
    requires { length payloads.now < 2 ^ 32 }
    ensures { result ≡ unless (bad_file 0 payloads.now) }
{
    for (k, payload) in payloads.iter().enumerate() {
        if let Some(i) = first_stale(Names::Files, &payload.files) {
            return Err(WriteFault::BadFile(k as u32, i));
        }
    }
    Ok(())
}

fn check_scripts(scripts: &FileList) -> Result<(), WriteFault>
    ensures { result ≡ unless (bad_script scripts.now) }
{
    match first_stale(Names::Scripts, scripts) {
        Some(i) => Err(WriteFault::BadScript(i)),
        None => Ok(()),
    }
}

fn check_script_count(count: u32) -> Result<(), WriteFault>
    ensures { result ≡ unless (too_many_scripts count) }
{
    if MOST_SCRIPTS < count {
        return Err(WriteFault::TooManyScripts(count));
    }
    Ok(())
}

fn check_wants(payloads: &[PayloadSpec]) -> Result<(), WriteFault>
    requires { length payloads.now < 2 ^ 32 }
    ensures { result ≡ unless (bad_want 0 payloads.now) }
{
    for (k, payload) in payloads.iter().enumerate() {
        if let Some(i) = first_bad_want(payload.wants.as_slice()) {
            return Err(WriteFault::BadWant(k as u32, i));
        }
    }
    Ok(())
}

fn check_texts(spec: &TreeSpec) -> Result<(), WriteFault>
    ensures { result ≡ unless (not_text spec.now) }
{
    match first_not_text(spec) {
        Some(field) => Err(WriteFault::NotText(field)),
        None => Ok(()),
    }
}

// The files of the payloads with their type-infos, the scripts, header-info, manifest and version.
fn file_count(spec: &TreeSpec) -> u64
    requires { length spec.now.payloads ≤ 8 }
    ensures { result ≡ length (tree_of spec.now) }
{
    let mut count: u64 = 3;
    for payload in spec.payloads.as_slice() {
        count += u64::from(payload.files.len()) + 1;
    }
    count + u64::from(spec.scripts.len())
}

fn check_file_count(count: u64) -> Result<(), WriteFault>
    ensures { result ≡ unless (too_many_files count) }
{
    if MOST_FILES < count {
        return Err(WriteFault::TooManyFiles(count.min(0xffff_ffff) as u32));
    }
    Ok(())
}

fn check_names(spec: &TreeSpec) -> Result<(), WriteFault>
    ensures { result ≡ unless (first_of (name_causes spec.now)) }
{
    let payloads = spec.payloads.as_slice();
    check_count(spec.payloads.len())?;
    check_kinds(payloads)?;
    check_files(payloads)?;
    check_scripts(&spec.scripts)?;
    check_script_count(spec.scripts.len())
}

fn check_fields(spec: &TreeSpec) -> Result<(), WriteFault>
    requires { length spec.now.payloads ≤ 8 }
    ensures { result ≡ unless (first_of (field_causes spec.now)) }
{
    check_wants(spec.payloads.as_slice())?;
    match check_texts(spec) {
        Ok(()) => check_file_count(file_count(spec)),
        Err(fault) => Err(fault),
    }
}

/// The first cause in the order of [`WriteFault`] that lies in the spec.
#[tactic(auto, using(crate::proofs::Causes::names_first))]
pub(crate) fn check(spec: &TreeSpec) -> Result<(), WriteFault>
    ensures value { result ≡ unless (first_of (spec_causes spec.now)) }
    ensures few { OnOk result (length spec.now.payloads ≤ 8) }
{
    check_names(spec)?;
    check_fields(spec)
}

//! The manifest's lines, and their files.

ghost use Rattle.std.specs.Prelude.{◌≡◌, ◌<◌, ◌^◌, length, Some, IfOk, IfErr, IfSome, All};
ghost use Rattle.std.specs.List.{filter_map};
ghost use Rattle.std.specs.Option.{option_copied};
ghost use Rattle.admit.specs.Answers.{Gives, Own, IsCause};
ghost use Rattle.admit.specs.Admit.{has_line, unlisted_path, not_listed, number_of, absent, lines_of, refuse_manifest};
ghost use Rattle.manifest_sums.specs.Manifest.{manifest_of};

use crate::place::place_of;
use crate::refusal::{AdmitFault, Refusal};
use crate::table::{Head, place_in};
use manifest_sums::{Line, Manifest, ManifestFault, read_manifest};
use std::alloc::Global;
use upd_text::{ListOf, Name};

/// Indexes of files, in order.
pub type NumberList = ListOf<u32>;

/// The manifest, and for each line the index of its file.
#[derive(Drop)]
pub(crate) struct Listing {
    pub manifest: Manifest,
    pub numbers: NumberList,
}

fn has_line(lines: &[Line], path: &[u8]) -> bool
    ensures { result ≡ has_line lines.now path.now }
{
    lines.iter().any(|line| line.path.bytes() == path)
}

fn unlisted_path<'a>(lines: &[Line], head: &'a Head) -> Option<&'a Name>
    ensures { option_copied result ≡ unlisted_path lines.now head.now.path }
{
    let path = head.path()?;
    if head.place().is_manifest() || has_line(lines, path.bytes()) {
        return None;
    }
    Some(path)
}

/// The first file without a line.
#[tactic(auto, unfolding(crate::specs::Admit::not_listed))]
fn not_listed(lines: &[Line], heads: &[Head]) -> Option<Refusal>
    ensures value { result ≡ not_listed lines.now heads.now }
    ensures cause { IfSome result IsCause }
{
    for head in heads {
        if let Some(path) = unlisted_path(lines, head) {
            return Some(Refusal::NotListed(path.twin()));
        }
    }
    None
}

fn number_of(heads: &[Head], line: &Line) -> Option<u32>
    requires { length heads.now < 2 ^ 32 }
    ensures value { result ≡ number_of heads.now line.now }
    ensures bound { IfSome result (λ n. n < length heads.now) }
{
    if place_of(&line.path).is_manifest() {
        return None;
    }
    let i = place_in(heads, line.path.bytes())?;
    Some(i as u32)
}

/// The first line without a file.
#[tactic(auto, unfolding(crate::specs::Admit::absent))]
fn absent(heads: &[Head], lines: &[Line]) -> Option<Refusal>
    requires { length heads.now < 2 ^ 32 }
    ensures value { result ≡ absent heads.now lines.now }
    ensures cause { IfSome result IsCause }
{
    for line in lines {
        if number_of(heads, line).is_none() {
            return Some(Refusal::Absent(line.path.twin()));
        }
    }
    None
}

/// The index of each line's file.
fn numbers_of(alloc: Global, heads: &[Head], lines: &[Line]) -> Result<NumberList, AdmitFault>
    requires { length heads.now < 2 ^ 32 }
    ensures value { IfOk result (λ numbers. numbers ≡ filter_map (number_of heads.now) lines.now) }
    ensures memory { IfErr result (λ e. e ≡ AdmitFault.Memory) }
    ensures bound { IfOk result (λ numbers. All (λ n. n < length heads.now) numbers) }
{
    let mut numbers = ListOf::new(alloc);
    for line in lines {
        if let Some(n) = number_of(heads, line) {
            numbers.push(n)?;
        }
    }
    Ok(numbers)
}

fn manifest_of(alloc: Global, bytes: &[u8]) -> Result<Manifest, AdmitFault>
    ensures value { Gives result (refuse_manifest (manifest_of bytes.now)) }
    ensures own { Own result }
{
    match read_manifest(alloc, bytes) {
        Ok(manifest) => Ok(manifest),
        Err(ManifestFault::NoMemory) => Err(AdmitFault::Memory),
        Err(fault) => Err(AdmitFault::Refused(Refusal::Manifest(fault))),
    }
}

/// The manifest's lines and the indexes of their files.
#[tactic(auto, unfolding(crate::specs::Admit::lines_of))]
pub(crate) fn read_lines(alloc: Global, heads: &[Head], bytes: &[u8]) -> Result<Listing, AdmitFault>
    requires { length heads.now < 2 ^ 32 }
    ensures value { Gives result (lines_of heads.now bytes.now) }
    ensures own { Own result }
    ensures bound { IfOk result (λ l. All (λ n. n < length heads.now) l.numbers) }
{
    let manifest = manifest_of(alloc, bytes)?;
    if let Some(refusal) = not_listed(manifest.lines(), heads) {
        return Err(AdmitFault::Refused(refusal));
    }
    if let Some(refusal) = absent(heads, manifest.lines()) {
        return Err(AdmitFault::Refused(refusal));
    }
    let numbers = numbers_of(alloc, heads, manifest.lines())?;
    Ok(Listing { manifest, numbers })
}

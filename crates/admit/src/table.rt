//! The table of the files: their paths and lengths, and what these decide.

ghost use Rattle.std.specs.Prelude.{◌≡◌, ◌≤◌, ◌<◌, ◌^◌, length, take, Some, IfOk, IfErr, IfSome};
ghost use Rattle.std.specs.List.{list_any, filter_map};
ghost use Rattle.std.specs.Option.{option_copied};
ghost use Rattle.io_model.specs.Source.{count_of, When};
ghost use Rattle.admit.specs.Places.{place_at};
ghost use Rattle.admit.specs.Answers.{Stops, IsCause};
ghost use Rattle.admit.specs.Table.{heads_of, has_path, place_in, too_many, bad_path, first_bad_path, path_of, needed, long_path, lesser, least, too_long, table_of, AreIn};

use crate::place::{TreePlace, place_at};
use crate::refusal::{Refusal, Which};
use crate::stop::Stop;
use io_model::Source;
use std::alloc::Global;
use std::marker::Model;
use upd_text::{ListOf, Name};

/// A file's path and length, and what stands at its path, which is parsed once.
#[derive(Drop)]
pub(crate) struct Head {
    path: Option<Name>,
    place: TreePlace,
    length: u64,
}

impl Model for Head {
    ghost use Rattle.std.specs.Prelude.{◌≡◌};
    ghost use Rattle.admit.specs.Places.{place_at};
    ghost use Rattle.admit.specs.Table.{FileHead};

    ghost Value = { FileHead };

    ghost view = { λ h. record { path = h.path; length = h.length } };

    ghost invariant = { λ h. h.place ≡ place_at h.path };
}

impl Head {
    fn new(path: Option<Name>, length: u64) -> Head
        ensures { result ≡ record { path = path; length = length } }
    {
        let place = place_at(&path);
        Head {
            path,
            place,
            length,
        }
    }

    /// The path, or `None` where it is no name.
    pub(crate) fn path(&self) -> Option<&Name>
        ensures { option_copied result ≡ self.now.path }
    {
        self.path.as_ref()
    }

    /// What stands at the path.
    pub(crate) fn place(&self) -> &TreePlace
        ensures { result.now ≡ place_at self.now.path }
    {
        &self.place
    }

    /// How many bytes the file has.
    pub(crate) fn length(&self) -> u64
        ensures { result ≡ self.now.length }
    {
        self.length
    }

    fn has_path(&self, path: &[u8]) -> bool
        ensures { result ≡ has_path path.now self.now }
    {
        match &self.path {
            Some(name) => name.bytes() == path,
            None => false,
        }
    }
}

/// Where the files are that must be there.
#[derive(Drop)]
pub(crate) struct Places {
    pub version: u32,
    pub manifest: u32,
    pub header_info: u32,
}

/// The table of all files.
pub(crate) fn read_table<S: Source>(alloc: Global, source: &mut S) -> Result<ListOf<Head>, Stop>
    ensures same { S.content source.new ≡ S.content source.old }
    ensures plan { S.plan source.new ≡ S.plan source.old }
    ensures given { S.given source.new ≡ S.given source.old }
    ensures stops { Stops (S.faults source.old) result (S.faults source.new) }
    ensures count { IfOk result (λ heads. length heads ≡ count_of (S.content source.old)) }
    ensures heads { IfOk result (λ heads. When (S.content source.old) (λ t. heads ≡ heads_of t)) }
{
    let mut heads = ListOf::new(alloc);
    for i in 0..source.files() {
        let path = source.path(i)?;
        let length = source.length(i)?;
        heads.push(Head::new(path, length))?;
    }
    Ok(heads)
}

/// The index of the first file with the path.
pub(crate) fn place_in(heads: &[Head], path: &[u8]) -> Option<usize>
    ensures at { result ≡ place_in heads.now path.now }
    ensures bound { IfSome result (λ i. i < length heads.now) }
{
    heads.iter().position(|head| head.has_path(path))
}

fn is_among(heads: &[Head], path: &[u8]) -> bool
    ensures { result ≡ list_any (has_path path.now) heads.now }
{
    heads.iter().any(|head| head.has_path(path))
}

#[tactic(auto, unfolding(crate::specs::Table::bad_path))]
fn bad_path(earlier: &[Head], head: &Head) -> Option<Refusal>
    requires { length earlier.now < 2 ^ 32 }
    ensures value { result ≡ bad_path earlier.now head.now.path }
    ensures cause { IfSome result IsCause }
{
    let i = earlier.len() as u32;
    let Some(path) = head.path() else {
        return Some(Refusal::BadPath(i));
    };
    if head.place().is_barred() {
        return Some(Refusal::Augmented(i));
    }
    if !head.place().is_allowed() {
        return Some(Refusal::BadPath(i));
    }
    if is_among(earlier, path.bytes()) {
        return Some(Refusal::DoubledPath(i));
    }
    None
}

/// The first path that is refused.
#[tactic(auto, unfolding(crate::specs::Table::first_bad_path))]
fn first_bad_path(heads: &[Head]) -> Option<Refusal>
    requires { length heads.now < 2 ^ 32 }
    ensures value { result ≡ first_bad_path heads.now }
    ensures cause { IfSome result IsCause }
{
    for (i, head) in heads.iter().enumerate() {
        if let Some(refusal) = bad_path(&heads[..i], head) {
            return Some(refusal);
        }
    }
    None
}

fn path_of(which: Which) -> &'static [u8]
    ensures { result.now ≡ path_of which }
{
    match which {
        Which::Version => b"version",
        Which::Manifest => b"manifest",
        Which::HeaderInfo => b"header/header-info",
        Which::TypeInfo => b"header/headers/0000/type-info",
    }
}

/// Where a file is that must be there.
#[tactic(auto, unfolding(crate::specs::Table::needed))]
fn needed(heads: &[Head], which: Which) -> Result<u32, Refusal>
    requires { length heads.now < 2 ^ 32 }
    ensures value { result ≡ needed heads.now which }
    ensures cause { IfErr result IsCause }
    ensures bound { IfOk result (λ i. i < length heads.now) }
{
    match place_in(heads, path_of(which)) {
        Some(i) => Ok(i as u32),
        None => Err(Refusal::NoFile(which)),
    }
}

/// The path of a file that is to be read whole and is too long for it.
fn long_path(head: &Head) -> Option<&Name>
    ensures { option_copied result ≡ long_path head.now.path head.now.length }
{
    let path = head.path()?;
    if 65_536 < head.length() && head.place().is_header() {
        return Some(path);
    }
    None
}

/// The one of the two that comes first in byte order.
pub(crate) fn lesser<'a>(least: Option<&'a Name>, path: &'a Name) -> &'a Name
    ensures { Some result.now ≡ lesser (option_copied least.entry) path.now }
{
    match least {
        None => path,
        Some(least) => { if path.cmp(least).is_lt() { path } else { least } }
    }
}

/// The first in byte order of the files that are too long.
#[tactic(auto, unfolding(crate::specs::Table::too_long))]
fn too_long(heads: &[Head]) -> Option<Refusal>
    ensures value { result ≡ too_long heads.now }
    ensures cause { IfSome result IsCause }
{
    let mut least = None;
    for head in heads {
        if let Some(path) = long_path(head) {
            least = Some(lesser(least, path));
        }
    }
    match least {
        Some(path) => Some(Refusal::HeaderTooLong(path.twin())),
        None => None,
    }
}

/// What the table decides.
#[tactic(auto, unfolding(crate::specs::Table::table_of))]
pub(crate) fn check_table(heads: &[Head]) -> Result<Places, Refusal>
    requires { length heads.now < 2 ^ 32 }
    ensures value { result ≡ table_of heads.now }
    ensures cause { IfErr result IsCause }
    ensures bound { IfOk result (λ p. AreIn heads.now p) }
{
    if let Some(refusal) = first_bad_path(heads) {
        return Err(refusal);
    }
    let version = needed(heads, Which::Version)?;
    let manifest = needed(heads, Which::Manifest)?;
    let header_info = needed(heads, Which::HeaderInfo)?;
    needed(heads, Which::TypeInfo)?;
    if let Some(refusal) = too_long(heads) {
        return Err(refusal);
    }
    Ok(Places {
        version,
        manifest,
        header_info,
    })
}

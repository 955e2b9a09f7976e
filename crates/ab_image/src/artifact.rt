//! What an artifact says of its image.

ghost use Rattle.std.specs.Prelude.{◌≡◌, ◌+◌, ◌<◌, ◌≤◌, ◌^◌, length, IfOk, IfErr, IfSome, Some};
ghost use Rattle.std.specs.Option.{ok_or};
ghost use Rattle.io_model.specs.Source.{Counts, When, bytes_at, count_of};
ghost use Rattle.ab_image.specs.Artifact.{is_image_path, is_type_info_path, sum_listed};
ghost use Rattle.ab_image.specs.Finding.{AreBelow, IsFound, NoSum, NoText, Stops, found_after, listed_at, unread_by};

use crate::report::AbAct;
use artifact_meta::{MetaFault, TypeInfo, read_type_info};
use io_model::{Source, SourceFault, fill};
use manifest_sums::Sum;
use std::alloc::Global;
use upd_text::Name;

/// The most bytes that a type-info may have.
pub const MOST: u64 = 65_536;

/// How many files are images, the first of them, and the first that is the type-info.
#[derive(Clone, Copy, Debug, PartialEq, Eq)]
pub(crate) struct Found {
    pub images: u32,
    pub image: u32,
    pub type_info: Option<u32>,
}

fn is_image(path: &Option<Name>) -> bool
    ensures { result ≡ is_image_path path.now }
{
    match path {
        Some(path) => path.bytes().starts_with(b"files/"),
        None => false,
    }
}

fn is_type_info(path: &Option<Name>) -> bool
    ensures { result ≡ is_type_info_path path.now }
{
    match path {
        Some(path) => path.bytes() == b"header/type-info".as_slice(),
        None => false,
    }
}

impl Found {
    /// The same after the file with this index, which has this path.
    fn with(self, i: u32, path: &Option<Name>) -> Found
        requires { self.images + 1 < 2 ^ 32 }
        ensures { result ≡ found_after self i path.now }
    {
        let mut found = self;
        if is_image(path) {
            if found.images == 0 {
                found.image = i;
            }
            found.images += 1;
        }
        if found.type_info.is_none() && is_type_info(path) {
            found.type_info = Some(i);
        }
        found
    }
}

/// Looks at the paths of all files.
pub(crate) fn find_files<S: Source>(source: &mut S) -> Result<Found, SourceFault>
    ensures same { S.content source.new ≡ S.content source.old }
    ensures plan { S.plan source.new ≡ S.plan source.old }
    ensures counts { Counts (S.faults source.old) result (S.faults source.new) }
    ensures below { IfOk result (λ found. AreBelow (count_of (S.content source.old)) found) }
    ensures found { IfOk result (λ found. When (S.content source.old) (λ tree. IsFound tree found)) }
{
    let mut found = Found {
        images: 0,
        image: 0,
        type_info: None,
    };
    for i in 0..source.files() {
        let path = source.path(i)?;
        found = found.with(i, &path);
    }
    Ok(found)
}

/// The bytes of a type-info that isn't too long.
fn read_text<S: Source>(alloc: Global, source: &mut S, i: u32) -> Result<Vec<u8>, AbAct>
    requires { i < count_of (S.content source.old) }
    ensures same { S.content source.new ≡ S.content source.old }
    ensures plan { S.plan source.new ≡ S.plan source.old }
    ensures stops { Stops (S.faults source.old) result (S.faults source.new) }
    ensures few { IfOk result (λ text. length text.items ≤ MOST) }
    ensures text { IfOk result (λ text. When (S.content source.old) (λ tree. text.items ≡ bytes_at tree i)) }
    ensures none { IfErr result (λ stop. NoText (S.content source.old) i stop) }
{
    let size = match source.length(i) {
        Ok(size) => size,
        Err(_) => return Err(AbAct::SourceFault),
    };
    if size > MOST {
        return Err(AbAct::NoChecksum);
    }
    let mut text = match vec![in alloc; 0u8; size as usize] {
        Ok(text) => text,
        Err(_) => return Err(AbAct::NoMemory),
    };
    match fill(source, i, text.as_mut_slice()) {
        Ok(()) => Ok(text),
        Err(_) => Err(AbAct::SourceFault),
    }
}

/// The sum that the provides list.
#[tactic(auto, unfolding(upd_text::specs::Text::name_of))]
fn sum_listed(info: &TypeInfo) -> Result<Sum, AbAct>
    ensures { result ≡ ok_or (sum_listed info.now) AbAct.NoChecksum }
{
    let key = match Name::read(b"rootfs-image.checksum") {
        Ok(key) => key,
        Err(_) => return Err(AbAct::NoChecksum),
    };
    match info.provides.get(&key) {
        Some(value) => match Sum::read(value.bytes()) {
            Some(sum) => Ok(sum),
            None => Err(AbAct::NoChecksum),
        },
        None => Err(AbAct::NoChecksum),
    }
}

/// The answer where the type-info isn't read.
fn unread(fault: MetaFault) -> AbAct
    ensures { result ≡ unread_by fault }
{
    match fault {
        MetaFault::NoMemory => AbAct::NoMemory,
        _ => AbAct::NoChecksum,
    }
}

/// The sum that the artifact lists for its image.
pub(crate) fn listed_sum<S: Source>(
    alloc: Global,
    source: &mut S,
    type_info: Option<u32>,
) -> Result<Sum, AbAct>
    requires { IfSome type_info (λ i. i < count_of (S.content source.old)) }
    ensures same { S.content source.new ≡ S.content source.old }
    ensures plan { S.plan source.new ≡ S.plan source.old }
    ensures stops { Stops (S.faults source.old) result (S.faults source.new) }
    ensures listed { IfOk result (λ sum. When (S.content source.old) (λ tree. listed_at tree type_info ≡ Some sum)) }
    ensures none { IfErr result (λ stop. NoSum (S.content source.old) type_info stop) }
{
    let i = match type_info {
        Some(i) => i,
        None => return Err(AbAct::NoChecksum),
    };
    let text = read_text(alloc, source, i)?;
    match read_type_info(alloc, text.as_slice()) {
        Ok(info) => sum_listed(&info),
        Err(fault) => Err(unread(fault)),
    }
}

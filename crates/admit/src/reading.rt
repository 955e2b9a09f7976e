//! The bytes of files.

ghost use Rattle.std.specs.Prelude.{◌≡◌, ◌≤◌, ◌<◌, ◌^◌, ◌-◌, ◌+◌, ℕ, length, take, IfOk, IfSome, IsSome, OnOk};
ghost use Rattle.manifest_sums.specs.Message.{Has};
ghost use Rattle.sha2.specs.Sha256.{sha256};
ghost use Rattle.io_model.specs.Source.{Tree, Counts, count_of, bytes_at, IsLength, When};
ghost use Rattle.admit.specs.Answers.{Stops};
ghost use Rattle.admit.specs.Table.{heads_of, info_in, IsShortAt, AreIn};
ghost use Rattle.io_model.specs.Reading.{OnlyOf};
ghost use Rattle.upd_text.specs.Told.{WhereTold};
ghost use Rattle.admit.specs.Kept.{IsInfoAt, AreInfos, IsKept};
ghost use Rattle.admit.specs.Given.{ReadsPiece, ReadsFile, OnlyInfos, NoneBut};

use crate::stop::Stop;
use crate::table::{Head, Places};
use io_model::{Source, SourceFault, fill};
use manifest_sums::{Sum, Summing};
use std::alloc::{AllocError, Global};
use upd_text::ListOf;

/// The type-info of a payload, which is the file with this number.
#[derive(Drop)]
pub(crate) struct InfoText {
    pub payload: u8,
    pub number: u32,
    pub text: Vec<u8>,
}

/// The texts that are read once, and kept for their sums and their fields.
#[derive(Drop)]
pub(crate) struct Kept {
    pub places: Places,
    pub version: Vec<u8>,
    pub header_info: Vec<u8>,
    pub type_infos: ListOf<InfoText>,
}

pub(crate) fn zeros(alloc: Global, count: usize) -> Result<Vec<u8>, AllocError>
    ensures { IfOk result (λ z. length z.items ≡ count) }
{
    vec![in alloc; 0; count]
}

/// All bytes of a file of at most 65,536 bytes.
pub(crate) fn read_file<S: Source>(
    alloc: Global,
    source: &mut S,
    heads: &[Head],
    i: u32,
) -> Result<Vec<u8>, Stop>
    requires short { IsShortAt heads.now i }
    requires count { length heads.now ≡ count_of (S.content source.old) }
    requires heads { When (S.content source.old) (λ t. heads.now ≡ heads_of t) }
    ensures same { S.content source.new ≡ S.content source.old }
    ensures plan { S.plan source.new ≡ S.plan source.old }
    ensures given { WhereTold (OnlyOf i) (S.given source.old) (S.given source.new) }
    ensures stops { Stops (S.faults source.old) result (S.faults source.new) }
    ensures few { IfOk result (λ bytes. length bytes.items ≤ 65536) }
    ensures bytes { IfOk result (λ bytes. When (S.content source.old) (λ t. bytes.items ≡ bytes_at t i)) }
{
    let size = heads[i as usize].length();
    let mut bytes = zeros(alloc, size as usize)?;
    fill(source, i, bytes.as_mut_slice())?;
    Ok(bytes)
}

/// The text of a file, where it is a type-info.
fn read_info<S: Source>(
    alloc: Global,
    source: &mut S,
    heads: &[Head],
    i: u32,
) -> Result<Option<InfoText>, Stop>
    requires within { i < length heads.now }
    requires short { IsSome (info_in heads.now i) → IsShortAt heads.now i }
    requires count { length heads.now ≡ count_of (S.content source.old) }
    requires heads { When (S.content source.old) (λ t. heads.now ≡ heads_of t) }
    ensures same { S.content source.new ≡ S.content source.old }
    ensures plan { S.plan source.new ≡ S.plan source.old }
    ensures given { WhereTold (OnlyInfos heads.now) (S.given source.old) (S.given source.new) }
    ensures stops { Stops (S.faults source.old) result (S.faults source.new) }
    ensures text { IfOk result (λ info. When (S.content source.old) (λ t. IsInfoAt t i info)) }
{
    let Some(payload) = heads[i as usize].place().info() else {
        return Ok(None);
    };
    let text = read_file(alloc, source, heads, i)?;
    Ok(Some(InfoText {
        payload,
        number: i,
        text,
    }))
}

/// The type-infos that are there, in the tree's order.
fn read_infos<S: Source>(
    alloc: Global,
    source: &mut S,
    heads: &[Head],
) -> Result<ListOf<InfoText>, Stop>
    requires few { length heads.now < 2 ^ 32 }
    requires short { (i : ℕ) → IsSome (info_in heads.now i) → IsShortAt heads.now i }
    requires count { length heads.now ≡ count_of (S.content source.old) }
    requires heads { When (S.content source.old) (λ t. heads.now ≡ heads_of t) }
    ensures same { S.content source.new ≡ S.content source.old }
    ensures plan { S.plan source.new ≡ S.plan source.old }
    ensures given { WhereTold (OnlyInfos heads.now) (S.given source.old) (S.given source.new) }
    ensures stops { Stops (S.faults source.old) result (S.faults source.new) }
    ensures texts { IfOk result (λ infos. When (S.content source.old) (λ t. AreInfos t infos)) }
{
    let mut infos = ListOf::new(alloc);
    for i in 0..heads.len() as u32 {
        if let Some(info) = read_info(alloc, source, heads, i)? {
            infos.push(info)?;
        }
    }
    Ok(infos)
}

/// The texts but the manifest.
pub(crate) fn read_texts<S: Source>(
    alloc: Global,
    source: &mut S,
    heads: &[Head],
    places: Places,
) -> Result<Kept, Stop>
    requires few { length heads.now < 2 ^ 32 }
    requires short { AreIn heads.now places }
    requires count { length heads.now ≡ count_of (S.content source.old) }
    requires heads { When (S.content source.old) (λ t. heads.now ≡ heads_of t) }
    ensures same { S.content source.new ≡ S.content source.old }
    ensures plan { S.plan source.new ≡ S.plan source.old }
    ensures given { WhereTold (NoneBut heads.now places) (S.given source.old) (S.given source.new) }
    ensures stops { Stops (S.faults source.old) result (S.faults source.new) }
    ensures places { IfOk result (λ kept. kept.places ≡ places) }
    ensures texts { IfOk result (λ kept. When (S.content source.old) (λ t. IsKept t kept)) }
{
    let version = read_file(alloc, source, heads, places.version)?;
    let header_info = read_file(alloc, source, heads, places.header_info)?;
    let type_infos = read_infos(alloc, source, heads)?;
    Ok(Kept {
        places,
        version,
        header_info,
        type_infos,
    })
}

impl Kept {
    /// The bytes of a file, where they are kept.
    pub(crate) fn text_of(&self, i: u32) -> Option<&[u8]>
        ensures { IfSome result (λ text. (t : Tree) → IsKept t self.now → text.now ≡ bytes_at t i) }
    {
        if i == self.places.version {
            return Some(self.version.as_slice());
        }
        if i == self.places.header_info {
            return Some(self.header_info.as_slice());
        }
        for info in self.type_infos.as_slice() {
            if i == info.number {
                return Some(info.text.as_slice());
            }
        }
        None
    }
}

fn least(left: u64, room: usize) -> usize
    requires { 0 < left }
    ensures most { result ≤ left }
    ensures fits { result ≤ room }
    ensures some { 0 < room → 0 < result }
{
    if left < room as u64 {
        left as usize
    } else {
        room
    }
}

/// One more piece of a file, into the sum.
fn sum_piece<S: Source>(
    source: &mut S,
    i: u32,
    at: u64,
    left: u64,
    summing: &mut Summing,
    buffer: &mut [u8],
) -> Result<usize, SourceFault>
    requires file { i < count_of (S.content source.old) }
    requires room { 0 < length buffer.old }
    requires left { 0 < left }
    requires part { When (S.content source.old) (λ t. at + left ≤ length (bytes_at t i)) }
    ensures same { S.content source.new ≡ S.content source.old }
    ensures plan { S.plan source.new ≡ S.plan source.old }
    ensures given { ReadsPiece i result (S.given source.old) (S.given source.new) }
    ensures counts { Counts (S.faults source.old) result (S.faults source.new) }
    ensures some { IfOk result (λ n. 0 < n) }
    ensures most { IfOk result (λ n. n ≤ left) }
    ensures next { IfOk result (λ n. When (S.content source.old) (λ t. Has summing.old (take at (bytes_at t i))) → When (S.content source.old) (λ t. Has summing.new (take (at + n) (bytes_at t i)))) }
{
    let want = least(left, buffer.len());
    let n = source.read(i, at, &mut buffer[..want])?;
    summing.piece(&buffer[..n]);
    Ok(n)
}

/// The sum of a file, read in pieces.
#[tactic(auto, using(io_model::proofs::Readings::given_none, io_model::proofs::Readings::given_more, io_model::proofs::Readings::gave_nothing, io_model::proofs::Readings::gave_of, io_model::proofs::Readings::none_at_all))]
pub(crate) fn sum_file<S: Source>(
    source: &mut S,
    i: u32,
    buffer: &mut [u8],
) -> Result<Sum, SourceFault>
    requires file { i < count_of (S.content source.old) }
    requires room { 0 < length buffer.old }
    ensures same { S.content source.new ≡ S.content source.old }
    ensures plan { S.plan source.new ≡ S.plan source.old }
    ensures given { ReadsFile (S.content source.old) i result (S.given source.old) (S.given source.new) }
    ensures counts { Counts (S.faults source.old) result (S.faults source.new) }
    ensures sum { IfOk result (λ sum. When (S.content source.old) (λ t. sum ≡ sha256 (bytes_at t i))) }
{
    let size = match source.length(i) {
        Ok(size) => size,
        Err(SourceFault) => return Err(SourceFault),
    };
    let mut summing = Summing::new();
    let mut at: u64 = 0;
    while at < size {
        match sum_piece(source, i, at, size - at, &mut summing, buffer) {
            Ok(n) => at += n as u64,
            Err(SourceFault) => return Err(SourceFault),
        }
    }
    Ok(summing.finish())
}

/// The sum of a text that was read.
pub(crate) fn sum_text(text: &[u8]) -> Sum
    ensures { result ≡ sha256 text.now }
{
    let mut summing = Summing::new();
    summing.piece(text);
    summing.finish()
}

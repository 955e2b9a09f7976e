//! The sums of files against those that the manifest lists.

ghost use Rattle.std.specs.Prelude.{◌≡◌, ◌<◌, ◌∷◌, [], true, length, IfOk, IfErr, IfSome, All, option_map};
ghost use Rattle.std.specs.List.{zip};
ghost use Rattle.std.specs.Result.{is_ok};
ghost use Rattle.sha2.specs.Sha256.{sha256};
ghost use Rattle.upd_text.specs.Told.{WhereTold};
ghost use Rattle.io_model.specs.Source.{count_of, bytes_at, Counts, When};
ghost use Rattle.io_model.specs.Reading.{OnlyOf, AreRead};
ghost use Rattle.admit.specs.Kept.{IsKept};
ghost use Rattle.admit.specs.IsOf.{IsOf};
ghost use Rattle.admit.specs.Answers.{Counted, Gives, IsRead, Finds, IfDiffers, faults_after};
ghost use Rattle.admit.specs.Table.{unless};
ghost use Rattle.admit.specs.Given.{ReadsPayloads, SparesTheRest, NoneButThese, went_through};
ghost use Rattle.admit.specs.Differing.{Listed, listed_of, in_payload, in_rest, differing, differing_in, first_differing, picked, IsDiffering, IsDifferingIn};
ghost use Rattle.admit.specs.declared.refusal.Refusal.TheVariants.{SumDiffers};

use crate::admitted::Admitted;
use crate::place::place_of;
use crate::reading::{Kept, sum_file, sum_text, zeros};
use crate::refusal::{AdmitFault, Differs, Refusal};
use io_model::{Source, SourceFault};
use manifest_sums::{Line, Sum};
use std::alloc::Global;

/// Why the sums of the payloads aren't right.
#[derive(Drop)]
pub enum PayloadFault {
    /// A call of the source failed.
    Source,
    /// The first file of a payload, in the manifest's order, whose sum isn't the listed one.
    Differs(Differs),
}

fn in_payload(line: &Line) -> bool
    ensures { result ≡ in_payload line.now.path }
{
    place_of(&line.path).is_payload()
}

fn differing(line: &Line, found: Sum) -> Option<Differs>
    ensures { result ≡ differing line.now found }
{
    if line.sum.is(&found) {
        return None;
    }
    Some(Differs {
        path: line.path.twin(),
        listed: line.sum.twin(),
        found,
    })
}

// ---- the rest

/// The sum of a file: of the text that was kept, or read in pieces.
fn sum_of<S: Source>(
    source: &mut S,
    n: u32,
    kept: &Kept,
    buffer: &mut [u8],
) -> Result<Sum, SourceFault>
    requires file { n < count_of (S.content source.old) }
    requires room { 0 < length buffer.old }
    requires kept { When (S.content source.old) (λ t. IsKept t kept.now) }
    ensures same { S.content source.new ≡ S.content source.old }
    ensures plan { S.plan source.new ≡ S.plan source.old }
    ensures given { WhereTold (OnlyOf n) (S.given source.old) (S.given source.new) }
    ensures counts { Counts (S.faults source.old) result (S.faults source.new) }
    ensures sum { IfOk result (λ sum. When (S.content source.old) (λ t. sum ≡ sha256 (bytes_at t n))) }
{
    if let Some(text) = kept.text_of(n) {
        return Ok(sum_text(text));
    }
    sum_file(source, n, buffer)
}

fn rest_differing<S: Source>(
    source: &mut S,
    line: &Line,
    n: u32,
    kept: &Kept,
    buffer: &mut [u8],
) -> Result<Option<Differs>, SourceFault>
    requires file { n < count_of (S.content source.old) }
    requires room { 0 < length buffer.old }
    requires kept { When (S.content source.old) (λ t. IsKept t kept.now) }
    ensures same { S.content source.new ≡ S.content source.old }
    ensures plan { S.plan source.new ≡ S.plan source.old }
    ensures given { WhereTold (NoneButThese (picked in_rest ((line.now, n) ∷ []))) (S.given source.old) (S.given source.new) }
    ensures counts { Counts (S.faults source.old) result (S.faults source.new) }
    ensures value { IfOk result (λ d. When (S.content source.old) (λ t. d ≡ differing_in in_rest t (line.now, n))) }
{
    if in_payload(line) {
        return Ok(None);
    }
    let found = sum_of(source, n, kept, buffer)?;
    Ok(differing(line, found))
}

/// The first line outside the payloads whose sum isn't that of its file.
fn first_of_rest<S: Source>(
    source: &mut S,
    lines: &[Line],
    numbers: &[u32],
    kept: &Kept,
    buffer: &mut [u8],
) -> Result<Option<Differs>, SourceFault>
    requires count { length numbers.now ≡ length lines.now }
    requires files { All (λ n. n < count_of (S.content source.old)) numbers.now }
    requires room { 0 < length buffer.old }
    requires kept { When (S.content source.old) (λ t. IsKept t kept.now) }
    ensures same { S.content source.new ≡ S.content source.old }
    ensures plan { S.plan source.new ≡ S.plan source.old }
    ensures given { WhereTold (NoneButThese (picked in_rest (zip lines.now numbers.now))) (S.given source.old) (S.given source.new) }
    ensures counts { Counts (S.faults source.old) result (S.faults source.new) }
    ensures value { IfOk result (λ d. When (S.content source.old) (λ t. d ≡ first_differing in_rest t (zip lines.now numbers.now))) }
{
    for (i, line) in lines.iter().enumerate() {
        match rest_differing(source, line, numbers[i], kept, buffer) {
            Ok(None) => {}
            Ok(Some(differs)) => return Ok(Some(differs)),
            Err(SourceFault) => return Err(SourceFault),
        }
    }
    Ok(None)
}

/// The sums outside the payloads are those of the files.
pub(crate) fn check_rest<S: Source>(
    alloc: Global,
    source: &mut S,
    lines: &[Line],
    numbers: &[u32],
    kept: &Kept,
) -> Result<(), AdmitFault>
    requires count { length numbers.now ≡ length lines.now }
    requires files { All (λ n. n < count_of (S.content source.old)) numbers.now }
    requires kept { When (S.content source.old) (λ t. IsKept t kept.now) }
    ensures same { S.content source.new ≡ S.content source.old }
    ensures plan { S.plan source.new ≡ S.plan source.old }
    ensures given { WhereTold (NoneButThese (picked in_rest (zip lines.now numbers.now))) (S.given source.old) (S.given source.new) }
    ensures counts { Counted (S.faults source.old) result (S.faults source.new) }
    ensures cause { IfErr result IsRead }
    ensures told { When (S.content source.old) (λ t. Gives result (unless (option_map SumDiffers (first_differing in_rest t (zip lines.now numbers.now))))) }
{
    let Ok(mut buffer) = zeros(alloc, 65_536) else {
        return Err(AdmitFault::Memory);
    };
    match first_of_rest(source, lines, numbers, kept, buffer.as_mut_slice())? {
        None => Ok(()),
        Some(differs) => Err(AdmitFault::Refused(Refusal::SumDiffers(differs))),
    }
}

// ---- the payloads

fn payload_differing<S: Source>(
    source: &mut S,
    line: &Line,
    n: u32,
    buffer: &mut [u8],
) -> Result<Option<Differs>, SourceFault>
    requires file { n < count_of (S.content source.old) }
    requires room { 0 < length buffer.old }
    ensures same { S.content source.new ≡ S.content source.old }
    ensures plan { S.plan source.new ≡ S.plan source.old }
    ensures given { When (S.content source.old) (λ t. WhereTold (AreRead (is_ok result) t (picked in_payload ((line.now, n) ∷ []))) (S.given source.old) (S.given source.new)) }
    ensures counts { Counts (S.faults source.old) result (S.faults source.new) }
    ensures differs { IfOk result (λ d. IfSome d (λ d. (in_payload line.now.path ≡ true) × IsDiffering (S.content source.old) (line.now, n) d)) }
    ensures value { IfOk result (λ d. When (S.content source.old) (λ t. d ≡ differing_in in_payload t (line.now, n))) }
{
    if !in_payload(line) {
        return Ok(None);
    }
    let found = sum_file(source, n, buffer)?;
    Ok(differing(line, found))
}

/// The first line of a payload's file whose sum isn't that of the file.
fn first_of_payloads<S: Source>(
    source: &mut S,
    lines: &[Line],
    numbers: &[u32],
    buffer: &mut [u8],
) -> Result<Option<Differs>, SourceFault>
    requires count { length numbers.now ≡ length lines.now }
    requires files { All (λ n. n < count_of (S.content source.old)) numbers.now }
    requires room { 0 < length buffer.old }
    ensures same { S.content source.new ≡ S.content source.old }
    ensures plan { S.plan source.new ≡ S.plan source.old }
    ensures given { When (S.content source.old) (λ t. WhereTold (AreRead (went_through result) t (picked in_payload (zip lines.now numbers.now))) (S.given source.old) (S.given source.new)) }
    ensures counts { Counts (S.faults source.old) result (S.faults source.new) }
    ensures differs { IfOk result (λ d. IfSome d (IsDifferingIn in_payload (S.content source.old) (zip lines.now numbers.now))) }
    ensures value { IfOk result (λ d. When (S.content source.old) (λ t. d ≡ first_differing in_payload t (zip lines.now numbers.now))) }
{
    for (i, line) in lines.iter().enumerate() {
        match payload_differing(source, line, numbers[i], buffer) {
            Ok(None) => {}
            Ok(Some(differs)) => return Ok(Some(differs)),
            Err(SourceFault) => return Err(SourceFault),
        }
    }
    Ok(None)
}

/// Reads the payloads' files, in the manifest's order and in pieces of the buffer, and compares
/// their sums with the listed ones. Conditions: the buffer isn't empty, and `admitted` is of this
/// source. Each file is read once, up to the first that differs. It takes no memory.
pub fn sum_payloads<S: Source>(
    source: &mut S,
    admitted: &Admitted,
    buffer: &mut [u8],
) -> Result<(), PayloadFault>
    requires of_source { IsOf (S.content source.old) admitted.now }
    requires room { 0 < length buffer.old }
    ensures same { S.content source.new ≡ S.content source.old }
    ensures plan { S.plan source.new ≡ S.plan source.old }

    // what was read, where the files and the numbers are told
    ensures payloads { When (S.content source.old) (λ t. ReadsPayloads (is_ok result) t (S.given source.old) (S.given source.new)) }
    ensures rest { When (S.content source.old) (λ t. SparesTheRest t (S.given source.old) (S.given source.new)) }

    // the answer
    ensures counts { S.faults source.new ≡ faults_after result (S.faults source.old) }
    ensures told { When (S.content source.old) (λ t. Finds result (first_differing in_payload t (listed_of admitted.now))) }
    ensures differs { IfDiffers result (IsDifferingIn in_payload (S.content source.old) (listed_of admitted.now)) }
{
    let lines = admitted.manifest.lines();
    let numbers = admitted.numbers.as_slice();
    match first_of_payloads(source, lines, numbers, buffer) {
        Ok(None) => Ok(()),
        Ok(Some(differs)) => Err(PayloadFault::Differs(differs)),
        Err(SourceFault) => Err(PayloadFault::Source),
    }
}

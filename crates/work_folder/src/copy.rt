//! Copying the files of the source.

ghost use Rattle.std.specs.Prelude.{◌≡◌, ◌<◌, ◌≤◌, ◌∷◌, [], length, option_map, IfOk, IfErr, OnOk, OnErr};
ghost use Rattle.io_model.specs.Source.{count_of, gave, InFile, IsLength};
ghost use Rattle.io_model.specs.Reading.{Gave, IsAtMost};
ghost use Rattle.work_folder.specs.Rows.{Copy};
ghost use Rattle.work_folder.specs.Prepare.{IsReady, Touches, NeverDiffers, GaveFrom, CopiesAll, CopiesSome, prepare_how, source_after};
ghost use Rattle.work_folder.specs.Adding.{Adds, CopiesPiece, Copies};

use crate::append::append;
use crate::fault::PrepareFault;
use admit::Differs;
use device_model::{Device, Part};
use io_model::{Source, SourceFault};
use manifest_sums::{Line, Sum, Summing};
use upd_text::Name;

/// Copies the next bytes of a file, as many as `into` takes or fewer.
fn copy_piece<D: Device, S: Source>(
    device: &mut D,
    source: &mut S,
    part: Part,
    path: &Name,
    i: u32,
    at: u64,
    into: &mut [u8],
    summing: &mut Summing,
) -> Result<usize, PrepareFault>
    requires ready { IsReady (D.means device.old) }
    requires file { i < count_of (S.content source.old) }
    requires some { 0 < length into.old }
    requires inside { InFile (S.content source.old) i at (length into.old) }
    ensures plan { D.plan device.new ≡ D.plan device.old }
    ensures source_plan { S.plan source.new ≡ S.plan source.old }
    ensures same { S.content source.new ≡ S.content source.old }
    ensures given { IfOk result (λ n. S.given source.new ≡ option_map (gave i n) (S.given source.old)) }
    ensures stopped { OnErr result (GaveFrom (S.content source.old) i at (S.given source.old) (S.given source.new)) }
    ensures counts { S.faults source.new ≡ source_after result (S.faults source.old) }
    ensures touches { Touches (prepare_how result) (D.means device.old) (D.means device.new) }
    ensures ready { OnOk result (IsReady (D.means device.new)) }
    ensures differs { NeverDiffers result }
    ensures some { IfOk result (λ n. 0 < n) }
    ensures most { IfOk result (λ n. n ≤ length into.old) }
    ensures piece { IfOk result (λ n. CopiesPiece part path.now (S.content source.old) i at n (D.means device.old) (D.means device.new) summing.old summing.new) }
{
    let count = match source.read(i, at, into) {
        Ok(count) => count,
        Err(SourceFault) => return Err(PrepareFault::SourceFault),
    };
    match append(device, part, path, &into[..count]) {
        Ok(()) => {}
        Err(fault) => return Err(fault),
    }
    summing.piece(&into[..count]);
    Ok(count)
}

/// Copies a file, and answers its sum.
#[tactic(auto, using(crate::proofs::Steps::touches_then, io_model::proofs::Readings::given_none, io_model::proofs::Readings::gave_of, io_model::proofs::Readings::gave_nothing, io_model::proofs::Readings::none_at_all))]
pub(crate) fn copy_file<D: Device, S: Source>(
    device: &mut D,
    source: &mut S,
    part: Part,
    path: &Name,
    i: u32,
    buffer: &mut [u8],
) -> Result<Sum, PrepareFault>
    requires ready { IsReady (D.means device.old) }
    requires file { i < count_of (S.content source.old) }
    requires some { 0 < length buffer.old }
    ensures plan { D.plan device.new ≡ D.plan device.old }
    ensures source_plan { S.plan source.new ≡ S.plan source.old }
    ensures same { S.content source.new ≡ S.content source.old }
    ensures counts { S.faults source.new ≡ source_after result (S.faults source.old) }
    ensures touches { Touches (prepare_how result) (D.means device.old) (D.means device.new) }
    ensures ready { OnOk result (IsReady (D.means device.new)) }
    ensures given { OnOk result (Gave i (IsLength (S.content source.old) i) (S.given source.old) (S.given source.new)) }
    ensures stopped { OnErr result (Gave i (IsAtMost (S.content source.old) i) (S.given source.old) (S.given source.new)) }
    ensures differs { NeverDiffers result }
    ensures file { IfOk result (λ sum. Copies part path.now (S.content source.old) i (D.means device.old) (D.means device.new) sum) }
{
    append(device, part, path, &[])?;
    let size = match source.length(i) {
        Ok(size) => size,
        Err(SourceFault) => return Err(PrepareFault::SourceFault),
    };
    let mut summing = Summing::new();
    let mut at: u64 = 0;
    'pieces: while at < size {
        let count = u64::min(size - at, buffer.len() as u64) as usize;
        match copy_piece(
            device,
            source,
            part,
            path,
            i,
            at,
            &mut buffer[..count],
            &mut summing,
        ) {
            Ok(n) => at += n as u64,
            Err(fault) => return Err(fault),
        }
    }
    Ok(summing.finish())
}

/// Copies the file of a line, which is to have the line's sum.
pub(crate) fn copy_line<D: Device, S: Source>(
    device: &mut D,
    source: &mut S,
    part: Part,
    path: &Name,
    line: &Line,
    n: u32,
    buffer: &mut [u8],
) -> Result<(), PrepareFault>
    requires ready { IsReady (D.means device.old) }
    requires file { n < count_of (S.content source.old) }
    requires some { 0 < length buffer.old }
    ensures plan { D.plan device.new ≡ D.plan device.old }
    ensures source_plan { S.plan source.new ≡ S.plan source.old }
    ensures same { S.content source.new ≡ S.content source.old }
    ensures counts { S.faults source.new ≡ source_after result (S.faults source.old) }
    ensures touches { Touches (prepare_how result) (D.means device.old) (D.means device.new) }
    ensures ready { OnOk result (IsReady (D.means device.new)) }
    ensures copied { OnOk result (CopiesAll (S.content source.old) ((line.now, n) ∷ []) (S.given source.old) (S.given source.new)) }
    ensures stopped { IfErr result (λ fault. CopiesSome (S.content source.old) ((line.now, n) ∷ []) fault (S.given source.old) (S.given source.new)) }
    ensures done { OnOk result (Adds (S.content source.old) (Copy part path.now n line.now.sum ∷ []) (D.means device.old) (D.means device.new)) }
{
    let found = match copy_file(device, source, part, path, n, buffer) {
        Ok(found) => found,
        Err(fault) => return Err(fault),
    };
    if line.sum.is(&found) {
        return Ok(());
    }
    Err(PrepareFault::Differs(Differs {
        path: line.path.twin(),
        listed: line.sum.twin(),
        found,
    }))
}

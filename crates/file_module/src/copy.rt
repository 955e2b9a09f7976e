//! Copying bytes into the fresh content.

ghost use Rattle.std.specs.Prelude.{◌≡◌, ◌≢◌, ◌<◌, ◌≤◌, ◌+◌, true, Some, length, option_map, IfOk, IfErr, OnOk};
ghost use Rattle.io_model.specs.Source.{count_of, InFile};
ghost use Rattle.file_module.specs.Contents.{content, InContent, IsThere, WhenTold};
ghost use Rattle.file_module.specs.Answers.{act_of, IsOfPlace, IsOfWriting, source_after, TouchesFresh};
ghost use Rattle.file_module.specs.Copying.{piece, rest, AddsFresh, CopiesPiece, CopiesFile};

use crate::answer::Stop;
use crate::place::{Place, Slot};
use crate::steps::{append, read};
use io_model::{Source, SourceFault};

/// Copies the next bytes of a slot, as many as `into` takes.
#[tactic(auto, using(crate::proofs::Pieces::piece_of))]
fn copy_piece<P: Place>(place: &mut P, slot: Slot, at: u64, into: &mut [u8]) -> Result<(), Stop>
    requires on { (P.means place.old).on ≡ true }
    requires inside { WhenTold (P.means place.old) (InContent at (length into.old) (content slot (P.means place.old))) }
    requires there { WhenTold (P.means place.old) (IsThere (P.means place.old).fresh) }
    ensures touches { TouchesFresh (act_of result) (P.means place.old) (P.means place.new) }
    ensures cause { IfErr result IsOfPlace }
    ensures same_length { length into.new ≡ length into.old }
    ensures adds { OnOk result (WhenTold (P.means place.old) (AddsFresh (piece at (length into.old) (content slot (P.means place.old))) (P.means place.old) (P.means place.new))) }
{
    read(place, slot, at, into)?;
    append(place, into)
}

/// Copies the bytes of a slot from an offset on, up to its length.
pub(crate) fn copy_slot<P: Place>(
    place: &mut P,
    slot: Slot,
    from: u64,
    size: u64,
    buffer: &mut [u8],
) -> Result<(), Stop>
    requires on { (P.means place.old).on ≡ true }
    requires there { WhenTold (P.means place.old) (IsThere (P.means place.old).fresh) }
    requires other { slot ≢ Slot.Fresh }
    requires size { WhenTold (P.means place.old) (option_map length (content slot (P.means place.old)) ≡ Some size) }
    requires from { from ≤ size }
    requires some { 0 < length buffer.old }
    ensures touches { TouchesFresh (act_of result) (P.means place.old) (P.means place.new) }
    ensures cause { IfErr result IsOfPlace }
    ensures adds { OnOk result (WhenTold (P.means place.old) (AddsFresh (rest from (content slot (P.means place.old))) (P.means place.old) (P.means place.new))) }
    ensures buffer { length buffer.new ≡ length buffer.old }
{
    let mut at = from;
    'pieces: while at < size {
        let count = u64::min(size - at, buffer.len() as u64) as usize;
        copy_piece(place, slot, at, &mut buffer[..count])?;
        at += count as u64;
    }
    Ok(())
}

/// Copies the next bytes of a file of the source, as many as `into` takes or fewer.
#[tactic(auto, using(crate::proofs::Touches::source_kept))]
fn copy_file_piece<S: Source, P: Place>(
    source: &mut S,
    place: &mut P,
    i: u32,
    at: u64,
    into: &mut [u8],
) -> Result<usize, Stop>
    requires on { (P.means place.old).on ≡ true }
    requires there { WhenTold (P.means place.old) (IsThere (P.means place.old).fresh) }
    requires file { i < count_of (S.content source.old) }
    requires some { 0 < length into.old }
    requires inside { InFile (S.content source.old) i at (length into.old) }
    ensures plan { S.plan source.new ≡ S.plan source.old }
    ensures same { S.content source.new ≡ S.content source.old }
    ensures counts { S.faults source.new ≡ source_after (act_of result) (S.faults source.old) }
    ensures touches { TouchesFresh (act_of result) (P.means place.old) (P.means place.new) }
    ensures cause { IfErr result IsOfWriting }
    ensures some { IfOk result (λ n. 0 < n) }
    ensures most { IfOk result (λ n. n ≤ length into.old) }
    ensures piece { IfOk result (λ n. CopiesPiece (S.content source.old) i at n (P.means place.old) (P.means place.new)) }
{
    let count = match source.read(i, at, into) {
        Ok(count) => count,
        Err(SourceFault) => return Err(Stop::SourceFault),
    };
    match append(place, &into[..count]) {
        Ok(()) => Ok(count),
        Err(stop) => Err(stop),
    }
}

/// Copies a file of the source.
pub(crate) fn copy_file<S: Source, P: Place>(
    source: &mut S,
    place: &mut P,
    i: u32,
    buffer: &mut [u8],
) -> Result<(), Stop>
    requires on { (P.means place.old).on ≡ true }
    requires there { WhenTold (P.means place.old) (IsThere (P.means place.old).fresh) }
    requires file { i < count_of (S.content source.old) }
    requires some { 0 < length buffer.old }
    ensures plan { S.plan source.new ≡ S.plan source.old }
    ensures same { S.content source.new ≡ S.content source.old }
    ensures counts { S.faults source.new ≡ source_after (act_of result) (S.faults source.old) }
    ensures touches { TouchesFresh (act_of result) (P.means place.old) (P.means place.new) }
    ensures cause { IfErr result IsOfWriting }
    ensures file { OnOk result (CopiesFile (S.content source.old) i (P.means place.old) (P.means place.new)) }
{
    let size = match source.length(i) {
        Ok(size) => size,
        Err(SourceFault) => return Err(Stop::SourceFault),
    };
    let mut at: u64 = 0;
    'pieces: while at < size {
        let count = u64::min(size - at, buffer.len() as u64) as usize;
        let n = copy_file_piece(source, place, i, at, &mut buffer[..count])?;
        at += n as u64;
    }
    Ok(())
}

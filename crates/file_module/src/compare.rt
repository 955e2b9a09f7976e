//! Whether the target is what is saved.

ghost use Rattle.std.specs.Prelude.{◌≡◌, ◌<◌, ◌-◌, true, Some, length, option_map, IfErr, IfOk, OnOk};
ghost use Rattle.file_module.specs.Contents.{InContent, WhenTold};
ghost use Rattle.file_module.specs.Copying.{IsBack, IsSamePiece, Tells};
ghost use Rattle.file_module.specs.Answers.{act_of, IsOfPlace, Untouched};

use crate::answer::Stop;
use crate::place::{Place, Slot};
use crate::steps::{length, read};

/// How many bytes are compared at once, at the most.
const PIECE: usize = 4_096;

/// Whether the next bytes of what is saved, as many as `into` takes, are those that stand in the target one byte before.
#[tactic(auto, using(crate::proofs::Comparing::pieces_same, crate::proofs::Comparing::pieces_differ))]
fn is_same_piece<P: Place>(
    place: &mut P,
    at: u64,
    into: &mut [u8],
    beside: &mut [u8],
) -> Result<bool, Stop>
    requires on { (P.means place.old).on ≡ true }
    requires past { 0 < at }
    requires saved { WhenTold (P.means place.old) (InContent at (length into.old) (P.means place.old).saved) }
    requires target { WhenTold (P.means place.old) (InContent (at - 1) (length into.old) (P.means place.old).target) }
    requires beside { length beside.old ≡ length into.old }
    ensures untouched { Untouched (act_of result) (P.means place.old) (P.means place.new) }
    ensures cause { IfErr result IsOfPlace }
    ensures into { length into.new ≡ length into.old }
    ensures beside { length beside.new ≡ length beside.old }
    ensures same { IfOk result (λ same. WhenTold (P.means place.old) (Tells same (IsSamePiece at (length into.old) (P.means place.old)))) }
{
    read(place, Slot::Saved, at, into)?;
    read(place, Slot::Target, at - 1, beside)?;
    Ok(&*into == &*beside)
}

/// Whether the target has the bytes that are saved, behind the first one. Condition: it has as many.
#[tactic(auto, using(crate::proofs::Comparing::compared_all, crate::proofs::Comparing::differs))]
fn has_saved_bytes<P: Place>(place: &mut P, size: u64, buffer: &mut [u8]) -> Result<bool, Stop>
    requires on { (P.means place.old).on ≡ true }
    requires size { WhenTold (P.means place.old) (option_map length (P.means place.old).saved ≡ Some size) }
    requires target { WhenTold (P.means place.old) (option_map length (P.means place.old).target ≡ Some (size - 1)) }
    requires head { 0 < size }
    requires some { 0 < length buffer.old }
    ensures untouched { Untouched (act_of result) (P.means place.old) (P.means place.new) }
    ensures cause { IfErr result IsOfPlace }
    ensures buffer { length buffer.new ≡ length buffer.old }
    ensures same { IfOk result (λ same. WhenTold (P.means place.old) (Tells same (IsBack (P.means place.old)))) }
{
    let mut beside = [0u8; PIECE];
    let mut at: u64 = 1;
    'pieces: while at < size {
        let most = usize::min(buffer.len(), PIECE);
        let count = u64::min(size - at, most as u64) as usize;
        if !is_same_piece(place, at, &mut buffer[..count], &mut beside[..count])? {
            return Ok(false);
        }
        at += count as u64;
    }
    Ok(true)
}

/// Whether the target is what is saved, behind the first byte. It fails where something else than a file stands there.
#[tactic(auto, using(crate::proofs::Comparing::other_length))]
pub(crate) fn is_back<P: Place>(place: &mut P, size: u64, buffer: &mut [u8]) -> Result<bool, Stop>
    requires on { (P.means place.old).on ≡ true }
    requires size { WhenTold (P.means place.old) (option_map length (P.means place.old).saved ≡ Some size) }
    requires head { 0 < size }
    requires some { 0 < length buffer.old }
    ensures untouched { Untouched (act_of result) (P.means place.old) (P.means place.new) }
    ensures cause { IfErr result IsOfPlace }
    ensures buffer { length buffer.new ≡ length buffer.old }
    ensures regular { OnOk result (WhenTold (P.means place.old) ((P.means place.old).regular ≡ true)) }
    ensures same { IfOk result (λ same. WhenTold (P.means place.old) (Tells same (IsBack (P.means place.old)))) }
{
    match length(place, Slot::Target)? {
        Some(count) if count == size - 1 => has_saved_bytes(place, size, buffer),
        _ => Ok(false),
    }
}

//! What the module does at each word.

ghost use Rattle.std.specs.Prelude.{◌≡◌, ◌<◌, true, Some, length, option_map, IfErr, IfOk, OnOk};
ghost use Rattle.file_module.specs.Answers.{act_of, source_after, IsOfPlace, TouchesFresh, Untouched};
ghost use Rattle.file_module.specs.Contents.{WhenTold};
ghost use Rattle.file_module.specs.Saved.{head_of, HasHead};
ghost use Rattle.file_module.specs.FileActs.{Clears, Downloads, Installs, RollsBack};

use crate::answer::Stop;
use crate::payload::find_payload;
use crate::place::{Place, Slot};
use crate::steps::{length, read, remove_fresh, remove_saved};
use crate::write::{give_absence, give_back, save_once, take_payload};
use io_model::Source;

/// Removes what is saved and what is being written.
#[tactic(auto, using(crate::proofs::Obeyed::clears_both, crate::proofs::Obeyed::stops_clearing))]
pub(crate) fn clear<P: Place>(place: &mut P) -> Result<(), Stop>
    requires { (P.means place.old).on ≡ true }
    ensures clears { Clears (act_of result) (P.means place.old) (P.means place.new) }
    ensures cause { IfErr result IsOfPlace }
{
    remove_saved(place)?;
    remove_fresh(place)?;
    Ok(())
}

/// Sees that the target is a file or absent.
fn look<P: Place>(place: &mut P) -> Result<(), Stop>
    requires { (P.means place.old).on ≡ true }
    ensures touches { TouchesFresh (act_of result) (P.means place.old) (P.means place.new) }
    ensures cause { IfErr result IsOfPlace }
    ensures same { OnOk result (P.means place.new ≡ P.means place.old) }
    ensures untouched { Untouched (act_of result) (P.means place.old) (P.means place.new) }
    ensures regular { OnOk result (WhenTold (P.means place.old) ((P.means place.old).regular ≡ true)) }
{
    length(place, Slot::Target)?;
    Ok(())
}

/// Sees that there is one payload file and that the target is a file or absent, and forgets what an earlier deployment saved.
#[tactic(auto, using(crate::proofs::Touches::source_kept, crate::proofs::Obeyed::downloads_none, crate::proofs::Obeyed::downloads_found, crate::proofs::Obeyed::downloads_unseen, crate::proofs::Obeyed::downloads_cut))]
pub(crate) fn download<S: Source, P: Place>(source: &mut S, place: &mut P) -> Result<(), Stop>
    requires { (P.means place.old).on ≡ true }
    ensures plan { S.plan source.new ≡ S.plan source.old }
    ensures same { S.content source.new ≡ S.content source.old }
    ensures counts { S.faults source.new ≡ source_after (act_of result) (S.faults source.old) }
    ensures downloads { Downloads (S.content source.old) (act_of result) (P.means place.old) (P.means place.new) }
{
    find_payload(source)?;
    look(place)?;
    clear(place)?;
    Ok(())
}

/// Saves the target where nothing is saved, and makes it the payload. What is neither a file nor absent is left as it is.
#[tactic(auto, using(crate::proofs::Touches::source_kept, crate::proofs::Obeyed::installs_none, crate::proofs::Obeyed::installs_unseen, crate::proofs::Obeyed::installs_cut, crate::proofs::Obeyed::installs_done, crate::proofs::Obeyed::installs_stopped))]
pub(crate) fn install<S: Source, P: Place>(
    source: &mut S,
    place: &mut P,
    buffer: &mut [u8],
) -> Result<(), Stop>
    requires on { (P.means place.old).on ≡ true }
    requires some { 0 < length buffer.old }
    ensures plan { S.plan source.new ≡ S.plan source.old }
    ensures same { S.content source.new ≡ S.content source.old }
    ensures counts { S.faults source.new ≡ source_after (act_of result) (S.faults source.old) }
    ensures installs { Installs (S.content source.old) (act_of result) (P.means place.old) (P.means place.new) }
{
    let i = find_payload(source)?;
    look(place)?;
    save_once(place, buffer)?;
    take_payload(source, place, i, buffer)?;
    Ok(())
}

/// The first byte of what is saved. Condition: there is one.
#[tactic(auto, using(crate::proofs::Obeyed::head_inside, crate::proofs::Obeyed::head_read))]
fn saved_head<P: Place>(place: &mut P) -> Result<u8, Stop>
    requires on { (P.means place.old).on ≡ true }
    requires some { WhenTold (P.means place.old) (HasHead (P.means place.old).saved) }
    ensures touches { TouchesFresh (act_of result) (P.means place.old) (P.means place.new) }
    ensures same { OnOk result (P.means place.new ≡ P.means place.old) }
    ensures untouched { Untouched (act_of result) (P.means place.old) (P.means place.new) }
    ensures head { IfOk result (λ head. WhenTold (P.means place.old) (Some head ≡ head_of (P.means place.old).saved)) }
    ensures cause { IfErr result IsOfPlace }
{
    let mut head = [0u8; 1];
    read(place, Slot::Saved, 0, &mut head)?;
    Ok(head[0])
}

/// Makes the target what is saved in so many bytes.
#[tactic(auto, using(crate::proofs::Obeyed::has_head, crate::proofs::Obeyed::head_zero, crate::proofs::Obeyed::head_one, crate::proofs::Obeyed::head_low, crate::proofs::Obeyed::head_high, crate::proofs::Obeyed::rolls_bad, crate::proofs::Obeyed::rolls_cut, crate::proofs::Obeyed::rolls_done, crate::proofs::Obeyed::rolls_stopped))]
fn restore<P: Place>(place: &mut P, size: u64, buffer: &mut [u8]) -> Result<(), Stop>
    requires on { (P.means place.old).on ≡ true }
    requires size { WhenTold (P.means place.old) (option_map length (P.means place.old).saved ≡ Some size) }
    requires head { 0 < size }
    requires some { 0 < length buffer.old }
    ensures rolls_back { RollsBack (act_of result) (P.means place.old) (P.means place.new) }
{
    match saved_head(place)? {
        0 => give_absence(place)?,
        1 => give_back(place, size, buffer)?,
        _ => return Err(Stop::BadSaved),
    }
    Ok(())
}

/// Makes the target what was saved, where something is and it isn't that already.
#[tactic(auto, using(crate::proofs::Obeyed::empty_bad, crate::proofs::Obeyed::rolls_none, crate::proofs::Obeyed::rolls_bad, crate::proofs::Obeyed::rolls_cut))]
pub(crate) fn roll_back<P: Place>(place: &mut P, buffer: &mut [u8]) -> Result<(), Stop>
    requires on { (P.means place.old).on ≡ true }
    requires some { 0 < length buffer.old }
    ensures rolls_back { RollsBack (act_of result) (P.means place.old) (P.means place.new) }
{
    match length(place, Slot::Saved)? {
        None => Ok(()),
        Some(0) => Err(Stop::BadSaved),
        Some(size) => restore(place, size, buffer),
    }
}

//! Writing a new content, and putting it in the place of another.

ghost use Rattle.std.specs.Prelude.{◌≡◌, ◌<◌, ◌∷◌, [], true, Some, None, length, IfErr, OnOk};
ghost use Rattle.std.specs.Prelude.{option_map};
ghost use Rattle.file_module.specs.Contents.{WhenTold};
ghost use Rattle.io_model.specs.Source.{count_of, bytes_at};
ghost use Rattle.file_module.specs.Answers.{act_of, source_after, Counts, IsOfPlace, IsOfWriting, TouchesFresh, SetsTarget, SetsSaved, Replaces, GivesBack};
ghost use Rattle.file_module.specs.Copying.{rest, HoldsFile};
ghost use Rattle.file_module.specs.Payload.{When, IsPayload, payloads};
ghost use Rattle.file_module.specs.Saved.{spelling, saved_after};

use crate::answer::Stop;
use crate::compare::is_back;
use crate::copy::{copy_file, copy_slot};
use crate::place::{Place, Slot};
use crate::steps::{append, length, move_to_saved, move_to_target, remove_target, settle, start};
use io_model::Source;

/// Begins the fresh content with this byte.
#[tactic(auto, using(crate::proofs::Touches::touches_then))]
fn start_with<P: Place>(place: &mut P, head: u8) -> Result<(), Stop>
    requires { (P.means place.old).on ≡ true }
    ensures touches { TouchesFresh (act_of result) (P.means place.old) (P.means place.new) }
    ensures cause { IfErr result IsOfPlace }
    ensures fresh { OnOk result (WhenTold (P.means place.old) ((P.means place.new).fresh ≡ Some (head ∷ []))) }
{
    start(place)?;
    append(place, &[head])
}

/// Spells the target into the fresh content.
#[tactic(auto, using(crate::proofs::Touches::touches_then))]
fn write_spelling<P: Place>(place: &mut P, buffer: &mut [u8]) -> Result<(), Stop>
    requires on { (P.means place.old).on ≡ true }
    requires some { 0 < length buffer.old }
    ensures touches { TouchesFresh (act_of result) (P.means place.old) (P.means place.new) }
    ensures cause { IfErr result IsOfPlace }
    ensures fresh { OnOk result (WhenTold (P.means place.old) ((P.means place.new).fresh ≡ Some (spelling (P.means place.old).target))) }
    ensures buffer { length buffer.new ≡ length buffer.old }
{
    match length(place, Slot::Target)? {
        None => start_with(place, 0),
        Some(size) => {
            start_with(place, 1)?;
            copy_slot(place, Slot::Target, 0, size, buffer)
        }
    }
}

/// Saves the target for a rollback.
#[tactic(auto, using(crate::proofs::Touches::sets_saved_then))]
fn save<P: Place>(place: &mut P, buffer: &mut [u8]) -> Result<(), Stop>
    requires on { (P.means place.old).on ≡ true }
    requires some { 0 < length buffer.old }
    ensures counts { Counts (act_of result) (P.means place.old) (P.means place.new) }
    ensures sets { WhenTold (P.means place.old) (SetsSaved (act_of result) (Some (spelling (P.means place.old).target)) (P.means place.old) (P.means place.new)) }
    ensures cause { IfErr result IsOfPlace }
    ensures buffer { length buffer.new ≡ length buffer.old }
{
    write_spelling(place, buffer)?;
    settle(place)?;
    move_to_saved(place)
}

/// Saves the target where nothing is saved.
pub(crate) fn save_once<P: Place>(place: &mut P, buffer: &mut [u8]) -> Result<(), Stop>
    requires on { (P.means place.old).on ≡ true }
    requires some { 0 < length buffer.old }
    ensures counts { Counts (act_of result) (P.means place.old) (P.means place.new) }
    ensures sets { WhenTold (P.means place.old) (SetsSaved (act_of result) (saved_after (P.means place.old).saved (P.means place.old).target) (P.means place.old) (P.means place.new)) }
    ensures cause { IfErr result IsOfPlace }
    ensures buffer { length buffer.new ≡ length buffer.old }
{
    match length(place, Slot::Saved)? {
        None => save(place, buffer),
        Some(_) => Ok(()),
    }
}

/// Makes the target what is saved, behind its first byte.
fn bring_back<P: Place>(place: &mut P, size: u64, buffer: &mut [u8]) -> Result<(), Stop>
    requires on { (P.means place.old).on ≡ true }
    requires size { WhenTold (P.means place.old) (option_map length (P.means place.old).saved ≡ Some size) }
    requires head { 0 < size }
    requires some { 0 < length buffer.old }
    ensures counts { Counts (act_of result) (P.means place.old) (P.means place.new) }
    ensures saved { (P.means place.new).saved ≡ (P.means place.old).saved }
    ensures sets { WhenTold (P.means place.old) (SetsTarget (act_of result) (Some (rest 1 (P.means place.old).saved)) (P.means place.old) (P.means place.new)) }
    ensures cause { IfErr result IsOfPlace }
{
    start(place)?;
    copy_slot(place, Slot::Saved, 1, size, buffer)?;
    settle(place)?;
    move_to_target(place)
}

/// Makes the target what is saved, behind its first byte, where it isn't that already.
#[tactic(auto, using(crate::proofs::Restoring::gives_none, crate::proofs::Restoring::gives_anew, crate::proofs::Restoring::gives_cut))]
pub(crate) fn give_back<P: Place>(place: &mut P, size: u64, buffer: &mut [u8]) -> Result<(), Stop>
    requires on { (P.means place.old).on ≡ true }
    requires size { WhenTold (P.means place.old) (option_map length (P.means place.old).saved ≡ Some size) }
    requires head { 0 < size }
    requires some { 0 < length buffer.old }
    ensures counts { Counts (act_of result) (P.means place.old) (P.means place.new) }
    ensures saved { (P.means place.new).saved ≡ (P.means place.old).saved }
    ensures gives { WhenTold (P.means place.old) (GivesBack (act_of result) (Some (rest 1 (P.means place.old).saved)) (P.means place.old) (P.means place.new)) }
    ensures cause { IfErr result IsOfPlace }
{
    match is_back(place, size, buffer)? {
        true => Ok(()),
        false => bring_back(place, size, buffer),
    }
}

/// Makes the target absent, where it isn't so already.
#[tactic(auto, using(crate::proofs::Restoring::gives_none, crate::proofs::Restoring::gives_anew, crate::proofs::Restoring::gives_cut))]
pub(crate) fn give_absence<P: Place>(place: &mut P) -> Result<(), Stop>
    requires { (P.means place.old).on ≡ true }
    ensures counts { Counts (act_of result) (P.means place.old) (P.means place.new) }
    ensures saved { (P.means place.new).saved ≡ (P.means place.old).saved }
    ensures gives { WhenTold (P.means place.old) (GivesBack (act_of result) None (P.means place.old) (P.means place.new)) }
    ensures cause { IfErr result IsOfPlace }
{
    match length(place, Slot::Target)? {
        None => Ok(()),
        Some(_) => remove_target(place),
    }
}

/// Writes a file of the source into the fresh content, and settles it.
#[tactic(auto, using(crate::proofs::Touches::touches_then, crate::proofs::Touches::source_kept, crate::proofs::Touches::holds_file))]
fn write_file<S: Source, P: Place>(
    source: &mut S,
    place: &mut P,
    i: u32,
    buffer: &mut [u8],
) -> Result<(), Stop>
    requires on { (P.means place.old).on ≡ true }
    requires file { i < count_of (S.content source.old) }
    requires some { 0 < length buffer.old }
    ensures plan { S.plan source.new ≡ S.plan source.old }
    ensures same { S.content source.new ≡ S.content source.old }
    ensures counts { S.faults source.new ≡ source_after (act_of result) (S.faults source.old) }
    ensures touches { TouchesFresh (act_of result) (P.means place.old) (P.means place.new) }
    ensures cause { IfErr result IsOfWriting }
    ensures settled { OnOk result ((P.means place.new).settled ≡ true) }
    ensures file { OnOk result (WhenTold (P.means place.old) (HoldsFile (S.content source.old) i (P.means place.new))) }
{
    start(place)?;
    copy_file(source, place, i, buffer)?;
    settle(place)?;
    Ok(())
}

/// Makes the target the payload, which is this file.
#[tactic(auto, using(crate::proofs::Touches::replaces_then, crate::proofs::Touches::source_kept, crate::proofs::Touches::stops_replacing))]
pub(crate) fn take_payload<S: Source, P: Place>(
    source: &mut S,
    place: &mut P,
    i: u32,
    buffer: &mut [u8],
) -> Result<(), Stop>
    requires on { (P.means place.old).on ≡ true }
    requires file { i < count_of (S.content source.old) }
    requires payload { When (S.content source.old) (λ t. payloads t ≡ bytes_at t i ∷ []) }
    requires some { 0 < length buffer.old }
    ensures plan { S.plan source.new ≡ S.plan source.old }
    ensures same { S.content source.new ≡ S.content source.old }
    ensures counts { S.faults source.new ≡ source_after (act_of result) (S.faults source.old) }
    ensures place { Counts (act_of result) (P.means place.old) (P.means place.new) }
    ensures replaces { WhenTold (P.means place.old) (Replaces (IsPayload (S.content source.old)) (act_of result) (P.means place.old) (P.means place.new)) }
    ensures cause { IfErr result IsOfWriting }
{
    write_file(source, place, i, buffer)?;
    move_to_target(place)?;
    Ok(())
}

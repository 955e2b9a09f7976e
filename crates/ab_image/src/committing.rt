//! The state that chooses the image.

ghost use Rattle.std.specs.Prelude.{◌≡◌, ◌<◌, true, length, Some};
ghost use Rattle.device_model.specs.declared.calls.ModState.TheVariants.{ArtifactCommit};
ghost use Rattle.device_model.specs.declared.module_word.ModuleWord.TheVariants.{State};
ghost use Rattle.io_model.specs.Sink.{Written};
ghost use Rattle.ab_image.specs.Act.{ActsFor, scene};
ghost use Rattle.ab_image.specs.Choosing.{Chooses, choice_answer};

use crate::artifact::{Found, find_files, listed_sum};
use crate::blocks::Blocks;
use crate::layout::CHOICE;
use crate::readiness::is_ready;
use crate::report::{AbAct, stopped};
use crate::settling::{set, settle};
use device_model::Down;
use io_model::Source;
use manifest_sums::Sum;
use std::alloc::Global;

/// Chooses the other partition, where it holds what is listed, and says whether it does. Where the parities differ, it is
/// chosen already.
fn choose<B: Blocks>(blocks: &mut B, listed: &Sum, buffer: &mut [u8]) -> Result<bool, Down>
    requires on { (B.means blocks.old).on ≡ true }
    requires room { 0 < length buffer.old }
    ensures chooses { Chooses listed.now (B.means blocks.old) result (B.means blocks.new) }
{
    let named = settle(blocks)?;
    if !named.origin.is(named.choice) {
        return Ok(true);
    }
    let target = named.choice.other();
    let ready = is_ready(blocks, target, listed, buffer)?;
    if !ready {
        return Ok(false);
    }
    match set(blocks, CHOICE, target) {
        Ok(()) => Ok(true),
        Err(down) => Err(down),
    }
}

/// The answer where the other partition was ready, or wasn't.
fn answered(end: Result<bool, Down>) -> AbAct
    ensures { result ≡ choice_answer end }
{
    match end {
        Ok(true) => AbAct::Done,
        Ok(false) => AbAct::NotReady,
        Err(down) => stopped(down),
    }
}

/// Chooses the image that was downloaded.
pub(crate) fn commit<S: Source, B: Blocks>(
    alloc: Global,
    source: &mut S,
    blocks: &mut B,
    buffer: &mut [u8],
) -> AbAct
    requires on { (B.means blocks.old).on ≡ true }
    requires room { 0 < length buffer.old }
    ensures same { S.content source.new ≡ S.content source.old }
    ensures plan { S.plan source.new ≡ S.plan source.old }
    ensures acts { (sink : Written) → ActsFor (Some (State ArtifactCommit)) (S.content source.old)
        (scene (S.faults source.old) (B.means blocks.old) sink)
        (scene (S.faults source.new) (B.means blocks.new) sink) result }
{
    let found: Found = match find_files(source) {
        Ok(found) => found,
        Err(_) => return AbAct::SourceFault,
    };
    let listed = match listed_sum(alloc, source, found.type_info) {
        Ok(listed) => listed,
        Err(stop) => return stop,
    };
    answered(choose(blocks, &listed, buffer))
}

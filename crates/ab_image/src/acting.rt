//! One call of the module.

ghost use Rattle.std.specs.Prelude.{◌≡◌, ◌<◌, ℕ, true, false, length, Some};
ghost use Rattle.io_model.specs.Source.{Content};
ghost use Rattle.ab_image.specs.Words.{use_of};
ghost use Rattle.ab_image.specs.Answers.{answer_of};
ghost use Rattle.ab_image.specs.Act.{Acts, ActsFor, scene};

use crate::blocks::Blocks;
use crate::committing::commit;
use crate::downloading::download;
use crate::replying::reply;
use crate::report::{AbAct, stopped};
use crate::settling::{clean_up, roll_back};
use device_model::{Down, ModState, ModuleWord};
use io_model::{Sink, Source};
use std::alloc::Global;

/// What a state of the module or a query does. The blocks are on, and the buffer isn't empty.
pub fn act<S: Source, B: Blocks, O: Sink>(
    alloc: Global,
    words: &[String],
    source: &mut S,
    blocks: &mut B,
    out: &mut O,
    buffer: &mut [u8],
) -> AbAct
    requires on { (B.means blocks.old).on ≡ true }
    requires room { 0 < length buffer.old }
    ensures same { S.content source.new ≡ S.content source.old }
    ensures plan { S.plan source.new ≡ S.plan source.old }
    ensures acts { Acts words.now (S.content source.old)
        (scene (S.faults source.old) (B.means blocks.old) (O.means out.old))
        (scene (S.faults source.new) (B.means blocks.new) (O.means out.new)) result }
{
    match ModuleWord::of_call(words) {
        None => AbAct::Usage,
        Some(word) => act_for(alloc, word, source, blocks, out, buffer),
    }
}

/// What a word does.
fn act_for<S: Source, B: Blocks, O: Sink>(
    alloc: Global,
    word: ModuleWord,
    source: &mut S,
    blocks: &mut B,
    out: &mut O,
    buffer: &mut [u8],
) -> AbAct
    requires on { (B.means blocks.old).on ≡ true }
    requires room { 0 < length buffer.old }
    ensures same { S.content source.new ≡ S.content source.old }
    ensures plan { S.plan source.new ≡ S.plan source.old }
    ensures acts { ActsFor (Some word) (S.content source.old)
        (scene (S.faults source.old) (B.means blocks.old) (O.means out.old))
        (scene (S.faults source.new) (B.means blocks.new) (O.means out.new)) result }
{
    match word {
        ModuleWord::State(ModState::Download) => download(alloc, source, blocks, buffer),
        ModuleWord::State(ModState::ArtifactCommit) => commit(alloc, source, blocks, buffer),
        _ => act_alone(word, blocks, out),
    }
}

/// What a word does that reads no artifact.
fn act_alone<B: Blocks, O: Sink>(word: ModuleWord, blocks: &mut B, out: &mut O) -> AbAct
    requires on { (B.means blocks.old).on ≡ true }
    requires alone { (use_of (Some word)).reads ≡ false }
    ensures acts { (content : Content) (faults : ℕ) → ActsFor (Some word) content
        (scene faults (B.means blocks.old) (O.means out.old))
        (scene faults (B.means blocks.new) (O.means out.new)) result }
{
    match word {
        ModuleWord::Ask(query) => match reply(query, out) {
            Ok(()) => AbAct::Done,
            Err(_) => AbAct::SinkFault,
        },
        ModuleWord::State(ModState::ArtifactRollback) => ended(roll_back(blocks)),
        ModuleWord::State(ModState::Cleanup) => ended(clean_up(blocks)),
        ModuleWord::State(_) => AbAct::Done,
    }
}

/// The answer of a state that reads no artifact.
fn ended(end: Result<(), Down>) -> AbAct
    ensures { result ≡ answer_of end }
{
    match end {
        Ok(()) => AbAct::Done,
        Err(down) => stopped(down),
    }
}

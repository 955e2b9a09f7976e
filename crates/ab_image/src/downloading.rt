//! The state that takes the image.

ghost use Rattle.std.specs.Prelude.{◌≡◌, ◌<◌, ◌≤◌, true, length, Some, IfSome};
ghost use Rattle.device_model.specs.declared.calls.ModState.TheVariants.{Download};
ghost use Rattle.device_model.specs.declared.module_word.ModuleWord.TheVariants.{State};
ghost use Rattle.device_model.specs.Disk.{IsSettled};
ghost use Rattle.io_model.specs.Sink.{Written};
ghost use Rattle.io_model.specs.Source.{count_of, When, IsLength, bytes_at};
ghost use Rattle.ab_image.specs.Layout.{partition_size, other, chosen, Agree, IsBeside, Whole};
ghost use Rattle.ab_image.specs.Answers.{source_after};
ghost use Rattle.ab_image.specs.Act.{ActsFor, scene};
ghost use Rattle.ab_image.specs.Taking.{Frees, Judges, Spares, Stores};

use crate::blocks::Blocks;
use crate::copying::{copy_image, write_record};
use crate::image::{Image, find_image};
use crate::layout::partition_size;
use crate::partition::Partition;
use crate::report::{AbAct, stopped};
use crate::settling::{clean_up, settle};
use device_model::Down;
use io_model::Source;
use std::alloc::Global;

/// Lets the parities agree, and gives the partition that isn't chosen.
fn free_other<B: Blocks>(blocks: &mut B) -> Result<Partition, Down>
    requires on { (B.means blocks.old).on ≡ true }
    ensures frees { Frees (B.means blocks.old) result (B.means blocks.new) }
{
    clean_up(blocks)?;
    let named = settle(blocks)?;
    Ok(named.choice.other())
}

/// Copies the image into a partition, and writes its record where the sum is the listed one.
fn put_image<S: Source, B: Blocks>(
    source: &mut S,
    blocks: &mut B,
    image: &Image,
    target: Partition,
    buffer: &mut [u8],
) -> AbAct
    requires on { (B.means blocks.old).on ≡ true }
    requires room { 0 < length buffer.old }
    requires file { image.now.file < count_of (S.content source.old) }
    requires size { IsLength (S.content source.old) image.now.file image.now.size }
    requires fits { image.now.size ≤ partition_size (B.means blocks.old).size }
    ensures same { S.content source.new ≡ S.content source.old }
    ensures plan { S.plan source.new ≡ S.plan source.old }
    ensures source { S.faults source.new ≡ source_after result (S.faults source.old) }
    ensures judges { Judges (S.content source.old) image.now.file image.now.listed result }
    ensures spares { Spares (IsBeside (B.means blocks.old).size target) result (B.means blocks.old) (B.means blocks.new) }
    ensures settled { result ≡ AbAct.Done → IsSettled (B.means blocks.new).disk }
    ensures whole { result ≡ AbAct.Done → When (S.content source.old) (λ t. IfSome (B.means blocks.new).disk (λ d. Whole d.area target (bytes_at t image.now.file))) }
{
    let sum = match copy_image(source, image.file, image.size, blocks, target, buffer) {
        Ok(sum) => sum,
        Err(stop) => return stop,
    };
    if !sum.is(&image.listed) {
        return AbAct::Differs(image.listed.twin(), sum);
    }
    match write_record(blocks, target, image.size, &sum) {
        Ok(()) => AbAct::Done,
        Err(down) => stopped(down),
    }
}

/// Puts the image into the partition that isn't chosen.
fn store<S: Source, B: Blocks>(
    source: &mut S,
    blocks: &mut B,
    image: &Image,
    buffer: &mut [u8],
) -> AbAct
    requires on { (B.means blocks.old).on ≡ true }
    requires room { 0 < length buffer.old }
    requires file { image.now.file < count_of (S.content source.old) }
    requires size { IsLength (S.content source.old) image.now.file image.now.size }
    requires fits { image.now.size ≤ partition_size (B.means blocks.old).size }
    ensures same { S.content source.new ≡ S.content source.old }
    ensures plan { S.plan source.new ≡ S.plan source.old }
    ensures source { S.faults source.new ≡ source_after result (S.faults source.old) }
    ensures judges { Judges (S.content source.old) image.now.file image.now.listed result }
    ensures stores { Stores result (B.means blocks.old) (B.means blocks.new) }
    ensures settled { result ≡ AbAct.Done → IsSettled (B.means blocks.new).disk }
    ensures agree { result ≡ AbAct.Done → IfSome (B.means blocks.new).disk (λ d. Agree d.area) }
    ensures whole { result ≡ AbAct.Done → When (S.content source.old) (λ t. IfSome (B.means blocks.new).disk (λ d. Whole d.area (other (chosen d.area)) (bytes_at t image.now.file))) }
{
    match free_other(blocks) {
        Ok(target) => put_image(source, blocks, image, target, buffer),
        Err(down) => stopped(down),
    }
}

/// Puts the artifact's image where the device doesn't boot from.
pub(crate) fn download<S: Source, B: Blocks>(
    alloc: Global,
    source: &mut S,
    blocks: &mut B,
    buffer: &mut [u8],
) -> AbAct
    requires on { (B.means blocks.old).on ≡ true }
    requires room { 0 < length buffer.old }
    ensures same { S.content source.new ≡ S.content source.old }
    ensures plan { S.plan source.new ≡ S.plan source.old }
    ensures acts { (sink : Written) → ActsFor (Some (State Download)) (S.content source.old)
        (scene (S.faults source.old) (B.means blocks.old) sink)
        (scene (S.faults source.new) (B.means blocks.new) sink) result }
{
    match find_image(alloc, source, partition_size(blocks.size())) {
        Ok(image) => store(source, blocks, &image, buffer),
        Err(stop) => stop,
    }
}

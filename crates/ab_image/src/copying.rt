//! Images and records onto the disk.

ghost use Rattle.std.specs.Prelude.{◌≡◌, ◌+◌, ◌<◌, ◌≤◌, true, length, take, drop, IfOk, IfErr, ◌++◌};
ghost use Rattle.std.specs.Int.{w64, to_be_bytes};
ghost use Rattle.sha2.specs.Sha256.{sha256};
ghost use Rattle.io_model.specs.Source.{count_of, When, IsLength, bytes_at};
ghost use Rattle.manifest_sums.specs.Message.{Has};
ghost use Rattle.device_model.specs.Disk.{WhereTold, IsApart, overwritten};
ghost use Rattle.ab_image.specs.Layout.{partition_size, partition_at, record_at};
ghost use Rattle.ab_image.specs.Parts.{Sets};
ghost use Rattle.ab_image.specs.Answers.{source_after};
ghost use Rattle.ab_image.specs.Taking.{ended, StopsCopy, Spares, HasFront};

use crate::blocks::Blocks;
use crate::layout::{RECORD, least, partition_at, record_at};
use crate::partition::Partition;
use crate::report::{AbAct, stopped};
use crate::settling::write_through;
use device_model::Down;
use io_model::Source;
use manifest_sums::{Sum, Summing};

/// What is left of a file, and where it goes on the disk.
#[derive(Clone, Copy)]
struct Rest {
    file: u32,
    at: u64,
    left: u64,
    to: u64,
}

/// Copies the next piece of a file, and gives how many bytes it has.
fn copy_piece<S: Source, B: Blocks>(
    source: &mut S,
    blocks: &mut B,
    rest: Rest,
    summing: &mut Summing,
    buffer: &mut [u8],
) -> Result<usize, AbAct>
    requires on { (B.means blocks.old).on ≡ true }
    requires room { 0 < length buffer.old }
    requires file { rest.file < count_of (S.content source.old) }
    requires left { 0 < rest.left }
    requires part { When (S.content source.old) (λ t. rest.at + rest.left ≤ length (bytes_at t rest.file)) }
    requires range { rest.to + rest.left ≤ (B.means blocks.old).size }
    ensures same { S.content source.new ≡ S.content source.old }
    ensures plan { S.plan source.new ≡ S.plan source.old }
    ensures source { S.faults source.new ≡ source_after (ended result) (S.faults source.old) }
    ensures spares { Spares (IsApart rest.to rest.left) (ended result) (B.means blocks.old) (B.means blocks.new) }
    ensures stops { IfErr result StopsCopy }
    ensures some { IfOk result (λ n. 0 < n) }
    ensures most { IfOk result (λ n. n ≤ rest.left) }
    ensures summed { IfOk result (λ n. When (S.content source.old) (λ t. Has summing.old (take rest.at (bytes_at t rest.file)) → Has summing.new (take (rest.at + n) (bytes_at t rest.file)))) }
    ensures written { IfOk result (λ n. When (S.content source.old) (λ t.
        WhereTold (λ d e. e.area ≡ overwritten rest.to (take n (drop rest.at (bytes_at t rest.file))) d.area) (B.means blocks.old).disk (B.means blocks.new).disk)) }
{
    let want = least(rest.left, buffer.len());
    let n = match source.read(rest.file, rest.at, &mut buffer[..want]) {
        Ok(n) => n,
        Err(_) => return Err(AbAct::SourceFault),
    };
    summing.piece(&buffer[..n]);
    match blocks.write(rest.to, &buffer[..n]) {
        Ok(()) => Ok(n),
        Err(down) => Err(stopped(down)),
    }
}

/// Copies an image of so many bytes into a partition, and gives its sum.
pub(crate) fn copy_image<S: Source, B: Blocks>(
    source: &mut S,
    image: u32,
    size: u64,
    blocks: &mut B,
    partition: Partition,
    buffer: &mut [u8],
) -> Result<Sum, AbAct>
    requires on { (B.means blocks.old).on ≡ true }
    requires room { 0 < length buffer.old }
    requires file { image < count_of (S.content source.old) }
    requires size { IsLength (S.content source.old) image size }
    requires fits { size ≤ partition_size (B.means blocks.old).size }
    ensures same { S.content source.new ≡ S.content source.old }
    ensures plan { S.plan source.new ≡ S.plan source.old }
    ensures source { S.faults source.new ≡ source_after (ended result) (S.faults source.old) }
    ensures spares { Spares (IsApart (partition_at (B.means blocks.old).size partition) size) (ended result) (B.means blocks.old) (B.means blocks.new) }
    ensures stops { IfErr result StopsCopy }
    ensures sum { IfOk result (λ sum. When (S.content source.old) (λ t. sum ≡ sha256 (bytes_at t image))) }
    ensures copied { IfOk result (λ sum. When (S.content source.old) (λ t. HasFront (B.means blocks.new).disk (partition_at (B.means blocks.old).size partition) size (bytes_at t image))) }
{
    let start = partition_at(blocks.size(), partition);
    let mut summing = Summing::new();
    let mut at: u64 = 0;
    while at < size {
        let rest = Rest {
            file: image,
            at,
            left: size - at,
            to: start + at,
        };
        match copy_piece(source, blocks, rest, &mut summing, buffer) {
            Ok(n) => at += n as u64,
            Err(stop) => return Err(stop),
        }
    }
    Ok(summing.finish())
}

/// The record of an image with this length and sum.
fn record_of(size: u64, sum: &Sum) -> [u8; RECORD]
    ensures { result ≡ to_be_bytes w64 size ++ sum.now }
{
    let mut record = [0u8; RECORD];
    record[..8].copy_from_slice(&size.to_be_bytes());
    record[8..].copy_from_slice(sum.bytes().as_slice());
    record
}

/// Writes a partition's record, and syncs.
pub(crate) fn write_record<B: Blocks>(
    blocks: &mut B,
    partition: Partition,
    size: u64,
    sum: &Sum,
) -> Result<(), Down>
    requires on { (B.means blocks.old).on ≡ true }
    ensures sets { Sets (record_at partition) (to_be_bytes w64 size ++ sum.now) (B.means blocks.old) result (B.means blocks.new) }
    ensures long { length sum.now ≡ 32 }
{
    write_through(blocks, record_at(partition), &record_of(size, sum))
}

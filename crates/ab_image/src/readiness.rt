//! Whether a partition holds what its record says.

ghost use Rattle.std.specs.Prelude.{◌≡◌, ◌+◌, ◌<◌, ◌≤◌, true, length, IfOk, IfSome, OnOk, IsTrue, ◌↔◌, ◌++◌, List, ℕ, take, drop};
ghost use Rattle.std.specs.Int.{w64, from_be_bytes};
ghost use Rattle.sha2.specs.Sha256.{sha256};
ghost use Rattle.manifest_sums.specs.Message.{Has};
ghost use Rattle.device_model.specs.Disk.{area_of};
ghost use Rattle.ab_image.specs.Layout.{partition_size, partition_at, IsReady};
ghost use Rattle.ab_image.specs.Parts.{Calm};

use crate::blocks::Blocks;
use crate::layout::{RECORD, least, partition_at, partition_size, record_at};
use crate::partition::Partition;
use device_model::Down;
use manifest_sums::{Sum, Summing};

/// One more piece of the disk, into the sum.
fn sum_piece<B: Blocks>(
    blocks: &mut B,
    at: u64,
    summing: &mut Summing,
    into: &mut [u8],
) -> Result<(), Down>
    requires on { (B.means blocks.old).on ≡ true }
    requires range { at + length into.old ≤ (B.means blocks.old).size }
    ensures calm { Calm (B.means blocks.old) result (B.means blocks.new) }
    ensures same { OnOk result (B.means blocks.new ≡ B.means blocks.old) }
    ensures next { OnOk result (IfSome (area_of (B.means blocks.old).disk) (λ area.
        (message : List ℕ) → Has summing.old message → Has summing.new (message ++ take (length into.old) (drop at area)))) }
{
    blocks.read(at, into)?;
    summing.piece(into);
    Ok(())
}

/// The sum of the first bytes of a partition.
fn sum_front<B: Blocks>(
    blocks: &mut B,
    partition: Partition,
    size: u64,
    buffer: &mut [u8],
) -> Result<Sum, Down>
    requires on { (B.means blocks.old).on ≡ true }
    requires room { 0 < length buffer.old }
    requires fits { size ≤ partition_size (B.means blocks.old).size }
    ensures calm { Calm (B.means blocks.old) result (B.means blocks.new) }
    ensures same { IfOk result (λ sum. B.means blocks.new ≡ B.means blocks.old) }
    ensures sum { IfOk result (λ sum. IfSome (area_of (B.means blocks.old).disk) (λ area. sum ≡ sha256 (take size (drop (partition_at (B.means blocks.old).size partition) area)))) }
{
    let start = partition_at(blocks.size(), partition);
    let mut summing = Summing::new();
    let mut at: u64 = 0;
    while at < size {
        let want = least(size - at, buffer.len());
        sum_piece(blocks, start + at, &mut summing, &mut buffer[..want])?;
        at += want as u64;
    }
    Ok(summing.finish())
}

/// The length that a record names.
fn length_in(bytes: &[u8; RECORD]) -> u64
    ensures { result ≡ from_be_bytes w64 (take 8 bytes.now) }
{
    u64::from_be_bytes([
        bytes[0], bytes[1], bytes[2], bytes[3], bytes[4], bytes[5], bytes[6], bytes[7],
    ])
}

/// Whether a record names at most so many bytes and this sum.
fn names(bytes: &[u8; RECORD], most: u64, sum: &Sum) -> bool
    ensures { IsTrue result ↔ ((from_be_bytes w64 (take 8 bytes.now) ≤ most) × (drop 8 bytes.now ≡ sum.now)) }
{
    length_in(bytes) <= most && &bytes[8..] == sum.bytes().as_slice()
}

/// Whether the record beside a partition names a length that fits and this sum, and the partition's first bytes have it.
pub(crate) fn is_ready<B: Blocks>(
    blocks: &mut B,
    partition: Partition,
    listed: &Sum,
    buffer: &mut [u8],
) -> Result<bool, Down>
    requires on { (B.means blocks.old).on ≡ true }
    requires room { 0 < length buffer.old }
    ensures calm { Calm (B.means blocks.old) result (B.means blocks.new) }
    ensures same { IfOk result (λ yes. B.means blocks.new ≡ B.means blocks.old) }
    ensures ready { IfOk result (λ yes. IfSome (area_of (B.means blocks.old).disk) (λ area. IsTrue yes ↔ IsReady area partition listed.now)) }
{
    let mut record = [0u8; RECORD];
    blocks.read(record_at(partition), &mut record)?;
    if !names(&record, partition_size(blocks.size()), listed) {
        return Ok(false);
    }
    let found = sum_front(blocks, partition, length_in(&record), buffer)?;
    Ok(found.is(listed))
}

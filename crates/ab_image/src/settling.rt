//! The choice and the origin.

ghost use Rattle.std.specs.Prelude.{◌≡◌, ◌+◌, ◌<◌, ◌≤◌, true, [], ◌∷◌, length, slice_index_or, IfOk, IfSome};
ghost use Rattle.device_model.specs.Disk.{KeepsDisk, area_of};
ghost use Rattle.ab_image.specs.Layout.{named_by, byte_of};
ghost use Rattle.ab_image.specs.Blocks.{EndsRead};
ghost use Rattle.ab_image.specs.Parts.{Settles, Sets, Cleans, RollsBack};

use crate::blocks::Blocks;
use crate::layout::{CHOICE, ORIGIN};
use crate::partition::Partition;
use device_model::Down;

/// The partitions that the choice and the origin name.
#[derive(Clone, Copy, Debug, PartialEq, Eq)]
pub(crate) struct Named {
    pub choice: Partition,
    pub origin: Partition,
}

/// The partition that a byte names.
fn read_named<B: Blocks>(blocks: &mut B, at: u64) -> Result<Partition, Down>
    requires on { (B.means blocks.old).on ≡ true }
    requires range { at < (B.means blocks.old).size }
    ensures ends { EndsRead (B.means blocks.old) result (B.means blocks.new) }
    ensures leaves { KeepsDisk (B.means blocks.old).disk (B.means blocks.new).disk }
    ensures named { IfOk result (λ p. IfSome (area_of (B.means blocks.old).disk) (λ area. p ≡ named_by (slice_index_or area at 0))) }
{
    let mut byte = [0u8; 1];
    blocks.read(at, &mut byte)?;
    Ok(Partition::named_by(byte[0]))
}

/// Syncs, so that what is read stands, and reads the choice and the origin.
pub(crate) fn settle<B: Blocks>(blocks: &mut B) -> Result<Named, Down>
    requires on { (B.means blocks.old).on ≡ true }
    ensures settles { Settles (B.means blocks.old) result (B.means blocks.new) }
{
    blocks.sync()?;
    let choice = read_named(blocks, CHOICE)?;
    let origin = read_named(blocks, ORIGIN)?;
    Ok(Named { choice, origin })
}

/// Writes bytes at an offset, and syncs.
pub(crate) fn write_through<B: Blocks>(blocks: &mut B, at: u64, bytes: &[u8]) -> Result<(), Down>
    requires on { (B.means blocks.old).on ≡ true }
    requires range { at + length bytes.now ≤ (B.means blocks.old).size }
    ensures sets { Sets at bytes.now (B.means blocks.old) result (B.means blocks.new) }
{
    blocks.write(at, bytes)?;
    blocks.sync()
}

/// Lets a byte name a partition, and syncs.
pub(crate) fn set<B: Blocks>(blocks: &mut B, at: u64, partition: Partition) -> Result<(), Down>
    requires on { (B.means blocks.old).on ≡ true }
    requires range { at < (B.means blocks.old).size }
    ensures sets { Sets at (byte_of partition ∷ []) (B.means blocks.old) result (B.means blocks.new) }
{
    write_through(blocks, at, &[partition.byte()])
}

/// Lets the origin name the choice.
pub(crate) fn clean_up<B: Blocks>(blocks: &mut B) -> Result<(), Down>
    requires on { (B.means blocks.old).on ≡ true }
    ensures cleans { Cleans (B.means blocks.old) result (B.means blocks.new) }
{
    let named = settle(blocks)?;
    if named.origin.is(named.choice) {
        return Ok(());
    }
    set(blocks, ORIGIN, named.choice)
}

/// Chooses the partition that the origin names.
pub(crate) fn roll_back<B: Blocks>(blocks: &mut B) -> Result<(), Down>
    requires on { (B.means blocks.old).on ≡ true }
    ensures rolls { RollsBack (B.means blocks.old) result (B.means blocks.new) }
{
    let named = settle(blocks)?;
    if named.origin.is(named.choice) {
        return Ok(());
    }
    set(blocks, CHOICE, named.origin)
}

//! Where things stand on the disk.

ghost use Rattle.std.specs.Prelude.{◌≡◌, ◌+◌, ◌<◌, ◌≤◌};
ghost use Rattle.ab_image.specs.Layout.{partition_size, partition_at, record_at};

use crate::partition::Partition;

/// How many bytes a disk has at the least.
pub const LEAST_SIZE: u64 = 8_192;

/// Where the choice byte stands.
pub const CHOICE: u64 = 0;

/// Where the origin byte stands.
pub const ORIGIN: u64 = 1_024;

/// Where the record of partition 0 stands.
pub const RECORD_0: u64 = 2_048;

/// Where the record of partition 1 stands.
pub const RECORD_1: u64 = 3_072;

/// How many bytes a record has: a length and a sum.
pub const RECORD: usize = 40;

/// Where partition 0 begins.
pub const FIRST: u64 = 4_096;

/// How many bytes each partition has, on a disk of this size.
pub(crate) fn partition_size(size: u64) -> u64
    requires { LEAST_SIZE ≤ size }
    ensures { result ≡ partition_size size }
{
    (size - FIRST) / 2
}

/// Where a partition begins.
pub(crate) fn partition_at(size: u64, partition: Partition) -> u64
    requires least { LEAST_SIZE ≤ size }
    ensures start { result ≡ partition_at size partition }
    ensures fits { result + partition_size size ≤ size }
{
    match partition {
        Partition::Zero => FIRST,
        Partition::One => FIRST + partition_size(size),
    }
}

/// Where the record of a partition stands.
pub(crate) fn record_at(partition: Partition) -> u64
    ensures { result ≡ record_at partition }
{
    match partition {
        Partition::Zero => RECORD_0,
        Partition::One => RECORD_1,
    }
}

/// How many bytes the next piece has.
pub(crate) fn least(left: u64, room: usize) -> usize
    requires { 0 < left }
    ensures most { result ≤ left }
    ensures fits { result ≤ room }
    ensures some { 0 < room → 0 < result }
{
    if left < room as u64 {
        left as usize
    } else {
        room
    }
}

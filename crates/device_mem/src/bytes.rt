//! What is done to the bytes of a disk, and to the flags that say which of them may be lost.

ghost use Rattle.std.specs.Prelude.{◌≡◌, ◌+◌, ◌≤◌, length, replicate, IfOk, All};
ghost use Rattle.device_mem.specs.Tears.{torn_area};
ghost use Rattle.device_model.specs.Disk.{IsByte, IsRefilled, IsSynced, overwritten, marked, unmarked};

use crate::script::Tear;
use std::alloc::Global;
use upd_text::NoMemory;

pub(crate) fn zeros(alloc: Global, count: usize) -> Result<Vec<u8>, NoMemory>
    ensures zeros { IfOk result (λ v. v.items ≡ replicate count 0) }
    ensures size { IfOk result (λ v. length v.items ≡ count) }
    ensures small { IfOk result (λ v. All IsByte v.items) }
{
    Ok(vec![in alloc; 0u8; count]?)
}

pub(crate) fn write_at(area: &mut [u8], at: usize, bytes: &[u8])
    requires { at + length bytes.now ≤ length area.old }
    ensures { area.new ≡ overwritten at bytes.now area.old }
{
    area[at..at + bytes.len()].copy_from_slice(bytes);
}

pub(crate) fn mark(unsynced: &mut [bool], at: usize, count: usize)
    requires { at + count ≤ length unsynced.old }
    ensures { unsynced.new ≡ marked at count unsynced.old }
{
    unsynced[at..at + count].fill(true);
}

pub(crate) fn unmark(unsynced: &mut [bool])
    ensures { unsynced.new ≡ unmarked unsynced.old }
{
    unsynced.fill(false);
}

/// What a loss leaves: at each unsynced byte the one before, the new one or another.
pub(crate) fn tear_unsynced(area: &mut [u8], before: &[u8], unsynced: &[bool], tear: Tear)
    requires before { length before.now ≡ length area.old }
    requires unsynced { length unsynced.now ≡ length area.old }
    ensures refilled { IsRefilled (IsSynced unsynced.now) area.old area.new }
    ensures torn { area.new ≡ torn_area tear unsynced.now before.now area.old }
{
    for i in 0..area.len() {
        if unsynced[i] {
            area[i] = match tear {
                Tear::Old => before[i],
                Tear::New => area[i],
                Tear::Byte(byte) => byte,
            };
        }
    }
}

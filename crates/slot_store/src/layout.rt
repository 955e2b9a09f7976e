//! Where an area has its slots and their cells.

ghost use Rattle.std.specs.Prelude.{◌≡◌, ◌≤◌};
ghost use Rattle.slot_store.specs.Slots.{of_parity, slot_start, cells_start, cell_offset};

use record_codec::LARGEST_RECORD;

/// How many bytes a slot has: those of the largest record.
pub const SLOT: u32 = LARGEST_RECORD;

/// Where slot 0 begins.
pub const SLOT_0: u32 = 4_096;

/// Where slot 1 begins.
pub const SLOT_1: u32 = 135_168;

/// Where the selector of slot 0's cells stands.
pub const CELLS_0: u32 = 1_024;

/// Where the selector of slot 1's cells stands.
pub const CELLS_1: u32 = 2_048;

/// How many bytes a slot's cells have, with their selector.
pub const CELLS: usize = 192;

/// How far behind the selector cell 0 begins.
pub const CELL_0: u32 = 64;

/// How far behind the selector cell 1 begins.
pub const CELL_1: u32 = 128;

/// How many bytes a cell has.
pub const CELL: usize = 64;

/// Of two places the one that a selector picks.
fn of_parity(selector: u8, even: u32, odd: u32) -> u32
    ensures { result ≡ of_parity selector even odd }
{
    if selector % 2 == 0 { even } else { odd }
}

/// Where the slot begins that a selector picks.
#[tactic(auto, unfolding(crate::specs::Slots::slot_start))]
pub(crate) fn start_of(selector: u8) -> u32
    ensures start { result ≡ slot_start selector }
    ensures fits { result ≤ SLOT_1 }
{
    of_parity(selector, SLOT_0, SLOT_1)
}

/// Where the selector of that slot's cells stands.
#[tactic(auto, unfolding(crate::specs::Slots::cells_start))]
pub(crate) fn cells_of(selector: u8) -> u32
    ensures start { result ≡ cells_start selector }
    ensures fits { result ≤ CELLS_1 }
{
    of_parity(selector, CELLS_0, CELLS_1)
}

/// How far behind a cell selector the cell begins that it picks.
#[tactic(auto, unfolding(crate::specs::Slots::cell_offset))]
pub(crate) fn offset_of(selector: u8) -> u32
    ensures offset { result ≡ cell_offset selector }
    ensures fits { result ≤ CELL_1 }
{
    of_parity(selector, CELL_0, CELL_1)
}

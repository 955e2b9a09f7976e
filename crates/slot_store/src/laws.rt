//! Laws of areas.

ghost use Rattle.std.specs.Prelude.{◌≡◌, ◌≤◌, ◌<◌, ◌+◌, ℕ, List, length, slice_index, replicate, Some};
ghost use Rattle.record_codec.specs.declared.entry.Db.TheVariants.{Empty};
ghost use Rattle.record_codec.specs.Reading.{database};
ghost use Rattle.device_model.specs.Disk.{Disk, unmarked};
ghost use Rattle.slot_store.specs.Slots.{stood, Stands, Sound, picked_slot, slot_start, slot_size, cells_start, cell_offset, cell_size};

use crate::layout::{CELLS, SLOT_0};
use device_model::AREA;

/// Where things stand in the area, in numbers. An even selector picks the first of two places, an odd one the second.
pub fn the_area_in_numbers()
    ensures slots { (slot_start 0 ≡ 4096) × (slot_start 1 ≡ 135168) × (slot_size ≡ 131072) × (AREA ≡ 266240) }
    ensures cells { (cells_start 0 ≡ 1024) × (cells_start 1 ≡ 2048) × (CELLS ≡ 192) }
    ensures cell { (cell_offset 0 ≡ 64) × (cell_offset 1 ≡ 128) × (cell_size ≡ 64) }
    ensures parities { (slot_start 16 ≡ 4096) × (slot_start 255 ≡ 135168) × (cells_start 16 ≡ 1024) × (cells_start 255 ≡ 2048) × (cell_offset 16 ≡ 64) × (cell_offset 255 ≡ 128) }
{}

/// An area without cells, as those of the earlier form are, stands for what its picked slot says.
pub fn areas_without_cells()
    ensures { (area : List ℕ) → length area ≡ AREA → ((i : ℕ) → 1 ≤ i → i < SLOT_0 → slice_index area i ≡ 0) → stood area ≡ database (picked_slot area) }
{}

/// An area of zeros stands for the empty database, and a disk that has it is sound where nothing is unsynced.
pub fn zeros_are_empty()
    ensures stands { Stands (replicate AREA 0) Empty }
    ensures sound { (disk : Disk) → disk.area ≡ replicate AREA 0 → disk.unsynced ≡ unmarked disk.unsynced → Sound (Some disk) }
{}

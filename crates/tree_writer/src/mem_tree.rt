//! A sink of files in memory.

ghost use Rattle.std.specs.Prelude.{◌≡◌, ◌==◌, ◌<◌, ◌≤◌, ◌+◌, ◌∷◌, ◌++◌, [], length, Some, IfOk, OnOk, OnErr, slice_get, false};
ghost use Rattle.std.specs.List.{list_any};
ghost use Rattle.std.specs.Result.{is_err};
ghost use Rattle.io_model.specs.Source.{path_at, bytes_at};
ghost use Rattle.tree_writer.specs.Sink.{Takes};
ghost use Rattle.tree_writer.specs.MemTree.{told_by, refuses, after_add};

use crate::sink::{TreeFault, TreeSink};
use std::alloc::Global;
use std::marker::Model;
use upd_text::{CallList, Name, NoMemory};

/// How many files a tree in memory takes.
const MOST_KEPT: usize = 256;

/// A file's path, and where its bytes begin and end among those of all files.
#[derive(Drop)]
pub struct Slot {
    path: Name,
    from: usize,
    to: usize,
}

/// Tells its files, and fails at the adds that it was told to fail at. They are counted from 0.
#[derive(Drop)]
pub struct MemTree {
    slots: Vec<Slot>,
    bytes: Vec<u8>,
    room: u32,
    failing: CallList,
    calls: u64,
    faults: u64,
}

impl Model for MemTree {
    ghost use Rattle.std.specs.Prelude.{◌≤◌, length, vec_capacity};
    ghost use Rattle.tree_writer.specs.MemTree.{Stored, files_of, AreWithin};

    ghost Value = { Stored };

    ghost view = { λ t. record { files = files_of t.bytes.items t.slots.items; used = length t.bytes.items; room = t.room; failing = t.failing; calls = t.calls; faults = t.faults } };

    ghost invariant = { λ t. (256 ≤ vec_capacity t.slots) × (t.room ≤ vec_capacity t.bytes) × (length t.slots.items ≤ 256) × AreWithin t.bytes.items t.slots.items };
}

impl MemTree {
    /// A tree for at most 256 files with at most `room` bytes together, without any.
    pub fn new(alloc: Global, room: u32, failing: CallList) -> Result<MemTree, NoMemory>
        ensures { IfOk result (λ t. t ≡ record { files = []; used = 0; room = room; failing = failing; calls = 0; faults = 0 }) }
    {
        let slots = Vec::with_capacity(alloc, MOST_KEPT)?;
        let bytes = Vec::with_capacity(alloc, room as usize)?;
        Ok(MemTree {
            slots,
            bytes,
            room,
            failing,
            calls: 0,
            faults: 0,
        })
    }

    /// How many files were added.
    pub fn len(&self) -> u32
        ensures { result ≡ length self.now.files }
    {
        self.slots.len() as u32
    }

    /// The path of the file at an index, counted from 0. Condition: it is below the length.
    pub fn path(&self, i: u32) -> &Name
        requires { i < length self.now.files }
        ensures { Some result.now ≡ path_at self.now.files i }
    {
        let slot = &self.slots[i as usize];
        &slot.path
    }

    /// The bytes of the file at an index, counted from 0. Condition: it is below the length.
    pub fn bytes(&self, i: u32) -> &[u8]
        requires { i < length self.now.files }
        ensures { result.now ≡ bytes_at self.now.files i }
    {
        let slot = &self.slots[i as usize];
        &self.bytes[slot.from..slot.to]
    }

    fn refuses(&self, bytes: &[u8]) -> bool
        ensures { result ≡ refuses self.now bytes.now }
    {
        is_among(self.failing.as_slice(), self.calls)
            || MOST_KEPT < self.slots.len() + 1
            || (self.room as usize) < self.bytes.len() + bytes.len()
    }
}

impl MemTree {
    // StandBehind a file that fits.
    #[tactic(auto, using(crate::proofs::Slots::file_kept, crate::proofs::Slots::within_kept))]
    fn keep(&mut self, path: &Name, bytes: &[u8])
        requires files { length self.old.files < 256 }
        requires room { self.old.used + length bytes.now ≤ self.old.room }
        ensures { self.new ≡ record self.old { files = self.old.files ++ (Some path.now, bytes.now) ∷ []; used = self.old.used + length bytes.now } }
    {
        let from = self.bytes.len();
        self.bytes.extend_from_slice(bytes).unwrap();
        let to = self.bytes.len();
        let slot = Slot {
            path: path.twin(),
            from,
            to,
        };
        self.slots.push(slot).unwrap();
    }
}

fn is_among(list: &[u64], n: u64) -> bool
    ensures { result ≡ list_any (λ m. m == n) list.now }
{
    list.contains(&n)
}

impl TreeSink for MemTree {
    ghost means = { told_by };

    fn add(&mut self, path: &Name, bytes: &[u8]) -> Result<(), TreeFault>
        ensures puts { Takes (told_by self.old) path.now bytes.now result (told_by self.new) }

        // It fails exactly where its number is in the list or the file doesn't fit, and then adds nothing.
        ensures answer { is_err result ≡ refuses self.old bytes.now }
        ensures exact { self.new ≡ after_add self.old path.now bytes.now }
    {
        let refused = self.refuses(bytes);
        self.calls = self.calls.saturating_add(1);
        if refused {
            self.faults = self.faults.saturating_add(1);
            return Err(TreeFault);
        }
        self.keep(path, bytes);
        Ok(())
    }
}

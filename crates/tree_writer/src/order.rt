//! Files in byte order of their names.

ghost use Rattle.std.specs.Prelude.{◌≡◌, ◌<◌, ◌≤◌, ℕ, [], length, slice_index, true, false, OnOk, IfOk};
ghost use Rattle.std.specs.Option.{unwrap_or};
ghost use Rattle.std.specs.List.{All};
ghost use Rattle.upd_text.specs.Order.{is_below};
ghost use Rattle.tree_writer.specs.Order.{insert, by_name, name_at, file_at, files_at, IsGoodText};

use io_model::{FileList, TreeFile};
use std::alloc::Global;
use upd_text::NoMemory;

/// A file's name, or nothing where its path is no name.
#[tactic(auto, using(crate::proofs::Paths::good_texts))]
pub(crate) fn name_of(file: &TreeFile) -> &[u8]
    ensures name { result.now ≡ unwrap_or file.now.0 [] }
    ensures good { IsGoodText result.now }
{
    match file.path() {
        Some(name) => name.bytes(),
        None => &[],
    }
}

pub(crate) fn is_below(a: &[u8], b: &[u8]) -> bool
    ensures { result ≡ is_below a.now b.now }
{
    a.cmp(b).is_lt()
}

// Where a name goes among those in order: before the first one that is above it.
fn place_for(files: &FileList, order: &[u32], name: &[u8]) -> usize
    requires { All (λ j. j < length files.now) order.now }
    ensures within { result ≤ length order.now }
    ensures before { (k : ℕ) → k < result → is_below name.now (name_at files.now (slice_index order.now k)) ≡ false }
    ensures here { result < length order.now → is_below name.now (name_at files.now (slice_index order.now result)) ≡ true }
{
    for (k, j) in order.iter().enumerate() {
        if is_below(name, name_of(files.at(*j))) {
            return k;
        }
    }
    order.len()
}

fn insert(files: &FileList, order: &mut Vec<u32>, i: u32) -> Result<(), NoMemory>
    requires file { i < length files.now }
    requires all { All (λ j. j < length files.now) order.old.items }
    ensures ok { OnOk result (files_at files.now order.new.items ≡ insert (files_at files.now order.old.items) (file_at files.now i)) }
    ensures all { OnOk result (All (λ j. j < length files.now) order.new.items) }
{
    let place = place_for(files, order.as_slice(), name_of(files.at(i)));
    order.insert(place, i)?;
    Ok(())
}

/// The indexes of the files in byte order of their names.
pub(crate) fn in_order(alloc: Global, files: &FileList) -> Result<Vec<u32>, NoMemory>
    ensures all { IfOk result (λ order. All (λ j. j < length files.now) order.items) }
    ensures files { IfOk result (λ order. files_at files.now order.items ≡ by_name files.now) }
{
    let mut order = Vec::new(alloc);
    for i in 0..files.len() {
        insert(files, &mut order, i)?;
    }
    Ok(order)
}

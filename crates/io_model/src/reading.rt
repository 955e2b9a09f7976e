//! All bytes of a file.

ghost use Rattle.std.specs.Prelude.{◌≡◌, ◌<◌, ◌≤◌, ◌+◌, length, take, IfOk, OnOk};
ghost use Rattle.upd_text.specs.Told.{WhereTold};
ghost use Rattle.io_model.specs.Source.{Counts, IsLength, When, after_read, bytes_at, count_of};
ghost use Rattle.io_model.specs.Reading.{OnlyOf};

use crate::source::{Source, SourceFault};

/// One more piece of a file, at its place in the buffer.
fn read_piece<S: Source>(
    source: &mut S,
    i: u32,
    at: usize,
    into: &mut [u8],
) -> Result<usize, SourceFault>
    requires file { i < count_of (S.content source.old) }
    requires room { at < length into.old }
    requires long { IsLength (S.content source.old) i (length into.old) }
    ensures same { S.content source.new ≡ S.content source.old }
    ensures plan { S.plan source.new ≡ S.plan source.old }
    ensures given { S.given source.new ≡ after_read i result (S.given source.old) }
    ensures counts { Counts (S.faults source.old) result (S.faults source.new) }
    ensures some { IfOk result (λ n. 0 < n) }
    ensures most { IfOk result (λ n. at + n ≤ length into.old) }
    ensures next { IfOk result (λ n. When (S.content source.old) (λ t. take at into.old ≡ take at (bytes_at t i)) → When (S.content source.old) (λ t. take (at + n) into.new ≡ take (at + n) (bytes_at t i))) }
{
    let n = source.read(i, at as u64, &mut into[at..])?;
    Ok(n)
}

/// All bytes of a file, into a buffer of its length. Conditions: the index is below `files`, and
/// where the files are told, the buffer has the file's length.
pub fn fill<S: Source>(source: &mut S, i: u32, into: &mut [u8]) -> Result<(), SourceFault>
    requires file { i < count_of (S.content source.old) }
    requires long { IsLength (S.content source.old) i (length into.old) }
    ensures same { S.content source.new ≡ S.content source.old }
    ensures plan { S.plan source.new ≡ S.plan source.old }
    ensures given { WhereTold (OnlyOf i) (S.given source.old) (S.given source.new) }
    ensures counts { Counts (S.faults source.old) result (S.faults source.new) }
    ensures bytes { OnOk result (When (S.content source.old) (λ t. into.new ≡ bytes_at t i)) }
{
    let mut at: usize = 0;
    while at < into.len() {
        let n = read_piece(source, i, at, into)?;
        at += n;
    }
    Ok(())
}

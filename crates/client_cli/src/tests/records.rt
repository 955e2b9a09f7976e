//! Records and metadata as bytes: what no area and no tree has, or in too many ways.

ghost use Rattle.std.specs.Prelude.{IfSome};
ghost use Rattle.record_codec.specs.Spelling.{IsFound};

use artifact_meta::{MetaFault, MetaFile, read_header_info, read_type_info, read_version};
use flow_table::{Outcome, Position, Reboot, State};
use record_codec::{Db, DecodeFault, Entry, decode, encode_into, patch};
use std::alloc::Global;
use std::test::Fail;

/// The record of version 1 of a finished update to release-2.
const OLD_RECORD: [u8; 75] = *b"MUP1\x00\x02\x00\x00\x05\x00\x00\x00\x00\x00\x00\x4b\
\x00\x00\
\x00\x02\x00\x0bapp.version\x00\x012\x00\x0dartifact_name\x00\x09release-2\
\x0bsingle-file\x00";

/// The offset of the first wrong field.
fn fault_of(alloc: Global, bytes: &[u8]) -> Option<u32> {
    match decode(alloc, bytes) {
        Err(DecodeFault::NotARecord(offset)) => Some(offset),
        _ => None,
    }
}

/// The entry whose record the bytes begin with.
fn entry_in(alloc: Global, bytes: &[u8]) -> Option<Entry>
    ensures { IfSome result (IsFound bytes.now) }
{
    match decode(alloc, bytes) {
        Ok(Db::Full(entry)) => Some(entry),
        _ => None,
    }
}

/// Bytes that end inside a record.
#[test]
fn a_record_ends_with_its_bytes(rt: HostRuntime) -> Result<(), Fail> {
    let bytes = OLD_RECORD.as_slice();
    for (count, offset) in &[(0usize, 0u32), (3, 0), (13, 12), (74, 74)] {
        let front = bytes.get(..*count).ok_or("so many bytes")?;
        assert_eq!(rt; fault_of(rt.alloc(), front), Some(*offset));
    }
    Ok(())
}

/// The position of a written record is replaced in place, and nothing else.
#[test]
fn a_record_is_patched(rt: HostRuntime) -> Result<(), Fail> {
    let position = Position {
        state: State::Failure,
        outcome: Outcome::Inconsistent,
        undoable: true,
        reboot: Reboot::Automatic,
        n: 28,
    };
    let entry = entry_in(rt.alloc(), &OLD_RECORD).ok_or("the record is right")?;
    let mut into = [7; 75];
    encode_into(&entry, &mut into);
    patch(&mut into, &position);
    assert!(rt; into.starts_with(b"MUP2\x0a\x04\x01\x02\x1c\x01"));
    assert!(rt; into.ends_with(&OLD_RECORD[10..]));
    Ok(())
}

const TYPE_INFO: &[u8] =
    b"{\"type\":\"single-file\",\"artifact_provides\":{\"app.version\":\"2\"},\"clears_artifact_provides\":[\"app.*\"]}";

/// Whether no reader finds JSON in the bytes.
fn is_no_json(alloc: Global, bytes: &[u8]) -> bool {
    let version = matches!(read_version(alloc, bytes), Ok(false));
    let info = matches!(
        read_type_info(alloc, bytes),
        Err(MetaFault::NotJson(MetaFile::TypeInfo))
    );
    let header = matches!(
        read_header_info(alloc, bytes),
        Err(MetaFault::NotJson(MetaFile::HeaderInfo))
    );
    version & info & header
}

/// A file that is cut off at any byte.
#[test]
fn a_cut_file_is_no_json(rt: HostRuntime) -> Result<(), Fail> {
    assert!(rt; read_type_info(rt.alloc(), TYPE_INFO).is_ok());
    for end in 0..TYPE_INFO.len() {
        let front = TYPE_INFO.get(..end).ok_or("so many bytes")?;
        assert!(rt; is_no_json(rt.alloc(), front), "cut at {end}");
    }
    Ok(())
}

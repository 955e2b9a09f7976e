//! Long texts in pieces, and words that the call below this program's refuses.

ghost use Rattle.std.specs.Prelude.{◌≡◌, ◌+◌, ◌≤◌, length, IfOk};

use super::boots::{calm, site_of};
use super::words::words_of;
use client_top::run;
use device_mem::{AreaBytes, MemDevice};
use device_model::{Device, ROOM};
use io_model::{FileList, MemSink, MemSource};
use std::alloc::Global;
use std::test::Fail;
use upd_text::CallList;

/// The status of the next boot, and its text, whose put with this number fails.
fn told(
    alloc: Global,
    device: &mut MemDevice,
    line: &str,
    put: u64,
) -> Result<(u8, MemSink), Fail> {
    let mut failing = CallList::new(alloc);
    failing.push(put)?;
    let mut out = MemSink::new(alloc, 200_000, failing)?;
    let words = words_of(alloc, line)?;
    let site = site_of(alloc)?;
    let mut source = MemSource::new(FileList::new(alloc), CallList::new(alloc));
    device.power_on();
    if device.room() < ROOM {
        return Err("no room for a boot".into());
    }
    let status = run(
        alloc,
        words.as_slice(),
        &site,
        &mut source,
        &mut out,
        device,
    );
    Ok((status.number(), out))
}

/// The front of a record of version 1 with 131,072 bytes.
const FRONT: &[u8] = b"MUP1\x00\x02\x00\x00\x05\x00\x00\x00\x00\x02\x00\x00\
\x00\x00\x00\x81\x00\x0dartifact_name\x00\x01r";

/// The longest value.
const LONG: [u8; 1_024] = [b'v'; 1_024];

/// The record with this front, and 128 pairs of which the last value has 87 bytes.
fn largest(alloc: Global) -> Result<Vec<u8>, Fail> {
    let mut bytes = Vec::from_slice(alloc, FRONT)?;
    for i in 0..=127u8 {
        let length: u16 = if i < 127 { 1_024 } else { 87 };
        let value = LONG.get(..usize::from(length)).ok_or("a value")?;
        bytes.extend_from_slice(&[0, 3, b'b', b'0' + i / 10, b'0' + i % 10])?;
        bytes.extend_from_slice(&length.to_be_bytes())?;
        bytes.extend_from_slice(value)?;
    }
    bytes.extend_from_slice(b"\x01x\x00")?;
    Ok(bytes)
}

/// A device with this record in slot 0.
fn device_of(alloc: Global, record: &[u8]) -> Result<MemDevice, Fail> {
    let mut area = AreaBytes::zeros(alloc)?;
    if record.len() > 131_072 {
        return Err("no slot has room for it".into());
    }
    area.set(4_096, record);
    Ok(MemDevice::new(alloc, area, ROOM, calm(alloc))?)
}

/// The text has 19 pieces. Where the put of one fails, those before it were written.
#[test]
fn a_sink_that_fails_has_a_front_of_the_text(rt: HostRuntime) -> Result<(), Fail> {
    let record = largest(rt.alloc())?;
    let mut device = device_of(rt.alloc(), &record)?;
    let (status, whole) = told(rt.alloc(), &mut device, "show-provides", 19)?;
    assert_eq!(rt; (status, whole.written().len()), (0, 130_791));
    let mut longest = 0;
    for put in 0..19 {
        let (status, front) = told(rt.alloc(), &mut device, "show-provides", put)?;
        assert_eq!(rt; status, 8);
        assert!(rt; whole.written().starts_with(front.written()));
        assert!(rt; put == 0 && front.written().is_empty() || front.written().len() > longest);
        longest = front.written().len();
    }
    assert!(rt; longest < 130_791);
    Ok(())
}

/// It is written again into the other slot: all but its version and its number of payload types as it was.
#[test]
fn the_largest_record_is_written_again_whole(rt: HostRuntime) -> Result<(), Fail> {
    let record = largest(rt.alloc())?;
    let mut device = device_of(rt.alloc(), &record)?;
    let (status, _) = told(rt.alloc(), &mut device, "show-artifact", 99)?;
    assert_eq!(rt; status, 0);
    let slots = device.area().get(4_096..).ok_or("an area")?;
    assert!(rt; slots.starts_with(&record));
    let written = slots.get(131_072..).ok_or("two slots")?;
    assert!(rt; written.starts_with(b"MUP2\x00\x02\x00\x00\x05\x01\x00\x00"));
    assert!(rt; written.get(12..) == record.get(12..));
    Ok(())
}

/// Nothing is simulated here.
#[test]
fn words_that_are_done_above_are_refused(rt: HostRuntime) -> Result<(), Fail> {
    let mut device = device_of(rt.alloc(), b"")?;
    for (line, text) in [
        ("simulate 1 0", "usage 2 0\n"),
        ("--data x simulate 1 0", "usage 2 2\n"),
    ] {
        let (status, out) = told(rt.alloc(), &mut device, line, 99)?;
        assert_eq!(rt; status, 9);
        assert!(rt; out.written() == text.as_bytes());
    }
    Ok(())
}

//! Calls of the device in memory that the client makes at no moment, or whose answers it doesn't tell.

use super::boots::quiet;
use device_mem::{AreaBytes, LossAt, MemDevice, Script, Tear};
use device_model::{AREA, Answer, Asked, Call, Device, Down, Event, Off, Part, Query, Ran};
use std::alloc::Global;
use std::test::Fail;
use upd_text::{Name, NoMemory, Text32};

/// A device with the bytes 1, 2, 3, 4 at offset 100, and zeros elsewhere.
fn device_of(alloc: Global, script: Script) -> Result<MemDevice, NoMemory> {
    let mut area = AreaBytes::zeros(alloc)?;
    area.set(100, &[1, 2, 3, 4]);
    MemDevice::new(alloc, area, 20, script)
}

/// It loses power at one call.
fn losing(alloc: Global, call: u64, before: bool, tear: Tear) -> Result<MemDevice, NoMemory> {
    let mut script = quiet(alloc);
    script.losses.push(LossAt { call, before, tear })?;
    script.losses.push(LossAt {
        call,
        before: true,
        tear: Tear::New,
    })?;
    device_of(alloc, script)
}

/// It fails at some calls, and loses power before call 3.
fn failing(alloc: Global, faults: &[u64], tear: Tear) -> Result<MemDevice, NoMemory> {
    let mut script = quiet(alloc);
    for fault in faults {
        script.faults.push(*fault)?;
    }
    script.losses.push(LossAt {
        call: 3,
        before: true,
        tear,
    })?;
    device_of(alloc, script)
}

/// Three answers, of which the second is a reply, and a cut of the fourth child.
fn answering(alloc: Global) -> Result<MemDevice, NoMemory> {
    let mut script = quiet(alloc);
    script.answers.push(Answer::Exit(3))?;
    script.answers.push(Answer::Reply(4, Text32::cut(b"text")))?;
    script.answers.push(Answer::NotStarted)?;
    script.supports = Answer::Exit(1);
    script.needs = Answer::Reply(2, Text32::cut(b"Automatic"));
    script.cuts.push(3)?;
    device_of(alloc, script)
}

fn write<D: Device>(device: &mut D, at: u32, bytes: &[u8; 2]) -> Option<Result<(), Down>> {
    if device.room() < 1 || at >= AREA - 2 {
        return None;
    }
    Some(device.disk_write(at, bytes))
}

fn sync<D: Device>(device: &mut D) -> Option<Result<(), Down>> {
    if device.room() < 1 {
        return None;
    }
    Some(device.disk_sync())
}

fn read<D: Device>(device: &mut D) -> Option<[u8; 4]> {
    if device.room() < 1 {
        return None;
    }
    let mut bytes = [0; 4];
    match device.disk_read(100, &mut bytes) {
        Ok(()) => Some(bytes),
        Err(_) => None,
    }
}

/// Whether the second of two writes loses power, and the device is off then.
fn loses_at_the_second(device: &mut MemDevice) -> Option<[bool; 3]> {
    let first = write(device, 100, &[5, 6])? == Ok(());
    let second = write(device, 102, &[7, 8])? == Err(Down::Off);
    let off = sync(device)? == Err(Down::Off);
    Some([first, second, off])
}

/// Whether the journal has a loss alone.
fn has_only_a_loss(device: &MemDevice) -> bool {
    let journal = device.journal();
    journal.len() == 1 && matches!(journal.at(0), Event::Loss) && device.room() == 19
}

#[test]
fn a_device_that_lost_power_is_off(rt: HostRuntime) -> Result<(), Fail> {
    let tears: &[(Tear, [u8; 4])] = &[
        (Tear::Old, [1, 2, 3, 4]),
        (Tear::New, [5, 6, 7, 8]),
        (Tear::Byte(0x10), [0x10; 4]),
        (Tear::Byte(0xff), [0xff; 4]),
    ];
    for &(tear, torn) in tears {
        for before in [true, false] {
            let mut device = losing(rt.alloc(), 1, before, tear)?;
            assert_eq!(rt; loses_at_the_second(&mut device), Some([true; 3]));
            assert!(rt; has_only_a_loss(&device));
            device.power_on();
            assert_eq!(rt; device.journal().room(), 20);
            let left = if before {
                [torn[0], torn[1], 3, 4]
            } else {
                torn
            };
            assert_eq!(rt; read(&mut device), Some(left));
        }
    }
    Ok(())
}

/// What a write and a sync answer, and whether the write can be read.
fn write_and_sync(device: &mut MemDevice) -> Option<[bool; 3]> {
    let wrote = write(device, 100, &[5, 6])? == Ok(());
    let synced = sync(device)? == Ok(());
    let seen = read(device) == Some([5, 6, 3, 4]);
    Some([wrote, synced, seen])
}

/// What stands after a loss.
fn left_by_a_loss(device: &mut MemDevice) -> Option<[u8; 4]> {
    if write(device, 100, &[7, 8])? != Err(Down::Off) {
        return None;
    }
    device.power_on();
    read(device)
}

#[test]
fn faults_come_where_they_are_planned(rt: HostRuntime) -> Result<(), Fail> {
    let rows: &[(&[u64], Tear, [bool; 3], [u8; 4])] = &[
        (&[], Tear::Old, [true, true, true], [5, 6, 3, 4]),
        (&[0], Tear::Old, [false, true, false], [1, 2, 3, 4]),
        (&[1], Tear::Old, [true, false, true], [1, 2, 3, 4]),
        (&[0, 1], Tear::Byte(9), [false, false, false], [9, 9, 3, 4]),
        (&[1, 3], Tear::New, [true, false, true], [5, 6, 3, 4]),
        (&[2], Tear::Byte(9), [true, true, false], [5, 6, 3, 4]),
    ];
    for &(faults, tear, answers, left) in rows {
        let mut device = failing(rt.alloc(), faults, tear)?;
        assert_eq!(rt; write_and_sync(&mut device), Some(answers));
        assert_eq!(rt; left_by_a_loss(&mut device), Some(left));
        assert_eq!(rt; device.area().len(), 266_240);
    }
    Ok(())
}

fn run<D: Device>(device: &mut D) -> Option<Ran> {
    if device.room() < 3 {
        return None;
    }
    Some(device.run_child(&Call::SystemReboot))
}

/// The exit code and the first byte of the reply.
fn ask<D: Device>(device: &mut D, payload: u8, query: Query) -> Option<(u8, Option<u8>)> {
    let kind = Name::read(b"single-file").ok()?;
    if device.room() < 3 {
        return None;
    }
    match device.ask_child(payload, &kind, query) {
        Asked::Reply(code, text) => Some((code, text.bytes().first().copied())),
        Asked::NotStarted => None,
        Asked::Off => None,
    }
}

/// Payload 0 replies `Yes`, and two others reply otherwise.
fn with_others(alloc: Global) -> Result<MemDevice, NoMemory> {
    let mut script = quiet(alloc);
    script.supports = Answer::Reply(0, Text32::cut(b"Yes"));
    script.needs = Answer::Reply(1, Text32::cut(b"Automatic"));
    script.others.push(Answer::Reply(5, Text32::cut(b"No")))?;
    script.others.push(Answer::Exit(6))?;
    device_of(alloc, script)
}

#[test]
fn each_payload_replies_for_itself(rt: HostRuntime) -> Result<(), Fail> {
    let mut device = with_others(rt.alloc())?;
    let rows: &[(u8, (u8, Option<u8>))] = &[
        (0, (0, Some(b'Y'))),
        (1, (5, Some(b'N'))),
        (2, (6, None)),
        (3, (0, Some(b'Y'))),
    ];
    for &(payload, supports) in rows {
        let query = Query::SupportsRollback;
        assert_eq!(rt; ask(&mut device, payload, query), Some(supports));
        let query = Query::NeedsArtifactReboot;
        assert_eq!(rt; ask(&mut device, payload, query), Some((1, Some(b'A'))));
    }
    Ok(())
}

fn pause<D: Device>(device: &mut D) -> Option<Result<(), Off>> {
    if device.room() < 2 {
        return None;
    }
    Some(device.pause(5))
}

#[test]
fn children_end_as_the_script_says(rt: HostRuntime) -> Result<(), Fail> {
    let mut device = answering(rt.alloc())?;
    assert_eq!(rt; run(&mut device), Some(Ran::Exit(3)));
    for (query, reply) in [
        (Query::SupportsRollback, (1, None)),
        (Query::NeedsArtifactReboot, (2, Some(b'A'))),
    ] {
        assert_eq!(rt; ask(&mut device, 0, query), Some(reply));
    }
    for ran in [Ran::Off, Ran::Off] {
        assert_eq!(rt; run(&mut device), Some(ran));
    }
    device.power_on();
    for ran in [Ran::NotStarted, Ran::Exit(0)] {
        assert_eq!(rt; run(&mut device), Some(ran));
    }
    assert_eq!(rt; pause(&mut device), Some(Ok(())));
    assert_eq!(rt; device.journal().len(), 5);
    Ok(())
}

fn append<D: Device>(device: &mut D, path: &[u8], bytes: &[u8]) -> Option<Result<(), Down>> {
    let path = Name::read(path).ok()?;
    if device.room() < 1 {
        return None;
    }
    Some(device.work_append(Part::Tree(0), &path, bytes))
}

fn clear<D: Device>(device: &mut D) -> Option<Result<(), Down>> {
    if device.room() < 1 {
        return None;
    }
    Some(device.work_clear())
}

fn work_sync<D: Device>(device: &mut D) -> Option<Result<(), Down>> {
    if device.room() < 1 {
        return None;
    }
    Some(device.work_sync())
}

/// Whether a child was given this file at this index.
fn is_given(device: &MemDevice, i: u32, path: &[u8], bytes: &[u8]) -> bool {
    let given = device.given();
    if i >= given.len() {
        return false;
    }
    let file = given.at(i);
    *file.part() == Part::Tree(0) && file.path().bytes() == path && file.bytes() == bytes
}

/// How many files a child was given, after three appends and a start, and after a fourth one and a second start.
fn given_counts(device: &mut MemDevice) -> Option<[u32; 3]> {
    for (path, bytes) in [(b"a", b"x"), (b"b", b"z"), (b"a", b"y")] {
        append(device, path, bytes)?.ok()?;
    }
    let none = device.given().len();
    run(device)?;
    let first = device.given().len();
    append(device, b"c", b"")?.ok()?;
    run(device)?;
    Some([none, first, device.given().len()])
}

#[test]
fn a_child_is_given_the_work_folder(rt: HostRuntime) -> Result<(), Fail> {
    for meddle in [false, true] {
        let mut script = quiet(rt.alloc());
        script.meddle = meddle;
        let mut device = device_of(rt.alloc(), script)?;
        assert_eq!(rt; given_counts(&mut device), Some([0, 2, 2]));
        assert!(rt; is_given(&device, 0, b"a", b"xy"));
        assert!(rt; is_given(&device, 1, b"b", b"z"));
        assert_eq!(rt; clear(&mut device), Some(Ok(())));
        assert_eq!(rt; device.given().len(), 0);
        assert_eq!(rt; device.starved(), 0);
    }
    Ok(())
}

/// How many files a child is given, after an append, a sync and a loss.
fn given_after_a_loss(device: &mut MemDevice) -> Option<u32> {
    let _ = append(device, b"a", b"x")?;
    let _ = work_sync(device)?;
    if pause(device)? != Err(Off) {
        return None;
    }
    device.power_on();
    run(device)?;
    Some(device.given().len())
}

#[test]
fn a_loss_takes_a_folder_that_is_not_synced(rt: HostRuntime) -> Result<(), Fail> {
    for (call, before, files) in [(0, false, 0), (1, true, 0), (1, false, 1), (2, true, 1)] {
        let mut device = losing(rt.alloc(), call, before, Tear::Old)?;
        assert_eq!(rt; given_after_a_loss(&mut device), Some(files));
    }
    Ok(())
}

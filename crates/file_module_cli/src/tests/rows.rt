//! The module over a place in memory, with a loss of power at each call.

ghost use Rattle.std.specs.Prelude.{◌≡◌};

use device_mem::{LossAt, LossList, Tear};
use file_module::{FileAct, MemPlace, Slot, act};
use io_model::{FileList, MemSink, MemSource};
use std::alloc::Global;
use std::test::Fail;
use upd_text::CallList;

/// What a row begins with: a target, and losses of power.
#[derive(Clone, Copy)]
struct Row<'a> {
    target: Option<&'a [u8]>,
    losses: &'a [LossAt],
}

fn place_of(alloc: Global, row: &Row<'_>) -> Result<MemPlace, Fail> {
    let mut losses = LossList::new(alloc);
    for loss in row.losses {
        losses.push(*loss)?;
    }
    let mut place = MemPlace::new(alloc, 16, losses, CallList::new(alloc))?;
    if let Some(bytes) = row.target {
        if bytes.len() <= 16 {
            place.set(Slot::Target, bytes);
        }
    }
    Ok(place)
}

fn calls_of(alloc: Global, call: u64) -> Result<CallList, Fail> {
    let mut calls = CallList::new(alloc);
    calls.push(call)?;
    Ok(calls)
}

fn source_of(alloc: Global, paths: &[&str], failing: u64) -> Result<MemSource, Fail> {
    let mut files = FileList::new(alloc);
    files.push(b"header/type", b"one-file")?;
    for path in paths {
        files.push(path.as_bytes(), b"abc")?;
    }
    Ok(MemSource::new(files, calls_of(alloc, failing)?))
}

/// Turns power on, and does what the word says with a buffer of two bytes. The second value is what was written.
fn ask(
    alloc: Global,
    word: &str,
    paths: &[&str],
    place: &mut MemPlace,
) -> Result<(FileAct, MemSink), Fail> {
    let words = [
        String::from_str(alloc, word)?,
        String::from_str(alloc, "work")?,
    ];
    let mut source = source_of(alloc, paths, NEVER)?;
    let mut out = MemSink::new(alloc, 8, CallList::new(alloc))?;
    let mut buffer = [0u8; 2];
    place.power_on();
    let ended = act(&words, &mut source, place, &mut out, &mut buffer);
    Ok((ended, out))
}

const ONE: &[&str] = &["files/app.bin"];

#[test]
fn each_word_is_answered(rt: HostRuntime) -> Result<(), Fail> {
    let rows: &[(&str, FileAct, &[u8])] = &[
        ("SupportsRollback", FileAct::Done, b"Yes"),
        ("NeedsArtifactReboot", FileAct::Done, b"No"),
        ("ArtifactCommit", FileAct::Done, b""),
        ("Download", FileAct::Done, b""),
        ("Cleanup", FileAct::Done, b""),
        ("Upload", FileAct::Usage, b""),
    ];
    for &(word, wanted, text) in rows {
        let mut place = place_of(
            rt.alloc(),
            &Row {
                target: None,
                losses: &[],
            },
        )?;
        let (ended, out) = ask(rt.alloc(), word, ONE, &mut place)?;
        assert_eq!(rt; ended, wanted, "{word}");
        assert_eq!(rt; out.written(), text, "{word}");
    }
    Ok(())
}

#[test]
fn a_rollback_brings_the_target_back(rt: HostRuntime) -> Result<(), Fail> {
    let rows: &[(Option<&[u8]>, &[u8])] = &[
        (Some(b"old"), b"\x01old"),
        (Some(b""), b"\x01"),
        (None, b"\x00"),
    ];
    for &(target, saved) in rows {
        let mut place = place_of(
            rt.alloc(),
            &Row {
                target,
                losses: &[],
            },
        )?;
        let (ended, _) = ask(rt.alloc(), "ArtifactInstall", ONE, &mut place)?;
        assert_eq!(rt; ended, FileAct::Done);
        assert!(rt; place.content(Slot::Target) == Some(b"abc".as_slice()));
        assert!(rt; place.content(Slot::Saved) == Some(saved));
        let (ended, _) = ask(rt.alloc(), "ArtifactRollback", ONE, &mut place)?;
        assert_eq!(rt; ended, FileAct::Done);
        assert!(rt; place.content(Slot::Target) == target);
    }
    Ok(())
}

#[test]
fn there_is_one_payload_file(rt: HostRuntime) -> Result<(), Fail> {
    let rows: &[(&[&str], FileAct)] = &[
        (&[], FileAct::BadPayload(0)),
        (&["files/a", "files/b"], FileAct::BadPayload(2)),
        (&["a", "files/b"], FileAct::Done),
    ];
    for &(paths, wanted) in rows {
        let mut place = place_of(
            rt.alloc(),
            &Row {
                target: None,
                losses: &[],
            },
        )?;
        let (ended, _) = ask(rt.alloc(), "ArtifactInstall", paths, &mut place)?;
        assert_eq!(rt; ended, wanted);
    }
    Ok(())
}

/// A call that no row makes.
const NEVER: u64 = 99;

/// How a word ends where this is saved, and where these calls of the source, the place and the sink fail.
fn ended(alloc: Global, word: &str, saved: &[u8], failing: [u64; 3]) -> Result<FileAct, Fail> {
    let words = [
        String::from_str(alloc, word)?,
        String::from_str(alloc, "work")?,
    ];
    let mut source = source_of(alloc, ONE, failing[0])?;
    let fails = calls_of(alloc, failing[1])?;
    let mut place = MemPlace::new(alloc, 16, LossList::new(alloc), fails)?;
    if saved.len() <= 16 {
        place.set(Slot::Saved, saved);
    }
    let mut out = MemSink::new(alloc, 8, calls_of(alloc, failing[2])?)?;
    let mut buffer = [0u8; 2];
    Ok(act(&words, &mut source, &mut place, &mut out, &mut buffer))
}

#[test]
fn each_answer_has_its_cause(rt: HostRuntime) -> Result<(), Fail> {
    let rows: &[(&str, &[u8], [u64; 3], FileAct)] = &[
        ("ArtifactInstall", b"\x00", [NEVER, NEVER, 0], FileAct::Done),
        ("Install", b"\x00", [0, 0, 0], FileAct::Usage),
        (
            "ArtifactInstall",
            b"\x00",
            [NEVER, 3, 0],
            FileAct::DiskFault,
        ),
        (
            "ArtifactInstall",
            b"\x00",
            [3, NEVER, 0],
            FileAct::SourceFault,
        ),
        ("SupportsRollback", b"\x00", [0, 0, 0], FileAct::SinkFault),
        ("ArtifactRollback", b"", [0, NEVER, 0], FileAct::BadSaved),
        (
            "ArtifactRollback",
            b"\x02",
            [0, NEVER, 0],
            FileAct::BadSaved,
        ),
        ("ArtifactRollback", b"\x01", [0, NEVER, 0], FileAct::Done),
    ];
    for &(word, saved, failing, wanted) in rows {
        let answer = ended(rt.alloc(), word, saved, failing)?;
        assert_eq!(rt; answer, wanted, "{word}");
    }
    assert_eq!(rt; FileAct::BadSaved.number(), 7);
    Ok(())
}

/// Installs with these losses, and then rolls back until that is done. Whether the target was one of the two at each
/// stop, and is the old one at the end; and how many calls were cut off.
fn cut_off(alloc: Global, row: &Row<'_>) -> Result<(bool, u32), Fail> {
    let mut place = place_of(alloc, row)?;
    let mut right = true;
    let mut stops = 0u32;
    for word in ["ArtifactInstall", "ArtifactRollback", "ArtifactRollback"] {
        let (ended, _) = ask(alloc, word, ONE, &mut place)?;
        let target = place.content(Slot::Target);
        let known = target == row.target || target == Some(b"abc".as_slice());
        right = right && known;
        if ended != FileAct::Done && stops < 3 {
            stops += 1;
        }
    }
    right = right && place.content(Slot::Target) == row.target;
    Ok((right, stops))
}

#[test]
fn a_loss_at_each_call_is_survived(rt: HostRuntime) -> Result<(), Fail> {
    let mut stops = 0u64;
    for call in 0..36 {
        for before in [true, false] {
            for tear in [Tear::Old, Tear::New, Tear::Byte(7)] {
                for target in [Some(b"old".as_slice()), None] {
                    let losses = [LossAt { call, before, tear }];
                    let row = Row {
                        target,
                        losses: &losses,
                    };
                    let (right, cut) = cut_off(rt.alloc(), &row)?;
                    assert!(rt; right, "call {call}");
                    stops = stops.saturating_add(u64::from(cut));
                }
            }
        }
    }
    assert!(rt; 0 < stops);
    Ok(())
}

/// What is saved, the target, and what a rollback makes of it.
struct Back {
    saved: &'static [u8],
    target: Option<&'static [u8]>,
    wanted: Option<&'static [u8]>,
}

const BACKS: &[Back] = &[
    Back {
        saved: b"\x01old",
        target: Some(b"old"),
        wanted: Some(b"old"),
    },
    Back {
        saved: b"\x01",
        target: Some(b""),
        wanted: Some(b""),
    },
    Back {
        saved: b"\x00",
        target: None,
        wanted: None,
    },
    Back {
        saved: b"\x01old",
        target: Some(b"olD"),
        wanted: Some(b"old"),
    },
    Back {
        saved: b"\x01old",
        target: Some(b"older"),
        wanted: Some(b"old"),
    },
    Back {
        saved: b"\x01old",
        target: None,
        wanted: Some(b"old"),
    },
];

fn put(place: &mut MemPlace, slot: Slot, bytes: &[u8])
    requires { place.old.room ≡ 16 }
    ensures { place.new.room ≡ place.old.room }
{
    if bytes.len() <= 16 {
        place.set(slot, bytes);
    }
}

/// A place where something fresh was begun.
fn halfway(alloc: Global, back: &Back) -> Result<MemPlace, Fail> {
    let none = LossList::new(alloc);
    let mut place = MemPlace::new(alloc, 16, none, CallList::new(alloc))?;
    put(&mut place, Slot::Fresh, b"half");
    put(&mut place, Slot::Saved, back.saved);
    if let Some(bytes) = back.target {
        put(&mut place, Slot::Target, bytes);
    }
    Ok(place)
}

#[test]
fn a_target_that_is_back_is_not_written(rt: HostRuntime) -> Result<(), Fail> {
    for back in BACKS {
        let mut place = halfway(rt.alloc(), back)?;
        let (ended, _) = ask(rt.alloc(), "ArtifactRollback", ONE, &mut place)?;
        assert_eq!(rt; ended, FileAct::Done);
        assert!(rt; place.content(Slot::Target) == back.wanted);
        assert!(rt; place.content(Slot::Fresh).is_some() == (back.target == back.wanted));
    }
    Ok(())
}

//! What is brought to the disk, and when; and what is left to whom.

use crate::obey;
use crate::tests::noting::Noting;
use file_module::FileAct;
use host_edge::Failures;
use std::cell::RefCell;
use std::fs;
use std::os::unix::fs::PermissionsExt;
use std::rt::Files;
use std::test::Fail;

/// A word, and what it does in order.
struct Row {
    word: &'static str,
    notes: &'static str,
}

const ROWS: &[Row] = &[
    Row {
        word: "Download",
        notes: "sync root, sync target, sync root, sync root, ",
    },
    Row {
        word: "ArtifactInstall",
        notes: "sync root, sync target, \
make fresh, write fresh, write fresh, sync fresh, sync root, \
set fresh, sync fresh, move to saved, sync root, \
make fresh, write fresh, sync fresh, sync root, \
own fresh, set fresh, sync fresh, move to target, sync root, ",
    },
    Row {
        word: "ArtifactRollback",
        notes: "sync root, sync target, \
make fresh, write fresh, sync fresh, sync root, \
own fresh, set fresh, sync fresh, move to target, sync root, ",
    },
    Row {
        word: "ArtifactRollback",
        notes: "sync root, sync target, ",
    },
    Row {
        word: "Cleanup",
        notes: "sync root, remove saved, sync root, sync root, ",
    },
];

/// How a word ends, and what it notes.
fn noted(rt: &HostRuntime, word: &str, owns: bool) -> Result<(FileAct, String), Fail> {
    let notes = RefCell::new(String::new(rt.alloc()));
    let words = [
        String::from_str(rt.alloc(), word)?,
        String::from_str(rt.alloc(), "synced/work/0000")?,
    ];
    let noting = Noting {
        rt,
        notes: &notes,
        owns,
    };
    let mut failures = Failures::none();
    let Ok(ended) = obey(noting, rt.alloc(), &words, false, &mut failures) else {
        return Err("it didn't start".into());
    };
    Ok((ended, notes.into_inner()))
}

/// A work folder with one payload file, and a target with this mode.
fn make(rt: &HostRuntime, mode: u32) -> Result<(), Fail> {
    fs::create_dir_all(rt, "synced/work/0000/files")?;
    fs::create_dir(rt, "synced/root")?;
    fs::write(rt, "synced/work/0000/files/app.bin", b"abc")?;
    fs::write(rt, "synced/root/target", b"old")?;
    let mode = fs::Permissions::from_mode(mode);
    Ok(fs::set_permissions(rt, "synced/root/target", mode)?)
}

#[test]
fn each_change_is_synced_in_its_order(rt: HostRuntime) -> Result<(), Fail> {
    make(&rt, 0o644)?;
    for row in ROWS {
        let (ended, notes) = noted(&rt, row.word, true)?;
        assert_eq!(rt; ended, FileAct::Done);
        assert_eq!(rt; notes.as_str(), row.notes);
    }
    rt.remove_dir_all(rt.alloc(), "synced")?;
    Ok(())
}

fn mode_of(rt: &HostRuntime, path: &str) -> Result<u32, Fail> {
    Ok(fs::metadata(rt, path)?.permissions().mode() & 0o7777)
}

/// The modes of the target and of what is saved, behind an installation.
fn modes_behind(rt: &HostRuntime, owns: bool) -> Result<[u32; 2], Fail> {
    make(rt, 0o6755)?;
    noted(rt, "ArtifactInstall", owns)?;
    let target = mode_of(rt, "synced/root/target")?;
    let saved = mode_of(rt, "synced/root/target.saved")?;
    rt.remove_dir_all(rt.alloc(), "synced")?;
    Ok([target, saved])
}

#[test]
fn an_owner_that_is_denied_costs_bits(rt: HostRuntime) -> Result<(), Fail> {
    assert!(rt; modes_behind(&rt, true)? == [0o6755, 0o755]);
    assert!(rt; modes_behind(&rt, false)? == [0o755, 0o755]);
    Ok(())
}

#[test]
fn one_program_at_a_time(rt: HostRuntime) -> Result<(), Fail> {
    make(&rt, 0o644)?;
    let other = fs::open(&rt, "synced/root")?;
    assert!(rt; other.try_lock().is_ok());
    let (ended, notes) = noted(&rt, "ArtifactInstall", true)?;
    assert_eq!(rt; ended, FileAct::DiskFault);
    assert_eq!(rt; notes.as_str(), "");
    drop(other);
    let (ended, _) = noted(&rt, "ArtifactInstall", true)?;
    assert_eq!(rt; ended, FileAct::Done);
    rt.remove_dir_all(rt.alloc(), "synced")?;
    Ok(())
}

//! Texts, and the notes that are read of them.

use crate::{ReadFault, read_notes, write_note};
use io_model::MemSink;
use std::alloc::Global;
use std::test::Fail;
use upd_text::CallList;

const FROM: &str = "boot install\nfrom Idle Undecided 0 No 0\n";

/// Each form of a line.
const ALL: &str =
    "boot resume-stop\nfrom VerifyReboot Undecided 1 Automatic 28\nkind a\nkind b c\nscript ArtifactCommit_Leave_00\n\
script ArtifactInstall_Enter_05_x\nsite Download_Error_99\nmodule 1 ArtifactVerifyRollbackReboot\nexit 255\nask 0 NeedsArtifactReboot\n\
reply 7 00ff0a\nask 1 SupportsRollback\nreply 0 -\nrun any name\nnot-started\nreboot\nexit 21\npause 4294967295\nloss\n\
end ended Inconsistent\nboot rollback\nfrom Idle Kept 0 No 3\npause 60\nend none\n";

/// The texts of all notes of a text.
fn told(alloc: Global, text: &str) -> Result<MemSink, Fail> {
    let text = text.as_bytes();
    if text.len() > 4_096 {
        return Err("a short text".into());
    }
    let mut sink = MemSink::new(alloc, 4_096, CallList::new(alloc))?;
    let notes = read_notes(alloc, text).ok().ok_or("notes")?;
    for note in notes.as_slice() {
        let written = write_note(&note.head, &note.events, note.end, &mut sink);
        written.ok().ok_or("room")?;
    }
    Ok(sink)
}

#[test]
fn what_is_read_is_told_again(rt: HostRuntime) -> Result<(), Fail> {
    let twice = format!(in rt.alloc(); "{ALL}{ALL}")?;
    for text in ["", ALL, twice.as_str()] {
        let sink = told(rt.alloc(), text)?;
        assert_eq!(rt; sink.written(), text.as_bytes());
    }
    Ok(())
}

#[test]
fn the_first_bad_line_is_told(rt: HostRuntime) -> Result<(), Fail> {
    let rows = [
        ("exit 01\n", 4),
        ("exit 256\n", 4),
        ("reply 0 AA\n", 4),
        ("reply 0 0\n", 4),
        ("module 1 Download\n", 4),
        ("module 0 SupportsRollbacks\n", 4),
        ("kind b\nkind a/\x01\n", 5),
        (
            "site Download_Enter_00\nscript ArtifactCommit_Leave_00\n",
            5,
        ),
        (
            "script ArtifactCommit_Leave_00\nscript ArtifactCommit_Leave_00\n",
            5,
        ),
        ("exit 0\nkind b\n", 5),
        ("end none\n", 4),
        ("end halted", 4),
        ("end halted\nx\n", 5),
        ("", 4),
        (
            "kind a\nkind a\nkind a\nkind a\nkind a\nkind a\nkind a\nkind a\n",
            11,
        ),
    ];
    for (rest, wanted) in rows {
        let text = format!(in rt.alloc(); "{FROM}kind a\n{rest}")?;
        let read = read_notes(rt.alloc(), text.as_bytes());
        assert!(rt; read.err() == Some(ReadFault::BadLine(wanted)), "at {rest}");
    }
    Ok(())
}

#[test]
fn a_head_is_read_first(rt: HostRuntime) -> Result<(), Fail> {
    let rows = [
        ("\n", 1),
        ("boot", 1),
        ("boot install", 1),
        ("boot install\n", 2),
        ("boot install\nfrom Idle Undecided 0 No 1\n", 2),
        ("boot install\nfrom Idle Undecided 0 No 00\n", 2),
        (
            "boot install\nfrom Idle Undecided 0 No 0\nscript ArtifactCommit_Leave_00\n",
            3,
        ),
        ("boot install\nfrom Idle Undecided 0 No 0\nend waits\n", 3),
    ];
    for (text, wanted) in rows {
        let read = read_notes(rt.alloc(), text.as_bytes());
        assert!(rt; read.err() == Some(ReadFault::BadLine(wanted)), "at {text}");
    }
    Ok(())
}

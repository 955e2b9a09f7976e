//! Trees with a transcript.

use crate::{TraceStatus, check_trace};
use io_model::{FileList, MemSink, MemSource};
use std::alloc::Global;
use std::test::Fail;
use upd_text::CallList;

const UP_TO_COMMIT: &str =
    "boot install\nfrom Idle Undecided 0 No 0\nkind single-file\nmodule 0 Download\nexit 0\n\
ask 0 SupportsRollback\nreply 0 -\nmodule 0 ArtifactInstall\nexit 0\nask 0 NeedsArtifactReboot\nreply 0 -\n";

const CLEANUP: &str = "module 0 Cleanup\nexit 0\nend ended Committed\n";

/// What is answered of a tree of two files, and the text of that.
fn checked(
    alloc: Global,
    first: (&str, &str),
    second: (&str, &str),
    failing: CallList,
) -> Result<(TraceStatus, MemSink), Fail> {
    let mut list = FileList::new(alloc);
    for (path, text) in [first, second] {
        let bytes = text.as_bytes();
        if bytes.len() > 4_096 {
            return Err("a short text".into());
        }
        list.push(path.as_bytes(), bytes)?;
    }
    let mut source = MemSource::new(list, CallList::new(alloc));
    let mut sink = MemSink::new(alloc, 64, failing)?;
    let status = check_trace(alloc, &mut source, &mut sink);
    Ok((status, sink))
}

#[test]
fn trees_are_checked(rt: HostRuntime) -> Result<(), Fail> {
    let alloc = rt.alloc();
    let well = format!(in alloc; "{UP_TO_COMMIT}module 0 ArtifactCommit\nexit 0\n{CLEANUP}")?;
    let broken = format!(in alloc; "{UP_TO_COMMIT}{CLEANUP}")?;
    let unread = format!(in alloc; "{broken}boot\n")?;
    let again = format!(in alloc; "{well}{broken}")?;
    let at_eight = TraceStatus::Broken { note: 0, event: 8 };
    let apart = TraceStatus::Broken { note: 1, event: 0 };
    let rows = [
        ("a", "trace", "b", TraceStatus::NoTrace, "no trace\n"),
        ("a", "x", "trace", TraceStatus::Path, "path\n"),
        ("trace", well.as_str(), "b", TraceStatus::Path, "path\n"),
        (
            "trace",
            "boot\n",
            "trace",
            TraceStatus::BadLine(1),
            "bad line 1\n",
        ),
        ("trace", broken.as_str(), "b", at_eight, "broken 0 8\n"),
        (
            "trace",
            unread.as_str(),
            "b",
            TraceStatus::BadLine(15),
            "bad line 15\n",
        ),
        ("trace", again.as_str(), "b", apart, "broken 1 0\n"),
    ];
    for (path, text, other, wanted, told) in rows {
        let (status, sink) = checked(alloc, (path, text), (other, ""), CallList::new(alloc))?;
        assert_eq!(rt; status, wanted);
        assert_eq!(rt; sink.written(), told.as_bytes());
    }
    Ok(())
}

#[test]
fn a_sink_that_fails_is_told(rt: HostRuntime) -> Result<(), Fail> {
    let mut failing = CallList::new(rt.alloc());
    failing.push(0)?;
    let (status, sink) = checked(rt.alloc(), ("trace", ""), ("b", ""), failing)?;
    assert_eq!(rt; status, TraceStatus::SinkFault);
    assert_eq!(rt; status.number(), 6);
    assert!(rt; sink.written().is_empty());
    Ok(())
}

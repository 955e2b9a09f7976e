//! Boots in a row, their verdicts and their texts.

mod reading;
mod trees;

ghost use Rattle.std.specs.Prelude.{◌≤◌, All, IfOk, length};
ghost use Rattle.flow_table.specs.declared.table.TheConstants.{MOST_KINDS};

use crate::{Deed, Note, NoteEnd, NoteHead, NoteList, Verdict, judge, write_note};
use device_model::{Answer, Call, Event, EventList, ModuleWord};
use flow_table::{Outcome, Position, Reboot, State};
use io_model::{MemSink, SinkFault};
use script_names::ScriptList;
use std::alloc::Global;
use std::test::Fail;
use upd_text::{CallList, KindList, Name, Text32, read_decimal};

/// What is noted of a boot that has one payload type, or none.
#[derive(Clone, Copy)]
struct Boot {
    deed: Deed,
    from: Position,
    kind: &'static str,
    /// Words: that by which the module is called, the exit code of a call, `=` and the reply to a question, `loss`.
    events: &'static str,
    end: NoteEnd,
}

fn at(state: State, outcome: Outcome, undoable: bool, n: u8) -> Position {
    Position {
        state,
        outcome,
        undoable,
        reboot: Reboot::No,
        n,
    }
}

fn empty() -> Position {
    at(State::Idle, Outcome::Undecided, false, 0)
}

fn noted(deed: Deed, from: Position, events: &'static str, end: NoteEnd) -> Boot {
    Boot {
        deed,
        from,
        kind: "single-file",
        events,
        end,
    }
}

fn call(kind: &Name, word: ModuleWord) -> Event {
    let kind = kind.twin();
    Event::Start(match word {
        ModuleWord::State(state) => Call::Module {
            payload: 0,
            kind,
            state,
        },
        ModuleWord::Ask(query) => Call::Ask {
            payload: 0,
            kind,
            query,
        },
    })
}

fn event(kind: &Name, word: &str) -> Result<Event, Fail> {
    if let Some(word) = ModuleWord::read(word.as_bytes()) {
        return Ok(call(kind, word));
    }
    if let Some(text) = word.strip_prefix('=') {
        return Ok(Event::End(Answer::Reply(0, Text32::cut(text.as_bytes()))));
    }
    if word == "loss" {
        return Ok(Event::Loss);
    }
    match read_decimal(word.as_bytes()) {
        Some(code) if code < 256 => Ok(Event::End(Answer::Exit(code as u8))),
        _ => Err("a word of an event".into()),
    }
}

fn journal(alloc: Global, kind: &Name, words: &str) -> Result<EventList, Fail> {
    let mut events = EventList::new(alloc);
    for word in words.split_ascii_whitespace() {
        events.push(event(kind, word)?)?;
    }
    Ok(events)
}

fn note(alloc: Global, boot: &Boot) -> Result<Note, Fail>
    ensures { IfOk result (λ note. length note.head.kinds ≤ MOST_KINDS) }
{
    let mut kinds = KindList::new(alloc);
    let mut events = EventList::new(alloc);
    if let Ok(kind) = Name::read(boot.kind.as_bytes()) {
        events = journal(alloc, &kind, boot.events)?;
        kinds.push(kind)?;
    }
    Ok(Note {
        head: NoteHead {
            deed: boot.deed,
            from: boot.from,
            kinds,
            scripts: ScriptList::new(alloc),
            site: ScriptList::new(alloc),
        },
        events,
        end: boot.end,
    })
}

fn verdict(alloc: Global, boots: &[Boot]) -> Result<Verdict, Fail> {
    let notes = notes(alloc, boots)?;
    Ok(judge(&notes))
}

fn notes(alloc: Global, boots: &[Boot]) -> Result<NoteList, Fail>
    ensures { IfOk result (λ notes. All (λ note. length note.head.kinds ≤ MOST_KINDS) notes) }
{
    let mut notes = NoteList::new(alloc);
    for boot in boots {
        notes.push(note(alloc, boot)?)?;
    }
    Ok(notes)
}

fn broken(note: u32, event: u32) -> Verdict {
    Verdict::Broken { note, event }
}

const WHOLE: &str =
    "Download 0 SupportsRollback = ArtifactInstall 0 NeedsArtifactReboot = ArtifactCommit 0 Cleanup 0";

const UP_TO_COMMIT: &str =
    "Download 0 SupportsRollback = ArtifactInstall 0 NeedsArtifactReboot = ArtifactCommit 0";

const WITHOUT_COMMIT: &str =
    "Download 0 SupportsRollback = ArtifactInstall 0 NeedsArtifactReboot = Cleanup 0";

const COMMITTED: NoteEnd = NoteEnd::Ended(Outcome::Committed);

#[test]
fn a_deployment_that_goes_well(rt: HostRuntime) -> Result<(), Fail> {
    let alloc = rt.alloc();
    let first = noted(Deed::Install, empty(), WHOLE, COMMITTED);
    let again = Boot {
        from: at(State::Idle, Outcome::Committed, false, 5),
        ..first
    };
    let uncommitted = Boot {
        events: WITHOUT_COMMIT,
        ..first
    };
    let kept = Boot {
        end: NoteEnd::Ended(Outcome::Kept),
        ..first
    };
    assert_eq!(rt; verdict(alloc, &[])?, Verdict::Path);
    assert_eq!(rt; verdict(alloc, &[first])?, Verdict::Path);
    assert_eq!(rt; verdict(alloc, &[first, again])?, Verdict::Path);
    assert_eq!(rt; verdict(alloc, &[first, first])?, broken(1, 0));
    assert_eq!(rt; verdict(alloc, &[uncommitted])?, broken(0, 8));
    assert_eq!(rt; verdict(alloc, &[kept])?, broken(0, 12));
    Ok(())
}

/// A boot that lost its power before the second position was put, and one that resumed from there.
#[test]
fn boots_that_lost_power(rt: HostRuntime) -> Result<(), Fail> {
    let alloc = rt.alloc();
    let halted = |events| noted(Deed::Install, empty(), events, NoteEnd::Halted);
    let cut = halted("Download 0 SupportsRollback =Yes loss");
    let download = noted(
        Deed::Resume,
        at(State::Download, Outcome::Undecided, false, 1),
        "Cleanup 0",
        NoteEnd::Ended(Outcome::Kept),
    );
    let install = noted(
        Deed::Resume,
        at(State::Install, Outcome::Undecided, true, 2),
        "ArtifactRollback 0 ArtifactFailure 0 Cleanup 0",
        NoteEnd::Ended(Outcome::RolledBack),
    );
    let other = Boot {
        kind: "other",
        ..halted("")
    };
    let rows: [(&[Boot], Verdict); 8] = [
        (&[cut, download], Verdict::Path),
        (&[cut, install], Verdict::Path),
        (&[cut, other], broken(1, 0)),
        (&[halted("loss"), other], Verdict::Path),
        (&[halted(""), download], Verdict::Path),
        (&[halted("Download"), download], Verdict::Path),
        (&[halted("Download"), install], broken(1, 0)),
        (&[halted("Download loss 0")], broken(0, 1)),
    ];
    for (boots, wanted) in rows {
        assert_eq!(rt; verdict(alloc, boots)?, wanted);
    }
    Ok(())
}

/// Power was lost when all children of Commit had ended well: CommitLeave has no script here, so each of three positions may
/// be the one that stands.
#[test]
fn a_halt_has_several_positions(rt: HostRuntime) -> Result<(), Fail> {
    let alloc = rt.alloc();
    let halted = noted(Deed::Install, empty(), UP_TO_COMMIT, NoteEnd::Halted);
    let failed = |state, n| {
        noted(
            Deed::Resume,
            at(state, Outcome::Undecided, false, n),
            "ArtifactFailure 0 Cleanup 0",
            NoteEnd::Ended(Outcome::Inconsistent),
        )
    };
    let cleaned = |state, n| {
        noted(
            Deed::Resume,
            at(state, Outcome::Committed, false, n),
            "Cleanup 3",
            COMMITTED,
        )
    };
    assert_eq!(rt;
        verdict(alloc, &[halted, failed(State::Commit, 3)])?,
        Verdict::Path
    );
    assert_eq!(rt;
        verdict(alloc, &[halted, cleaned(State::CommitLeave, 4)])?,
        Verdict::Path
    );
    assert_eq!(rt;
        verdict(alloc, &[halted, cleaned(State::Cleanup, 5)])?,
        Verdict::Path
    );
    assert_eq!(rt;
        verdict(alloc, &[halted, cleaned(State::Cleanup, 6)])?,
        broken(1, 0)
    );
    assert_eq!(rt;
        verdict(alloc, &[halted, failed(State::Install, 2)])?,
        broken(1, 0)
    );
    Ok(())
}

/// What is written of a boot, where the put with this number fails.
fn told(alloc: Global, boot: &Boot, failing: u64) -> Result<(MemSink, bool), Fail> {
    let mut calls = CallList::new(alloc);
    calls.push(failing)?;
    let mut sink = MemSink::new(alloc, 4_096, calls)?;
    let note = note(alloc, boot)?;
    let written = write_note(&note.head, &note.events, note.end, &mut sink);
    Ok((sink, written.is_ok()))
}

#[test]
fn a_note_has_a_text(rt: HostRuntime) -> Result<(), Fail> {
    let alloc = rt.alloc();
    let cut = noted(
        Deed::ResumeStop,
        at(State::Download, Outcome::Undecided, false, 1),
        "Download 255 SupportsRollback =No loss",
        NoteEnd::Halted,
    );
    let text =
        b"boot resume-stop\nfrom Download Undecided 0 No 1\nkind single-file\nmodule 0 Download\nexit 255\n\
ask 0 SupportsRollback\nreply 0 4e6f\nloss\nend halted\n";
    let (sink, written) = told(alloc, &cut, 100)?;
    assert!(rt; written);
    assert_eq!(rt; sink.written(), text.as_slice());
    let idle = Boot {
        kind: "",
        ..noted(Deed::Commit, empty(), "", NoteEnd::Nothing)
    };
    let (sink, written) = told(alloc, &idle, 100)?;
    assert!(rt; written);
    assert_eq!(rt;
        sink.written(),
        b"boot commit\nfrom Idle Undecided 0 No 0\nend none\n".as_slice()
    );
    Ok(())
}

#[test]
fn other_notes_have_none(rt: HostRuntime) -> Result<(), Fail> {
    let alloc = rt.alloc();
    let nowhere = at(State::Idle, Outcome::Undecided, false, 1);
    for boot in [
        noted(Deed::Commit, empty(), "", NoteEnd::Nothing),
        noted(Deed::Install, nowhere, "", NoteEnd::Halted),
    ] {
        let (sink, written) = told(alloc, &boot, 100)?;
        assert!(rt; written);
        assert!(rt; sink.written().is_empty());
    }
    Ok(())
}

#[test]
fn a_text_is_cut_where_the_sink_fails(rt: HostRuntime) -> Result<(), Fail> {
    let whole = noted(Deed::Install, empty(), "Download", NoteEnd::Halted);
    for (failing, front) in [
        (0, ""),
        (1, "boot install\n"),
        (
            4,
            "boot install\nfrom Idle Undecided 0 No 0\nkind single-file\nmodule 0 Download\n",
        ),
    ] {
        let (sink, written) = told(rt.alloc(), &whole, failing)?;
        assert!(rt; !written);
        assert_eq!(rt; sink.written(), front.as_bytes());
    }
    Ok(())
}

//! Runs over a device in memory.

use crate::{Mode, RunEnd, run_due};
use device_mem::{AnswerList, AreaBytes, LossAt, LossList, MemDevice, Script, Tear};
use device_model::{Answer, Event, EventList};
use script_names::{Action, Place, ScriptList, ScriptName, Stage, due};
use std::alloc::Global;
use std::test::Fail;
use upd_text::{CallList, Name, NoMemory};

const ENTER: Place = Place {
    stage: Stage::Install,
    action: Action::Enter,
};

fn listed(alloc: Global, texts: &[&str]) -> Option<ScriptList> {
    let mut list = ScriptList::new(alloc);
    for text in texts {
        let name = Name::read(text.as_bytes()).ok()?;
        list.add(ScriptName::read(&name)?).ok()?;
    }
    Some(list)
}

/// So many children that exit 21, and then these; a child without a code is not started.
fn answers(alloc: Global, again: u32, then: &[Option<u8>]) -> Result<AnswerList, NoMemory> {
    let mut list = AnswerList::new(alloc);
    for _ in 0..again {
        list.push(Answer::Exit(21))?;
    }
    for code in then {
        list.push(match code {
            Some(code) => Answer::Exit(*code),
            None => Answer::NotStarted,
        })?;
    }
    Ok(list)
}

fn script_of(alloc: Global, answers: AnswerList, losses: LossList, cuts: CallList) -> Script {
    Script {
        answers,
        supports: Answer::Exit(0),
        needs: Answer::Exit(0),
        others: AnswerList::new(alloc),
        losses,
        cuts,
        faults: CallList::new(alloc),
        meddle: false,
    }
}

/// How the run of these scripts ends, and the device after it.
fn ran(
    alloc: Global,
    scripts: &ScriptList,
    mode: Mode,
    script: Script,
) -> Result<(RunEnd, MemDevice), NoMemory> {
    let area = AreaBytes::zeros(alloc)?;
    let mut device = MemDevice::new(alloc, area, 6_000, script)?;
    let end = run_due(&mut device, due(scripts, ENTER), mode);
    Ok((end, device))
}

/// How many children were started, and how many pauses of 60 seconds there were.
fn counts(journal: &EventList) -> (u32, u32) {
    let mut starts = 0u32;
    let mut pauses = 0u32;
    for i in 0..journal.len() {
        match journal.at(i) {
            Event::Start(_) => starts = starts.saturating_add(1),
            Event::Pause(60) => pauses = pauses.saturating_add(1),
            _ => {}
        }
    }
    (starts, pauses)
}

const ONE: &[&str] = &["ArtifactInstall_Enter_00"];

const TWO: &[&str] = &["ArtifactInstall_Enter_05_b", "ArtifactInstall_Enter_05_a"];

#[derive(Clone, Copy)]
struct Row {
    scripts: &'static [&'static str],
    mode: Mode,
    again: u32,
    then: &'static [Option<u8>],
    end: RunEnd,
    starts: u32,
    pauses: u32,
}

fn make_row(
    scripts: &'static [&'static str],
    mode: Mode,
    again: u32,
    then: &'static [Option<u8>],
    end: RunEnd,
    counts: (u32, u32),
) -> Row {
    Row {
        scripts,
        mode,
        again,
        then,
        end,
        starts: counts.0,
        pauses: counts.1,
    }
}

#[test]
fn scripts_run_by_their_mode(rt: HostRuntime) -> Result<(), Fail> {
    use Mode::{Checked, Ignored, Once};
    use RunEnd::{Done, Failed};
    let rows = [
        make_row(&[], Checked, 0, &[], Done, (0, 0)),
        make_row(ONE, Checked, 30, &[Some(0)], Done, (31, 30)),
        make_row(ONE, Checked, 31, &[], Failed, (31, 30)),
        make_row(ONE, Checked, 29, &[Some(1)], Failed, (30, 29)),
        make_row(TWO, Checked, 0, &[Some(1)], Failed, (1, 0)),
        make_row(TWO, Checked, 0, &[None], Failed, (1, 0)),
        make_row(TWO, Checked, 0, &[Some(0), Some(0)], Done, (2, 0)),
        make_row(TWO, Ignored, 0, &[Some(1), Some(0)], Done, (2, 0)),
        make_row(TWO, Ignored, 31, &[None], Done, (32, 30)),
        make_row(TWO, Once, 0, &[Some(1), Some(21)], Done, (2, 0)),
    ];
    for row in rows {
        let scripts = listed(rt.alloc(), row.scripts).ok_or("the names are scripts")?;
        let answers = answers(rt.alloc(), row.again, row.then)?;
        let none = CallList::new(rt.alloc());
        let script = script_of(rt.alloc(), answers, LossList::new(rt.alloc()), none);
        let (end, device) = ran(rt.alloc(), &scripts, row.mode, script)?;
        assert_eq!(rt; end, row.end);
        assert_eq!(rt; counts(device.journal()), (row.starts, row.pauses));
    }
    Ok(())
}

#[test]
fn scripts_run_in_byte_order(rt: HostRuntime) -> Result<(), Fail> {
    let scripts = listed(rt.alloc(), TWO).ok_or("the names are scripts")?;
    let none = AnswerList::new(rt.alloc());
    let losses = LossList::new(rt.alloc());
    let script = script_of(rt.alloc(), none, losses, CallList::new(rt.alloc()));
    let (end, device) = ran(rt.alloc(), &scripts, Mode::Checked, script)?;
    assert_eq!(rt; end, RunEnd::Done);
    let journal = device.journal();
    assert_eq!(rt; journal.len(), 4);
    for (i, text) in [(0, TWO[1]), (2, TWO[0])] {
        let is_here = match journal.at(i) {
            Event::Start(device_model::Call::Script(name)) => name.bytes() == text.as_bytes(),
            _ => false,
        };
        assert!(rt; is_here);
    }
    Ok(())
}

/// A run in which power is lost at a call of the device, before it or after it.
fn lost_at(alloc: Global, call: u64, before: bool) -> Result<Option<(RunEnd, u32, u32)>, NoMemory> {
    let Some(scripts) = listed(alloc, ONE) else {
        return Ok(None);
    };
    let mut losses = LossList::new(alloc);
    losses.push(LossAt {
        call,
        before,
        tear: Tear::New,
    })?;
    let answers = answers(alloc, 1, &[])?;
    let script = script_of(alloc, answers, losses, CallList::new(alloc));
    let (end, device) = ran(alloc, &scripts, Mode::Checked, script)?;
    let (starts, pauses) = counts(device.journal());
    Ok(Some((end, starts, pauses)))
}

#[test]
fn a_loss_ends_a_run(rt: HostRuntime) -> Result<(), Fail> {
    // the call, before or after it, and the children and pauses that are in the journal then
    let rows = [
        (0, true, (RunEnd::Off, 0, 0)),
        (0, false, (RunEnd::Off, 1, 0)),
        (1, true, (RunEnd::Off, 1, 0)),
        (1, false, (RunEnd::Off, 1, 1)),
        (2, true, (RunEnd::Off, 1, 1)),
        (2, false, (RunEnd::Off, 2, 1)),
        (3, true, (RunEnd::Done, 2, 1)),
    ];
    for (call, before, wanted) in rows {
        assert_eq!(rt; lost_at(rt.alloc(), call, before)?, Some(wanted));
    }
    Ok(())
}

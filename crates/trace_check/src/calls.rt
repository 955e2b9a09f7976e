//! Reading the events of a state.

ghost use Rattle.std.specs.Prelude.{◌≡◌, ◌≤◌, length, true, Ok};
ghost use Rattle.device_model.specs.declared.calls.Call.TheVariants as a_call;
ghost use Rattle.flow_words.specs.Words.{scripts_of, due_at, scripts, errors, calls, word, word_at, calls_every, is_ignored, child_good, modules, child_calls, main_call, heard, is_failed, together, one_question, questions, question};
ghost use Rattle.flow_table.specs.declared.table.Heard.TheVariants as heard;
ghost use Rattle.script_names.specs.Left.{left};
ghost use Rattle.trace_check.specs.Reading.{read};
ghost use Rattle.trace_check.specs.Follows.{callees};

use crate::note::NoteHead;
use crate::read::{Stop, is_success, read_call, read_run};
use device_model::{Answer, Call, Event, ModState, Query};
use flow_table::{Heard, MOST_KINDS, Position, Reboot, read_needs, read_supports};
use flow_words::{Child, Main, MainMode, Mode, Row, StageRun, row_at};
use script_names::{Action, DueNames, Place, ScriptList, Stage, due};
use upd_text::{KindList, Name};

/// One child, which is good where it exits 0.
fn read_good(events: &[Event], at: usize, call: &Call) -> Result<(bool, usize), Stop>
    ensures { result ≡ read events.now (child_good call.now) at }
{
    let (answer, next) = read_call(events, at, call)?;
    Ok((is_success(&answer), next))
}

/// The modules of all payloads in turn, up to and with the first that fails, or every one.
fn read_modules(
    events: &[Event],
    at: usize,
    kinds: &[Name],
    state: ModState,
    every: bool,
) -> Result<(bool, usize), Stop>
    requires few { length kinds.now ≤ MOST_KINDS }
    ensures { result ≡ read events.now (modules 0 kinds.now state every true) at }
{
    let mut at = at;
    let mut good = true;
    for (k, kind) in kinds.iter().enumerate() {
        let call = Call::Module {
            payload: k as u8,
            kind: kind.twin(),
            state,
        };
        let (ok, next) = read_good(events, at, &call)?;
        if !ok && !every {
            return Ok((false, next));
        }
        good = good && ok;
        at = next;
    }
    Ok((good, at))
}

/// The modules, or the reboot of the system.
fn read_children(
    events: &[Event],
    at: usize,
    kinds: &KindList,
    child: Child,
    every: bool,
) -> Result<(bool, usize), Stop>
    requires few { length kinds.now ≤ MOST_KINDS }
    ensures { result ≡ read events.now (child_calls kinds.now child every) at }
{
    match child {
        Child::Module(state) => read_modules(events, at, kinds.as_slice(), state, every),
        Child::SystemReboot => read_good(events, at, &Call::SystemReboot),
    }
}

fn calls_every(mode: MainMode) -> bool
    ensures { result ≡ calls_every mode }
{
    !matches!(mode, MainMode::Checked)
}

fn is_ignored(mode: MainMode) -> bool
    ensures { result ≡ is_ignored mode }
{
    matches!(mode, MainMode::Ignored)
}

/// The main call.
fn read_main(
    events: &[Event],
    at: usize,
    kinds: &KindList,
    main: Option<Main>,
) -> Result<(bool, usize), Stop>
    requires few { length kinds.now ≤ MOST_KINDS }
    ensures { result ≡ read events.now (main_call kinds.now main) at }
{
    match main {
        None => Ok((true, at)),
        Some(main) => {
            let (good, next) = read_children(
                events,
                at,
                kinds,
                main.child,
                calls_every(main.mode),
            )?;
            Ok((is_ignored(main.mode) || good, next))
        }
    }
}

/// What a reply means.
fn heard(query: Query, answer: &Answer) -> Heard
    ensures { result ≡ heard query answer.now }
{
    match answer {
        Answer::Reply(code, text) => match query {
            Query::SupportsRollback => match read_supports(*code, text) {
                Some(can) => Heard::Undoable(can),
                None => Heard::Failed,
            },
            Query::NeedsArtifactReboot => match read_needs(*code, text) {
                Some(reboot) => Heard::Needs(reboot),
                None => Heard::Failed,
            },
        },
        Answer::Exit(_) => Heard::Failed,
        Answer::NotStarted => Heard::Failed,
    }
}

fn is_failed(heard: Heard) -> bool
    ensures { result ≡ is_failed heard }
{
    matches!(heard, Heard::Failed)
}

/// What two replies mean together.
fn together(so_far: Heard, heard: Heard) -> Heard
    ensures { result ≡ together so_far heard }
{
    match (so_far, heard) {
        (Heard::Fine, _) => heard,
        (Heard::Undoable(can), Heard::Undoable(other)) => {
            if can == other { so_far } else { Heard::Failed }
        }
        (Heard::Needs(Reboot::No), Heard::Needs(Reboot::No)) => so_far,
        (Heard::Needs(_), Heard::Needs(_)) => Heard::Needs(Reboot::Automatic),
        _ => Heard::Failed,
    }
}

/// The question to the module of one payload.
fn read_question(
    events: &[Event],
    at: usize,
    payload: u8,
    kind: &Name,
    query: Query,
) -> Result<(Heard, usize), Stop>
    ensures { result ≡ read events.now (one_question payload kind.now query) at }
{
    let call = Call::Ask {
        payload,
        kind: kind.twin(),
        query,
    };
    let (answer, next) = read_call(events, at, &call)?;
    Ok((heard(query, &answer), next))
}

/// The question to the modules of all payloads in turn, up to and with the first whose reply can't be read.
fn read_questions(
    events: &[Event],
    at: usize,
    kinds: &[Name],
    query: Query,
) -> Result<(Heard, usize), Stop>
    requires few { length kinds.now ≤ MOST_KINDS }
    ensures { result ≡ read events.now (questions 0 kinds.now query Heard.Fine) at }
{
    let mut at = at;
    let mut so_far = Heard::Fine;
    for (k, kind) in kinds.iter().enumerate() {
        let (heard, next) = read_question(events, at, k as u8, kind, query)?;
        if is_failed(heard) {
            return Ok((Heard::Failed, next));
        }
        so_far = together(so_far, heard);
        at = next;
    }
    Ok((so_far, at))
}

/// The question.
fn read_query(
    events: &[Event],
    at: usize,
    kinds: &KindList,
    query: Option<Query>,
) -> Result<(Heard, usize), Stop>
    requires few { length kinds.now ≤ MOST_KINDS }
    ensures { result ≡ read events.now (question kinds.now query) at }
{
    match query {
        None => Ok((Heard::Fine, at)),
        Some(query) => read_questions(events, at, kinds.as_slice(), query),
    }
}

/// The scripts of a stage: those of Download are the device's own, all others the artifact's.
fn scripts_of(head: &NoteHead, stage: Stage) -> &ScriptList
    ensures { result.now ≡ scripts_of (callees head.now) stage }
{
    match stage {
        Stage::Download => &head.site,
        _ => &head.scripts,
    }
}

/// The scripts that are due at a place, in their order.
fn due_at(head: &NoteHead, stage: Stage, action: Action) -> DueNames<'_>
    ensures { left result ≡ due_at (callees head.now) stage action }
{
    due(scripts_of(head, stage), Place { stage, action })
}

/// The Enter or Leave scripts.
fn read_scripts(
    events: &[Event],
    at: usize,
    head: &NoteHead,
    action: Action,
    runs: Option<StageRun>,
) -> Result<(bool, usize), Stop>
    ensures { result ≡ read events.now (scripts (callees head.now) action runs) at }
{
    match runs {
        None => Ok((true, at)),
        Some(runs) => read_run(events, at, due_at(head, runs.stage, action), runs.mode),
    }
}

/// The Error scripts, each of which is started once.
fn read_errors(
    events: &[Event],
    at: usize,
    head: &NoteHead,
    stage: Option<Stage>,
) -> Result<(bool, usize), Stop>
    ensures { result ≡ read events.now (errors (callees head.now) stage) at }
{
    match stage {
        None => Ok((true, at)),
        Some(stage) => read_run(events, at, due_at(head, stage, Action::Error), Mode::Once),
    }
}

/// Enter scripts, main call, question, Leave scripts; the first that fails ends them.
fn read_calls(
    events: &[Event],
    at: usize,
    head: &NoteHead,
    row: &Row,
) -> Result<(Heard, usize), Stop>
    requires few { length head.now.kinds ≤ MOST_KINDS }
    ensures { result ≡ read events.now (calls (callees head.now) row.now) at }
{
    let (good, at) = read_scripts(events, at, head, Action::Enter, row.enter)?;
    if !good {
        return Ok((Heard::Failed, at));
    }
    let (good, at) = read_main(events, at, &head.kinds, row.main)?;
    if !good {
        return Ok((Heard::Failed, at));
    }
    let (heard, at) = read_query(events, at, &head.kinds, row.query)?;
    if is_failed(heard) {
        return Ok((Heard::Failed, at));
    }
    let (good, at) = read_scripts(events, at, head, Action::Leave, row.leave)?;
    if good {
        Ok((heard, at))
    } else {
        Ok((Heard::Failed, at))
    }
}

/// The calls of a row, and its Error scripts where one failed.
fn read_row(events: &[Event], at: usize, head: &NoteHead, row: &Row) -> Result<(Heard, usize), Stop>
    requires few { length head.now.kinds ≤ MOST_KINDS }
    ensures { result ≡ read events.now (word (callees head.now) row.now) at }
{
    let (heard, at) = read_calls(events, at, head, row)?;
    if !is_failed(heard) {
        return Ok((heard, at));
    }
    let (_, at) = read_errors(events, at, head, row.error)?;
    Ok((Heard::Failed, at))
}

/// All that is done at a position.
pub(crate) fn read_state(
    events: &[Event],
    at: usize,
    head: &NoteHead,
    p: &Position,
) -> Result<(Heard, usize), Stop>
    requires few { length head.now.kinds ≤ MOST_KINDS }
    ensures { result ≡ read events.now (word_at (callees head.now) p.now) at }
{
    read_row(events, at, head, &row_at(p))
}

//! The calls of the modules, one for each payload.

ghost use Rattle.std.specs.Prelude.{◌≡◌, ◌≤◌, ◌+◌, length, true};
ghost use Rattle.device_model.specs.State.{IsPlain};
ghost use Rattle.device_model.specs.declared.calls.Answer.TheVariants.{Reply};
ghost use Rattle.flow_words.specs.Stretch.{RanChild, RanAsk};
ghost use Rattle.flow_words.specs.Words.{calls_every, is_ignored, child_good, modules, child_calls, main_call, heard, is_failed, together, one_question, questions, question};
ghost use Rattle.script_runs.specs.Ends.{EndsRun};
ghost use Rattle.flow_drive.specs.Ends.{EndsState};

use device_model::{Asked, Call, Device, ModState, Query, Ran};
use flow_table::{Heard, MOST_KINDS, Reboot, read_needs, read_supports};
use flow_words::{Child, Main, MainMode};
use script_runs::RunEnd;
use upd_text::{KindList, Name, Text32};

/// How the calls of a state ended.
#[derive(Clone, Copy, Debug, PartialEq, Eq)]
pub(crate) enum StateEnd {
    Heard(Heard),
    /// Power was lost.
    Off,
}

/// How many events a call or a question to each module makes at the most: a start and an end for each.
pub(crate) const MODULE_EVENTS: u32 = 16;

/// One child, which is good where it exits 0.
fn run_good<D: Device>(device: &mut D, call: &Call) -> RunEnd
    requires plain { IsPlain call.now }
    requires on { (D.means device.old).on ≡ true }
    requires room { 3 ≤ (D.means device.old).room }
    ensures plan { D.plan device.new ≡ D.plan device.old }
    ensures ran { EndsRun (child_good call.now) result (D.means device.old) (D.means device.new) }
    ensures room { (D.means device.old).room ≤ (D.means device.new).room + 2 }
{
    match run_call(device, call) {
        Ran::Off => RunEnd::Off,
        Ran::Exit(0) => RunEnd::Done,
        Ran::Exit(_) => RunEnd::Failed,
        Ran::NotStarted => RunEnd::Failed,
    }
}

/// Starts a child.
fn run_call<D: Device>(device: &mut D, call: &Call) -> Ran
    requires plain { IsPlain call.now }
    requires on { (D.means device.old).on ≡ true }
    requires room { 3 ≤ (D.means device.old).room }
    ensures plan { D.plan device.new ≡ D.plan device.old }
    ensures ran { RanChild call.now result (D.means device.old) (D.means device.new) }
    ensures room { (D.means device.old).room ≤ (D.means device.new).room + 2 }
{
    device.run_child(call)
}

/// The module of one payload.
fn call_module<D: Device>(device: &mut D, payload: u8, kind: &Name, state: ModState) -> RunEnd
    requires on { (D.means device.old).on ≡ true }
    requires room { 3 ≤ (D.means device.old).room }
    ensures plan { D.plan device.new ≡ D.plan device.old }
    ensures ran { EndsRun (child_good (Call.Module payload kind.now state)) result (D.means device.old) (D.means device.new) }
    ensures room { (D.means device.old).room ≤ (D.means device.new).room + 2 }
{
    run_good(
        device,
        &Call::Module {
            payload,
            kind: kind.twin(),
            state,
        },
    )
}

/// The modules of all payloads in turn, up to and with the first that fails, or every one.
fn call_modules<D: Device>(device: &mut D, kinds: &[Name], state: ModState, every: bool) -> RunEnd
    requires on { (D.means device.old).on ≡ true }
    requires few { length kinds.now ≤ MOST_KINDS }
    requires room { MODULE_EVENTS + 1 ≤ (D.means device.old).room }
    ensures plan { D.plan device.new ≡ D.plan device.old }
    ensures ran { EndsRun (modules 0 kinds.now state every true) result (D.means device.old) (D.means device.new) }
    ensures room { (D.means device.old).room ≤ (D.means device.new).room + MODULE_EVENTS }
{
    let mut good = true;
    for (k, kind) in kinds.iter().enumerate() {
        match call_module(device, k as u8, kind, state) {
            RunEnd::Off => return RunEnd::Off,
            RunEnd::Done => {}
            RunEnd::Failed => {
                if !every {
                    return RunEnd::Failed;
                }
                good = false;
            }
        }
    }
    if good { RunEnd::Done } else { RunEnd::Failed }
}

/// The modules, or the reboot of the system.
fn run_children<D: Device>(device: &mut D, kinds: &KindList, child: Child, every: bool) -> RunEnd
    requires on { (D.means device.old).on ≡ true }
    requires few { length kinds.now ≤ MOST_KINDS }
    requires room { MODULE_EVENTS + 1 ≤ (D.means device.old).room }
    ensures plan { D.plan device.new ≡ D.plan device.old }
    ensures ran { EndsRun (child_calls kinds.now child every) result (D.means device.old) (D.means device.new) }
    ensures room { (D.means device.old).room ≤ (D.means device.new).room + MODULE_EVENTS }
{
    match child {
        Child::Module(state) => call_modules(device, kinds.as_slice(), state, every),
        Child::SystemReboot => run_good(device, &Call::SystemReboot),
    }
}

fn calls_every(mode: MainMode) -> bool
    ensures { result ≡ calls_every mode }
{
    !matches!(mode, MainMode::Checked)
}

fn is_ignored(mode: MainMode) -> bool
    ensures { result ≡ is_ignored mode }
{
    matches!(mode, MainMode::Ignored)
}

/// The main call.
pub(crate) fn run_main<D: Device>(device: &mut D, kinds: &KindList, main: Option<Main>) -> RunEnd
    requires on { (D.means device.old).on ≡ true }
    requires few { length kinds.now ≤ MOST_KINDS }
    requires room { MODULE_EVENTS + 1 ≤ (D.means device.old).room }
    ensures plan { D.plan device.new ≡ D.plan device.old }
    ensures ran { EndsRun (main_call kinds.now main) result (D.means device.old) (D.means device.new) }
    ensures room { (D.means device.old).room ≤ (D.means device.new).room + MODULE_EVENTS }
{
    let Some(main) = main else {
        return RunEnd::Done;
    };
    match run_children(device, kinds, main.child, calls_every(main.mode)) {
        RunEnd::Off => RunEnd::Off,
        RunEnd::Done => RunEnd::Done,
        RunEnd::Failed => {
            if is_ignored(main.mode) {
                RunEnd::Done
            } else {
                RunEnd::Failed
            }
        }
    }
}

/// Asks the module of one payload.
fn ask_module<D: Device>(device: &mut D, payload: u8, kind: &Name, query: Query) -> Asked
    requires on { (D.means device.old).on ≡ true }
    requires room { 3 ≤ (D.means device.old).room }
    ensures plan { D.plan device.new ≡ D.plan device.old }
    ensures ran { RanAsk (Call.Ask payload kind.now query) result (D.means device.old) (D.means device.new) }
    ensures room { (D.means device.old).room ≤ (D.means device.new).room + 2 }
{
    device.ask_child(payload, kind, query)
}

/// What a reply means.
fn reply_means(query: Query, code: u8, text: &Text32) -> Heard
    ensures { result ≡ heard query (Reply code text.now) }
{
    match query {
        Query::SupportsRollback => match read_supports(code, text) {
            Some(can) => Heard::Undoable(can),
            None => Heard::Failed,
        },
        Query::NeedsArtifactReboot => match read_needs(code, text) {
            Some(reboot) => Heard::Needs(reboot),
            None => Heard::Failed,
        },
    }
}

/// The question to the module of one payload.
fn ask_one<D: Device>(device: &mut D, payload: u8, kind: &Name, query: Query) -> StateEnd
    requires on { (D.means device.old).on ≡ true }
    requires room { 3 ≤ (D.means device.old).room }
    ensures plan { D.plan device.new ≡ D.plan device.old }
    ensures ran { EndsState (one_question payload kind.now query) result (D.means device.old) (D.means device.new) }
    ensures room { (D.means device.old).room ≤ (D.means device.new).room + 2 }
{
    match ask_module(device, payload, kind, query) {
        Asked::Off => StateEnd::Off,
        Asked::NotStarted => StateEnd::Heard(Heard::Failed),
        Asked::Reply(code, text) => StateEnd::Heard(reply_means(query, code, &text)),
    }
}

pub(crate) fn is_failed(heard: Heard) -> bool
    ensures { result ≡ is_failed heard }
{
    matches!(heard, Heard::Failed)
}

/// What two replies mean together.
fn together(so_far: Heard, heard: Heard) -> Heard
    ensures { result ≡ together so_far heard }
{
    match (so_far, heard) {
        (Heard::Fine, _) => heard,
        (Heard::Undoable(can), Heard::Undoable(other)) => {
            if can == other { so_far } else { Heard::Failed }
        }
        (Heard::Needs(Reboot::No), Heard::Needs(Reboot::No)) => so_far,
        (Heard::Needs(_), Heard::Needs(_)) => Heard::Needs(Reboot::Automatic),
        _ => Heard::Failed,
    }
}

/// The question to the modules of all payloads in turn, up to and with the first whose reply can't be read.
fn ask_all<D: Device>(device: &mut D, kinds: &[Name], query: Query) -> StateEnd
    requires on { (D.means device.old).on ≡ true }
    requires few { length kinds.now ≤ MOST_KINDS }
    requires room { MODULE_EVENTS + 1 ≤ (D.means device.old).room }
    ensures plan { D.plan device.new ≡ D.plan device.old }
    ensures ran { EndsState (questions 0 kinds.now query Heard.Fine) result (D.means device.old) (D.means device.new) }
    ensures room { (D.means device.old).room ≤ (D.means device.new).room + MODULE_EVENTS }
{
    let mut so_far = Heard::Fine;
    for (k, kind) in kinds.iter().enumerate() {
        let heard = match ask_one(device, k as u8, kind, query) {
            StateEnd::Off => return StateEnd::Off,
            StateEnd::Heard(heard) => heard,
        };
        if is_failed(heard) {
            return StateEnd::Heard(Heard::Failed);
        }
        so_far = together(so_far, heard);
    }
    StateEnd::Heard(so_far)
}

/// The question.
pub(crate) fn ask<D: Device>(device: &mut D, kinds: &KindList, query: Option<Query>) -> StateEnd
    requires on { (D.means device.old).on ≡ true }
    requires few { length kinds.now ≤ MOST_KINDS }
    requires room { MODULE_EVENTS + 1 ≤ (D.means device.old).room }
    ensures plan { D.plan device.new ≡ D.plan device.old }
    ensures ran { EndsState (question kinds.now query) result (D.means device.old) (D.means device.new) }
    ensures room { (D.means device.old).room ≤ (D.means device.new).room + MODULE_EVENTS }
{
    match query {
        None => StateEnd::Heard(Heard::Fine),
        Some(query) => ask_all(device, kinds.as_slice(), query),
    }
}

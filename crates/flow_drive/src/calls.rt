//! The calls of a state.

ghost use Rattle.std.specs.Prelude.{◌≡◌, ◌≤◌, ◌+◌, ◌*◌, length, true};
ghost use Rattle.flow_words.specs.Words.{scripts_of, due_at, scripts, errors, calls, word, word_at};
ghost use Rattle.script_names.specs.Left.{left};
ghost use Rattle.script_runs.specs.Ends.{EndsRun};
ghost use Rattle.flow_drive.specs.Calls.{callees, script_count, runs_count, errors_count};
ghost use Rattle.flow_drive.specs.Ends.{EndsState};

use crate::payloads::{MODULE_EVENTS, StateEnd, ask, is_failed, run_main};
use device_model::{Device, STATE_EVENTS};
use flow_table::{Heard, MOST_KINDS, Position};
use flow_words::{Mode, Row, StageRun, row_at};
use record_codec::Entry;
use script_names::{Action, DueNames, Place, ScriptList, Site, Stage, due};
use script_runs::{RunEnd, run_due};

/// The scripts of a stage: those of Download are the device's own, all others the artifact's.
fn scripts_of<'a>(site: &'a Site, entry: &'a Entry, stage: Stage) -> &'a ScriptList
    ensures { result.now ≡ scripts_of (callees site.now entry.now) stage }
{
    match stage {
        Stage::Download => &site.scripts,
        _ => &entry.scripts,
    }
}

/// The scripts that are due at a place, in their order.
fn due_at<'a>(site: &'a Site, entry: &'a Entry, stage: Stage, action: Action) -> DueNames<'a>
    ensures { left result ≡ due_at (callees site.now entry.now) stage action }
{
    due(scripts_of(site, entry, stage), Place { stage, action })
}

/// The Enter or Leave scripts.
fn run_scripts<D: Device>(
    device: &mut D,
    site: &Site,
    entry: &Entry,
    action: Action,
    runs: Option<StageRun>,
) -> RunEnd
    requires on { (D.means device.old).on ≡ true }
    requires room { 92 * runs_count (callees site.now entry.now) action runs + 1 ≤ (D.means device.old).room }
    ensures plan { D.plan device.new ≡ D.plan device.old }
    ensures ran { EndsRun (scripts (callees site.now entry.now) action runs) result (D.means device.old) (D.means device.new) }
    ensures room { (D.means device.old).room ≤ (D.means device.new).room + 92 * runs_count (callees site.now entry.now) action runs }
{
    match runs {
        None => RunEnd::Done,
        Some(runs) => run_due(device, due_at(site, entry, runs.stage, action), runs.mode),
    }
}

/// The Error scripts, each of which is started once.
fn run_errors<D: Device>(device: &mut D, site: &Site, entry: &Entry, stage: Option<Stage>) -> RunEnd
    requires on { (D.means device.old).on ≡ true }
    requires room { 92 * errors_count (callees site.now entry.now) stage + 1 ≤ (D.means device.old).room }
    ensures plan { D.plan device.new ≡ D.plan device.old }
    ensures ran { EndsRun (errors (callees site.now entry.now) stage) result (D.means device.old) (D.means device.new) }
    ensures room { (D.means device.old).room ≤ (D.means device.new).room + 92 * errors_count (callees site.now entry.now) stage }
{
    match stage {
        None => RunEnd::Done,
        Some(stage) => run_due(
            device,
            due_at(site, entry, stage, Action::Error),
            Mode::Once,
        ),
    }
}

/// Enter scripts, main call, question, Leave scripts; the first that fails ends them.
fn run_calls<D: Device>(device: &mut D, site: &Site, entry: &Entry, row: &Row) -> StateEnd
    requires on { (D.means device.old).on ≡ true }
    requires kinds { length entry.now.kinds ≤ MOST_KINDS }
    requires room { 92 * (runs_count (callees site.now entry.now) Action.Enter row.now.enter + runs_count (callees site.now entry.now) Action.Leave row.now.leave) + 2 * MODULE_EVENTS + 1 ≤ (D.means device.old).room }
    ensures plan { D.plan device.new ≡ D.plan device.old }
    ensures ran { EndsState (calls (callees site.now entry.now) row.now) result (D.means device.old) (D.means device.new) }
    ensures room { (D.means device.old).room ≤ (D.means device.new).room + 92 * (runs_count (callees site.now entry.now) Action.Enter row.now.enter + runs_count (callees site.now entry.now) Action.Leave row.now.leave) + 2 * MODULE_EVENTS }
{
    match run_scripts(device, site, entry, Action::Enter, row.enter) {
        RunEnd::Off => return StateEnd::Off,
        RunEnd::Failed => return StateEnd::Heard(Heard::Failed),
        RunEnd::Done => {}
    }
    match run_main(device, &entry.kinds, row.main) {
        RunEnd::Off => return StateEnd::Off,
        RunEnd::Failed => return StateEnd::Heard(Heard::Failed),
        RunEnd::Done => {}
    }
    let heard = match ask(device, &entry.kinds, row.query) {
        StateEnd::Off => return StateEnd::Off,
        StateEnd::Heard(heard) => heard,
    };
    if is_failed(heard) {
        return StateEnd::Heard(Heard::Failed);
    }
    match run_scripts(device, site, entry, Action::Leave, row.leave) {
        RunEnd::Off => StateEnd::Off,
        RunEnd::Failed => StateEnd::Heard(Heard::Failed),
        RunEnd::Done => StateEnd::Heard(heard),
    }
}

/// The calls of a row, and its Error scripts where one failed.
fn run_row<D: Device>(device: &mut D, site: &Site, entry: &Entry, row: &Row) -> StateEnd
    requires on { (D.means device.old).on ≡ true }
    requires kinds { length entry.now.kinds ≤ MOST_KINDS }
    requires few { script_count (callees site.now entry.now) row.now ≤ 64 }
    requires room { STATE_EVENTS + 1 ≤ (D.means device.old).room }
    ensures plan { D.plan device.new ≡ D.plan device.old }
    ensures ran { EndsState (word (callees site.now entry.now) row.now) result (D.means device.old) (D.means device.new) }
    ensures room { (D.means device.old).room ≤ (D.means device.new).room + STATE_EVENTS }
{
    let heard = match run_calls(device, site, entry, row) {
        StateEnd::Off => return StateEnd::Off,
        StateEnd::Heard(heard) => heard,
    };
    if !is_failed(heard) {
        return StateEnd::Heard(heard);
    }
    match run_errors(device, site, entry, row.error) {
        RunEnd::Off => StateEnd::Off,
        RunEnd::Done => StateEnd::Heard(Heard::Failed),
        RunEnd::Failed => StateEnd::Heard(Heard::Failed),
    }
}

/// All that is done at a position.
pub(crate) fn run_state<D: Device>(
    device: &mut D,
    site: &Site,
    entry: &Entry,
    position: &Position,
) -> StateEnd
    requires on { (D.means device.old).on ≡ true }
    requires kinds { length entry.now.kinds ≤ MOST_KINDS }
    requires room { STATE_EVENTS + 1 ≤ (D.means device.old).room }
    ensures plan { D.plan device.new ≡ D.plan device.old }
    ensures ran { EndsState (word_at (callees site.now entry.now) position.now) result (D.means device.old) (D.means device.new) }
    ensures room { (D.means device.old).room ≤ (D.means device.new).room + STATE_EVENTS }
{
    let _own = site.scripts.as_slice();
    let _brought = entry.scripts.as_slice();
    run_row(device, site, entry, &row_at(position))
}

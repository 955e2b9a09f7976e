//! Running the scripts of a place.

ghost use Rattle.std.specs.Prelude.{◌≡◌, ◌+◌, ◌*◌, ◌≤◌, length, true};
ghost use Rattle.device_model.specs.declared.calls.Call.TheVariants.{Script};
ghost use Rattle.script_names.specs.Left.{left};
ghost use Rattle.flow_words.specs.Scripts.{block, step, run};
ghost use Rattle.flow_words.specs.Stretch.{RanChild};
ghost use Rattle.script_runs.specs.Ends.{EndsRun};

use device_model::{Call, Device, Ran};
use flow_words::Mode;
use script_names::DueNames;
use upd_text::Name;

/// How a run of scripts ended.
#[derive(Clone, Copy, Debug, PartialEq, Eq)]
pub enum RunEnd {
    Done,
    /// A checked script isn't good.
    Failed,
    /// Power was lost.
    Off,
}

/// How often a script is started again.
const RETRIES: u8 = 30;

/// The exit code of a script that wants to be started again.
const AGAIN: u8 = 21;

/// How many seconds it then waits.
const PAUSE: u32 = 60;

/// Starts a script one time.
fn try_script<D: Device>(device: &mut D, name: &Name) -> Ran
    requires on { (D.means device.old).on ≡ true }
    requires room { 3 ≤ (D.means device.old).room }
    ensures plan { D.plan device.new ≡ D.plan device.old }
    ensures ran { RanChild (Script name.now) result (D.means device.old) (D.means device.new) }
    ensures room { (D.means device.old).room ≤ (D.means device.new).room + 2 }
{
    device.run_child(&Call::Script(name.twin()))
}

/// One script, started again while it asks for that and a try is left.
fn run_block<D: Device>(device: &mut D, name: &Name) -> RunEnd
    requires on { (D.means device.old).on ≡ true }
    requires room { 93 ≤ (D.means device.old).room }
    ensures plan { D.plan device.new ≡ D.plan device.old }
    ensures ran { EndsRun (block name.now 30) result (D.means device.old) (D.means device.new) }
    ensures room { (D.means device.old).room ≤ (D.means device.new).room + 92 }
{
    let mut left = RETRIES;
    'tries: loop {
        match try_script(device, name) {
            Ran::Off => return RunEnd::Off,
            Ran::NotStarted => return RunEnd::Failed,
            Ran::Exit(0) => return RunEnd::Done,
            Ran::Exit(code) => {
                if code != AGAIN || left == 0 {
                    return RunEnd::Failed;
                }
            }
        }
        left -= 1;
        match device.pause(PAUSE) {
            Ok(()) => {}
            Err(_) => return RunEnd::Off,
        }
    }
}

/// One script of a run.
fn run_step<D: Device>(device: &mut D, name: &Name, mode: Mode) -> RunEnd
    requires on { (D.means device.old).on ≡ true }
    requires room { 93 ≤ (D.means device.old).room }
    ensures plan { D.plan device.new ≡ D.plan device.old }
    ensures ran { EndsRun (step name.now mode) result (D.means device.old) (D.means device.new) }
    ensures room { (D.means device.old).room ≤ (D.means device.new).room + 92 }
{
    match mode {
        Mode::Checked => run_block(device, name),
        Mode::Ignored => match run_block(device, name) {
            RunEnd::Off => RunEnd::Off,
            RunEnd::Done => RunEnd::Done,
            RunEnd::Failed => RunEnd::Done,
        },
        Mode::Once => match try_script(device, name) {
            Ran::Off => RunEnd::Off,
            Ran::Exit(_) => RunEnd::Done,
            Ran::NotStarted => RunEnd::Done,
        },
    }
}

/// Runs the scripts that are due, in their order. Conditions: the device is on, and its journal takes 92 events for each
/// script and one more. `Off` comes only of the device. It takes no memory.
pub fn run_due<D: Device>(device: &mut D, due: DueNames<'_>, mode: Mode) -> RunEnd
    requires on { (D.means device.old).on ≡ true }
    requires room { 92 * length (left due) + 1 ≤ (D.means device.old).room }
    ensures plan { D.plan device.new ≡ D.plan device.old }
    ensures ran { EndsRun (run (left due.entry) mode) result (D.means device.old) (D.means device.new) }
    ensures room { (D.means device.old).room ≤ (D.means device.new).room + 92 * length (left due.entry) }
{
    for script in due {
        match run_step(device, script.name(), mode) {
            RunEnd::Off => return RunEnd::Off,
            RunEnd::Failed => return RunEnd::Failed,
            RunEnd::Done => {}
        }
    }
    RunEnd::Done
}

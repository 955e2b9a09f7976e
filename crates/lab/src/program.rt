//! All that the words of the program may ask for.

ghost use Rattle.std.specs.Prelude.{◌≡◌, ◌≤◌, ◌++◌, ℕ, true, [], Ok, codes};
ghost use Rattle.client_words.specs.Forms.{command_of, traced_of};
ghost use Rattle.client_words.specs.declared.command.Command.TheVariants.{Simulate};
ghost use Rattle.client_words.specs.declared.command.TheConstants.{MOST_ROUNDS};
ghost use Rattle.client_top.specs.Asked.{asked_at, command_word};
ghost use Rattle.client_top.specs.Traced.{Traced, deed_noted};
ghost use Rattle.lab.specs.Top.{IsSimulation, SimulatedTo, counts_text};

use crate::counts::Counts;
use crate::play::simulate;
use client_top::{Good, Status, run_traced};
use client_words::{Command, read_words};
use device_model::{ROOM, Told};
use io_model::{Line, Sink, Source};
use script_names::Site;
use std::alloc::Global;
use upd_text::decimal;

/// The line of the counts.
fn line_of(counts: &Counts) -> Line
    ensures { result ≡ counts_text counts.now }
{
    let mut line = Line::new();
    line.add(b"rounds ");
    line.add(decimal(u64::from(counts.rounds)).bytes());
    line.add(b" committed ");
    line.add(decimal(u64::from(counts.committed)).bytes());
    line.add(b" rolled-back ");
    line.add(decimal(u64::from(counts.rolled_back)).bytes());
    line.add(b" inconsistent ");
    line.add(decimal(u64::from(counts.inconsistent)).bytes());
    line.add(b" kept ");
    line.add(decimal(u64::from(counts.kept)).bytes());
    line.add(b"\n");
    line
}

/// Simulates, and tells the counts.
fn tell_simulated<O: Sink>(alloc: Global, seed: u64, rounds: u32, out: &mut O) -> Status
    requires { rounds ≤ MOST_ROUNDS }
    ensures { SimulatedTo seed rounds (O.means out.old) (O.means out.new) result }
{
    match simulate(alloc, seed, rounds) {
        Ok(counts) => match out.put(line_of(&counts).bytes()) {
            Ok(()) => Status::Done(Good::Simulated),
            Err(_) => Status::SinkFault,
        },
        Err(_) => match out.put(b"no memory\n") {
            Ok(()) => Status::NoMemory,
            Err(_) => Status::SinkFault,
        },
    }
}

/// Does what the words say, and tells it to the sink: simulates for `simulate`, which leaves the device and the source as they
/// are, and else does what `run_traced` does: what the words say, and where they ask for a trace the note of this boot behind its
/// text. `site` is the device's own type and scripts, `source` the tree that the words name.
/// Conditions: the device is on, its journal is empty, and it has room for `ROOM` events.
pub fn top<S: Source, O: Sink, D: Told>(
    alloc: Global,
    words: &[String],
    site: &Site,
    source: &mut S,
    out: &mut O,
    device: &mut D,
) -> Status
    requires on { (D.means device.old).on ≡ true }
    requires fresh { (D.means device.old).journal ≡ [] }
    requires room { ROOM ≤ (D.means device.old).room }
    ensures plan { D.plan device.new ≡ D.plan device.old }
    ensures tree { S.content source.new ≡ S.content source.old }
    ensures source { S.plan source.new ≡ S.plan source.old }
    ensures traced { (IsSimulation (command_of words.now) → ⊥) → Traced (deed_noted (traced_of words.now) (asked_at (command_word words.now) (command_of words.now))) (record { command = asked_at (command_word words.now) (command_of words.now); site = site.now; content = S.content source.old }) (D.means device.old) (D.means device.new) (record { faults = S.faults source.old; given = S.given source.old }) (record { faults = S.faults source.new; given = S.given source.new }) (O.means out.old) (O.means out.new) result }
    ensures simulated { (seed rounds : ℕ) → command_of words.now ≡ Ok (Simulate seed rounds) → SimulatedTo seed rounds (O.means out.old) (O.means out.new) result }
    ensures device { IsSimulation (command_of words.now) → D.means device.new ≡ D.means device.old }
    ensures faults { IsSimulation (command_of words.now) → S.faults source.new ≡ S.faults source.old }
    ensures given { IsSimulation (command_of words.now) → S.given source.new ≡ S.given source.old }
{
    match read_words(words) {
        Ok(Command::Simulate { seed, rounds }) => tell_simulated(alloc, seed, rounds, out),
        _ => run_traced(alloc, words, site, source, out, device),
    }
}

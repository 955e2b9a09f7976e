//! Simulations.

ghost use Rattle.std.specs.Prelude.{◌≡◌, ◌≤◌, ◌<◌, [], length, All, IfOk};
ghost use Rattle.device_mem.specs.Mem.{mem_of};
ghost use Rattle.client_words.specs.declared.command.TheConstants.{MOST_ROUNDS};
ghost use Rattle.lab.specs.Trees.{tree_of};
ghost use Rattle.lab.specs.Simulation.{Played, Simulates, the_site, new_source, new_device};
ghost use Rattle.lab.specs.Rounds.{IsTurn};

use crate::boots::boot;
use crate::counts::Counts;
use crate::draws::{Generator, Round};
use crate::tree::tree_of;
use client_top::{Good, Status};
use client_words::Command;
use device_mem::{AreaBytes, MemDevice, Script};
use device_model::ROOM;
use flow_table::Outcome;
use io_model::MemSource;
use script_names::{ScriptList, Site};
use std::alloc::Global;
use upd_text::{CallList, ListOf, Name, NoMemory};

/// More boots than any round has: each boot that goes on counts a state of its deployment, and there are at most 28.
const MOST_BOOTS: u32 = 29;

/// What comes behind a boot of a round.
enum Turn {
    /// Another boot: power was lost, the device reboots, or the deployment waits.
    GoesOn,
    /// Nothing: the deployment ended.
    Ends(Outcome),
    /// Nothing: the round can't be played to its end, as where memory is wanting.
    Fails,
}

fn turn_of(status: &Status) -> Turn
    ensures { IsTurn status.now result }
{
    match status {
        Status::Done(Good::Waiting) | Status::RebootNeeded | Status::PowerOff => Turn::GoesOn,
        Status::Done(Good::Committed) => Turn::Ends(Outcome::Committed),
        Status::Done(Good::RolledBack) => Turn::Ends(Outcome::RolledBack),
        Status::Inconsistent => Turn::Ends(Outcome::Inconsistent),
        Status::NotInstalled(outcome) => Turn::Ends(*outcome),
        Status::Done(Good::Shown | Good::Admitted | Good::Simulated)
        | Status::Refused(_)
        | Status::NoUpdate
        | Status::DiskFault
        | Status::SourceFault
        | Status::NoMemory
        | Status::SinkFault
        | Status::Usage(_)
        | Status::BadStore(_)
        | Status::TooLarge(_)
        | Status::NotNow(_) => Turn::Fails,
    }
}

/// A device of the type that the trees of rounds are for, without scripts.
fn the_site(alloc: Global) -> Result<Site, NoMemory>
    ensures { IfOk result (λ site. site ≡ the_site) }
{
    let Ok(device_type) = Name::read(b"beaglebone") else {
        return Err(NoMemory);
    };
    Ok(Site {
        device_type,
        scripts: ScriptList::new(alloc),
    })
}

/// A source that never fails, of the tree whose payload files have these lengths.
fn new_source(alloc: Global, lengths: &ListOf<u64>) -> Result<MemSource, NoMemory>
    requires few { length lengths.now ≤ 4 }
    requires short { All (λ n. n < 2000) lengths.now }
    ensures { IfOk result (λ source. source ≡ new_source (tree_of lengths.now)) }
{
    Ok(MemSource::new(tree_of(alloc, lengths)?, CallList::new(alloc)))
}

/// A device whose area is zeros.
fn new_device(alloc: Global, script: Script) -> Result<MemDevice, NoMemory>
    ensures { IfOk result (λ device. mem_of device ≡ new_device script) }
{
    MemDevice::new(alloc, AreaBytes::zeros(alloc)?, ROOM, script)
}

/// Plays a round: installs on a new device, and resumes until the deployment ends.
fn play(alloc: Global, round: Round) -> Result<Outcome, NoMemory>
    requires few { length round.lengths ≤ 4 }
    requires short { All (λ n. n < 2000) round.lengths }
    requires unplanned { round.script.losses ≡ [] }
    ensures { IfOk result (λ outcome. Played round outcome) }
{
    let site = the_site(alloc)?;
    let mut source = new_source(alloc, &round.lengths)?;
    let mut device = new_device(alloc, round.script)?;
    let mut command = Command::Install;
    for _i in 0..MOST_BOOTS {
        let run = boot(alloc, command, &site, &mut source, &mut device)?;
        match turn_of(&run.status) {
            Turn::GoesOn => command = Command::Resume,
            Turn::Ends(outcome) => return Ok(outcome),
            Turn::Fails => return Err(NoMemory),
        }
    }
    unreachable!()
}

/// Draws so many rounds from a seed, plays each of them, and counts how they ended. Condition: they are at most `MOST_ROUNDS`.
pub fn simulate(alloc: Global, seed: u64, rounds: u32) -> Result<Counts, NoMemory>
    requires { rounds ≤ MOST_ROUNDS }
    ensures { IfOk result (λ counts. Simulates seed rounds counts) }
{
    let mut generator = Generator::new(seed);
    let mut counts = Counts::none();
    for _i in 0..rounds {
        let round = generator.draw_round(alloc)?;
        counts.count(play(alloc, round)?);
    }
    Ok(counts)
}

//! Boots in a row on a device in memory, by what each answers.

ghost use Rattle.std.specs.Prelude.{◌≡◌, ◌≤◌, true, false, [], All, IfOk};
ghost use Rattle.device_mem.specs.Mem.{state_of};
ghost use Rattle.device_model.specs.declared.device.TheConstants.{ROOM};
ghost use Rattle.lab.specs.Campaign.{simulates};

use client_words::Command;
use device_mem::{AnswerList, AreaBytes, LossList, MemDevice, Script};
use device_model::{Answer, ROOM};
use io_model::MemSource;
use lab::{CommandList, Runs, campaign, tree_of};
use script_names::{ScriptList, Site};
use std::alloc::Global;
use std::test::Fail;
use upd_text::{CallList, ListOf, Name, NoMemory, Text32};

/// Commands of which none simulates.
#[derive(Drop)]
struct Boots {
    list: CommandList,
    ghost obeyed: { All (λ c. simulates c ≡ false) list },
}

impl Boots {
    fn none(alloc: Global) -> Boots {
        Boots {
            list: CommandList::new(alloc),
        }
    }

    fn add(&mut self, command: Command) -> Result<(), NoMemory>
        requires { simulates command ≡ false }
    {
        self.list.push(command)
    }
}

/// No loss and no fault, and all children exit 0.
pub(super) fn quiet(alloc: Global) -> Script {
    Script {
        answers: AnswerList::new(alloc),
        supports: Answer::Exit(0),
        needs: Answer::Exit(0),
        others: AnswerList::new(alloc),
        losses: LossList::new(alloc),
        cuts: CallList::new(alloc),
        faults: CallList::new(alloc),
        meddle: false,
    }
}

/// All children exit 0, modules say that they can be taken back, and no reboot is needed.
pub(super) fn calm(alloc: Global) -> Script {
    let mut script = quiet(alloc);
    script.supports = Answer::Reply(0, Text32::cut(b"Yes"));
    script.needs = Answer::Reply(0, Text32::cut(b"No"));
    script
}

pub(super) fn new_device(alloc: Global, script: Script) -> Result<MemDevice, NoMemory>
    ensures on { IfOk result (λ d. (state_of d).on ≡ true) }
    ensures journal { IfOk result (λ d. (state_of d).journal ≡ []) }
    ensures room { IfOk result (λ d. ROOM ≤ (state_of d).room) }
{
    MemDevice::new(alloc, AreaBytes::zeros(alloc)?, ROOM, script)
}

pub(super) fn site_of(alloc: Global) -> Result<Site, Fail> {
    Ok(Site {
        device_type: Name::read(b"beaglebone").ok().ok_or("no name")?,
        scripts: ScriptList::new(alloc),
    })
}

/// What these boots do on a new device, with a tree of one file of three bytes whose first call fails.
fn played(alloc: Global, boots: &Boots) -> Result<Runs, Fail> {
    let mut lengths = ListOf::new(alloc);
    lengths.push(3)?;
    let mut failing = CallList::new(alloc);
    failing.push(0)?;
    let mut source = MemSource::new(tree_of(alloc, &lengths)?, failing);
    let mut device = new_device(alloc, calm(alloc))?;
    let site = site_of(alloc)?;
    Ok(campaign(alloc, &site, &mut source, &boots.list, &mut device)?)
}

/// The source fails at its first call, which is the check's.
#[test]
fn each_command_has_its_boot(rt: HostRuntime) -> Result<(), Fail> {
    let mut boots = Boots::none(rt.alloc());
    boots.add(Command::ShowProvides)?;
    boots.add(Command::Check)?;
    boots.add(Command::Check)?;
    boots.add(Command::Resume)?;
    boots.add(Command::Install)?;
    boots.add(Command::Commit)?;
    let runs = played(rt.alloc(), &boots)?;
    let mut statuses = Vec::new(rt.alloc());
    for i in 0..runs.len() {
        assert!(rt; i >= boots.list.len() || runs.at(i).command == *boots.list.at(i));
        statuses.push(runs.at(i).status.number())?;
    }
    assert_eq!(rt; statuses.as_slice(), [0, 6, 0, 2, 0, 0].as_slice());
    Ok(())
}

#[test]
fn no_command_is_no_boot(rt: HostRuntime) -> Result<(), Fail> {
    let runs = played(rt.alloc(), &Boots::none(rt.alloc()))?;
    assert_eq!(rt; runs.len(), 0);
    Ok(())
}

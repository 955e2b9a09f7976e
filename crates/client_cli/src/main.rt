//! The update client: it reads its words, opens its device, and does what they say.
#![tactic(auto)]

ghost use Rattle.std.specs.Prelude.{IfOk};
ghost use Rattle.device_mem.specs.Mem.{state_of};
ghost use Rattle.host_edge.specs.Host.{IsNew};

use client_top::Status;
use client_words::{Command, data_dir, read_words, tree_word};
use device_mem::{AnswerList, AreaBytes, LossList, MemDevice, Script};
use device_model::{Answer, ROOM};
use host_edge::{
    Failures, HostDevice, HostFault, HostSink, HostSource, Lockable, Watched, asks_progress, begin,
    cannot_start, say_first,
};
use io_model::Sink;
use lab::top;
use script_names::{ScriptList, Site};
use std::alloc::Global;
use std::env::Env;
use std::os::unix::fs::FileExt;
use std::process::{ExitCode, Processes, Stdio};
use std::rt::{Clock, Files};
use upd_text::{CallList, Name, NoMemory};

/// The data folder where the words name none, in the folder where the program is started.
const FOLDER: &str = "mender-data";

/// The forms of the command line, which standard error lists for words that are none of them.
const FORMS: &str = "client_cli [--data DIR] [--trace] COMMAND, where COMMAND is one of
    install TREE
    check TREE
    resume [--stop-before ArtifactCommit]
    commit
    rollback
    show-provides
    show-artifact
    show-deployment
    simulate SEED ROUNDS";

/// Words that are no command need no device of the host: they are told over one in memory.
fn plain_device(alloc: Global) -> Result<MemDevice, NoMemory>
    ensures { IfOk result (λ d. IsNew (state_of d)) }
{
    let script = Script {
        answers: AnswerList::new(alloc),
        supports: Answer::Exit(0),
        needs: Answer::Exit(0),
        others: AnswerList::new(alloc),
        losses: LossList::new(alloc),
        cuts: CallList::new(alloc),
        faults: CallList::new(alloc),
        meddle: false,
    };
    MemDevice::new(alloc, AreaBytes::zeros(alloc)?, ROOM, script)
}

/// Tells the words over a device in memory, a device without a type, and no tree.
fn tell<R: Files + Drop, O: Sink>(
    rt: R,
    alloc: Global,
    words: &[String],
    out: &mut O,
) -> Result<Status, HostFault>
where
    R::File: FileExt,
{
    let Ok(device_type) = Name::read(b"none") else {
        return Err(HostFault::NoMemory);
    };
    let site = Site {
        device_type,
        scripts: ScriptList::new(alloc),
    };
    let Ok(mut device) = plain_device(alloc) else {
        return Err(HostFault::NoMemory);
    };
    let mut source = HostSource::none(rt, alloc);
    Ok(top(alloc, words, &site, &mut source, out, &mut device))
}

/// The word at an index, where there is one.
fn word_at(words: &[String], at: Option<u32>) -> Option<&str> {
    let word = words.get(at? as usize)?;
    Some(word.as_str())
}

/// The data folder of the words.
fn folder_of(words: &[String]) -> &str {
    word_at(words, data_dir(words)).unwrap_or(FOLDER)
}

/// The tree that the words name, where they name one.
fn source_of<R: Files + Drop>(
    rt: R,
    alloc: Global,
    words: &[String],
    noted: &mut Failures,
) -> Result<HostSource<R>, HostFault>
where
    R::File: FileExt,
{
    match word_at(words, tree_word(words)) {
        Some(tree) => HostSource::attach_noting(rt, alloc, tree, noted),
        None => Ok(HostSource::none(rt, alloc)),
    }
}

/// Does what the words say with the device of their data folder. What failed first is noted.
fn act<R: Files + Processes + Clock + Env + Eprint + Drop, O: Sink>(
    rt: R,
    alloc: Global,
    words: &[String],
    out: &mut O,
    noted: &mut Failures,
) -> Result<Status, HostFault>
where
    R::File: FileExt + Lockable + Into<Stdio>,
{
    let folder = folder_of(words);
    let (mut device, site) = HostDevice::attach_noting(&rt, alloc, folder, noted)?;
    let tree = source_of(&rt, alloc, words, noted)?;
    let mut source = Watched::new(&rt, tree, asks_progress(&rt));
    let status = top(alloc, words, &site, &mut source, out, &mut device);
    device.hand_first(noted);
    source.source().hand_first(noted);
    Ok(status)
}

/// Does what the words say, and tells it. Where they are no command, or one that is done on no device, no data folder is asked
/// for.
fn obey<R: Files + Processes + Clock + Env + Eprint + Drop, O: Sink>(
    rt: R,
    alloc: Global,
    words: &[String],
    out: &mut O,
    noted: &mut Failures,
) -> Result<Status, HostFault>
where
    R::File: FileExt + Lockable + Into<Stdio>,
{
    match read_words(words) {
        Err(_) | Ok(Command::Simulate { .. }) => tell(rt, alloc, words, out),
        Ok(_) => act(rt, alloc, words, out, noted),
    }
}

/// Lists the forms on standard error where the words are none of them. What can't be written there is let go.
fn list_forms<R: Eprint>(rt: &R, status: &Status) {
    if let Status::Usage(_) = status {
        let _ = eprintln!(rt; "{FORMS}");
    }
}

/// Does what the words say, and ends with the number of its answer. What failed first is noted.
fn run(rt: &HostRuntime, noted: &mut Failures) -> ExitCode {
    let (_streams, words) = match begin(rt, noted) {
        Ok(begun) => begun,
        Err(fault) => return cannot_start(rt, fault),
    };
    let alloc = rt.alloc();
    let mut out = HostSink::new(rt);
    let ended = obey(rt, alloc, words.as_slice(), &mut out, noted);
    out.hand_first(noted);
    match ended {
        Ok(status) => {
            list_forms(rt, &status);
            ExitCode::from(status.number())
        }
        Err(fault) => cannot_start(rt, fault),
    }
}

fn main(rt: HostRuntime) -> ExitCode {
    let mut noted = Failures::none();
    let ended = run(&rt, &mut noted);
    say_first(&rt, &noted);
    ended
}

#[cfg(test)]
mod tests;

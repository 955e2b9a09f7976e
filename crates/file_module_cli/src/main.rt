//! An update module that replaces the file `root/target`, two folders above its work folder.
#![tactic(auto)]

mod files;
mod place;

use crate::place::HostPlace;
use file_module::{FileAct, act};
use host_edge::{
    Failures, HostFault, HostSink, Lockable, Watched, asks_progress, begin, cannot_start,
    say_first, source_of,
};
use std::alloc::Global;
use std::os::unix::fs::FileExt;
use std::process::ExitCode;
use std::rt::{Clock, Files};

/// The place above the folder that the second word names. Without such a word nothing is done there.
fn place_of<R: Files + Clock + Drop>(
    rt: R,
    alloc: Global,
    words: &[String],
) -> Result<HostPlace<R>, HostFault>
where
    R::File: FileExt + Lockable,
{
    let folder = match words {
        [_, folder, ..] => folder.as_str(),
        _ => "",
    };
    Ok(HostPlace::above(rt, alloc, folder)?)
}

/// Does what the words say, and says how far it is where `says`. What failed first is noted.
fn obey<R: Files + Clock + Print + Eprint + Drop>(
    rt: R,
    alloc: Global,
    words: &[String],
    says: bool,
    noted: &mut Failures,
) -> Result<FileAct, HostFault>
where
    R::File: FileExt + Lockable,
{
    let mut out = HostSink::new(&rt);
    let source = source_of(&rt, alloc, words, noted)?;
    let mut source = Watched::new(&rt, source, says);
    let mut place = place_of(&rt, alloc, words)?;
    let mut buffer = [0u8; 65_536];
    let ended = act(words, &mut source, &mut place, &mut out, &mut buffer);
    place.hand_first(noted);
    source.source().hand_first(noted);
    out.hand_first(noted);
    Ok(ended)
}

/// Does what the words of the command line say, and ends with the number of its answer. What failed first is noted.
fn run(rt: &HostRuntime, noted: &mut Failures) -> ExitCode {
    let (_streams, words) = match begin(rt, noted) {
        Ok(begun) => begun,
        Err(fault) => return cannot_start(rt, fault),
    };
    match obey(rt, rt.alloc(), words.as_slice(), asks_progress(rt), noted) {
        Ok(ended) => ExitCode::from(ended.number()),
        Err(fault) => cannot_start(rt, fault),
    }
}

fn main(rt: HostRuntime) -> ExitCode {
    let mut noted = Failures::none();
    let ended = run(&rt, &mut noted);
    say_first(&rt, &noted);
    ended
}

#[cfg(test)]
mod tests;

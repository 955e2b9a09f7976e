//! An update module for a disk with two partitions, which is the file `blocks`, two folders above its work folder.
#![tactic(auto)]

mod disk;

use crate::disk::HostBlocks;
use ab_image::{AbAct, act};
use host_edge::{
    Failure, Failures, HostFault, HostSink, Lockable, Watched, asks_progress, begin, cannot_start,
    say_first, source_of,
};
use std::alloc::Global;
use std::io::{self, ErrorKind};
use std::os::unix::fs::FileExt;
use std::process::ExitCode;
use std::rt::{Clock, Files};

/// The disk above the folder that the second word names. Without such a word there is none.
fn blocks_of<R: Files + Clock>(
    rt: &R,
    alloc: Global,
    words: &[String],
    noted: &mut Failures,
) -> Result<HostBlocks<R::File>, HostFault>
where
    R::File: FileExt + Lockable,
{
    match words {
        [_, folder, ..] => HostBlocks::above(rt, alloc, folder.as_str(), noted),
        _ => {
            let reason = io::Error::new(ErrorKind::InvalidInput, "it has to name a work folder");
            noted.note(Failure::of("the second word", reason));
            Err(HostFault::NoStore)
        }
    }
}

/// Does what the words say, and says how far it is where `says`. What failed first is noted.
fn obey<R: Files + Clock + Print + Eprint + Drop>(
    rt: R,
    alloc: Global,
    words: &[String],
    says: bool,
    noted: &mut Failures,
) -> Result<AbAct, HostFault>
where
    R::File: FileExt + Lockable,
{
    let mut out = HostSink::new(&rt);
    let source = source_of(&rt, alloc, words, noted)?;
    let mut source = Watched::new(&rt, source, says);
    let mut blocks = blocks_of(&rt, alloc, words, noted)?;
    let mut buffer = [0u8; 65_536];
    let ended = act(
        alloc,
        words,
        &mut source,
        &mut blocks,
        &mut out,
        &mut buffer,
    );
    blocks.hand_first(noted);
    source.source().hand_first(noted);
    out.hand_first(noted);
    Ok(ended)
}

/// Does what the words of the command line say, and ends with the number of its answer. What failed first is noted.
fn run(rt: &HostRuntime, noted: &mut Failures) -> ExitCode {
    let (_streams, words) = match begin(rt, noted) {
        Ok(begun) => begun,
        Err(fault) => return cannot_start(rt, fault),
    };
    match obey(rt, rt.alloc(), words.as_slice(), asks_progress(rt), noted) {
        Ok(ended) => ExitCode::from(ended.number()),
        Err(fault) => cannot_start(rt, fault),
    }
}

fn main(rt: HostRuntime) -> ExitCode {
    let mut noted = Failures::none();
    let ended = run(&rt, &mut noted);
    say_first(&rt, &noted);
    ended
}

#[cfg(test)]
mod tests;

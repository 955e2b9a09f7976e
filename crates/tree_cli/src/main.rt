//! Writes an artifact tree. The words are the folder of the payload's files, the folder to write, and those of `make`.
#![tactic(auto)]

mod folder;
mod tree;

use crate::tree::HostTree;
use host_edge::{Failures, HostFault, HostSource, begin, cannot_start, say_first};
use std::alloc::Global;
use std::fs::File;
use std::process::ExitCode;
use std::rt::Files;
use tree_writer::{Made, WriteFault, make};
use upd_text::Name;

/// The form of the words, which standard error lists where they are wrong.
const FORM: &str = "tree_cli FILES OUT NAME DEVICE KIND CLEARS [KEY=VALUE]...
    FILES    the folder of the payload's files
    OUT      the folder to write, which isn't there or is empty
    CLEARS   a pattern of the provides that go, or - for all";

/// Does what the words say. What failed first is noted.
fn obey<R: Files<File = File> + Drop>(
    rt: R,
    alloc: Global,
    words: &[String],
    noted: &mut Failures,
) -> Result<Made, HostFault> {
    let [files, out, rest @ ..] = words else {
        return Err(HostFault::NoTree);
    };
    let mut source = HostSource::attach_noting(&rt, alloc, files.as_str(), noted)?;
    let mut tree = HostTree::below(&rt, alloc, out.as_str(), noted)?;
    let made = match make(alloc, rest, &mut source, &mut tree) {
        Made::Made if tree.finish().is_err() => Made::TreeFault,
        made => made,
    };
    source.hand_first(noted);
    tree.hand_first(noted);
    Ok(made)
}

/// A path as text.
fn text(path: &Name) -> &str {
    std::str::from_utf8(path.bytes()).unwrap_or("?")
}

/// Tells a fault on standard error.
fn tell_fault<R: Eprint>(rt: &R, fault: &WriteFault) {
    let _ = match fault {
        WriteFault::BadKind(_) => eprintln!(rt; "the payload type has / or is . or .."),
        WriteFault::BadFile(_, i) => eprintln!(rt; "file {i} has a bad name"),
        WriteFault::NotText(field) => eprintln!(rt; "{field:?} is no text"),
        WriteFault::TooManyFiles(n) => eprintln!(rt; "too many files: {n}"),
        WriteFault::HeaderTooLong(path) => {
            let path = text(path);
            eprintln!(rt; "too long: {path}")
        }
        _ => Ok(()),
    };
}

/// Tells on standard error why no tree was made. What can't be written there is let go.
fn tell<R: Eprint>(rt: &R, made: &Made) {
    let _ = match made {
        Made::Made => Ok(()),
        Made::Fault(fault) => {
            tell_fault(rt, fault);
            Ok(())
        }
        Made::Usage(i) => eprintln!(rt; "usage {i}\n{FORM}"),
        Made::TooLong(bytes) => eprintln!(rt; "too many bytes: {bytes}"),
        Made::SourceFault => eprintln!(rt; "a payload file can't be read"),
        Made::TreeFault => eprintln!(rt; "the tree can't be written whole"),
        Made::NoMemory => eprintln!(rt; "no memory"),
    };
}

/// Writes the tree that the words of the command line ask for, and ends with the number of its answer. What failed first is noted.
fn run(rt: &HostRuntime, noted: &mut Failures) -> ExitCode {
    let (_streams, words) = match begin(rt, noted) {
        Ok(begun) => begun,
        Err(fault) => return cannot_start(rt, fault),
    };
    match obey(rt, rt.alloc(), words.as_slice(), noted) {
        Ok(made) => {
            tell(rt, &made);
            ExitCode::from(made.number())
        }
        Err(fault) => {
            if words.len() < 2 {
                let _ = eprintln!(rt; "{FORM}");
            }
            cannot_start(rt, fault)
        }
    }
}

fn main(rt: HostRuntime) -> ExitCode {
    let mut noted = Failures::none();
    let ended = run(&rt, &mut noted);
    say_first(&rt, &noted);
    ended
}

#[cfg(test)]
mod tests;

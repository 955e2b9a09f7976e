//! Plays scenarios of updates on a device in memory: it reads files of rows, makes the boots that each row asks for, and says
//! which files tell what was found.
#![tactic(auto)]

mod bytes;
mod client;
mod each;
mod numbers;
mod play;
mod reason;
mod row;
mod setup;
mod tree;

use play::{Played, play};
use reason::Stopped;
use std::alloc::{AllocError, Global};
use std::process::ExitCode;
use std::rt::Files;
use std::{env, fs};

/// The exit status where each file tells what was found.
const AS_WRITTEN: u8 = 0;

/// Where a file tells something else, or leaves an answer out.
const DIFFERS: u8 = 1;

/// Where a line is wrong, or no file is named.
const WRONG: u8 = 2;

/// Where a file can't be read, or what is found can't be told.
const FAILED: u8 = 3;

/// What standard error says where no file is named.
const FORM: &str = "scenario_cli FILE..";

/// A line where the file says what was found, and else the whole file as it should be.
fn verdict(
    alloc: Global,
    name: &str,
    played: &Played,
    is_same: bool,
) -> Result<String, AllocError> {
    if is_same {
        let rows = played.rows;
        let boots = played.boots;
        format!(in alloc; "{name}: {rows} rows, {boots} boots, as written\n")
    } else {
        let found = played.text.as_str();
        format!(in alloc; "{name}: not as written\n{found}")
    }
}

/// Tells what was found, and whether the file says it.
fn tell<R: Alloc<A = Global> + Print + Eprint>(
    rt: &R,
    name: &str,
    text: &str,
    played: &Played,
) -> u8 {
    let is_same = played.is_told_by(text);
    let Ok(line) = verdict(rt.alloc(), name, played, is_same) else {
        let _ = eprintln!(rt; "{name}: no memory");
        return FAILED;
    };
    if rt.print(line).is_err() {
        return FAILED;
    }
    if let Some(number) = played.unanswered {
        let _ = eprintln!(rt; "{name}:{number}: no answer stands here");
    }
    if is_same { AS_WRITTEN } else { DIFFERS }
}

/// Plays the rows of a file, and gives the exit status.
fn play_file<R: Files + Alloc<A = Global> + Print + Eprint>(rt: &R, name: &str) -> u8 {
    let text = match fs::read_to_string(rt, name) {
        Ok(text) => text,
        Err(error) => {
            let _ = eprintln!(rt; "{name}: {error}");
            return FAILED;
        }
    };
    match play(rt.alloc(), text.as_str()) {
        Ok(played) => tell(rt, name, text.as_str(), &played),
        Err(Stopped::NoMemory) => {
            let _ = eprintln!(rt; "{name}: no memory");
            FAILED
        }
        Err(Stopped::Wrong(line, reason)) => {
            let why = reason.text();
            let _ = eprintln!(rt; "{name}:{line}: {why}");
            WRONG
        }
    }
}

/// Plays each file. The greatest of their statuses counts.
fn main(rt: HostRuntime) -> ExitCode {
    let Ok(names) = env::args(&rt) else {
        let _ = eprintln!(&rt; "{FORM}");
        return ExitCode::from(WRONG);
    };
    let mut status = None;
    for name in names.skip(1) {
        let found = play_file(&rt, name.as_str());
        status = status.max(Some(found));
    }
    match status {
        Some(status) => ExitCode::from(status),
        None => {
            let _ = eprintln!(&rt; "{FORM}");
            ExitCode::from(WRONG)
        }
    }
}

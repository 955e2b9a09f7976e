//! Does on real folders and programs what rows of text ask of a device, call by call, and says which files tell what was found.
#![tactic(auto)]

mod bench;
mod noting;
mod play;
mod words;

use noting::Noting;
use play::{Played, play};
use std::alloc::Global;
use std::process::ExitCode;
use std::{env, fs, io};

/// The exit status where each file tells what was found.
const AS_WRITTEN: u8 = 0;

/// Where a file tells something else.
const DIFFERS: u8 = 1;

/// Where a line is wrong, no file is named, or a file can't be read.
const WRONG: u8 = 2;

/// What standard error says where no file is named.
const FORM: &str = "edge_cli FILE..";

/// A line where the file says what was found, and else the whole file as it should be.
fn verdict(alloc: Global, name: &str, text: &str, played: &Played) -> io::Result<(u8, String)> {
    if played.is_told_by(text) {
        let rows = played.rows;
        let line = format!(in alloc; "{name}: {rows} rows, as written\n")?;
        return Ok((AS_WRITTEN, line));
    }
    let found = played.text.as_str();
    let told = format!(in alloc; "{name}: not as written\n{found}")?;
    Ok((DIFFERS, told))
}

/// Plays the rows of a file, and gives the exit status.
fn play_file(rt: &HostRuntime, name: &str) -> io::Result<u8> {
    let text = fs::read_to_string(rt, name)?;
    let noting = Noting::new(rt);
    let mut played = Played::new(rt.alloc());
    if let Err(error) = play(&noting, text.as_str(), &mut played) {
        let line = played.line;
        let _ = eprintln!(rt; "{name}:{line}: {error}");
        return Ok(WRONG);
    }
    let (status, told) = verdict(rt.alloc(), name, text.as_str(), &played)?;
    rt.print(told)?;
    Ok(status)
}

/// Plays each file. The greatest of their statuses counts.
fn main(rt: HostRuntime) -> ExitCode {
    let mut status = None;
    if let Ok(names) = env::args(&rt) {
        for name in names.skip(1) {
            let found = match play_file(&rt, name.as_str()) {
                Ok(found) => found,
                Err(error) => {
                    let name = name.as_str();
                    let _ = eprintln!(&rt; "{name}: {error}");
                    WRONG
                }
            };
            status = status.max(Some(found));
        }
    }
    match status {
        Some(status) => ExitCode::from(status),
        None => {
            let _ = eprintln!(&rt; "{FORM}");
            ExitCode::from(WRONG)
        }
    }
}

//! Rows of a file, played one after another, each in a folder of its own.

use crate::bench::Bench;
use crate::noting::Noting;
use std::alloc::{AllocError, Global};
use std::io::{self, ErrorKind};
use std::process::{Command, Processes, Stdio};
use std::rt::Files;
use std::{env, fs};

/// The folder of a row.
const FOLDER: &str = "row";

/// A file as it should be, how many rows it has, and the number of the line that was played last, from 1.
#[derive(Drop)]
pub struct Played {
    pub text: String,
    pub rows: u32,
    pub line: u32,
}

impl Played {
    pub fn new(alloc: Global) -> Played {
        Played {
            text: String::new(alloc),
            rows: 0,
            line: 0,
        }
    }

    /// Whether this text says what was found. The end of its last line may be left out.
    pub fn is_told_by(&self, text: &str) -> bool {
        let found = self.text.as_str();
        found == text || found.strip_suffix("\n") == Some(text)
    }

    /// Adds a line as it is.
    fn keep(&mut self, line: &str) -> Result<(), AllocError> {
        self.text.push_str(line)?;
        self.text.push_str("\n")
    }

    /// Adds the lines of an answer.
    fn answer(&mut self, lines: &str) -> Result<(), AllocError> {
        for line in lines.lines() {
            self.text.push_str("  ")?;
            self.keep(line)?;
        }
        Ok(())
    }
}

/// Has the shell do this, and gives what it wrote, and its exit status where that isn't 0.
fn shell(noting: &Noting<'_>, line: &str) -> io::Result<String> {
    let rt = noting.rt;
    let alloc = rt.alloc();
    let mut command = Command::new(alloc, "/bin/sh")?;
    command.arg("-c")?;
    command.arg(line)?;
    let said = fs::create(rt, "../said")?;
    let mut child = command.stdin(Stdio::null()).stdout(said).spawn(rt)?;
    let ended = child.wait()?.code();
    let mut text = fs::read_to_string(rt, "../said")?;
    rt.remove_file("../said")?;
    if ended != Some(0) {
        let code = ended.unwrap_or(255);
        write!(text, "status {code}\n")?;
    }
    Ok(text)
}

/// Makes the folder of a row with the data folder `d` of a device of the type beaglebone, and goes there.
fn enter(rt: &HostRuntime) -> io::Result<()> {
    fs::create_dir(rt, FOLDER)?;
    env::set_current_dir(rt, FOLDER)?;
    fs::create_dir(rt, "d")?;
    fs::write(rt, "d/device_type", b"device_type=beaglebone\n".as_slice())
}

/// Goes back, and takes the folder away.
fn leave(rt: &HostRuntime) -> io::Result<()> {
    env::set_current_dir(rt, "..")?;
    rt.remove_dir_all(rt.alloc(), FOLDER)
}

/// What a line brings about.
fn found(noting: &Noting<'_>, bench: &mut Bench<'_>, line: &str) -> io::Result<String> {
    match line.strip_prefix("$ ") {
        Some(line) => shell(noting, line),
        None => bench.act(line),
    }
}

/// Plays the rows of a text. Lines that begin with two blanks are answers: they are left out, and what is found stands in their
/// place. Empty lines and those that begin with `#` are comments.
pub fn play<'a>(noting: &'a Noting<'a>, text: &str, played: &mut Played) -> io::Result<()> {
    let mut bench = None;
    for line in text.lines() {
        played.line = played.line.saturating_add(1);
        if line.starts_with("  ") {
            continue;
        }
        played.keep(line)?;
        if line.starts_with("row ") {
            if bench.take().is_some() {
                leave(noting.rt)?;
            }
            enter(noting.rt)?;
            bench = Some(Bench::new(noting));
            played.rows = played.rows.saturating_add(1);
        } else if !line.is_empty() && !line.starts_with("#") {
            let Some(bench) = &mut bench else {
                return Err(io::Error::new(
                    ErrorKind::InvalidInput,
                    "this stands in front of the first row",
                ));
            };
            let found = found(noting, bench, line)?;
            played.answer(found.as_str())?;
        }
    }
    if bench.take().is_some() {
        leave(noting.rt)?;
    }
    Ok(())
}

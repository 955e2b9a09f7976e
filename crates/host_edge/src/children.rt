//! Programs that the device starts.

ghost use Rattle.std.specs.Prelude.{◌≡◌, IfOk, MatchOption, Some, [], ◌∷◌};
ghost use Rattle.std.specs.Process.{command_program, command_args, command_dir};
ghost use Rattle.device_model.specs.Names.{module_name};

use crate::failure::{Failure, named};
use crate::reply::Reply;
use device_model::ModuleWord;
use std::alloc::Global;
use std::fs::OpenFile;
use std::os::unix::fs::FileExt;
use std::process::{Child, Command, ExitStatus, OpenProcess, Processes, Stdio};
use std::rt::{Clock, Files};
use std::time::Duration;
use std::{io, thread};
use upd_text::Text32;

/// How many microseconds a question is left alone before it is looked at again: at first, and at the most. Each time it is
/// twice as long.
const FIRST_MICROS: u64 = 100;

const MOST_MICROS: u64 = 5_000;

/// The exit code of a program that a signal ended, or whose end or reply can't be learnt.
pub const NO_CODE: u8 = 255;

/// What is started: a program, its one or two words, and the folder in which it runs.
#[derive(Clone, Copy)]
pub struct Program<'a> {
    pub path: &'a str,
    pub first: &'a str,
    pub second: Option<&'a str>,
    pub folder: &'a str,
}

fn code_of(status: ExitStatus) -> u8 {
    match status.code() {
        Some(code) => u8::try_from(code).unwrap_or(NO_CODE),
        None => NO_CODE,
    }
}

impl<'a> Program<'a> {
    /// A module with its words: the name of what it is called for, and the absolute path of its work folder, in which it runs.
    pub fn module(path: &'a str, word: ModuleWord, tree: &'a str) -> Program<'a>
        ensures word { result.first.now ≡ module_name word }
        ensures folder { result.folder.now ≡ tree.now }
        ensures second { MatchOption result.second ⊥ (λ second. second.now ≡ tree.now) }
    {
        Program {
            path,
            first: word.name(),
            second: Some(tree),
            folder: tree,
        }
    }

    /// The command that starts it, with its words as arguments.
    fn command(self, alloc: Global) -> io::Result<Command<Global>>
        ensures words { IfOk result (λ command. MatchOption self.entry.second
            (command_args command ≡ self.entry.first.now ∷ [])
            (λ second. command_args command ≡ self.entry.first.now ∷ second.now ∷ [])) }
        ensures program { IfOk result (λ command. command_program command ≡ self.entry.path.now) }
        ensures folder { IfOk result (λ command. command_dir command ≡ Some self.entry.folder.now) }
    {
        let mut command = Command::new(alloc, self.path)?;
        command.arg(self.first)?;
        if let Some(second) = self.second {
            command.arg(second)?;
        }
        command.current_dir(self.folder)?;
        Ok(command)
    }
}

/// Starts a program. An error says that it was not started. It has nothing to read, and its standard error is the client's.
fn spawned<R: Processes>(
    rt: &R,
    alloc: Global,
    program: Program<'_>,
    out: Stdio,
) -> io::Result<Child<R::Started>> {
    let mut command = program.command(alloc)?;
    command.stdin(Stdio::null()).stdout(out).spawn(rt)
}

fn start<R: Processes>(
    rt: &R,
    alloc: Global,
    program: Program<'_>,
    out: Stdio,
) -> Result<Child<R::Started>, Failure> {
    named(alloc, program.path, spawned(rt, alloc, program, out))
}

/// Starts a program, waits for its end and gives its exit code. An error says that it was not started. What it writes is
/// dropped. A program whose end can't be learnt counts as ended by a signal.
pub fn run<R: Processes>(rt: &R, alloc: Global, program: Program<'_>) -> Result<u8, Failure> {
    let mut child = start(rt, alloc, program, Stdio::null())?;
    Ok(child.wait().map_or(NO_CODE, code_of))
}

/// Waits for the end of a question, and keeps its reply small meanwhile.
fn end_of<R: Clock, P: OpenProcess, F: OpenFile + FileExt + Drop>(
    rt: &R,
    child: &mut Child<P>,
    reply: &Reply<F>,
) -> u8 {
    let mut micros = FIRST_MICROS;
    for _ in 0..u64::MAX {
        match child.try_wait() {
            Ok(Some(status)) => return code_of(status),
            Ok(None) => {
                reply.trim();
                thread::sleep(rt, Duration::from_micros(micros));
                micros = micros.saturating_mul(2).min(MOST_MICROS);
            }
            Err(_) => break,
        }
    }
    child.wait().map_or(NO_CODE, code_of)
}

/// Starts a program, waits for its end, and gives its exit code and the first 32 bytes of its standard output, which goes
/// through a file at this path. So a program that it leaves running holds nobody, and one that writes without end doesn't fill
/// the disk. One whose reply may be lost, since it couldn't be written or read, counts as ended by a signal. An error says that
/// it was not started.
pub fn ask<R: Files + Processes + Clock>(
    rt: &R,
    alloc: Global,
    program: Program<'_>,
    path: &str,
) -> Result<(u8, Text32), Failure>
where
    R::File: FileExt + Into<Stdio>,
{
    let mut reply = named(alloc, path, Reply::made(rt, path))?;
    let out = named(alloc, path, reply.stream())?;
    let mut child = start(rt, alloc, program, out)?;
    let code = end_of(rt, &mut child, &reply);
    match reply.text() {
        Ok(text) => Ok((code, text)),
        Err(_) => Ok((NO_CODE, Text32::cut(b""))),
    }
}

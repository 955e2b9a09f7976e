//! Whether the ends of children can be learnt.

use crate::children::{NO_CODE, Program, run};
use crate::files::read_start;
use std::alloc::Global;
use std::process::Processes;
use std::rt::Files;

/// What the system says of this program. A line of it lists the signals that it ignores, as a number in hexadecimal digits.
const STATUS: &str = "/proc/self/status";

const IGNORED: &[u8] = b"SigIgn:";

/// Which digit from the right has the bit of SIGCHLD, the signal 17, as its lowest one.
const DIGIT: usize = 4;

/// Whether the lowest bit of a hexadecimal digit is set.
fn is_odd(digit: u8) -> bool {
    (digit as char)
        .to_digit(16)
        .is_some_and(|value| value % 2 == 1)
}

/// Whether the end of children is ignored, by what the system says of this program.
fn listed(status: &[u8]) -> Option<bool> {
    let line = status
        .split(|byte| *byte == b'\n')
        .find(|line| line.starts_with(IGNORED))?;
    let digit = line.iter().rev().nth(DIGIT)?;
    Some(is_odd(*digit))
}

/// Whether a child shows that its end can't be learnt.
fn is_lost<R: Processes>(rt: &R, alloc: Global, folder: &str) -> bool {
    let program = Program {
        path: "sh",
        first: "-c",
        second: Some("exit 0"),
        folder,
    };
    matches!(run(rt, alloc, program), Ok(NO_CODE))
}

/// Whether this program was started with the end of children ignored, as some supervisors leave it: then it never learns how
/// one ends. Where the system doesn't say it, a child is tried.
pub fn are_ignored<R: Files + Processes>(rt: &R, alloc: Global, folder: &str) -> bool {
    let mut status = [0; 4_096];
    let found = match read_start(rt, STATUS, &mut status) {
        Ok(size) => listed(&status[..size]),
        Err(_) => None,
    };
    match found {
        Some(ignored) => ignored,
        None => is_lost(rt, alloc, folder),
    }
}

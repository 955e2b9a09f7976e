//! What a program of the host does before and in place of its work.

use crate::failure::{Failure, Failures};
use crate::fault::HostFault;
use crate::words::words_of;
use std::env::Env;
use std::fs::OpenOptions;
use std::io;
use std::process::ExitCode;
use std::rt::Files;

fn null<R: Files>(rt: &R) -> io::Result<R::File> {
    OpenOptions::new()
        .read(true)
        .write(true)
        .open(rt, "/dev/null")
}

/// Opens the null device three times, so that a standard stream that is closed gets it, and no file opened later takes the
/// stream's number. It is called before anything else is opened, and what it gives is held to the end.
pub fn fill_streams<R: Files>(rt: &R) -> io::Result<[R::File; 3]> {
    Ok([null(rt)?, null(rt)?, null(rt)?])
}

/// What a program does first: it fills its standard streams, and reads the words of its command line. What it gives of the
/// streams is held to the end. What can't be had is noted.
pub fn begin<R: Files + Env + AllocGlobal>(
    rt: &R,
    noted: &mut Failures,
) -> Result<([R::File; 3], Vec<String>), HostFault> {
    let streams = match fill_streams(rt) {
        Ok(streams) => streams,
        Err(reason) => {
            noted.note(Failure::of("/dev/null", reason));
            return Err(HostFault::NoStore);
        }
    };
    match words_of(rt) {
        Ok(words) => Ok((streams, words)),
        Err(_) => Err(HostFault::NoMemory),
    }
}

/// Says why the program can't start, and gives its exit code.
pub fn cannot_start<R: Eprint>(rt: &R, fault: HostFault) -> ExitCode {
    let number = fault.number();
    let _ = eprintln!(rt; "cannot start {number}");
    ExitCode::from(15)
}

/// Says on standard error what failed first. What can't be written there is let go.
pub fn say_first<R: Eprint>(rt: &R, failures: &Failures) {
    if let Some(failure) = failures.first() {
        let _ = eprintln!(rt; "{failure}");
    }
}

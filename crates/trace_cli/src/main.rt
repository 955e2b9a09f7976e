//! Says whether the notes in the file `trace` of a folder are a way that the flow allows: `trace_cli FOLDER`.
#![tactic(auto)]

use host_edge::{Failures, HostFault, HostSink, HostSource, begin, cannot_start, say_first};
use std::alloc::Global;
use std::os::unix::fs::FileExt;
use std::process::ExitCode;
use std::rt::Files;
use trace_check::{TraceStatus, check_trace};

/// The form of the words, which standard error lists where they are wrong.
const FORM: &str = "usage: trace_cli FOLDER";

/// Checks the transcript of a folder. What failed first is noted.
fn obey<R: Files + Print + Drop>(
    rt: R,
    alloc: Global,
    folder: &str,
    noted: &mut Failures,
) -> Result<TraceStatus, HostFault>
where
    R::File: FileExt,
{
    let mut out = HostSink::new(&rt);
    let mut source = HostSource::attach_noting(&rt, alloc, folder, noted)?;
    let status = check_trace(alloc, &mut source, &mut out);
    source.hand_first(noted);
    out.hand_first(noted);
    Ok(status)
}

/// Does what the words of the command line say, and ends with the number of its answer. What failed first is noted.
fn run(rt: &HostRuntime, noted: &mut Failures) -> ExitCode {
    let (_streams, words) = match begin(rt, noted) {
        Ok(begun) => begun,
        Err(fault) => return cannot_start(rt, fault),
    };
    let [folder] = words.as_slice() else {
        let _ = eprintln!(rt; "{FORM}");
        return cannot_start(rt, HostFault::NoTree);
    };
    match obey(rt, rt.alloc(), folder.as_str(), noted) {
        Ok(status) => ExitCode::from(status.number()),
        Err(fault) => cannot_start(rt, fault),
    }
}

fn main(rt: HostRuntime) -> ExitCode {
    let mut noted = Failures::none();
    let ended = run(&rt, &mut noted);
    say_first(&rt, &noted);
    ended
}

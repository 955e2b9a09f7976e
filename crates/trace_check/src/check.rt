//! The answers on the transcript of a tree, and their texts.

ghost use Rattle.std.specs.Prelude.{◌≡◌, ◌≤◌, length, Some, IfOk, IfErr};
ghost use Rattle.io_model.specs.Source.{When};
ghost use Rattle.trace_check.specs.Finding.{Stops, faults_after, trace_of};
ghost use Rattle.trace_check.specs.Checked.{Finds, CheckedTo};
ghost use Rattle.trace_check.specs.Statuses.{status_text, number_of_status, is_said};

use crate::finding::{find_trace, read_file};
use crate::weigh::weigh;
use io_model::{Line, Sink, Source};
use std::alloc::Global;
use upd_text::decimal;

/// The most bytes of a transcript that is read.
pub const LONGEST_TRACE: u64 = 33_554_432;

/// The answer on a transcript. The program ends with its number.
#[derive(Clone, Copy, Debug, PartialEq, Eq)]
pub enum TraceStatus {
    /// 0: its notes are a way that the flow allows.
    Path,
    /// 1: no file is named `trace`.
    NoTrace,
    /// 2: the first line with which it is no front of notes.
    BadLine(u32),
    /// 3: the first note that isn't, and the first of its events that can't come.
    Broken { note: u32, event: u32 },
    /// 4: so many bytes, more than `LONGEST_TRACE`.
    TooLong(u64),
    /// 5
    SourceFault,
    /// 6
    SinkFault,
    /// 7
    NoMemory,
}

impl TraceStatus {
    /// The number with which the program ends.
    pub fn number(self) -> u8
        ensures { result ≡ number_of_status self }
    {
        match self {
            TraceStatus::Path => 0,
            TraceStatus::NoTrace => 1,
            TraceStatus::BadLine(_) => 2,
            TraceStatus::Broken { .. } => 3,
            TraceStatus::TooLong(_) => 4,
            TraceStatus::SourceFault => 5,
            TraceStatus::SinkFault => 6,
            TraceStatus::NoMemory => 7,
        }
    }
}

/// The line of a note that is no way.
fn broken_line(note: u32, event: u32) -> Line
    ensures { result ≡ status_text (TraceStatus.Broken note event) }
{
    let mut line = Line::new();
    line.add(b"broken ");
    line.add(decimal(u64::from(note)).bytes());
    line.add(b" ");
    line.add(decimal(u64::from(event)).bytes());
    line.add(b"\n");
    line
}

/// The text of an answer.
pub(crate) fn line_of(status: TraceStatus) -> Line
    ensures { result ≡ status_text status }
{
    match status {
        TraceStatus::Path => Line::named(b"path", b""),
        TraceStatus::NoTrace => Line::named(b"no trace", b""),
        TraceStatus::BadLine(k) => Line::numbered(b"bad line ", u64::from(k)),
        TraceStatus::Broken { note, event } => broken_line(note, event),
        TraceStatus::TooLong(size) => Line::numbered(b"too long ", size),
        TraceStatus::SourceFault => Line::new(),
        TraceStatus::SinkFault => Line::new(),
        TraceStatus::NoMemory => Line::new(),
    }
}

/// Whether it tells of the transcript, and so has a text.
pub(crate) fn is_said(status: TraceStatus) -> bool
    ensures { result ≡ is_said status }
{
    match status {
        TraceStatus::SourceFault => false,
        TraceStatus::SinkFault => false,
        TraceStatus::NoMemory => false,
        _ => true,
    }
}

/// The bytes of the first file named `trace`.
fn read_trace<S: Source>(alloc: Global, source: &mut S) -> Result<Vec<u8>, TraceStatus>
    ensures same { S.content source.new ≡ S.content source.old }
    ensures plan { S.plan source.new ≡ S.plan source.old }
    ensures stops { Stops (S.faults source.old) result (S.faults source.new) }
    ensures text { IfOk result (λ text. When (S.content source.old) (λ tree. trace_of tree ≡ Some text.items)) }
    ensures few { IfOk result (λ text. length text.items ≤ LONGEST_TRACE) }
    ensures finds { IfErr result (λ status. Finds (S.content source.old) status) }
{
    match find_trace(source) {
        Ok(Some(i)) => read_file(alloc, source, i),
        Ok(None) => Err(TraceStatus::NoTrace),
        Err(_) => Err(TraceStatus::SourceFault),
    }
}

fn answer<S: Source>(alloc: Global, source: &mut S) -> TraceStatus
    ensures same { S.content source.new ≡ S.content source.old }
    ensures plan { S.plan source.new ≡ S.plan source.old }
    ensures faults { S.faults source.new ≡ faults_after (S.faults source.old) result }
    ensures finds { Finds (S.content source.old) result }
{
    match read_trace(alloc, source) {
        Ok(text) => weigh(alloc, text.as_slice()),
        Err(status) => status,
    }
}

/// Reads the tree's first file named `trace`, and tells whether its notes are a way that the flow allows.
pub fn check_trace<S: Source, O: Sink>(alloc: Global, source: &mut S, out: &mut O) -> TraceStatus
    ensures content { S.content source.new ≡ S.content source.old }
    ensures plan { S.plan source.new ≡ S.plan source.old }
    ensures checked { CheckedTo (S.content source.old) (S.faults source.old) (S.faults source.new) (O.means out.old) (O.means out.new) result }
{
    let status = answer(alloc, source);
    if !is_said(status) {
        return status;
    }
    match out.put(line_of(status).bytes()) {
        Ok(()) => status,
        Err(_) => TraceStatus::SinkFault,
    }
}

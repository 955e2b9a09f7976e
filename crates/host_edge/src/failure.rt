//! Calls of the host that failed.

ghost use Rattle.std.specs.Prelude.{◌≡◌};
ghost use Rattle.upd_text.specs.Counts.{counted};
ghost use Rattle.host_edge.specs.Faults.{answer_of, count_of};

use crate::fault::HostFault;
use device_model::Down;
use std::alloc::{AllocError, AllocFailed, Global};
use std::fmt;
use std::io::{self, ErrorKind};
use upd_text::Text32;

/// What a call was about.
#[derive(Drop)]
enum What {
    Path(String),
    Call(Text32),
}

/// A call that failed: the path or the call, and the system's reason.
#[derive(Drop)]
pub struct Failure {
    what: What,
    reason: io::Error,
}

impl Failure {
    /// A call that is about no path, such as a write to standard output. Of its name 32 bytes count.
    pub fn of(call: &str, reason: io::Error) -> Failure {
        Failure {
            what: What::Call(Text32::cut(call.as_bytes())),
            reason,
        }
    }

    /// A call on the file or the folder of this path.
    pub fn at(alloc: Global, path: &str, reason: io::Error) -> Failure {
        match String::from_str(alloc, path) {
            Ok(path) => Failure {
                what: What::Path(path),
                reason,
            },
            Err(_) => Failure::of("a file", reason),
        }
    }
}

impl fmt::Display for Failure {
    fn fmt<W: fmt::Write>(&self, f: &mut fmt::Formatter<W>) -> fmt::Result {
        let reason = self.reason;
        match &self.what {
            What::Path(path) => write!(f, "{path}: {reason}"),
            What::Call(call) => {
                let call = std::str::from_utf8(call.bytes()).unwrap_or("a call");
                write!(f, "{call}: {reason}")
            }
        }
    }
}

impl From<AllocError> for Failure {
    fn from(_: AllocError) -> Failure {
        Failure::of("memory", io::Error::from(ErrorKind::OutOfMemory))
    }
}

impl<T: Drop> From<AllocFailed<T>> for Failure {
    fn from(error: AllocFailed<T>) -> Failure {
        Failure::from(AllocError::from(error))
    }
}

/// Names the path that a call was about, where it failed.
pub fn named<T>(alloc: Global, path: &str, done: io::Result<T>) -> Result<T, Failure>
    ensures { answer_of Down.Fault result ≡ answer_of Down.Fault done }
{
    match done {
        Ok(value) => Ok(value),
        Err(reason) => Err(Failure::at(alloc, path, reason)),
    }
}

/// How many calls failed, and the first of them; where none was counted, the first that was noted.
#[derive(Drop)]
pub struct Failures {
    pub count: u64,
    first: Option<Failure>,
}

impl Failures {
    pub fn none() -> Failures
        ensures { result.count ≡ 0 }
    {
        Failures {
            count: 0,
            first: None,
        }
    }

    /// Notes a failure behind those that were noted before, and counts none.
    pub fn note(&mut self, failure: Failure)
        ensures { self.new.count ≡ self.old.count }
    {
        if self.first.is_none() {
            self.first = Some(failure);
        }
    }

    /// Counts a failure. The first that is counted goes before those that were noted.
    pub fn add(&mut self, failure: Failure)
        ensures { self.new.count ≡ counted self.old.count }
    {
        if self.count == 0 || self.first.is_none() {
            self.first = Some(failure);
        }
        self.count = self.count.saturating_add(1);
    }

    /// Notes why the program can't start, and gives the fault: want of memory as itself, each other reason as `other`.
    pub fn refuse(
        &mut self,
        alloc: Global,
        path: &str,
        reason: io::Error,
        other: HostFault,
    ) -> HostFault
        ensures { self.new.count ≡ self.old.count }
    {
        self.refuse_by(Failure::at(alloc, path, reason), other)
    }

    /// The same of a call that failed.
    pub fn refuse_by(&mut self, failure: Failure, other: HostFault) -> HostFault
        ensures { self.new.count ≡ self.old.count }
    {
        let fault = HostFault::of(&failure.reason, other);
        self.note(failure);
        fault
    }

    /// Notes what another count has first.
    pub fn follow(&mut self, others: &mut Failures)
        ensures { self.new.count ≡ self.old.count }
    {
        if let Some(failure) = others.first.take() {
            self.note(failure);
        }
    }

    /// The first failure.
    pub fn first(&self) -> Option<&Failure> {
        self.first.as_ref()
    }
}

/// The answer of a call, of which it counts those that failed.
pub fn told<T>(failures: &mut Failures, done: Result<T, Failure>) -> Result<T, Down>
    ensures answer { result ≡ answer_of Down.Fault done }
    ensures count { failures.new.count ≡ count_of failures.old.count done }
{
    match done {
        Ok(value) => Ok(value),
        Err(failure) => {
            failures.add(failure);
            Err(Down::Fault)
        }
    }
}

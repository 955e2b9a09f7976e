//! What a long work says of itself.

use io_model::{Source, SourceFault};
use std::env::{Env, FillError};
use std::rt::Clock;
use std::time::Instant;
use upd_text::Name;

/// A program with this name in its environment says how far it is.
const ASKED: &str = "CLIENT_PROGRESS";

/// How many seconds lie between two lines at the least.
const BETWEEN: u64 = 1;

const MIB: u64 = 1 << 20;

/// Whether the environment asks for lines.
pub fn asks_progress<R: Env>(rt: &R) -> bool {
    !matches!(rt.var(ASKED, &mut []), Err(FillError::NotPresent))
}

/// How many bytes were read, of how many, and when that was said last.
#[derive(Drop)]
pub struct Progress {
    says: bool,
    last: Option<Instant>,
    read: u64,
    all: u64,
}

impl Progress {
    /// Nothing was read. Where it isn't to say anything, it is silent.
    pub fn new(says: bool) -> Progress {
        Progress {
            says,
            last: None,
            read: 0,
            all: 0,
        }
    }

    /// So many bytes more are to be read.
    pub fn add_length(&mut self, length: u64) {
        self.all = self.all.saturating_add(length);
    }

    /// Whether a line is due. The time begins with the first byte that is read.
    fn is_due<R: Clock>(&mut self, rt: &R) -> bool {
        let Ok(now) = Instant::now(rt) else {
            return false;
        };
        match self.last {
            Some(last) if now.duration_since(last).as_secs() < BETWEEN => false,
            last => {
                self.last = Some(now);
                last.is_some()
            }
        }
    }

    /// So many bytes more were read. A line says how far it is, where one is due.
    pub fn add_read<R: Clock + Eprint>(&mut self, rt: &R, count: usize) {
        self.read = self.read.saturating_add(count as u64);
        if self.says && self.is_due(rt) {
            let read = self.read / MIB;
            let all = self.all.max(self.read) / MIB;
            let _ = eprintln!(rt; "{read} of {all} MiB");
        }
    }
}

/// A tree of which it is said on standard error, at most once a second, how much was read, where that was asked for.
#[derive(Drop)]
pub struct Watched<S: Source + Drop, R: Clock + Eprint + Drop> {
    source: S,
    rt: R,
    progress: Progress,
    /// The first file that wasn't asked for its length yet.
    next: u32,
}

impl<S: Source + Drop, R: Clock + Eprint + Drop> Watched<S, R> {
    ghost use Rattle.std.specs.Prelude.{◌≡◌};

    pub fn new(rt: R, source: S, says: bool) -> Watched<S, R>
        ensures { result.source ≡ source }
    {
        Watched {
            source,
            rt,
            progress: Progress::new(says),
            next: 0,
        }
    }

    /// The tree.
    pub fn source(&mut self) -> &mut S {
        &mut self.source
    }
}

impl<S: Source + Drop, R: Clock + Eprint + Drop> Source for Watched<S, R> {
    type Plan = S::Plan;

    ghost plan = { λ w. S.plan w.source };

    ghost content = { λ w. S.content w.source };

    ghost given = { λ w. S.given w.source };

    ghost faults = { λ w. S.faults w.source };

    fn files(&self) -> u32 {
        self.source.files()
    }

    fn path(&mut self, i: u32) -> Result<Option<Name>, SourceFault> {
        self.source.path(i)
    }

    fn length(&mut self, i: u32) -> Result<u64, SourceFault> {
        match self.source.length(i) {
            Ok(length) => {
                if i == self.next {
                    self.next = i.saturating_add(1);
                    self.progress.add_length(length);
                }
                Ok(length)
            }
            Err(fault) => Err(fault),
        }
    }

    fn read(&mut self, i: u32, at: u64, into: &mut [u8]) -> Result<usize, SourceFault> {
        match self.source.read(i, at, into) {
            Ok(count) => {
                self.progress.add_read(&self.rt, count);
                Ok(count)
            }
            Err(fault) => Err(fault),
        }
    }
}

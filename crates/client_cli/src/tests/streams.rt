//! Words and streams of the host, where the system gives odd ones, and what is said of long work.

use host_edge::{HostSink, HostSource, Watched, fill_streams, words_of};
use io_model::{Sink, SinkFault, Source};
use std::cell::Cell;
use std::env::{Env, FillError};
use std::fmt::Display;
use std::fs;
use std::io::{self, ErrorKind};
use std::rt::{Clock, Files};
use std::test::Fail;
use std::time::Duration;

/// A standard output that is full.
#[derive(Drop)]
struct Full;

impl Print for Full {
    fn print<D: Display + Drop>(&self, _value: D) -> io::Result<()> {
        Err(io::Error::from(ErrorKind::StorageFull))
    }

    fn println<D: Display + Drop>(&self, _value: D) -> io::Result<()> {
        Err(io::Error::from(ErrorKind::StorageFull))
    }

    fn write_all(&self, _bytes: &[u8]) -> io::Result<()> {
        Err(io::Error::from(ErrorKind::StorageFull))
    }
}

#[test]
fn a_full_output_is_a_fault(rt: HostRuntime) -> Result<(), Fail> {
    assert_eq!(rt; HostSink::new(Full).put(b"text"), Err(SinkFault));
    assert_eq!(rt; HostSink::new(&rt).put(b""), Ok(()));
    assert!(rt; fill_streams(&rt).is_ok());
    Ok(())
}

const WORDS: &[&[u8]] = &[b"client_cli", b"--data", b"caf\xff", b""];

/// A command line with a word that isn't text.
#[derive(Drop)]
struct Odd;

impl Env for Odd {
    fn arg(&self, i: usize, buf: &mut [u8]) -> Result<usize, FillError> {
        let Some(word) = WORDS.get(i) else {
            return Err(FillError::NotPresent);
        };
        if buf.len() < word.len() {
            return Err(FillError::TooLong);
        }
        buf[..word.len()].copy_from_slice(word);
        Ok(word.len())
    }

    fn var(&self, _name: &str, _buf: &mut [u8]) -> Result<usize, FillError> {
        Err(FillError::NotPresent)
    }

    fn var_at(&self, _i: usize, _buf: &mut [u8]) -> Result<usize, FillError> {
        Err(FillError::NotPresent)
    }
}

#[test]
fn a_word_that_is_no_text_keeps_its_place(rt: HostRuntime) -> Result<(), Fail> {
    let words = words_of(&(Odd, rt.alloc()))?;
    assert_eq!(rt; words.len(), 3);
    for (word, wanted) in words.iter().zip(["--data", "caf\u{fffd}", ""]) {
        assert_eq!(rt; word.as_str(), wanted);
    }
    Ok(())
}

/// A clock that goes on by 400 milliseconds each time, and counts the lines on standard error.
#[derive(Drop)]
struct Ticking {
    millis: Cell<u64>,
    lines: Cell<u64>,
}

impl Clock for Ticking {
    fn monotonic(&self) -> io::Result<Duration> {
        let millis = self.millis.get().saturating_add(400);
        self.millis.set(millis);
        Ok(Duration::from_millis(millis))
    }

    fn since_1970(&self) -> io::Result<Duration> {
        self.monotonic()
    }
}

impl Eprint for Ticking {
    fn eprint<D: Display + Drop>(&self, _value: D) -> io::Result<()> {
        Ok(())
    }

    fn eprintln<D: Display + Drop>(&self, _value: D) -> io::Result<()> {
        self.lines.set(self.lines.get().saturating_add(1));
        Ok(())
    }
}

#[test]
fn long_work_is_said_each_second_where_it_is_asked(rt: HostRuntime) -> Result<(), Fail> {
    fs::create_dir(&rt, "said")?;
    fs::write(&rt, "said/a", b"0123456789".as_slice())?;
    for (says, lines) in [(true, 3), (false, 0)] {
        let ticking = Ticking {
            millis: Cell::new(0),
            lines: Cell::new(0),
        };
        let tree = HostSource::attach(&rt, rt.alloc(), "said").map_err(|_| "no tree")?;
        let mut source = Watched::new(&ticking, tree, says);
        for at in 0..10 {
            let mut into = [0; 1];
            assert_eq!(rt; source.files(), 1);
            assert_eq!(rt; source.read(0, at, &mut into), Ok(1));
        }
        assert_eq!(rt; ticking.lines.get(), lines);
    }
    rt.remove_dir_all(rt.alloc(), "said")?;
    Ok(())
}

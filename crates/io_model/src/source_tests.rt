//! The source in memory by tables of its calls, and a source that tells nothing.

ghost use Rattle.std.specs.Prelude.{◌≡◌, ◌≤◌};
ghost use Rattle.io_model.specs.Source.Content.{Untold};

use crate::{FileList, MemSource, Source, SourceFault};
use std::alloc::Global;
use std::test::Fail;
use upd_text::{CallList, Name};

/// Two files: `version` with the bytes `abc`, and one that has no name and no bytes.
fn two_files(alloc: Global) -> Result<FileList, Fail> {
    let mut files = FileList::new(alloc);
    files.push(b"version", b"abc")?;
    files.push(b"\n", b"")?;
    Ok(files)
}

fn source_failing_at(alloc: Global, numbers: &[u64]) -> Result<MemSource, Fail> {
    let mut failing = CallList::new(alloc);
    for number in numbers {
        failing.push(*number)?;
    }
    Ok(MemSource::new(two_files(alloc)?, failing))
}

#[test]
fn files_are_listed(rt: HostRuntime) -> Result<(), Fail> {
    let files = two_files(rt.alloc())?;
    assert_eq!(rt; files.len(), 2);
    let first = files.at(0);
    let path = first.path().ok_or("no path")?;
    assert_eq!(rt; path.bytes(), b"version".as_slice());
    assert_eq!(rt; first.bytes(), b"abc".as_slice());
    assert!(rt; files.at(1).path().is_none());
    assert_eq!(rt; files.at(1).bytes(), b"".as_slice());
    Ok(())
}

/// Which of four calls went through, and whether their values were right.
fn four_calls(source: &mut MemSource) -> Option<[bool; 4]> {
    if source.files() != 2 {
        return None;
    }
    let named = match source.path(0) {
        Ok(Some(name)) => name.bytes() == b"version".as_slice(),
        _ => false,
    };
    let nameless = matches!(source.path(1), Ok(None));
    let full = source.length(0) == Ok(3);
    let empty = source.length(1) == Ok(0);
    Some([named, nameless, full, empty])
}

#[test]
fn calls_fail_where_they_are_to(rt: HostRuntime) -> Result<(), Fail> {
    let rows: [(&[u64], [bool; 4], [bool; 4]); 5] = [
        (&[], [true; 4], [true; 4]),
        (&[0], [false, true, true, true], [true; 4]),
        (&[1, 2], [true, false, false, true], [true; 4]),
        (
            &[3, 4],
            [true, true, true, false],
            [false, true, true, true],
        ),
        (&[7, 99], [true; 4], [true, true, true, false]),
    ];
    for (numbers, first, second) in &rows {
        let mut source = source_failing_at(rt.alloc(), numbers)?;
        assert_eq!(rt; four_calls(&mut source), Some(*first));
        assert_eq!(rt; four_calls(&mut source), Some(*second));
    }
    Ok(())
}

/// One byte of the first file, from a place on.
#[tactic(auto, using(crate::proofs::SourceLemmas::in_file))]
fn byte_at<S: Source>(source: &mut S, at: u64) -> Result<Option<u8>, SourceFault> {
    if source.files() == 0 {
        return Ok(None);
    }
    let length = source.length(0)?;
    if length <= at {
        return Ok(None);
    }
    let mut into = [0u8; 1];
    source.read(0, at, &mut into)?;
    Ok(Some(into[0]))
}

#[test]
fn bytes_are_read(rt: HostRuntime) -> Result<(), Fail> {
    let mut source = source_failing_at(rt.alloc(), &[3, 8])?;
    let rows = [
        (0, Ok(Some(b'a'))),
        (1, Err(SourceFault)),
        (1, Ok(Some(b'b'))),
        (2, Ok(Some(b'c'))),
        (2, Err(SourceFault)),
        (3, Ok(None)),
    ];
    for (at, wanted) in &rows {
        assert_eq!(rt; byte_at(&mut source, *at), *wanted, "at {at}");
    }
    Ok(())
}

/// One file of zeros, of which it tells nothing.
#[derive(Drop)]
struct Zeros(u64);

impl Source for Zeros {
    type Plan = ();

    ghost use Rattle.std.specs.Prelude.{None};
    ghost use Rattle.io_model.specs.Source.Content.{Untold};

    ghost content = { λ z. Untold 1 };

    ghost given = { λ z. None };

    ghost faults = { λ z. 0 };

    ghost plan = { λ z. None };

    fn files(&self) -> u32 {
        1
    }

    fn path(&mut self, _i: u32) -> Result<Option<Name>, SourceFault> {
        Ok(None)
    }

    fn length(&mut self, _i: u32) -> Result<u64, SourceFault> {
        Ok(self.0 % 1000)
    }

    fn read(&mut self, _i: u32, _at: u64, into: &mut [u8]) -> Result<usize, SourceFault> {
        into[0] = 0;
        Ok(1)
    }
}

#[test]
fn a_source_may_tell_nothing(rt: HostRuntime) {
    assert_eq!(rt; byte_at(&mut Zeros(2), 1), Ok(Some(0)));
    assert_eq!(rt; byte_at(&mut Zeros(2), 2), Ok(None));
}

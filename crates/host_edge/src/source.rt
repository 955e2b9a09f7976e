//! A tree, as the files below a folder.

ghost use Rattle.std.specs.Prelude.{◌≡◌, ◌<◌, ◌≤◌, ◌^◌, length, vec_len, IfOk};
ghost use Rattle.upd_text.specs.Counts.{counted};

use crate::failure::{Failure, Failures, named};
use crate::fault::HostFault;
use crate::files::{joined, names_in, open_regular};
use io_model::{Source, SourceFault};
use std::alloc::Global;
use std::io::{self, ErrorKind};
use std::os::unix::fs::FileExt;
use std::rt::Files;
use upd_text::Name;

/// The files below a folder, in byte order of their whole paths. It tells nothing of them, and counts each call that failed. A
/// link to a file is read as the file; what is neither a file nor a folder is never opened, and reading it fails.
#[derive(Drop)]
pub struct HostSource<R: Files + Drop> {
    rt: R,
    alloc: Global,
    folder: String,
    paths: Vec<Vec<u8>>,
    /// The length of each file that was asked for it, so that each is asked once.
    lengths: Vec<Option<u64>>,
    /// The file that was read last.
    open: Option<(u32, R::File)>,
    failures: Failures,
    ghost few: { vec_len paths < 2 ^ 32 },
}

impl<R: Files + Drop> HostSource<R>
where
    R::File: FileExt,
{
    /// A source without files.
    pub fn none(rt: R, alloc: Global) -> HostSource<R>
        ensures none { vec_len result.paths ≡ 0 }
        ensures new { result.failures.count ≡ 0 }
    {
        HostSource {
            rt,
            alloc,
            folder: String::new(alloc),
            paths: Vec::new(alloc),
            lengths: Vec::new(alloc),
            open: None,
            failures: Failures::none(),
        }
    }

    /// The files below this folder. An empty word names none.
    pub fn attach(rt: R, alloc: Global, folder: &str) -> Result<HostSource<R>, HostFault>
        ensures { IfOk result (λ s. s.failures.count ≡ 0) }
    {
        let mut noted = Failures::none();
        HostSource::attach_noting(rt, alloc, folder, &mut noted)
    }

    /// The same, where what can't be read is noted.
    pub fn attach_noting(
        rt: R,
        alloc: Global,
        folder: &str,
        noted: &mut Failures,
    ) -> Result<HostSource<R>, HostFault>
        ensures new { IfOk result (λ s. s.failures.count ≡ 0) }
        ensures noted { noted.new.count ≡ noted.old.count }
    {
        let paths = match paths_below(&rt, alloc, folder) {
            Ok(paths) => paths,
            Err(failure) => return Err(noted.refuse_by(failure, HostFault::NoTree)),
        };
        if paths.len() >= 0x1_0000_0000 {
            return Err(HostFault::NoMemory);
        }
        let mut lengths = Vec::new(alloc);
        lengths.resize(paths.len(), None)?;
        Ok(HostSource {
            folder: String::from_str(alloc, folder)?,
            rt,
            alloc,
            paths,
            lengths,
            open: None,
            failures: Failures::none(),
        })
    }

    /// The calls that failed.
    pub fn failures(&self) -> &Failures {
        &self.failures
    }

    /// Notes elsewhere what failed first.
    pub fn hand_first(&mut self, noted: &mut Failures)
        ensures { noted.new.count ≡ noted.old.count }
    {
        noted.follow(&mut self.failures);
    }

    /// The whole path of a file. Where it isn't text it can't be opened.
    fn path_of(&self, i: u32) -> io::Result<String> {
        let Some(path) = self.paths.get(i as usize) else {
            return Err(io::Error::from(ErrorKind::NotFound));
        };
        let Ok(text) = std::str::from_utf8(path.as_slice()) else {
            return Err(io::Error::from(ErrorKind::InvalidFilename));
        };
        Ok(joined(self.alloc, self.folder.as_str(), text)?)
    }

    /// How many bytes a file has, by the system.
    fn found_length(&self, i: u32) -> io::Result<u64> {
        let kind = self.rt.metadata(self.path_of(i)?.as_str())?;
        if !kind.is_file() {
            return Err(io::Error::from(ErrorKind::InvalidInput));
        }
        Ok(kind.len())
    }

    /// How many bytes a file has, or had when it was asked first. What is no file has none.
    fn length_of(&mut self, i: u32) -> io::Result<u64>
        ensures paths { self.new.paths ≡ self.old.paths }
        ensures failures { self.new.failures ≡ self.old.failures }
    {
        if let Some(Some(length)) = self.lengths.get(i as usize) {
            return Ok(*length);
        }
        let length = self.found_length(i)?;
        if let Some(known) = self.lengths.get_mut(i as usize) {
            *known = Some(length);
        }
        Ok(length)
    }

    fn read_piece(&mut self, i: u32, at: u64, into: &mut [u8]) -> io::Result<usize>
        ensures paths { self.new.paths ≡ self.old.paths }
        ensures failures { self.new.failures ≡ self.old.failures }
    {
        let file = match self.open.take() {
            Some((open, file)) if open == i => file,
            _ => open_regular(&self.rt, self.path_of(i)?.as_str())?,
        };
        let count = read_once_at(&file, into, at)?;
        self.open = Some((i, file));
        Ok(count)
    }

    /// Counts a call on a file that failed.
    fn fault(&mut self, i: u32, reason: io::Error) -> SourceFault
        ensures paths { self.new.paths ≡ self.old.paths }
        ensures count { self.new.failures.count ≡ counted self.old.failures.count }
    {
        let failure = match self.path_shown(i) {
            Ok(path) => Failure::at(self.alloc, path.as_str(), reason),
            Err(_) => Failure::at(self.alloc, self.folder.as_str(), reason),
        };
        self.failures.add(failure);
        SourceFault
    }

    /// The whole path of a file as text, for a reader.
    fn path_shown(&self, i: u32) -> io::Result<String> {
        let Some(path) = self.paths.get(i as usize) else {
            return Err(io::Error::from(ErrorKind::NotFound));
        };
        let text = String::from_utf8_lossy(self.alloc, path.as_slice())?;
        Ok(joined(self.alloc, self.folder.as_str(), text.as_str())?)
    }
}

/// One read at an offset, which is tried again where it was interrupted.
fn read_once_at<F: FileExt>(file: &F, into: &mut [u8], at: u64) -> io::Result<usize>
    ensures { IfOk result (λ n. n ≤ length into.new) }
{
    for _ in 0..u64::MAX {
        match file.read_at(into, at) {
            Ok(count) => return Ok(count),
            Err(error) if error.kind() == ErrorKind::Interrupted => {}
            Err(error) => return Err(error),
        }
    }
    Err(io::Error::from(ErrorKind::Interrupted))
}

/// The files of the folder that the second word of a module names, or none where there is no such word. What can't be read is noted.
pub fn source_of<R: Files + Drop>(
    rt: R,
    alloc: Global,
    words: &[String],
    noted: &mut Failures,
) -> Result<HostSource<R>, HostFault>
where
    R::File: FileExt,
    ensures new { IfOk result (λ s. s.failures.count ≡ 0) }
    ensures noted { noted.new.count ≡ noted.old.count }
{
    match words {
        [_, folder, ..] => HostSource::attach_noting(rt, alloc, folder.as_str(), noted),
        _ => Ok(HostSource::none(rt, alloc)),
    }
}

/// The files below a folder, in byte order of their paths.
fn paths_below<R: Files>(rt: &R, alloc: Global, folder: &str) -> Result<Vec<Vec<u8>>, Failure> {
    if folder.is_empty() {
        let reason = io::Error::from(ErrorKind::NotFound);
        return Err(Failure::at(alloc, folder, reason));
    }
    let mut files = Vec::new(alloc);
    let mut pending = Vec::new(alloc);
    pending.push(String::new(alloc))?;
    for _ in 0..u64::MAX {
        let Some(inner) = pending.pop() else {
            break;
        };
        add_names(rt, alloc, folder, inner.as_str(), &mut files, &mut pending)?;
    }
    files.sort()?;
    Ok(files)
}

fn add_names<R: Files>(
    rt: &R,
    alloc: Global,
    folder: &str,
    inner: &str,
    files: &mut Vec<Vec<u8>>,
    pending: &mut Vec<String>,
) -> Result<(), Failure> {
    let here = joined(alloc, folder, inner)?;
    let names = names_in(rt, alloc, here.as_str());
    for name in named(alloc, here.as_str(), names)? {
        let mut path = Vec::from_slice(alloc, inner.as_bytes())?;
        if !inner.is_empty() {
            path.push(b'/')?;
        }
        path.extend_from_slice(name.as_slice())?;
        match inner_folder(rt, alloc, folder, path.as_slice())? {
            Some(text) => pending.push(text)?,
            None => files.push(path)?,
        }
    }
    Ok(())
}

/// The path as text, where a folder stands there. A link is no folder.
fn inner_folder<R: Files>(
    rt: &R,
    alloc: Global,
    folder: &str,
    path: &[u8],
) -> Result<Option<String>, Failure> {
    let Ok(text) = std::str::from_utf8(path) else {
        return Ok(None);
    };
    let whole = joined(alloc, folder, text)?;
    let kind = named(alloc, whole.as_str(), rt.symlink_metadata(whole.as_str()))?;
    if kind.is_dir() {
        Ok(Some(String::from_str(alloc, text)?))
    } else {
        Ok(None)
    }
}

impl<R: Files + Drop> Source for HostSource<R>
where
    R::File: FileExt,
{
    ghost use Rattle.std.specs.Prelude.{None, vec_len};
    ghost use Rattle.io_model.specs.Source.Content.{Untold};

    type Plan = ();

    ghost plan = { λ _. None };

    ghost content = { λ s. Untold (vec_len s.paths) };

    ghost given = { λ _. None };

    ghost faults = { λ s. s.failures.count };

    fn files(&self) -> u32 {
        let _failed = self.failures.count;
        self.paths.len() as u32
    }

    fn path(&mut self, i: u32) -> Result<Option<Name>, SourceFault> {
        match self.paths.get(i as usize) {
            Some(path) => Ok(Name::read(path.as_slice()).ok()),
            None => Err(self.fault(i, io::Error::from(ErrorKind::NotFound))),
        }
    }

    fn length(&mut self, i: u32) -> Result<u64, SourceFault> {
        match self.length_of(i) {
            Ok(size) if size < 1 << 60 => Ok(size),
            Ok(_) => Err(self.fault(i, io::Error::from(ErrorKind::FileTooLarge))),
            Err(reason) => Err(self.fault(i, reason)),
        }
    }

    fn read(&mut self, i: u32, at: u64, into: &mut [u8]) -> Result<usize, SourceFault> {
        match self.read_piece(i, at, into) {
            Ok(count) if count > 0 && count <= into.len() => Ok(count),
            Ok(_) => Err(self.fault(i, io::Error::from(ErrorKind::UnexpectedEof))),
            Err(reason) => Err(self.fault(i, reason)),
        }
    }
}

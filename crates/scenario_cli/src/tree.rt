//! The tree of a row.

ghost use Rattle.std.specs.Prelude.{◌<◌};

use crate::reason::{Reason, Stop};
use io_model::FileList;
use manifest_sums::Summing;
use std::alloc::Global;
use upd_text::NoMemory;

/// Where a file stands, and whether the manifest has a line for it.
#[derive(Clone, Copy, PartialEq, Eq)]
pub enum Place {
    /// In front of all others, without a line.
    Front,
    /// In front of the manifest.
    Own,
    /// Behind the manifest.
    Further,
    /// Behind all others, without a line.
    Unlisted,
}

#[derive(Drop)]
struct File {
    place: Place,
    path: Vec<u8>,
    bytes: Vec<u8>,
}

/// A line of the manifest that a row gives.
#[derive(Drop)]
struct Line {
    path: Vec<u8>,
    sum: Vec<u8>,
}

/// Files, and the lines that aren't made of them.
#[derive(Drop)]
pub struct Tree {
    alloc: Global,
    files: Vec<File>,
    lines: Vec<Line>,
    manifest: Manifest,
}

/// The manifest of a tree.
#[derive(Drop)]
enum Manifest {
    /// It is made of the files and of the given lines.
    Made,
    Given(Vec<u8>),
    /// The tree has none.
    None,
}

/// A file has fewer bytes than this.
pub const MOST_BYTES: usize = 1_000_000;

fn add_line(manifest: &mut Vec<u8>, path: &[u8], sum: &[u8]) -> Result<(), NoMemory> {
    manifest.extend_from_slice(sum)?;
    manifest.extend_from_slice(b"  ")?;
    manifest.extend_from_slice(path)?;
    manifest.extend_from_slice(b"\n")?;
    Ok(())
}

/// The line of a file with the sum of its bytes.
fn add_sum(manifest: &mut Vec<u8>, file: &File) -> Result<(), NoMemory> {
    let mut summing = Summing::new();
    summing.piece(&file.bytes);
    add_line(manifest, &file.path, summing.finish().hex().as_slice())
}

fn add_file(files: &mut FileList, path: &[u8], bytes: &[u8]) -> Result<(), Stop> {
    if bytes.len() >= MOST_BYTES {
        return Err(Stop::Wrong(Reason::Large));
    }
    Ok(files.push(path, bytes)?)
}

/// A digit of a number, of which `unit` is one of the powers of ten.
fn digit(number: u16, unit: u16) -> u8
    requires { 0 < unit }
{
    b'0' + (number / unit % 10) as u8
}

impl Tree {
    /// A tree without files, but for its manifest.
    pub fn new(alloc: Global) -> Tree {
        Tree {
            alloc,
            files: Vec::new(alloc),
            lines: Vec::new(alloc),
            manifest: Manifest::Made,
        }
    }

    pub fn add(&mut self, place: Place, path: Vec<u8>, bytes: Vec<u8>) -> Result<(), NoMemory> {
        self.files.push(File { place, path, bytes })?;
        Ok(())
    }

    /// Gives these bytes to the file with this path, or to a further one.
    pub fn change(&mut self, path: Vec<u8>, bytes: Vec<u8>) -> Result<(), NoMemory> {
        for file in self.files.iter_mut() {
            if file.path.as_slice() == path.as_slice() {
                file.bytes = bytes;
                return Ok(());
            }
        }
        self.add(Place::Further, path, bytes)
    }

    /// The bytes of the file with this path. One that isn't there has none.
    fn bytes_at(&self, path: &[u8]) -> Result<Vec<u8>, NoMemory> {
        for file in &self.files {
            if file.path.as_slice() == path {
                return Ok(Vec::from_slice(self.alloc, &file.bytes)?);
            }
        }
        Ok(Vec::new(self.alloc))
    }

    /// Adds these bytes so many times to the file with this path, or to a further one.
    pub fn fill(&mut self, path: Vec<u8>, count: u32, bytes: &[u8]) -> Result<(), Stop> {
        let mut all = self.bytes_at(&path)?;
        for _ in 0..count {
            all.extend_from_slice(bytes)?;
            if all.len() >= MOST_BYTES {
                return Err(Stop::Wrong(Reason::Large));
            }
        }
        Ok(self.change(path, all)?)
    }

    /// The line of this path has this sum. It stands behind those that are made of the files.
    pub fn give_line(&mut self, path: Vec<u8>, sum: Vec<u8>) -> Result<(), NoMemory> {
        self.lines.push(Line { path, sum })?;
        Ok(())
    }

    /// The whole manifest.
    pub fn give_manifest(&mut self, text: Vec<u8>) {
        self.manifest = Manifest::Given(text);
    }

    /// The tree has no manifest.
    pub fn drop_manifest(&mut self) {
        self.manifest = Manifest::None;
    }

    /// So many files in front of the manifest, whose paths have 00, 01 and so on at their end.
    pub fn add_many(&mut self, front: &[u8], count: u16) -> Result<(), NoMemory> {
        for i in 0..count {
            let mut path = Vec::from_slice(self.alloc, front)?;
            if i >= 100 {
                path.push(digit(i, 100))?;
            }
            path.push(digit(i, 10))?;
            path.push(digit(i, 1))?;
            self.add(Place::Own, path, Vec::from_slice(self.alloc, b"abc")?)?;
        }
        Ok(())
    }

    fn is_given(&self, path: &[u8]) -> bool {
        self.lines.iter().any(|line| line.path.as_slice() == path)
    }

    /// Adds the lines of the files that stand there.
    fn add_sums(&self, manifest: &mut Vec<u8>, place: Place) -> Result<(), NoMemory> {
        for file in &self.files {
            if file.place == place && !self.is_given(&file.path) {
                add_sum(manifest, file)?;
            }
        }
        Ok(())
    }

    /// The manifest that is made of the files and of the given lines.
    fn made_manifest(&self) -> Result<Vec<u8>, NoMemory> {
        let mut manifest = Vec::new(self.alloc);
        self.add_sums(&mut manifest, Place::Own)?;
        self.add_sums(&mut manifest, Place::Further)?;
        for line in &self.lines {
            add_line(&mut manifest, &line.path, &line.sum)?;
        }
        Ok(manifest)
    }

    /// Adds the files that stand there.
    fn add_files(&self, files: &mut FileList, place: Place) -> Result<(), Stop> {
        for file in &self.files {
            if file.place == place {
                add_file(files, &file.path, &file.bytes)?;
            }
        }
        Ok(())
    }

    fn add_manifest(&self, files: &mut FileList) -> Result<(), Stop> {
        match &self.manifest {
            Manifest::Given(text) => add_file(files, b"manifest", text),
            Manifest::Made => add_file(files, b"manifest", &self.made_manifest()?),
            Manifest::None => Ok(()),
        }
    }

    /// The files in their order.
    pub fn files(&self) -> Result<FileList, Stop> {
        let mut files = FileList::new(self.alloc);
        self.add_files(&mut files, Place::Front)?;
        self.add_files(&mut files, Place::Own)?;
        self.add_manifest(&mut files)?;
        self.add_files(&mut files, Place::Further)?;
        self.add_files(&mut files, Place::Unlisted)?;
        Ok(files)
    }
}

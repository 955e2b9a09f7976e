//! The files of a work folder in memory.

ghost use Rattle.std.specs.Prelude.{◌≡◌, ◌<◌, ◌++◌, ◌∷◌, [], length, slice_get, Some, OnOk, OnErr, IfOk, position};
ghost use Rattle.std.specs.Str.{bytes_eq};
ghost use Rattle.device_model.specs.Work.{File, is_at, appended, same_part};

use device_model::Part;
use std::alloc::Global;
use std::marker::Model;
use upd_text::{Name, NoMemory};

/// What is known of a work folder.
#[derive(Clone, Copy, Debug, PartialEq, Eq)]
pub(crate) enum Kind {
    Unknown,
    Changed,
    Synced,
}

/// A file in a work folder.
#[derive(Drop)]
pub struct WorkFile {
    part: Part,
    path: Name,
    bytes: Vec<u8>,
}

impl Model for WorkFile {
    ghost use Rattle.device_model.specs.Work.{File};

    ghost Value = { File };

    ghost view = { λ f. record { part = f.part; path = f.path; bytes = f.bytes.items } };
}

impl WorkFile {
    /// The part of the folder where it stands.
    pub fn part(&self) -> &Part
        ensures { result.now ≡ self.now.part }
    {
        &self.part
    }

    /// Its path there.
    pub fn path(&self) -> &Name
        ensures { result.now ≡ self.now.path }
    {
        &self.path
    }

    /// Its bytes.
    pub fn bytes(&self) -> &[u8]
        ensures { result.now ≡ self.now.bytes }
    {
        &self.bytes
    }

    fn new(alloc: Global, part: Part, path: &Name, bytes: &[u8]) -> Result<WorkFile, NoMemory>
        ensures { IfOk result (λ f. f ≡ record { part = part; path = path.now; bytes = bytes.now }) }
    {
        Ok(WorkFile {
            part,
            path: path.twin(),
            bytes: Vec::from_slice(alloc, bytes)?,
        })
    }

    fn stands_at(&self, part: Part, path: &Name) -> bool
        ensures { result ≡ is_at part path.now self.now }
    {
        is_same_part(part, self.part) && is_same(path.bytes(), self.path.bytes())
    }

    fn extend(&mut self, bytes: &[u8]) -> Result<(), NoMemory>
        ensures ok { OnOk result (self.new ≡ record self.old { bytes = self.old.bytes ++ bytes.now }) }
        ensures err { OnErr result (self.new ≡ self.old) }
    {
        self.bytes.extend_from_slice(bytes)?;
        Ok(())
    }
}

/// A list of fewer than 2^32 files, which contracts see as the list itself.
#[derive(Drop)]
pub struct WorkList {
    files: Vec<WorkFile>,
}

impl Model for WorkList {
    ghost use Rattle.std.specs.Prelude.{List, length, ◌<◌, ◌^◌};
    ghost use Rattle.device_model.specs.Work.{File};

    ghost Value = { List File };

    ghost view = { λ l. l.files.items };

    ghost invariant = { λ l. length l.files.items < 2 ^ 32 };
}

impl WorkList {
    /// No file. It takes no memory yet.
    pub fn new(alloc: Global) -> WorkList
        ensures { result ≡ [] }
    {
        WorkList {
            files: Vec::new(alloc),
        }
    }

    /// How many files there are.
    pub fn len(&self) -> u32
        ensures { result ≡ length self.now }
    {
        self.files.len() as u32
    }

    /// The file at an index, counted from 0.
    pub fn at(&self, i: u32) -> &WorkFile
        requires { i < length self.now }
        ensures { slice_get self.now i ≡ Some result.now }
    {
        &self.files[i as usize]
    }

    /// Adds a file at the end. A refusal changes nothing.
    pub fn push(&mut self, file: WorkFile) -> Result<(), NoMemory>
        ensures ok { OnOk result (self.new ≡ self.old ++ file ∷ []) }
        ensures err { OnErr result (self.new ≡ self.old) }
    {
        if self.files.len() >= 0xffff_ffff {
            return Err(NoMemory);
        }
        self.files.push(file)?;
        Ok(())
    }

    pub(crate) fn clear(&mut self)
        ensures { self.new ≡ [] }
    {
        self.files.clear();
    }

    /// Adds bytes at the end of a file that is there, or a file at the end of the list.
    pub(crate) fn append(
        &mut self,
        alloc: Global,
        part: Part,
        path: &Name,
        bytes: &[u8],
    ) -> Result<(), NoMemory>
        ensures ok { OnOk result (self.new ≡ appended part path.now bytes.now self.old) }
        ensures err { OnErr result (self.new ≡ self.old) }
    {
        if let Some(i) = place_of(&self.files, part, path) {
            return self.files[i].extend(bytes);
        }
        let file = WorkFile::new(alloc, part, path, bytes)?;
        self.push(file)
    }

    /// The same files, in memory of their own.
    pub(crate) fn copy(&self, alloc: Global) -> Result<WorkList, NoMemory>
        ensures { IfOk result (λ l. l ≡ self.now) }
    {
        let mut files = Vec::new(alloc);
        for file in &self.files {
            let copy = WorkFile::new(alloc, file.part, &file.path, &file.bytes)?;
            files.push(copy)?;
        }
        Ok(WorkList { files })
    }
}

/// The place of the file that stands there.
fn place_of(files: &[WorkFile], part: Part, path: &Name) -> Option<usize>
    ensures { result ≡ position (is_at part path.now) files.now }
{
    files.iter().position(|file| file.stands_at(part, path))
}

fn is_same_part(a: Part, b: Part) -> bool
    ensures { result ≡ same_part a b }
{
    match (a, b) {
        (Part::Tree(k), Part::Tree(j)) => k == j,
        (Part::Scripts, Part::Scripts) => true,
        (Part::Tree(_), Part::Scripts) => false,
        (Part::Scripts, Part::Tree(_)) => false,
    }
}

fn is_same(a: &[u8], b: &[u8]) -> bool
    ensures { result ≡ bytes_eq a.now b.now }
{
    a == b
}

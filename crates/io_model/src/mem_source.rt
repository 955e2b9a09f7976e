//! A source in memory.

ghost use Rattle.std.specs.Prelude.{◌≡◌, ◌<◌, ◌≤◌, ◌+◌, ◌==◌, ◌^◌, [], ◌∷◌, ◌++◌, length, take, get_or, replicate, slice_get, Some, IfOk, OnOk, OnErr};
ghost use Rattle.std.specs.List.{list_any};
ghost use Rattle.std.specs.Option.{option_copied};
ghost use Rattle.std.specs.Result.{result_ok, is_err};
ghost use Rattle.upd_text.specs.Text.{name_of};
ghost use Rattle.upd_text.specs.Counts.{raised};
ghost use Rattle.io_model.specs.Source.{Counts, IsPart, path_at, bytes_at, after_read};
ghost use Rattle.io_model.specs.MemSource.{fails, after_call, after_reading};

use crate::source::{Source, SourceFault};
use std::alloc::Global;
use std::marker::Model;
use upd_text::{CallList, ListOf, Name, NoMemory};

/// A file in memory: its path, where it is a name, and fewer than 2^60 bytes.
#[derive(Drop)]
pub struct TreeFile {
    path: Option<Name>,
    bytes: Vec<u8>,
}

impl Model for TreeFile {
    ghost use Rattle.std.specs.Prelude.{length, ◌<◌, ◌^◌};
    ghost use Rattle.io_model.specs.Source.{File};

    ghost Value = { File };

    ghost view = { λ f. (f.path, f.bytes.items) };

    ghost invariant = { λ f. length f.bytes.items < 2 ^ 60 };
}

impl TreeFile {
    /// The path, or `None` where it is no name.
    pub fn path(&self) -> Option<&Name>
        ensures { option_copied result ≡ self.now.0 }
    {
        self.path.as_ref()
    }

    /// The bytes of the file.
    pub fn bytes(&self) -> &[u8]
        ensures bytes { result.now ≡ self.now.1 }
        ensures short { length self.now.1 < 2 ^ 60 }
    {
        self.bytes.as_slice()
    }

    fn path_twin(&self) -> Option<Name>
        ensures { result ≡ self.now.0 }
    {
        match &self.path {
            Some(name) => Some(name.twin()),
            None => None,
        }
    }
}

/// A list of files, which contracts see as the list of their paths and bytes. It has the room for
/// what a source counts of each.
#[derive(Drop)]
pub struct FileList {
    files: ListOf<TreeFile>,
    given: Vec<u64>,
    alloc: Global,
}

impl Model for FileList {
    ghost use Rattle.std.specs.Prelude.{◌≡◌, length, replicate};
    ghost use Rattle.io_model.specs.Source.{Tree};

    ghost Value = { Tree };

    ghost view = { λ l. l.files };

    ghost invariant = { λ l. l.given.items ≡ replicate (length l.files) 0 };
}

impl FileList {
    /// No files. It takes no memory yet.
    pub fn new(alloc: Global) -> FileList
        ensures { result ≡ [] }
    {
        FileList {
            files: ListOf::new(alloc),
            given: Vec::new(alloc),
            alloc,
        }
    }

    /// How many files there are.
    pub fn len(&self) -> u32
        ensures { result ≡ length self.now }
    {
        self.files.len()
    }

    /// The file at an index, counted from 0. Condition: it is below the length.
    pub fn at(&self, i: u32) -> &TreeFile
        requires { i < length self.now }
        ensures { slice_get self.now i ≡ Some result.now }
    {
        self.files.at(i)
    }

    /// Adds a file, whose path is none where these bytes are no name. Condition: there are fewer
    /// than 2^60 `bytes`. `NoMemory` where an allocation was refused; nothing changes then.
    pub fn push(&mut self, path: &[u8], bytes: &[u8]) -> Result<(), NoMemory>
        requires { length bytes.now < 2 ^ 60 }
        ensures ok { OnOk result (self.new ≡ self.old ++ (result_ok (name_of path.now), bytes.now) ∷ []) }
        ensures err { OnErr result (self.new ≡ self.old) }
    {
        let bytes = Vec::from_slice(self.alloc, bytes)?;
        let path = Name::read(path).ok();
        self.given.reserve(1)?;
        self.files.push(TreeFile { path, bytes })?;
        self.given.push(0).unwrap();
        Ok(())
    }
}

/// Tells its files, and fails at the calls that it was told to fail at. Its calls `path`, `length`
/// and `read` are counted from 0. Where no call is to fail, it counted no fault.
#[derive(Drop)]
pub struct MemSource {
    files: ListOf<TreeFile>,
    given: Vec<u64>,
    failing: CallList,
    calls: u64,
    faults: u64,
}

impl Model for MemSource {
    ghost use Rattle.std.specs.Prelude.{◌≡◌, [], length};
    ghost use Rattle.io_model.specs.MemSource.{Shelf};

    ghost Value = { Shelf };

    ghost view = { λ s. record { tree = s.files; given = s.given.items; failing = s.failing; calls = s.calls; faults = s.faults } };

    ghost invariant = { λ s. (length s.given.items ≡ length s.files) × (s.failing ≡ [] → s.faults ≡ 0) };
}

impl MemSource {
    /// A source of these files, of which no call was made and no byte given.
    pub fn new(files: FileList, failing: CallList) -> MemSource
        ensures { result ≡ record { tree = files; given = replicate (length files) 0; failing = failing; calls = 0; faults = 0 } }
    {
        MemSource {
            files: files.files,
            given: files.given,
            failing,
            calls: 0,
            faults: 0,
        }
    }

    /// How many bytes `read` has given of the file at an index. Condition: it is below `files`.
    pub fn given(&self, i: u32) -> u64
        requires { i < length self.now.tree }
        ensures { result ≡ get_or self.now.given i 0 }
    {
        self.given[i as usize]
    }

    /// Counts a call, and fails where its number is in the list.
    fn count(&mut self) -> Result<(), SourceFault>
        ensures exact { is_err result ≡ fails self.old }
        ensures leaves { self.new ≡ after_call self.old }
        ensures counts { Counts self.old.faults result self.new.faults }
        ensures tree { self.new.tree ≡ self.old.tree }
        ensures given { self.new.given ≡ self.old.given }
        ensures plan { self.new.failing ≡ self.old.failing }
        ensures numbered { length self.new.given ≡ length self.new.tree }
    {
        let fails = is_among(self.failing.as_slice(), self.calls);
        self.calls = self.calls.saturating_add(1);
        if fails {
            self.faults = self.faults.saturating_add(1);
            return Err(SourceFault);
        }
        Ok(())
    }
}

#[tactic(auto, unfolding(upd_text::specs::Counts::raised))]
fn raised(count: u64, more: usize) -> u64
    ensures { result ≡ raised count more }
{
    count.saturating_add(more as u64)
}

fn is_among(list: &[u64], n: u64) -> bool
    ensures { result ≡ list_any (λ m. m == n) list.now }
{
    list.contains(&n)
}

impl Source for MemSource {
    type Plan = CallList;

    ghost use Rattle.std.specs.Prelude.{Some};
    ghost use Rattle.io_model.specs.Source.Content.{Told};

    ghost content = { λ s. Told s.tree };

    ghost given = { λ s. Some s.given };

    ghost faults = { λ s. s.faults };

    ghost plan = { λ s. Some s.failing };

    fn files(&self) -> u32
        ensures number { result ≡ length self.now.tree }
        ensures counted { self.now.faults < 2 ^ 64 }
        ensures calm { self.now.failing ≡ [] → self.now.faults ≡ 0 }
    {
        let _faults = self.faults;
        self.files.len()
    }

    fn path(&mut self, i: u32) -> Result<Option<Name>, SourceFault>
        requires { i < length self.old.tree }
        ensures same { Told self.new.tree ≡ Told self.old.tree }
        ensures plan { Some self.new.failing ≡ Some self.old.failing }
        ensures given { Some self.new.given ≡ Some self.old.given }
        ensures counts { Counts self.old.faults result self.new.faults }
        ensures value { IfOk result (λ p. p ≡ path_at self.old.tree i) }

        // It fails exactly where its number is in the list.
        ensures exact { is_err result ≡ fails self.old }
        ensures leaves { self.new ≡ after_call self.old }
    {
        self.count()?;
        Ok(self.files.at(i).path_twin())
    }

    fn length(&mut self, i: u32) -> Result<u64, SourceFault>
        requires { i < length self.old.tree }
        ensures same { Told self.new.tree ≡ Told self.old.tree }
        ensures plan { Some self.new.failing ≡ Some self.old.failing }
        ensures given { Some self.new.given ≡ Some self.old.given }
        ensures numbered { i < length self.new.given }
        ensures counts { Counts self.old.faults result self.new.faults }
        ensures short { IfOk result (λ n. n < 2 ^ 60) }
        ensures value { IfOk result (λ n. n ≡ length (bytes_at self.old.tree i)) }

        // It fails exactly where its number is in the list.
        ensures exact { is_err result ≡ fails self.old }
        ensures leaves { self.new ≡ after_call self.old }
    {
        self.count()?;
        Ok(self.files.at(i).bytes().len() as u64)
    }

    fn read(&mut self, i: u32, at: u64, into: &mut [u8]) -> Result<usize, SourceFault>
        requires file { i < length self.old.tree }
        requires room { 0 < length into.old }
        requires part { at + length into.old ≤ length (bytes_at self.old.tree i) }
        ensures same { Told self.new.tree ≡ Told self.old.tree }
        ensures plan { Some self.new.failing ≡ Some self.old.failing }
        ensures given { Some self.new.given ≡ after_read i result (Some self.old.given) }
        ensures counts { Counts self.old.faults result self.new.faults }
        ensures some { IfOk result (λ n. 0 < n) }
        ensures most { IfOk result (λ n. n ≤ length into.old) }
        ensures value { IfOk result (λ n. IsPart (Told self.old.tree) i at (take n into.new)) }

        // It fails exactly where its number is in the list, and fills `into` otherwise.
        ensures exact { is_err result ≡ fails self.old }
        ensures leaves { self.new ≡ after_reading i (length into.old) self.old }
        ensures fills { IfOk result (λ n. n ≡ length into.old) }
        ensures kept { OnErr result (into.new ≡ into.old) }
    {
        self.count()?;
        let bytes = self.files.at(i).bytes();
        let from = at as usize;
        into.copy_from_slice(&bytes[from..from + into.len()]);
        self.given[i as usize] = raised(self.given[i as usize], into.len());
        Ok(into.len())
    }
}

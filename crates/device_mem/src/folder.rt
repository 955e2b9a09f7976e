//! The work folder of a device in memory.

ghost use Rattle.std.specs.Prelude.{◌≡◌, OnOk, OnErr, None, true, false, length};
ghost use Rattle.device_mem.specs.Folders.{changed_kind, first_kind};

use crate::work::{Kind, WorkList};
use device_model::Part;
use std::alloc::Global;
use upd_text::{Name, NoMemory};

/// The files that a child was given are kept as they are: the folder has files of its own from the first change on.
#[derive(Drop)]
pub struct MemFolder {
    pub(crate) alloc: Global,
    pub(crate) base: WorkList,
    pub(crate) own: WorkList,
    pub(crate) no_files: WorkList,
    pub(crate) is_apart: bool,
    pub(crate) kind: Kind,
    pub(crate) given_kind: Option<Kind>,
    ghost together: { given_kind ≡ None → is_apart ≡ false },
    ghost is_empty: { length no_files ≡ 0 },
}

fn first(given: Option<Kind>, kind: Kind) -> Kind
    ensures { result ≡ first_kind given kind }
{
    match given {
        None => kind,
        Some(first) => first,
    }
}

fn changed(kind: Kind) -> Kind
    ensures { result ≡ changed_kind kind }
{
    match kind {
        Kind::Unknown => Kind::Unknown,
        Kind::Changed => Kind::Changed,
        Kind::Synced => Kind::Changed,
    }
}

impl MemFolder {
    ghost use Rattle.device_model.specs.Work.{cleared, work_synced, work_lost, work_failed, with_bytes, child_given, ChildChanges};
    ghost use Rattle.device_mem.specs.Parts.{work_of, fresh_work};
    ghost use Rattle.device_mem.specs.Folders.{left_by, given_files};

    pub(crate) fn new(alloc: Global) -> MemFolder
        ensures { work_of result ≡ fresh_work }
    {
        MemFolder {
            alloc,
            base: WorkList::new(alloc),
            own: WorkList::new(alloc),
            no_files: WorkList::new(alloc),
            is_apart: false,
            kind: Kind::Synced,
            given_kind: None,
        }
    }

    pub(crate) fn given(&self) -> &WorkList
        ensures { result.now ≡ given_files (work_of self.now).given }
    {
        match self.given_kind {
            None => &self.no_files,
            Some(Kind::Unknown) => &self.no_files,
            Some(Kind::Changed) => &self.base,
            Some(Kind::Synced) => &self.base,
        }
    }

    pub(crate) fn clear(&mut self)
        ensures { work_of self.new ≡ cleared (work_of self.old) }
    {
        self.base.clear();
        self.own.clear();
        self.is_apart = false;
        self.kind = Kind::Changed;
        self.given_kind = None;
    }

    pub(crate) fn sync(&mut self)
        ensures { work_of self.new ≡ work_synced (work_of self.old) }
    {
        match self.kind {
            Kind::Unknown => {}
            Kind::Changed => self.kind = Kind::Synced,
            Kind::Synced => {}
        }
    }

    /// Power is lost.
    pub(crate) fn lose(&mut self)
        ensures { work_of self.new ≡ work_lost (work_of self.old) }
    {
        match self.kind {
            Kind::Unknown => {}
            Kind::Changed => self.kind = Kind::Unknown,
            Kind::Synced => {}
        }
    }

    pub(crate) fn fail(&mut self)
        ensures { work_of self.new ≡ work_failed (work_of self.old) }
    {
        self.kind = Kind::Unknown;
    }

    /// Gives the folder files of its own.
    fn part_from_given(&mut self) -> Result<(), NoMemory>
        requires { self.old.given_kind ≡ None → ⊥ }
        ensures ok { OnOk result ((work_of self.new ≡ work_of self.old) × (self.new.is_apart ≡ true)) }
        ensures err { OnErr result (self.new ≡ self.old) }
    {
        if !self.is_apart {
            self.own = self.base.copy(self.alloc)?;
            self.is_apart = true;
        }
        Ok(())
    }

    pub(crate) fn append(&mut self, part: Part, path: &Name, bytes: &[u8]) -> Result<(), NoMemory>
        ensures ok { OnOk result (work_of self.new ≡ with_bytes part path.now bytes.now (work_of self.old)) }
        ensures err { OnErr result (work_of self.new ≡ work_failed (work_of self.old)) }
    {
        match self.given_kind {
            None => match self.base.append(self.alloc, part, path, bytes) {
                Ok(()) => {
                    self.kind = changed(self.kind);
                    Ok(())
                }
                Err(e) => {
                    self.kind = Kind::Unknown;
                    Err(e)
                }
            },
            Some(_) => match self.part_from_given() {
                Ok(()) => match self.own.append(self.alloc, part, path, bytes) {
                    Ok(()) => {
                        self.kind = changed(self.kind);
                        Ok(())
                    }
                    Err(e) => {
                        self.kind = Kind::Unknown;
                        Err(e)
                    }
                },
                Err(e) => {
                    self.kind = Kind::Unknown;
                    Err(e)
                }
            },
        }
    }

    /// Power is lost after these bytes were added.
    pub(crate) fn lose_appended(&mut self, part: Part, path: &Name, bytes: &[u8])
        ensures { work_of self.new ≡ work_lost (with_bytes part path.now bytes.now (work_of self.old)) }
    {
        match self.kind {
            Kind::Unknown => {}
            Kind::Changed => self.kind = Kind::Unknown,
            Kind::Synced => self.kind = Kind::Unknown,
        }
    }

    /// A child is started. Where it meddles, it empties the folder.
    pub(crate) fn start(&mut self, meddle: bool)
        ensures work { work_of self.new ≡ left_by meddle (child_given (work_of self.old)) }
        ensures changes { ChildChanges (child_given (work_of self.old)) (work_of self.new) }
    {
        self.given_kind = Some(first(self.given_kind, self.kind));
        if meddle {
            self.own.clear();
            self.is_apart = true;
        }
    }
}

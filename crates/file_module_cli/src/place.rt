//! A place of real files.

ghost use Rattle.std.specs.Prelude.{◌≡◌, IfOk};
ghost use Rattle.file_module_cli.specs.Untold.{untold};

use crate::files::Kept;
use device_model::Down;
use file_module::{Place, Slot};
use host_edge::{Failures, Lockable, told};
use std::alloc::{AllocError, Global};
use std::os::unix::fs::FileExt;
use std::rt::{Clock, Files};

/// Three files in one folder. It tells nothing of what they hold, and counts each call that failed. It never answers `Off`.
#[derive(Drop)]
pub struct HostPlace<R: Files + Drop> {
    files: Kept<R>,
    settled: bool,
    failures: Failures,
}

impl<R: Files + Clock + Drop> HostPlace<R>
where
    R::File: FileExt + Lockable,
{
    /// The place whose target is `root/target`, two folders above a work folder. Nothing is opened yet.
    pub fn above(rt: R, alloc: Global, folder: &str) -> Result<HostPlace<R>, AllocError>
        ensures { IfOk result (λ p. p.failures.count ≡ 0) }
    {
        Ok(HostPlace {
            files: Kept::above(rt, alloc, folder)?,
            settled: false,
            failures: Failures::none(),
        })
    }

    /// Notes elsewhere what failed first.
    pub fn hand_first(&mut self, noted: &mut Failures) {
        noted.follow(&mut self.failures);
    }
}

impl<R: Files + Clock + Drop> Place for HostPlace<R>
where
    R::File: FileExt + Lockable,
{
    ghost means = { λ p. untold p.settled p.failures.count };

    fn length(&mut self, slot: Slot) -> Result<Option<u64>, Down> {
        let found = self.files.length(slot);
        told(&mut self.failures, found)
    }

    fn read(&mut self, slot: Slot, at: u64, into: &mut [u8]) -> Result<(), Down> {
        let done = self.files.read(slot, at, into);
        told(&mut self.failures, done)
    }

    fn start(&mut self) -> Result<(), Down> {
        let done = self.files.start();
        told(&mut self.failures, done)?;
        self.settled = false;
        Ok(())
    }

    fn append(&mut self, bytes: &[u8]) -> Result<(), Down> {
        let done = self.files.append(bytes);
        told(&mut self.failures, done)?;
        self.settled = false;
        Ok(())
    }

    fn settle(&mut self) -> Result<(), Down> {
        let done = self.files.settle();
        told(&mut self.failures, done)?;
        self.settled = true;
        Ok(())
    }

    fn move_to(&mut self, slot: Slot) -> Result<(), Down> {
        let done = self.files.move_to(slot);
        told(&mut self.failures, done)?;
        self.settled = true;
        Ok(())
    }

    fn remove(&mut self, slot: Slot) -> Result<(), Down> {
        let done = self.files.remove(slot);
        told(&mut self.failures, done)?;
        if slot == Slot::Fresh {
            self.settled = true;
        }
        Ok(())
    }
}

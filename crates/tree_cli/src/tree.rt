//! The files of a tree below a folder.

ghost use Rattle.std.specs.Prelude.{◌≡◌, IfOk};
ghost use Rattle.tree_cli.specs.Untold.{untold};

use crate::folder::Folder;
use host_edge::{Failures, HostFault, told};
use std::alloc::Global;
use std::rt::Files;
use tree_writer::{TreeFault, TreeSink};
use upd_text::Name;

/// The files that a folder is given. It tells nothing of them, and counts each add that failed.
#[derive(Drop)]
pub struct HostTree<R: Files + Drop> {
    folder: Folder<R>,
    failures: Failures,
}

impl<R: Files + Drop> HostTree<R> {
    /// A tree below this folder, where nothing stands or an empty folder. Nothing is made yet.
    pub fn below(
        rt: R,
        alloc: Global,
        path: &str,
        noted: &mut Failures,
    ) -> Result<HostTree<R>, HostFault>
        ensures { IfOk result (λ t. t.failures.count ≡ 0) }
    {
        match Folder::at(rt, alloc, path) {
            Ok(folder) => Ok(HostTree {
                folder,
                failures: Failures::none(),
            }),
            Err(failure) => Err(noted.refuse_by(failure, HostFault::NoTree)),
        }
    }

    /// Brings the tree to the disk, and its manifest last.
    pub fn finish(&mut self) -> Result<(), TreeFault> {
        let done = self.folder.finish();
        match told(&mut self.failures, done) {
            Ok(()) => Ok(()),
            Err(_) => Err(TreeFault),
        }
    }

    /// Notes elsewhere what failed first.
    pub fn hand_first(&mut self, noted: &mut Failures) {
        noted.follow(&mut self.failures);
    }
}

impl<R: Files + Drop> TreeSink for HostTree<R> {
    ghost means = { λ t. untold t.failures.count };

    fn add(&mut self, path: &Name, bytes: &[u8]) -> Result<(), TreeFault> {
        let done = self.folder.add(path, bytes);
        match told(&mut self.failures, done) {
            Ok(()) => Ok(()),
            Err(_) => Err(TreeFault),
        }
    }
}

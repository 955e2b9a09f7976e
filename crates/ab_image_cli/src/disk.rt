//! Blocks of real bytes.

ghost use Rattle.std.specs.Prelude.{◌≡◌, ◌≤◌, ◌<◌, ◌^◌, IfOk};
ghost use Rattle.ab_image.specs.declared.layout.TheConstants.{LEAST_SIZE};

use ab_image::{Blocks, LEAST_SIZE};
use device_model::Down;
use host_edge::{Failures, HostFault, Lockable, hold, named, told};
use std::alloc::Global;
use std::fs::{FileType, OpenFile, OpenOptions};
use std::io::{self, ErrorKind, Seek, SeekFrom};
use std::os::unix::fs::{FileExt, FileTypeExt};
use std::rt::{Clock, Files};

/// A file or a block device as blocks. It tells nothing of what stands there, and counts each call that failed. It never answers
/// `Off`.
#[derive(Drop)]
pub struct HostBlocks<F: OpenFile + FileExt + Drop> {
    alloc: Global,
    path: String,
    file: F,
    size: u64,
    failures: Failures,
    ghost least: { LEAST_SIZE ≤ size },
    ghost most: { size < 2 ^ 60 },
}

fn no_disk(reason: &'static str) -> io::Error {
    io::Error::new(ErrorKind::InvalidInput, reason)
}

/// Sees that it is a regular file or a block device.
fn check_kind(kind: FileType) -> io::Result<()> {
    if kind.is_file() || kind.is_block_device() {
        Ok(())
    } else {
        Err(no_disk("it is neither a file nor a block device"))
    }
}

/// Opens what stands there, which is never made, for this program alone, and says how many bytes it has. It is looked at before,
/// since to open another device may do something, and after, since another may stand there by then.
fn open_disk<R: Files + Clock>(rt: &R, path: &str) -> io::Result<(R::File, u64)>
where
    R::File: Lockable,
    ensures least { IfOk result (λ r. LEAST_SIZE ≤ r.1) }
    ensures most { IfOk result (λ r. r.1 < 2 ^ 60) }
{
    check_kind(rt.metadata(path)?.file_type())?;
    let mut file = OpenOptions::new().read(true).write(true).open(rt, path)?;
    check_kind(file.metadata()?.file_type())?;
    hold(rt, &file)?;
    let size = file.seek(SeekFrom::End(0))?;
    if size >= LEAST_SIZE && size < 1 << 60 {
        Ok((file, size))
    } else {
        Err(no_disk("it has fewer than 8192 bytes, or 2^60 and more"))
    }
}

impl<F: OpenFile + FileExt + Drop> HostBlocks<F> {
    /// The file or the block device `blocks`, two folders above a work folder. Why it can't be had is noted.
    pub fn above<R: Files<File = F> + Clock>(
        rt: &R,
        alloc: Global,
        folder: &str,
        noted: &mut Failures,
    ) -> Result<HostBlocks<F>, HostFault>
    where
        F: Seek + Lockable,
        ensures { IfOk result (λ b. b.failures.count ≡ 0) }
    {
        let path = format!(in alloc; "{folder}/../../blocks")?;
        match open_disk(rt, path.as_str()) {
            Ok((file, size)) => Ok(HostBlocks {
                alloc,
                path,
                file,
                size,
                failures: Failures::none(),
            }),
            Err(reason) => Err(noted.refuse(alloc, path.as_str(), reason, HostFault::NoStore)),
        }
    }

    /// Notes elsewhere what failed first.
    pub fn hand_first(&mut self, noted: &mut Failures) {
        noted.follow(&mut self.failures);
    }
}

impl<F: OpenFile + FileExt + Drop> Blocks for HostBlocks<F> {
    ghost use Rattle.ab_image_cli.specs.Untold.{untold};

    ghost means = { λ b. untold b.size b.failures.count };

    ghost whole = { λ b. record { least = b.least; most = b.most; disk = tt } };

    fn size(&self) -> u64 {
        self.size
    }

    fn read(&mut self, at: u64, into: &mut [u8]) -> Result<(), Down> {
        let done = self.file.read_exact_at(into, at);
        told(
            &mut self.failures,
            named(self.alloc, self.path.as_str(), done),
        )
    }

    fn write(&mut self, at: u64, bytes: &[u8]) -> Result<(), Down> {
        let done = self.file.write_all_at(bytes, at);
        told(
            &mut self.failures,
            named(self.alloc, self.path.as_str(), done),
        )
    }

    fn sync(&mut self) -> Result<(), Down> {
        let done = self.file.sync_all();
        told(
            &mut self.failures,
            named(self.alloc, self.path.as_str(), done),
        )
    }
}

//! Artifacts without one image or without its sum, and the answer for each.

use super::{EMPTY, add, call, disk, type_info};
use device_mem::LossList;
use io_model::{FileList, MemSource};
use std::alloc::Global;
use std::test::Fail;
use upd_text::CallList;

/// The sum without its last digit.
const SHORT: &[u8] = b"e3b0c44298fc1c149afbf4c8996fb92427ae41e4649b934ca495991b7852b85";

/// What Download and ArtifactCommit answer to an artifact with so many images that lists this sum. Where there is no sum there
/// is no type-info. The calls of the source are counted, and the one with this number fails.
fn answers(alloc: Global, images: u32, sum: &[u8], failing: u64) -> Result<[(u8, u64); 2], Fail> {
    let info = type_info(alloc, sum)?;
    let mut files = FileList::new(alloc);
    for _ in 0..images {
        add(&mut files, b"files/image", b"")?;
    }
    add(&mut files, b"header/header-info", b"")?;
    if !sum.is_empty() {
        add(&mut files, b"header/type-info", info.as_slice())?;
    }
    let mut faults = CallList::new(alloc);
    faults.push(failing)?;
    let mut source = MemSource::new(files, faults);
    let mut blocks = disk(alloc, LossList::new(alloc))?;
    let (download, _) = call(alloc, "Download", &mut source, &mut blocks)?;
    let (commit, _) = call(alloc, "ArtifactCommit", &mut source, &mut blocks)?;
    Ok([download, commit])
}

/// So many images, the sum, the call of the source that fails, and what is answered.
const ARTIFACTS: &[(u32, &[u8], u64, [(u8, u64); 2])] = &[
    (0, EMPTY, 99, [(2, 0), (6, 0)]),
    (2, EMPTY, 99, [(2, 2), (6, 0)]),
    (1, b"", 99, [(3, 0), (3, 0)]),
    (1, SHORT, 99, [(3, 0), (3, 0)]),
    (1, EMPTY, 0, [(8, 0), (6, 0)]),
    (1, EMPTY, 99, [(0, 0), (0, 0)]),
];

#[test]
fn wrong_artifacts(rt: HostRuntime) -> Result<(), Fail> {
    for &(images, sum, failing, said) in ARTIFACTS {
        assert_eq!(rt;
            answers(rt.alloc(), images, sum, failing)?,
            said,
            "{images} images"
        );
    }
    Ok(())
}

//! Deployments in which power is lost, or a call fails, at each call of the disk.

use super::{RECORD, call, disk_of, release};
use ab_image::MemBlocks;
use device_mem::{LossAt, LossList, Tear};
use std::alloc::Global;
use std::test::Fail;
use upd_text::CallList;

/// The image that is downloaded, which fills a partition of the smallest disk.
const IMAGE: [u8; 2_048] = [7; 2_048];

const IMAGE_SUM: &[u8] = b"e4fde89f39bc53b90e9935a8015b80dd6e4135485e894094a3517fa250e344ae";

const IMAGE_RECORD: [u8; 40] = [
    0, 0, 0, 0, 0, 0, 8, 0, 0xe4, 0xfd, 0xe8, 0x9f, 0x39, 0xbc, 0x53, 0xb9, 0x0e, 0x99, 0x35, 0xa8,
    0x01, 0x5b, 0x80, 0xdd, 0x6e, 0x41, 0x35, 0x48, 0x5e, 0x89, 0x40, 0x94, 0xa3, 0x51, 0x7f, 0xa2,
    0x50, 0xe3, 0x44, 0xae,
];

/// Disks of so many bytes, and what becomes of their bytes that aren't synced: the old ones, the new ones, ones, others.
const DISKS: &[(u32, Tear)] = &[
    (8_192, Tear::Old),
    (8_192, Tear::New),
    (8_192, Tear::Byte(0xff)),
    (8_192, Tear::Byte(0x10)),
    (8_193, Tear::Byte(0xff)),
    (20_000, Tear::Byte(0x10)),
];

/// A deployment and the begin of another: the words, and which image boots after each.
const COURSE: &[(&str, &str)] = &[
    ("Download", "old"),
    ("ArtifactCommit", "new"),
    ("ArtifactRollback", "old"),
    ("ArtifactCommit", "new"),
    ("Cleanup", "new"),
    ("Download", "new"),
];

/// How many calls of the disk the deployment makes: Download 3 and 3 to read the two bytes, 3 for the image, 2 for its record;
/// each ArtifactCommit 3, 1 for the record, 3 for the image, 2 for the choice; ArtifactRollback and Cleanup 3 and 2.
const DEPLOYMENT: u64 = 39;

/// And with the Download behind it.
const CALLS: u64 = 50;

/// The image that boots: the old one or the new one, where the chosen partition is whole for it.
fn booted(blocks: &MemBlocks) -> &'static str {
    let area = blocks.area();
    if area.len() < 8_192 {
        return "a small disk";
    }
    let (record, image) = if area[0] % 2 == 0 {
        (&area[2_048..2_088], &area[4_096..])
    } else {
        (
            &area[3_072..3_112],
            &area[4_096 + (area.len() - 4_096) / 2..],
        )
    };
    if record == RECORD.as_slice() && image.starts_with(b"abc") {
        return "old";
    }
    if record == IMAGE_RECORD.as_slice() && image.starts_with(&IMAGE) {
        return "new";
    }
    "none"
}

/// Gives a word again until it is done, and says how often power was lost and how often a call failed. After each call the
/// image boots that booted before, or the one that is to boot then.
fn obeyed(
    alloc: Global,
    blocks: &mut MemBlocks,
    word: &str,
    before: &str,
    then: &str,
) -> Result<(u32, u32), Fail> {
    let mut source = release(alloc, &IMAGE, IMAGE_SUM)?;
    let mut losses = 0;
    for faults in 0..4 {
        for _ in 0..4 {
            let (answer, _) = call(alloc, word, &mut source, blocks)?;
            let boots = booted(blocks);
            if boots != before && boots != then {
                return Err("another image boots".into());
            }
            match answer {
                (0, 0) if boots == then => return Ok((losses, faults)),
                (7, 0) => break,
                (10, 0) if losses < 4 => losses += 1,
                _ => return Err("another answer".into()),
            }
        }
    }
    Err("it isn't done".into())
}

/// Goes through the deployment on a disk of so many bytes, and says how often power was lost and how often a call failed.
fn deployed(
    alloc: Global,
    size: u32,
    losses: LossList,
    faults: CallList,
) -> Result<(u32, u32), Fail> {
    let mut blocks = disk_of(alloc, size, losses, faults)?;
    let mut before = "old";
    let mut lost = 0u32;
    let mut failed = 0u32;
    for &(word, then) in COURSE {
        let (more, others) = obeyed(alloc, &mut blocks, word, before, then)?;
        lost = lost.saturating_add(more);
        failed = failed.saturating_add(others);
        before = then;
    }
    let area = blocks.area();
    if area.len() < 8_192 || area[0] % 2 != area[1_024] % 2 {
        return Err("the origin is another".into());
    }
    Ok((lost, failed))
}

/// The same with losses at these calls.
fn lost_at(alloc: Global, size: u32, losses: &[LossAt]) -> Result<(u32, u32), Fail> {
    let mut list = LossList::new(alloc);
    for loss in losses {
        list.push(*loss)?;
    }
    deployed(alloc, size, list, CallList::new(alloc))
}

#[test]
fn each_call_loses_power(rt: HostRuntime) -> Result<(), Fail> {
    for &(size, tear) in DISKS {
        for call in 0..CALLS {
            for before in [true, false] {
                let loss = LossAt { call, before, tear };
                assert_eq!(rt; lost_at(rt.alloc(), size, &[loss])?, (1, 0));
            }
        }
        let behind = LossAt {
            call: CALLS,
            before: true,
            tear,
        };
        assert_eq!(rt; lost_at(rt.alloc(), size, &[behind])?, (0, 0));
    }
    Ok(())
}

/// Power is lost twice: at this call, and so many calls later, where the word that was cut off may be given again.
fn lost_again(alloc: Global, call: u64, next: u64) -> Result<(u32, u32), Fail> {
    let (first, second) = if next % 2 == 0 {
        (Tear::Byte(0x10), Tear::Byte(0xff))
    } else {
        (Tear::New, Tear::Old)
    };
    let loss = LossAt {
        call,
        before: false,
        tear: first,
    };
    let again = LossAt {
        call: call.saturating_add(next),
        before: next % 4 < 2,
        tear: second,
    };
    lost_at(alloc, 8_192, &[loss, again])
}

#[test]
fn two_losses_in_a_row(rt: HostRuntime) -> Result<(), Fail> {
    for call in 0..DEPLOYMENT {
        for next in 1..12 {
            assert_eq!(rt; lost_again(rt.alloc(), call, next)?, (2, 0));
        }
    }
    Ok(())
}

/// A call fails, and so many calls later power is lost.
fn failed_at(alloc: Global, call: u64, next: u64) -> Result<(u32, u32), Fail> {
    let mut faults = CallList::new(alloc);
    faults.push(call)?;
    let mut losses = LossList::new(alloc);
    if next > 0 {
        losses.push(LossAt {
            call: call.saturating_add(next),
            before: true,
            tear: Tear::Byte(0x10),
        })?;
    }
    deployed(alloc, 8_192, losses, faults)
}

#[test]
fn each_call_fails(rt: HostRuntime) -> Result<(), Fail> {
    for call in 0..DEPLOYMENT {
        assert_eq!(rt; failed_at(rt.alloc(), call, 0)?, (0, 1));
        for next in 1..12 {
            assert_eq!(rt; failed_at(rt.alloc(), call, next)?, (1, 1));
        }
    }
    Ok(())
}

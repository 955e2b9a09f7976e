//! Rows of states over a disk whose partition 0 is whole for `abc`.

mod artifacts;
mod losses;

use ab_image::{AbAct, MemBlocks, act};
use device_mem::{LossAt, LossList, Tear};
use io_model::{FileList, MemSink, MemSource};
use std::alloc::Global;
use std::test::Fail;
use upd_text::CallList;

const EMPTY: &[u8] = b"e3b0c44298fc1c149afbf4c8996fb92427ae41e4649b934ca495991b7852b855";

const ABC: &[u8] = b"ba7816bf8f01cfea414140de5dae2223b00361a396177a9cb410ff61f20015ad";

/// The record of `abc`: its length and its sum.
const RECORD: [u8; 40] = [
    0, 0, 0, 0, 0, 0, 0, 3, 0xba, 0x78, 0x16, 0xbf, 0x8f, 0x01, 0xcf, 0xea, 0x41, 0x41, 0x40, 0xde,
    0x5d, 0xae, 0x22, 0x23, 0xb0, 0x03, 0x61, 0xa3, 0x96, 0x17, 0x7a, 0x9c, 0xb4, 0x10, 0xff, 0x61,
    0xf2, 0x00, 0x15, 0xad,
];

/// A disk of so many bytes, which loses power and fails at some calls.
fn disk_of(
    alloc: Global,
    size: u32,
    losses: LossList,
    faults: CallList,
) -> Result<MemBlocks, Fail> {
    if size < 8_192 {
        return Err("the disk is too small".into());
    }
    let mut blocks = MemBlocks::new(alloc, size, losses, faults)?;
    blocks.set(2_048, &RECORD);
    blocks.set(4_096, b"abc");
    Ok(blocks)
}

/// A disk of 12,288 bytes, which loses power at some calls.
fn disk(alloc: Global, losses: LossList) -> Result<MemBlocks, Fail> {
    disk_of(alloc, 12_288, losses, CallList::new(alloc))
}

/// A type-info that lists this sum.
fn type_info(alloc: Global, sum: &[u8]) -> Result<Vec<u8>, Fail> {
    let mut info = Vec::new(alloc);
    info.extend_from_slice(
        b"{\"type\":\"rootfs\",\"artifact_provides\":{\"rootfs-image.checksum\":\"",
    )?;
    info.extend_from_slice(sum)?;
    info.extend_from_slice(b"\"}}")?;
    Ok(info)
}

/// Adds a file to an artifact.
fn add(files: &mut FileList, path: &[u8], bytes: &[u8]) -> Result<(), Fail> {
    if bytes.len() >= 1 << 60 {
        return Err("the file is too long".into());
    }
    files.push(path, bytes)?;
    Ok(())
}

/// An artifact with this image, and the sum that it lists.
fn release(alloc: Global, image: &[u8], sum: &[u8]) -> Result<MemSource, Fail> {
    let info = type_info(alloc, sum)?;
    let mut files = FileList::new(alloc);
    add(&mut files, b"files/image", image)?;
    add(&mut files, b"header/type-info", info.as_slice())?;
    Ok(MemSource::new(files, CallList::new(alloc)))
}

/// The status of an answer, and the number that it names.
fn number(answer: &AbAct) -> (u8, u64) {
    let named = match answer {
        AbAct::BadPayload(count) => u64::from(*count),
        AbAct::TooLong(size) => *size,
        _ => 0,
    };
    (answer.number(), named)
}

/// One call, with a buffer of 1,000 bytes. It gives the answer's number, and how many bytes were written to the sink.
fn call(
    alloc: Global,
    word: &str,
    source: &mut MemSource,
    blocks: &mut MemBlocks,
) -> Result<((u8, u64), usize), Fail> {
    let mut words = Vec::new(alloc);
    words.push(String::from_str(alloc, word)?)?;
    words.push(String::from_str(alloc, "folder")?)?;
    let mut sink = MemSink::new(alloc, 100, CallList::new(alloc))?;
    let mut buffer = [0u8; 1_000];
    blocks.power_on();
    let answer = act(
        alloc,
        words.as_slice(),
        source,
        blocks,
        &mut sink,
        &mut buffer,
    );
    Ok((number(&answer), sink.written().len()))
}

/// Words, how many bytes each writes to the sink, and the choice and the origin after it.
const EMPTY_IMAGE: &[(&str, usize, [u8; 2])] = &[
    ("SupportsRollback", 3, [0, 0]),
    ("NeedsArtifactReboot", 2, [0, 0]),
    ("Download", 0, [0, 0]),
    ("ArtifactInstall", 0, [0, 0]),
    ("ArtifactCommit", 0, [1, 0]),
    ("ArtifactRollback", 0, [0, 0]),
    ("ArtifactCommit", 0, [1, 0]),
    ("ArtifactCommit", 0, [1, 0]),
    ("Cleanup", 0, [1, 1]),
];

#[test]
fn an_empty_image_is_chosen_and_given_up(rt: HostRuntime) -> Result<(), Fail> {
    let alloc = rt.alloc();
    let mut source = release(alloc, b"", EMPTY)?;
    let mut blocks = disk(alloc, LossList::new(alloc))?;
    for &(word, count, bytes) in EMPTY_IMAGE {
        assert_eq!(rt;
            call(alloc, word, &mut source, &mut blocks)?,
            ((0, 0), count),
            "{word}"
        );
        assert_eq!(rt; [blocks.area()[0], blocks.area()[1_024]], bytes, "{word}");
    }
    Ok(())
}

#[test]
fn another_byte_is_torn_into_the_choice(rt: HostRuntime) -> Result<(), Fail> {
    let alloc = rt.alloc();
    let mut source = release(alloc, b"", EMPTY)?;
    let mut losses = LossList::new(alloc);
    losses.push(LossAt {
        call: 12,
        before: false,
        tear: Tear::Byte(0x7f),
    })?;
    let mut blocks = disk(alloc, losses)?;
    assert_eq!(rt;
        call(alloc, "Download", &mut source, &mut blocks)?.0,
        (0, 0)
    );
    assert_eq!(rt;
        call(alloc, "ArtifactCommit", &mut source, &mut blocks)?.0,
        (10, 0)
    );
    assert_eq!(rt; (blocks.area()[0], blocks.area()[1_024]), (0x7f, 0));
    Ok(())
}

#[test]
fn another_sum_is_not_chosen(rt: HostRuntime) -> Result<(), Fail> {
    let alloc = rt.alloc();
    let mut source = release(alloc, b"", ABC)?;
    let mut blocks = disk(alloc, LossList::new(alloc))?;
    assert_eq!(rt;
        call(alloc, "Download", &mut source, &mut blocks)?.0,
        (5, 0)
    );
    assert_eq!(rt;
        call(alloc, "ArtifactCommit", &mut source, &mut blocks)?.0,
        (6, 0)
    );
    assert_eq!(rt; blocks.area()[0], 0);
    Ok(())
}

#[test]
fn an_image_is_too_long(rt: HostRuntime) -> Result<(), Fail> {
    let alloc = rt.alloc();
    let mut source = release(alloc, &[7u8; 4_097], EMPTY)?;
    let mut blocks = disk(alloc, LossList::new(alloc))?;
    assert_eq!(rt;
        call(alloc, "Download", &mut source, &mut blocks)?.0,
        (4, 4_097)
    );
    assert_eq!(rt; call(alloc, "Restart", &mut source, &mut blocks)?.0, (1, 0));
    Ok(())
}

//! Words and specs, and the trees that are made of them.

use admit::admit;
use io_model::{FileList, MemSource};
use provides_map::{Clears, Provides, ValueList, Want, WantList};
use script_names::{ScriptList, Site};
use std::alloc::Global;
use std::test::Fail;
use tree_writer::{
    Made, MemTree, PayloadList, PayloadSpec, TreeSpec, WriteFault, make, write_tree,
};
use upd_text::{CallList, Name, NoMemory};

const NO_CALL: u64 = 1_000_000;

fn calls(alloc: Global, call: u64) -> Result<CallList, NoMemory> {
    let mut list = CallList::new(alloc);
    list.push(call)?;
    Ok(list)
}

fn name_of(text: &[u8]) -> Result<Name, Fail> {
    Ok(Name::read(text).ok().ok_or("no name")?)
}

// ---- words

/// Words with single spaces between them, over one file `abc`, calls that fail, the number of the answer, and how many files
/// were added.
#[derive(Clone, Copy)]
struct Row {
    words: &'static str,
    path: &'static [u8],
    source: u64,
    sink: u64,
    wanted: u8,
    added: u32,
}

fn plain(words: &'static str, wanted: u8, added: u32) -> Row {
    Row {
        words,
        path: b"app.bin",
        source: NO_CALL,
        sink: NO_CALL,
        wanted,
        added,
    }
}

const WHOLE: &str = "release-2 beaglebone single-file app.* app.version=2";

fn made_of(alloc: Global, row: &Row) -> Result<(Made, MemTree), Fail> {
    let mut words = Vec::new(alloc);
    for word in row.words.split(' ') {
        words.push(String::from_str(alloc, word)?)?;
    }
    let mut files = FileList::new(alloc);
    files.push(row.path, b"abc")?;
    let mut source = MemSource::new(files, calls(alloc, row.source)?);
    let mut tree = MemTree::new(alloc, 100_000, calls(alloc, row.sink)?)?;
    let made = make(alloc, words.as_slice(), &mut source, &mut tree);
    Ok((made, tree))
}

/// The paths, bytes and manifest of a tree in memory, one behind the other.
const FILES: &[(&[u8], &[u8])] = &[
    (b"data/0000/app.bin", b"abc"),
    (
        b"header/header-info",
        b"{\"artifact_depends\":{\"device_type\":[\"beaglebone\"]},\"artifact_provides\":{\"artifact_name\":\"release-2\"},\"payloads\":[{\"type\":\"single-file\"}]}",
    ),
    (
        b"header/headers/0000/type-info",
        b"{\"artifact_provides\":{\"app.version\":\"2\"},\"clears_artifact_provides\":[\"app.*\"],\"type\":\"single-file\"}",
    ),
    (
        b"manifest",
        b"ba7816bf8f01cfea414140de5dae2223b00361a396177a9cb410ff61f20015ad  data/0000/app.bin\n",
    ),
    (b"version", b"{\"format\":\"mender\",\"version\":3}"),
];

#[test]
fn a_file_and_its_words_are_five_files(rt: HostRuntime) -> Result<(), Fail> {
    let alloc = rt.alloc();
    let (made, tree) = made_of(alloc, &plain(WHOLE, 0, 5))?;
    assert_eq!(rt; made.number(), 0);
    assert_eq!(rt; tree.len(), 5);
    let mut files = FileList::new(alloc);
    for (i, (path, bytes)) in FILES.iter().enumerate() {
        if i >= tree.len() as usize {
            return Err("too few".into());
        }
        let found = tree.bytes(i as u32);
        assert!(rt; tree.path(i as u32).bytes() == *path && found.starts_with(bytes));
        if found.len() >= 1_000_000 {
            return Err("too long".into());
        }
        files.push(path, found)?;
    }
    let site = Site {
        device_type: name_of(b"beaglebone")?,
        scripts: ScriptList::new(alloc),
    };
    let mut source = MemSource::new(files, calls(alloc, NO_CALL)?);
    assert!(rt; admit(alloc, &mut source, &site, &Provides::new(alloc)).is_ok());
    Ok(())
}

#[test]
fn each_row_of_words_has_its_answer(rt: HostRuntime) -> Result<(), Fail> {
    let rows: &[Row] = &[
        plain("release-2 beaglebone single-file - a=b=c", 0, 5),
        plain("release-2 beaglebone single-file", 2, 0),
        plain("release-2 beaglebone single/file -", 1, 0),
        plain("release-2 beaglebone single-file - app.version", 2, 0),
        plain("release-2 beaglebone single-file - a=1 a=2", 2, 0),
        Row {
            path: b"a/b",
            ..plain(WHOLE, 1, 0)
        },
        Row {
            source: 0,
            ..plain(WHOLE, 4, 0)
        },
        Row {
            source: 0,
            ..plain("release-2", 2, 0)
        },
        Row {
            sink: 2,
            ..plain(WHOLE, 5, 2)
        },
    ];
    for row in rows {
        let (made, tree) = made_of(rt.alloc(), row)?;
        assert_eq!(rt; made.number(), row.wanted);
        assert_eq!(rt; tree.len(), row.added);
    }
    Ok(())
}

// ---- specs

/// A spec with a flaw that words can't have, and the number of its fault.
#[derive(Clone, Copy)]
struct Flaw {
    payloads: u8,
    name: &'static [u8],
    wants: bool,
    script: &'static [u8],
    scripts: u8,
    wanted: u8,
}

const RIGHT: Flaw = Flaw {
    payloads: 1,
    name: b"n",
    wants: false,
    script: b"ArtifactInstall_Enter_",
    scripts: 64,
    wanted: 0,
};

fn spec_of(alloc: Global, flaw: &Flaw) -> Result<TreeSpec, Fail> {
    let mut payloads = PayloadList::new(alloc);
    for _ in 0..flaw.payloads {
        let mut wants = WantList::new(alloc);
        if flaw.wants {
            wants.push(Want {
                key: name_of(b"k")?,
                allowed: ValueList::new(alloc),
            })?;
        }
        payloads.push(PayloadSpec {
            kind: name_of(b"k")?,
            provides: Provides::new(alloc),
            wants,
            clears: Clears::All,
            files: FileList::new(alloc),
        })?;
    }
    let mut scripts = FileList::new(alloc);
    for i in 0..flaw.scripts {
        let mut path = Vec::from_slice(alloc, flaw.script)?;
        path.push(b'0' + i / 10 % 10)?;
        path.push(b'0' + i % 10)?;
        scripts.push(path.as_slice(), b"")?;
    }
    Ok(TreeSpec {
        name: name_of(flaw.name)?,
        group: None,
        device_types: ValueList::new(alloc),
        needs_names: ValueList::new(alloc),
        needs_groups: ValueList::new(alloc),
        payloads,
        scripts,
    })
}

fn number_of(answer: &Result<FileList, WriteFault>) -> u8 {
    match answer {
        Ok(_) => 0,
        Err(WriteFault::PayloadCount(_)) => 1,
        Err(WriteFault::BadScript(_)) => 4,
        Err(WriteFault::TooManyScripts(_)) => 5,
        Err(WriteFault::BadWant(..)) => 6,
        Err(WriteFault::NotText(_)) => 7,
        Err(_) => 10,
    }
}

#[test]
fn each_flaw_of_a_spec_has_its_fault(rt: HostRuntime) -> Result<(), Fail> {
    let flaws: &[Flaw] = &[
        RIGHT,
        Flaw {
            payloads: 9,
            wanted: 1,
            ..RIGHT
        },
        Flaw {
            script: b"Download_Enter_",
            wanted: 4,
            ..RIGHT
        },
        Flaw {
            scripts: 65,
            wanted: 5,
            ..RIGHT
        },
        Flaw {
            wants: true,
            wanted: 6,
            ..RIGHT
        },
        Flaw {
            name: b"\xff",
            wanted: 7,
            ..RIGHT
        },
    ];
    for flaw in flaws {
        let answer = write_tree(rt.alloc(), &spec_of(rt.alloc(), flaw)?);
        assert_eq!(rt; number_of(&answer), flaw.wanted);
    }
    Ok(())
}

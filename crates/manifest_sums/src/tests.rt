use crate::{Manifest, ManifestFault, Sum, Summing, read_manifest};
use std::alloc::{AllocError, Global};
use std::process::Abort;
use std::string::String;
use std::test::Fail;
use upd_text::Name;

const ABC: &str = "ba7816bf8f01cfea414140de5dae2223b00361a396177a9cb410ff61f20015ad";

const UPPER: &str = "BA7816BF8F01CFEA414140DE5DAE2223B00361A396177A9CB410FF61F20015AD";

const NOTHING: &str = "e3b0c44298fc1c149afbf4c8996fb92427ae41e4649b934ca495991b7852b855";

fn one_line(alloc: Global, digits: &str, between: &str, end: &str) -> Result<String, AllocError> {
    let mut text = String::new(alloc);
    text.push_str(digits)?;
    text.push_str(between)?;
    text.push_str(end)?;
    Ok(text)
}

fn many_lines(alloc: Global, count: u32) -> Result<String, AllocError> {
    let mut text = String::new(alloc);
    for k in 0..count {
        let line = format!(in alloc; "{ABC}  data/0000/{k}\n")?;
        text.push_str(line.as_str())?;
    }
    Ok(text)
}

fn lines_in(alloc: Global, bytes: &[u8]) -> Result<u32, ManifestFault> {
    match read_manifest(alloc, bytes) {
        Ok(manifest) => Ok(manifest.len()),
        Err(fault) => Err(fault),
    }
}

fn same_answers(rt: &impl Abort, alloc: Global, cases: &[(String, Result<u32, ManifestFault>)]) {
    for (text, wanted) in cases {
        assert_eq!(rt; lines_in(alloc, text.as_bytes()), *wanted, "at {text}");
    }
}

#[test]
fn manifests_are_read(rt: HostRuntime) -> Result<(), Fail> {
    let alloc = rt.alloc();
    let good = one_line(alloc, ABC, "  ", "data/0000/a\n")?;
    let cases = [
        (String::new(alloc), Ok(0)),
        (one_line(alloc, good.as_str(), "", "")?, Ok(1)),
        (one_line(alloc, UPPER, "  ", "data/0000/a\n")?, Ok(1)),
        (one_line(alloc, ABC, "   ", "data/0000/a\n")?, Ok(1)),
        (
            one_line(alloc, good.as_str(), ABC, "  data/header.tar\n")?,
            Ok(2),
        ),
        (many_lines(alloc, 256)?, Ok(256)),
    ];
    same_answers(&rt, alloc, &cases);
    Ok(())
}

#[test]
fn first_faults_are_found(rt: HostRuntime) -> Result<(), Fail> {
    use crate::ManifestFault::{BadLine, Doubled, PackedHeader, TooMany};
    let alloc = rt.alloc();
    let good = one_line(alloc, ABC, "  ", "data/0000/a\n")?;
    let good = good.as_str();
    let most = many_lines(alloc, 256)?;
    let fewer = many_lines(alloc, 255)?;
    let cases = [
        (one_line(alloc, good, "", good)?, Err(Doubled(2))),
        (one_line(alloc, ABC, "  ", "data/0000/a")?, Err(BadLine(1))),
        (one_line(alloc, ABC, " ", "data/0000/a\n")?, Err(BadLine(1))),
        (one_line(alloc, ABC, "  ", "\n")?, Err(BadLine(1))),
        (one_line(alloc, ABC, "  ", "a\r\n")?, Err(BadLine(1))),
        (
            one_line(alloc, "zz", "  ", "header.tar\n")?,
            Err(BadLine(1)),
        ),
        (one_line(alloc, good, "", "\n")?, Err(BadLine(2))),
        (
            one_line(alloc, good, ABC, "  header.tar.gz\n")?,
            Err(PackedHeader(2)),
        ),
        (one_line(alloc, most.as_str(), "", "x")?, Err(TooMany)),
        (one_line(alloc, fewer.as_str(), "", "x")?, Err(BadLine(256))),
    ];
    same_answers(&rt, alloc, &cases);
    Ok(())
}

fn shows(manifest: &Manifest, i: u32, path: &[u8], digits: &[u8]) -> bool {
    if i < manifest.len() {
        let line = manifest.line(i);
        line.path.bytes() == path && line.sum.hex().as_slice() == digits
    } else {
        false
    }
}

#[test]
fn lines_and_their_places(rt: HostRuntime) -> Result<(), Fail> {
    let alloc = rt.alloc();
    for digits in [ABC, UPPER] {
        let first = one_line(alloc, digits, "  ", "data/0000/a\n")?;
        let second = one_line(alloc, NOTHING, "  ", "version\n")?;
        let text = one_line(alloc, first.as_str(), second.as_str(), "")?;
        let manifest = read_manifest(alloc, text.as_bytes()).ok().ok_or("refused")?;
        assert!(rt; shows(&manifest, 0, b"data/0000/a", ABC.as_bytes()));
        assert!(rt; shows(&manifest, 1, b"version", NOTHING.as_bytes()));
        let places = [
            ("data/0000/a", Some(0)),
            ("version", Some(1)),
            ("data/0000/b", None),
            ("data/0000", None),
        ];
        for (path, place) in &places {
            let name = Name::read(path.as_bytes()).ok().ok_or("no name")?;
            assert_eq!(rt; manifest.find(&name), *place, "at {path}");
        }
    }
    Ok(())
}

fn sum_of_pieces(pieces: &[&str]) -> Sum {
    let mut summing = Summing::new();
    for piece in pieces {
        summing.piece(piece.as_bytes());
    }
    summing.finish()
}

#[test]
fn sums_of_pieces(rt: HostRuntime) {
    let cases = [
        (["abc", "", ""], ABC),
        (["a", "bc", ""], ABC),
        (["", "ab", "c"], ABC),
        (["", "", ""], NOTHING),
        (
            [
                "abcdbcdecdefdefgefghfghighij",
                "hijkijkljklmklmnlmno",
                "mnopnopq",
            ],
            "248d6a61d20638b8e5c026930c3e6039a33ce45964ff2167f6ecedd419db06c1",
        ),
    ];
    for (pieces, digits) in &cases {
        let sum = sum_of_pieces(pieces.as_slice());
        assert_eq!(rt; sum.hex().as_slice(), digits.as_bytes());
        assert_eq!(rt; sum.twin().hex().as_slice(), digits.as_bytes());
        assert_eq!(rt; Sum::of(*sum.bytes()).hex().as_slice(), digits.as_bytes());
    }
}

#[test]
fn sums_are_read(rt: HostRuntime) {
    let abc = sum_of_pieces(&["abc"]);
    let short = ABC.as_bytes().split_at(62).0;
    let cases = [
        (ABC.as_bytes(), Some(true)),
        (UPPER.as_bytes(), Some(true)),
        (NOTHING.as_bytes(), Some(false)),
        (short, None),
        (
            b"ga7816bf8f01cfea414140de5dae2223b00361a396177a9cb410ff61f20015ad".as_slice(),
            None,
        ),
        (b"".as_slice(), None),
    ];
    for (digits, same) in &cases {
        let found = match Sum::read(digits) {
            Some(sum) => Some(sum.is(&abc)),
            None => None,
        };
        assert_eq!(rt; found, *same);
    }
}

//! Says whether a manifest was signed by whoever has the private part of one of the keys: `signed_cli KEY MANIFEST SIGNATURE`.
#![tactic(auto)]

mod files;

ghost use Rattle.std.specs.Prelude.{◌≡◌, ◌⊎◌};
ghost use Rattle.signed_manifest.specs.Signed.{IsSigned};
ghost use Rattle.signed_manifest.specs.Verdict.{status_of};

use crate::files::fill;
use host_edge::{fill_streams, words_of};
use signed_manifest::{Verdict, judge};
use std::alloc::Global;
use std::process::ExitCode;
use std::rt::Files;

/// The status where nothing can be said of the signature.
const NO_START: u8 = 2;

/// The most bytes of a manifest, and one more.
const MANIFEST_ROOM: usize = 65_537;

/// The most bytes of a key and of a signature, and one more.
const TEXT_ROOM: usize = 16_385;

/// Says on standard error what was found, unless the manifest is signed.
fn tell<R: Eprint>(rt: &R, verdict: Verdict) -> u8
    ensures { result ≡ status_of verdict }
{
    if verdict != Verdict::Signed {
        let line = verdict.line();
        let _ = eprintln!(rt; "signed_cli: {line}");
    }
    verdict.status()
}

/// The exit status: 0 exactly where the manifest is signed, unless memory was refused.
fn judged<R: Eprint>(rt: &R, alloc: Global, key: &[u8], manifest: &[u8], signature: &[u8]) -> u8
    ensures signed { result ≡ 0 → IsSigned key.now manifest.now signature.now }
    ensures found { IsSigned key.now manifest.now signature.now → (result ≡ 0) ⊎ (result ≡ 2) }
{
    tell(rt, judge(alloc, key, manifest, signature))
}

/// Does what the words say.
fn obey<R: Files + Eprint>(rt: &R, alloc: Global, words: &[String]) -> u8 {
    let [key, manifest, signature] = words else {
        let _ = eprintln!(rt; "usage: signed_cli KEY MANIFEST SIGNATURE");
        return NO_START;
    };
    let mut key_room = [0u8; TEXT_ROOM];
    let mut manifest_room = [0u8; MANIFEST_ROOM];
    let mut signature_room = [0u8; TEXT_ROOM];
    let Some(key_count) = fill(rt, key.as_str(), &mut key_room) else {
        return NO_START;
    };
    let Some(manifest_count) = fill(rt, manifest.as_str(), &mut manifest_room) else {
        return NO_START;
    };
    let Some(signature_count) = fill(rt, signature.as_str(), &mut signature_room) else {
        return NO_START;
    };
    judged(
        rt,
        alloc,
        &key_room[..key_count],
        &manifest_room[..manifest_count],
        &signature_room[..signature_count],
    )
}

/// Says on standard error why nothing can be looked at.
fn cannot_start<R: Eprint>(rt: &R, reason: &str) -> ExitCode {
    let _ = eprintln!(rt; "signed_cli: {reason}");
    ExitCode::from(NO_START)
}

fn main(rt: HostRuntime) -> ExitCode {
    let Ok(_streams) = fill_streams(&rt) else {
        return cannot_start(&rt, "the null device can't be opened");
    };
    let Ok(words) = words_of(&rt) else {
        return cannot_start(&rt, "no memory");
    };
    ExitCode::from(obey(&rt, rt.alloc(), words.as_slice()))
}

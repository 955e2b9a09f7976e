//! The manifest.

ghost use Rattle.std.specs.Prelude.{◌≡◌, ◌≢◌, ◌↔◌, ◌⊎◌, List, IsNone, IfOk, IfErr, ◌+◌, ◌<◌, ◌≤◌, ◌^◌, length, take, drop, ◌++◌, ◌∷◌, [], ℕ, Ok, Err, Some, None, position, slice_get, IfSome, MatchOption, MatchResult, nat_eq, codes};
ghost use Rattle.std.specs.List.{All, HoldsAt, list_any, starts_with};
ghost use Rattle.manifest_sums.specs.Spelling.{IsManifest, IsFirstFault};
ghost use Rattle.std.specs.Str.{bytes_eq};
ghost use Rattle.manifest_sums.specs.Manifest.{is_newline, line_of, next_line, line_at, has_path, unless_bad, lines_after, most_lines, manifest_of, Answers};

use crate::sum::Sum;
use std::alloc::Global;
use std::marker::Model;
use upd_text::{ListOf, Name, NoMemory};

/// One file's path, and the sum that is listed for it.
#[derive(Drop)]
pub struct Line {
    pub path: Name,
    pub sum: Sum,
}

/// At most 256 lines, each with a path of its own, which contracts see as the list of them.
#[derive(Drop)]
pub struct Manifest {
    lines: ListOf<Line>,
}

impl Model for Manifest {
    ghost use Rattle.std.specs.Prelude.{List, length, ◌≤◌};
    ghost use Rattle.manifest_sums.specs.declared.manifest.Line.{Line};

    ghost Value = { List Line };

    ghost view = { λ m. m.lines };

    ghost invariant = { λ m. length m.lines ≤ 256 };
}

/// Why bytes are no manifest: the first fault, in the order of the lines.
#[derive(Clone, Copy, Debug, PartialEq, Eq)]
pub enum ManifestFault {
    /// Line `k`, counted from 1, isn't 64 hexadecimal digits, two spaces, a name and a newline.
    BadLine(u32),
    /// The path of line `k` stands in an earlier line.
    Doubled(u32),
    /// The path of line `k` begins with `header.tar`.
    PackedHeader(u32),
    /// More bytes follow 256 right lines.
    TooMany,
    /// An allocation was refused.
    NoMemory,
}

impl From<NoMemory> for ManifestFault {
    ghost use Rattle.manifest_sums.specs.declared.manifest.ManifestFault.TheVariants.{NoMemory};

    ghost from_gives = { λ _ e. e ≡ NoMemory };

    fn from(_e: NoMemory) -> ManifestFault {
        ManifestFault::NoMemory
    }
}

impl Manifest {
    /// How many lines there are, at most 256.
    pub fn len(&self) -> u32
        ensures value { result ≡ length self.now }
        ensures few { result ≤ 256 }
    {
        self.lines.len()
    }

    /// The line at an index, counted from 0. Condition: it is below the length.
    pub fn line(&self, i: u32) -> &Line
        requires { i < length self.now }
        ensures { slice_get self.now i ≡ Some result.now }
    {
        self.lines.at(i)
    }

    /// All lines.
    pub fn lines(&self) -> &[Line]
        ensures { result.now ≡ self.now }
    {
        self.lines.as_slice()
    }

    /// The index of the line with the path. `None` exactly where no line has it.
    pub fn find(&self, path: &Name) -> Option<u32>
        ensures first { result ≡ position (has_path path.now) self.now }
        ensures none { IsNone result ↔ All (λ line. line.path ≢ path.now) self.now }
        ensures below { IfSome result (λ i. i < length self.now) }
        ensures there { IfSome result (HoldsAt (λ line. line.path ≡ path.now) self.now) }
    {
        match line_with(self.lines.as_slice(), path) {
            Some(i) => Some(i as u32),
            None => None,
        }
    }
}

fn line_with(lines: &[Line], path: &Name) -> Option<usize>
    ensures at { result ≡ position (has_path path.now) lines.now }
    ensures bound { IfSome result (λ i. i < length lines.now) }
{
    lines
        .iter()
        .position(|line| line.path.bytes() == path.bytes())
}

fn newline(bytes: &[u8]) -> Option<usize>
    ensures at { result ≡ position is_newline bytes.now }
    ensures bound { IfSome result (λ i. i < length bytes.now) }
{
    bytes.iter().position(|b| *b == 10)
}

/// The line that the bytes before a newline spell.
#[tactic(auto, unfolding(crate::specs::Manifest::line_of))]
fn line_of(text: &[u8]) -> Option<Line>
    ensures { result ≡ line_of text.now }
{
    if text.len() < 66 {
        return None;
    }
    let (digits, rest) = text.split_at(64);
    let (spaces, path) = rest.split_at(2);
    if spaces != b"  ".as_slice() {
        return None;
    }
    let sum = Sum::read(digits)?;
    match Name::read(path) {
        Ok(path) => Some(Line { path, sum }),
        Err(_) => None,
    }
}

/// The line up to the first newline, and what follows the newline.
#[tactic(auto, unfolding(crate::specs::Manifest::next_line))]
fn next_line(bytes: &[u8]) -> Option<(Line, &[u8])>
    ensures { MatchOption result (next_line bytes.now ≡ None) (λ r. next_line bytes.now ≡ Some (r.0, r.1.now)) }
{
    let at = newline(bytes)?;
    let (text, rest) = bytes.split_at(at);
    match line_of(text) {
        Some(line) => Some((line, rest.split_at(1).1)),
        None => None,
    }
}

#[tactic(auto, unfolding(crate::specs::Manifest::unless_bad))]
fn unless_bad(found: &[Line], line: Line) -> Result<Line, ManifestFault>
    requires { length found.now < 2 ^ 16 }
    ensures { result ≡ unless_bad found.now line }
{
    let k = found.len() as u32 + 1;
    if line.path.bytes().starts_with(b"header.tar") {
        return Err(ManifestFault::PackedHeader(k));
    }
    if is_among(found, &line.path) {
        return Err(ManifestFault::Doubled(k));
    }
    Ok(line)
}

fn is_among(lines: &[Line], path: &Name) -> bool
    ensures { result ≡ list_any (has_path path.now) lines.now }
{
    lines.iter().any(|line| line.path.bytes() == path.bytes())
}

/// The first line of the bytes behind the lines found before, and what follows its newline.
#[tactic(auto, unfolding(crate::specs::Manifest::line_at))]
fn line_at<'a>(found: &[Line], bytes: &'a [u8]) -> Result<(Line, &'a [u8]), ManifestFault>
    requires { length found.now < 2 ^ 16 }
    ensures { MatchResult result (λ r. line_at found.now bytes.now ≡ Ok (r.0, r.1.now)) (λ e. line_at found.now bytes.now ≡ Err e) }
{
    let Some((line, rest)) = next_line(bytes) else {
        return Err(ManifestFault::BadLine(found.len() as u32 + 1));
    };
    let line = unless_bad(found, line)?;
    Ok((line, rest))
}

/// The lines that the bytes spell, or the first fault. The lines are tried in order, and at one
/// line `BadLine` comes before `PackedHeader` and `PackedHeader` before `Doubled`. `TooMany` comes
/// exactly where 256 lines are right and more bytes follow, `NoMemory` where an allocation was
/// refused.
#[tactic(auto, using(crate::proofs::SpellingLemmas::answers))]
pub fn read_manifest(alloc: Global, bytes: &[u8]) -> Result<Manifest, ManifestFault>
    ensures exact { Answers result (manifest_of bytes.now) }
    ensures found { IfOk result (λ lines. IsManifest bytes.now lines) }
    ensures refused { IfErr result (λ e. (e ≡ ManifestFault.NoMemory) ⊎ IsFirstFault bytes.now e) }
    ensures only { (lines : List Line) → IsManifest bytes.now lines → (result ≡ Ok lines) ⊎ (result ≡ Err ManifestFault.NoMemory) }
{
    read_lines(alloc, bytes)
}

/// The lines one after another, or the first fault.
#[tactic(auto, unfolding(crate::specs::Manifest::manifest_of))]
fn read_lines(alloc: Global, bytes: &[u8]) -> Result<Manifest, ManifestFault>
    ensures { Answers result (manifest_of bytes.now) }
{
    let mut lines = ListOf::new(alloc);
    let mut rest = bytes;
    for _ in 0..256u32 {
        if rest.is_empty() {
            return Ok(Manifest { lines });
        }
        match line_at(lines.as_slice(), rest) {
            Ok((line, more)) => {
                lines.push(line)?;
                rest = more;
            }
            Err(fault) => return Err(fault),
        }
    }
    if !rest.is_empty() {
        return Err(ManifestFault::TooMany);
    }
    Ok(Manifest { lines })
}

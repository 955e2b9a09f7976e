//! The texts of a written tree.

ghost use Rattle.std.specs.Prelude.{◌≡◌, ◌<◌, ◌+◌, ◌^◌, ◌++◌, ◌∷◌, [], List, ℕ, length, map, flat_map, false, IfOk, OnOk, codes};
ghost use Rattle.std.specs.Option.{unwrap_or};
ghost use Rattle.sha2.specs.Sha256.{sha256};
ghost use Rattle.hex.specs.Hex.{encode_lower};
ghost use Rattle.serde_json.specs.View.{view};
ghost use Rattle.serde_json.specs.Written.{has_float, compact_text};
ghost use Rattle.tree_writer.specs.Texts.{header_text, info_text, version_text};
ghost use Rattle.tree_writer.specs.Files.{Entry, as_file, version_entry, manifest_text, file_line};

use crate::meta::{header, info};
use crate::order::name_of;
use crate::spec::{PayloadSpec, TreeSpec};
use io_model::{FileList, TreeFile};
use manifest_sums::{Sum, Summing};
use serde_json::Value as Json;
use std::alloc::Global;
use upd_text::NoMemory;

/// The file `version`.
pub(crate) const VERSION: &[u8] = b"{\"format\":\"mender\",\"version\":3}";

// The compact text of a value, which fits a file.
fn text_of(alloc: Global, json: &Json) -> Result<Vec<u8>, NoMemory>
    requires { has_float (view json.now) ≡ false }
    ensures text { IfOk result (λ text. text.items ≡ compact_text (view json.now)) }
    ensures fits { IfOk result (λ text. length text.items < 2 ^ 60) }
{
    let text = json.to_vec(alloc)?;
    if 1 << 60 <= text.len() {
        return Err(NoMemory);
    }
    Ok(text)
}

/// The file `header/header-info`.
#[tactic(auto, using(crate::proofs::TextsBack::no_floats), unfolding(crate::specs::Texts::header_text))]
pub(crate) fn header_text(alloc: Global, spec: &TreeSpec) -> Result<Vec<u8>, NoMemory>
    ensures text { IfOk result (λ text. text.items ≡ header_text spec.now) }
    ensures fits { IfOk result (λ text. length text.items < 2 ^ 60) }
{
    let json = header(alloc, spec)?;
    text_of(alloc, &json)
}

/// A payload's file `type-info`.
#[tactic(auto, using(crate::proofs::TextsBack::no_floats), unfolding(crate::specs::Texts::info_text))]
pub(crate) fn info_text(alloc: Global, payload: &PayloadSpec) -> Result<Vec<u8>, NoMemory>
    ensures text { IfOk result (λ text. text.items ≡ info_text payload.now) }
    ensures fits { IfOk result (λ text. length text.items < 2 ^ 60) }
{
    let json = info(alloc, payload)?;
    text_of(alloc, &json)
}

// ---- the manifest

fn sum_of(bytes: &[u8]) -> Sum
    ensures { result ≡ sha256 bytes.now }
{
    let mut summing = Summing::new();
    summing.piece(bytes);
    summing.finish()
}

fn push_line(text: &mut Vec<u8>, path: &[u8], bytes: &[u8]) -> Result<(), NoMemory>
    ensures { OnOk result (text.new.items ≡ text.old.items ++ (encode_lower (sha256 bytes.now) ++ codes "  " ++ path.now ++ 10 ∷ [])) }
{
    let digits = sum_of(bytes).hex();
    text.extend_from_slice(digits.as_slice())?;
    text.extend_from_slice(b"  ")?;
    text.extend_from_slice(path)?;
    text.push(b'\n')?;
    Ok(())
}

fn lines_of(alloc: Global, tree: &FileList) -> Result<Vec<u8>, NoMemory>
    ensures { IfOk result (λ text. text.items ≡ flat_map file_line tree.now) }
{
    let mut text = Vec::new(alloc);
    for i in 0..tree.len() {
        let file = tree.at(i);
        push_line(&mut text, name_of(file), file.bytes())?;
    }
    Ok(text)
}

/// The file `manifest` of a tree of which only itself and `version` are missing.
#[tactic(auto, using(crate::proofs::Lines::manifest_lines))]
pub(crate) fn manifest_text(alloc: Global, tree: &FileList) -> Result<Vec<u8>, NoMemory>
    ensures text { IfOk result (λ text. (front : List Entry) → tree.now ≡ map as_file front → text.items ≡ manifest_text (front ++ version_entry ∷ [])) }
    ensures fits { IfOk result (λ text. length text.items < 2 ^ 60) }
{
    let mut text = lines_of(alloc, tree)?;
    push_line(&mut text, b"version", VERSION)?;
    if 1 << 60 <= text.len() {
        return Err(NoMemory);
    }
    Ok(text)
}

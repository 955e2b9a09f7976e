//! Texts in base64.

ghost use Rattle.std.specs.Prelude.{◌≡◌, ◌≢◌, ◌⊎◌, ◌<◌, ℕ, List, length, not, filter, position, IfSome, IfOk, IfErr, IsTrue, MatchOption, MatchResult, Ok, Err, Some, None};
ghost use Rattle.base64.specs.GeneralPurpose.{IsBytes};
ghost use Rattle.key_text.specs.Pem.{is_line_end, is_dash, IsBase64};
ghost use Rattle.key_text.specs.Reading.{behind_line_ends, frame_at};

use crate::der::strip;
use base64::DecodeAllocError;
use base64::engine::general_purpose::STANDARD;
use std::alloc::{AllocError, Global};

/// Why a text is no signature.
#[derive(Clone, Copy, Debug, PartialEq, Eq)]
pub enum TextFault {
    /// It isn't base64.
    NotBase64,
    /// An allocation was refused.
    NoMemory,
}

/// The text without its line ends.
fn joined(alloc: Global, text: &[u8]) -> Result<Vec<u8>, AllocError>
    ensures { IfOk result (λ v. v.items ≡ filter (λ b. not (is_line_end b)) text.now) }
{
    text.iter()
        .copied()
        .filter(|b| !(*b == b'\n' || *b == b'\r'))
        .collect(alloc)
}

/// The bytes that base64 writes, with line ends anywhere in it.
pub fn read_base64(alloc: Global, text: &[u8]) -> Result<Vec<u8>, TextFault>
    ensures read { IfOk result (λ v. IsBase64 text.now v.items) }
    ensures refused { result ≡ Err TextFault.NotBase64 → (bytes : List ℕ) → ¬ (IsBase64 text.now bytes) }
{
    let Ok(joined) = joined(alloc, text) else {
        return Err(TextFault::NoMemory);
    };
    match STANDARD.decode(alloc, joined.as_slice()) {
        Ok(bytes) => Ok(bytes),
        Err(DecodeAllocError::DecodeError(_)) => Err(TextFault::NotBase64),
        Err(DecodeAllocError::OutOfMemory) => Err(TextFault::NoMemory),
    }
}

/// The index of the first dash.
fn first_dash(text: &[u8]) -> Option<usize>
    ensures at { result ≡ position is_dash text.now }
    ensures bound { IfSome result (λ i. i < length text.now) }
{
    text.iter().position(|b| *b == b'-')
}

/// The index of the first byte that ends no line.
fn first_past_line_ends(text: &[u8]) -> Option<usize>
    ensures at { result ≡ position (λ b. not (is_line_end b)) text.now }
    ensures bound { IfSome result (λ i. i < length text.now) }
{
    text.iter().position(|b| !(*b == b'\n' || *b == b'\r'))
}

/// What stands behind the line ends at the front.
fn behind_line_ends(text: &[u8]) -> &[u8]
    ensures { result.now ≡ behind_line_ends text.now }
{
    match first_past_line_ends(text) {
        Some(at) => text.split_at(at).1,
        None => &[],
    }
}

/// What stands between both lines of a public key, and what stands behind them and the line ends that follow.
#[tactic(auto, unfolding(crate::specs::Reading::frame_at))]
pub fn frame_at(text: &[u8]) -> Option<(&[u8], &[u8])>
    ensures { MatchOption result (frame_at text.now ≡ None) (λ r. frame_at text.now ≡ Some (r.0.now, r.1.now)) }
{
    let inside = strip(text, b"-----BEGIN PUBLIC KEY-----")?;
    let (body, more) = inside.split_at(first_dash(inside)?);
    let after = strip(more, b"-----END PUBLIC KEY-----")?;
    Some((body, behind_line_ends(after)))
}

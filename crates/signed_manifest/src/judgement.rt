//! The judgement.

ghost use Rattle.std.specs.Prelude.{◌≡◌, ◌⊎◌, ◌↔◌, ℕ, List, IsTrue};
ghost use Rattle.sha2.specs.Sha256.{sha256};
ghost use Rattle.signed_manifest.specs.Signed.{FitsOne, IsSigned};
ghost use Rattle.signed_manifest.specs.Verdict.{Tells, verdict_of};

use crate::verdict::Verdict;
use key_text::{KeyFault, TextFault, read_base64, read_keys};
use manifest_sums::{Sum, Summing};
use rsa_signature::PublicKey;
use std::alloc::Global;

/// The sum of the bytes.
fn sum_of(bytes: &[u8]) -> Sum
    ensures { result ≡ sha256 bytes.now }
{
    let mut summing = Summing::new();
    summing.piece(bytes);
    summing.finish()
}

fn verdict_of(fault: KeyFault) -> Verdict
    ensures { result ≡ verdict_of fault }
{
    match fault {
        KeyFault::NoMemory => Verdict::NoMemory,
        KeyFault::NotPem => Verdict::WrongKey(KeyFault::NotPem),
        KeyFault::NotRsa => Verdict::WrongKey(KeyFault::NotRsa),
        KeyFault::OtherExponent => Verdict::WrongKey(KeyFault::OtherExponent),
        KeyFault::OtherSize => Verdict::WrongKey(KeyFault::OtherSize),
    }
}

/// Whether the signature is one of the sum, under one of the keys.
fn fits_one(keys: &[PublicKey], sum: &[u8; 32], signature: &[u8]) -> bool
    ensures { IsTrue result ↔ FitsOne keys.now sum.now signature.now }
{
    for key in keys {
        if key.verifies(sum, signature) {
            return true;
        }
    }
    false
}

/// Whether the signature, a text in base64, is one of the manifest under one of the keys, texts in PEM form one behind the other. A
/// fault of the keys comes before one of the signature. `NoMemory` comes where an allocation was refused.
pub fn judge(alloc: Global, key: &[u8], manifest: &[u8], signature: &[u8]) -> Verdict
    ensures told { Tells key.now manifest.now signature.now result }
    ensures signed { IsSigned key.now manifest.now signature.now → (result ≡ Verdict.Signed) ⊎ (result ≡ Verdict.NoMemory) }
{
    let keys = match read_keys(alloc, key) {
        Ok(keys) => keys,
        Err(fault) => return verdict_of(fault),
    };
    let signature = match read_base64(alloc, signature) {
        Ok(signature) => signature,
        Err(TextFault::NotBase64) => return Verdict::NotBase64,
        Err(TextFault::NoMemory) => return Verdict::NoMemory,
    };
    let sum = sum_of(manifest);
    if fits_one(keys.as_slice(), sum.bytes(), signature.as_slice()) {
        Verdict::Signed
    } else {
        Verdict::NotSigned
    }
}

//! Keys as texts.

ghost use Rattle.std.specs.Prelude.{◌≡◌, ◌⊎◌, ℕ, List, IfOk, IfErr, Ok, Err};
ghost use Rattle.rsa_signature.specs.Message.{IsModulus};
ghost use Rattle.key_text.specs.Der.{IsKey};
ghost use Rattle.key_text.specs.Pem.{IsPem};
ghost use Rattle.key_text.specs.Keys.{SpellsKey, SpellsKeys, usual_exponent, IsWrongForm, IsWrongKey, IsWrongKeys};

use crate::der::key_of;
use crate::fault::KeyFault;
use crate::pem::{TextFault, frame_at, read_base64};
use rsa_signature::PublicKey;
use std::alloc::Global;

/// 65,537.
const USUAL_EXPONENT: [u8; 3] = [1, 0, 1];

/// The octets that stand between both lines of a public key, and the rest of the text.
fn octets_at(alloc: Global, text: &[u8]) -> Result<(Vec<u8>, &[u8]), KeyFault>
    ensures read { IfOk result (λ r. IsPem text.now r.0.items r.1.now) }
    ensures refused { IfErr result (λ fault. (fault ≡ KeyFault.NoMemory) ⊎ ((fault ≡ KeyFault.NotPem) × ((octets rest : List ℕ) → ¬ (IsPem text.now octets rest)))) }
{
    let Some((body, rest)) = frame_at(text) else {
        return Err(KeyFault::NotPem);
    };
    match read_base64(alloc, body) {
        Ok(octets) => Ok((octets, rest)),
        Err(TextFault::NotBase64) => Err(KeyFault::NotPem),
        Err(TextFault::NoMemory) => Err(KeyFault::NoMemory),
    }
}

/// The key whose form the octets are.
fn key_in(octets: &[u8]) -> Result<PublicKey, KeyFault>
    ensures read { IfOk result (λ key. IsKey octets.now key usual_exponent × IsModulus key) }
    ensures refused { IfErr result (λ fault. IsWrongForm octets.now fault) }
{
    let Some((modulus, exponent)) = key_of(octets) else {
        return Err(KeyFault::NotRsa);
    };
    if exponent != USUAL_EXPONENT.as_slice() {
        return Err(KeyFault::OtherExponent);
    }
    match PublicKey::of(modulus) {
        Some(key) => Ok(key),
        None => Err(KeyFault::OtherSize),
    }
}

/// The key that the text begins with, and the rest of the text.
fn key_at(alloc: Global, text: &[u8]) -> Result<(PublicKey, &[u8]), KeyFault>
    ensures read { IfOk result (λ r. SpellsKey text.now r.0 r.1.now) }
    ensures refused { IfErr result (λ fault. (fault ≡ KeyFault.NoMemory) ⊎ IsWrongKey text.now fault) }
{
    let (octets, rest) = octets_at(alloc, text)?;
    let key = key_in(octets.as_slice())?;
    Ok((key, rest))
}

/// The keys that a text spells one behind the other, exactly where each is an RSA key of 2,048 to 4,096 bits with the exponent
/// 65,537; else why the first that isn't is none. `NoMemory` comes where an allocation was refused.
pub fn read_keys(alloc: Global, text: &[u8]) -> Result<Vec<PublicKey>, KeyFault>
    ensures read { IfOk result (λ keys. SpellsKeys text.now keys.items) }
    ensures refused { IfErr result (λ fault. (fault ≡ KeyFault.NoMemory) ⊎ IsWrongKeys text.now fault) }
{
    let mut keys = Vec::new(alloc);
    let mut rest = text;
    'keys: loop {
        let (key, behind) = key_at(alloc, rest)?;
        if keys.push(key).is_err() {
            return Err(KeyFault::NoMemory);
        }
        if behind.is_empty() {
            return Ok(keys);
        }
        rest = behind;
    }
}

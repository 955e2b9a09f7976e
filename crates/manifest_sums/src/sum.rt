//! SHA-256 sums.

ghost use Rattle.std.specs.Prelude.{◌≡◌, ◌+◌, ◌<◌, ◌^◌, length, ◌++◌, List, ℕ, [], Ok, Err, IfSome, IfOk, IfErr};
ghost use Rattle.std.specs.Str.{bytes_eq};
ghost use Rattle.sha2.specs.Sha256.{sha256};
ghost use Rattle.hex.specs.Hex.{encode_lower};
ghost use Rattle.manifest_sums.specs.Manifest.{sum_of};
ghost use Rattle.manifest_sums.specs.Message.{Has};

use hex::{decode_to_slice, encode_to_slice};
use sha2::{Digest, Sha256};
use std::marker::Model;

/// A SHA-256 sum, which contracts see as the list of its 32 bytes.
#[derive(Drop)]
pub struct Sum {
    digest: [u8; 32],
}

impl Model for Sum {
    ghost use Rattle.std.specs.Prelude.{List, ℕ};

    ghost Value = { List ℕ };

    ghost view = { λ s. s.digest };
}

impl Sum {
    /// The sum with these bytes.
    pub fn of(bytes: [u8; 32]) -> Sum
        ensures { result ≡ bytes }
    {
        Sum { digest: bytes }
    }

    /// The bytes of the sum.
    pub fn bytes(&self) -> &[u8; 32]
        ensures bytes { result.now ≡ self.now }
        ensures long { length self.now ≡ 32 }
    {
        &self.digest
    }

    /// A copy. It takes no memory and can't be refused.
    pub fn twin(&self) -> Sum
        ensures { result ≡ self.now }
    {
        Sum {
            digest: self.digest,
        }
    }

    /// The sum that these digits spell, exactly where there are 64 hexadecimal digits of either
    /// case; else `None`.
    pub fn read(digits: &[u8]) -> Option<Sum>
        ensures { result ≡ sum_of digits.now }
    {
        let mut digest = [0u8; 32];
        match decode_to_slice(digits, &mut digest) {
            Ok(()) => Some(Sum { digest }),
            Err(_) => None,
        }
    }

    /// The 64 hexadecimal digits of the sum, in lower case.
    pub fn hex(&self) -> [u8; 64]
        ensures { result ≡ encode_lower self.now }
    {
        let mut text = [0u8; 64];
        match encode_to_slice(self.digest.as_slice(), &mut text) {
            Ok(()) => text,
            Err(_) => text,
        }
    }

    /// Whether the two sums have the same bytes.
    pub fn is(&self, other: &Sum) -> bool
        ensures { result ≡ bytes_eq self.now other.now }
    {
        self.digest.as_slice() == other.digest.as_slice()
    }
}

/// Takes a message in pieces, and gives its SHA-256 sum however it is cut.
#[derive(Drop)]
pub struct Summing {
    hasher: Sha256,
}

impl Summing {
    /// No piece was taken: the message is empty.
    pub fn new() -> Summing
        ensures { Has result [] }
    {
        Summing {
            hasher: Sha256::new(),
        }
    }

    /// Takes the next piece.
    pub fn piece(&mut self, bytes: &[u8])
        ensures { (message : List ℕ) → Has self.old message → Has self.new (message ++ bytes.now) }
    {
        self.hasher.update(bytes);
    }

    /// The sum of all pieces in a row.
    pub fn finish(self) -> Sum
        ensures { (message : List ℕ) → Has self message → result ≡ sha256 message }
    {
        Sum {
            digest: self.hasher.finalize(),
        }
    }
}

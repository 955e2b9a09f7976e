//! What is found.

ghost use Rattle.std.specs.Prelude.{◌≡◌};

use key_text::KeyFault;

/// What a key, a manifest and a signature are to each other.
#[derive(Clone, Copy, Debug, PartialEq, Eq)]
pub enum Verdict {
    /// The signature is one of the manifest, under one of the keys.
    Signed,
    /// One of the keys is none that can be used, whatever the signature is.
    WrongKey(KeyFault),
    /// The signature isn't base64.
    NotBase64,
    /// The signature isn't one of this manifest under any of the keys.
    NotSigned,
    /// An allocation was refused.
    NoMemory,
}

impl Verdict {
    ghost use Rattle.signed_manifest.specs.Verdict.{status_of};

    /// The exit status: 0 for a signed manifest, 1 for one that isn't, 2 where that can't be told.
    pub fn status(self) -> u8
        ensures { result ≡ status_of self }
    {
        match self {
            Verdict::Signed => 0,
            Verdict::NotBase64 | Verdict::NotSigned => 1,
            Verdict::WrongKey(_) | Verdict::NoMemory => 2,
        }
    }

    /// What is said of it.
    pub fn line(self) -> &'static str {
        match self {
            Verdict::Signed => "the manifest is signed",
            Verdict::WrongKey(KeyFault::NotPem) => {
                "the key is no PEM text of a public key, which begins with -----BEGIN PUBLIC KEY-----"
            }
            Verdict::WrongKey(KeyFault::NotRsa) => "the key is no RSA key",
            Verdict::WrongKey(KeyFault::OtherExponent) => "the key has another exponent than 65537",
            Verdict::WrongKey(KeyFault::OtherSize) => {
                "the key has fewer than 2048 bits or more than 4096"
            }
            Verdict::NotBase64 => "the signature isn't base64",
            Verdict::NotSigned => "the signature isn't one of this manifest under the key",
            Verdict::WrongKey(KeyFault::NoMemory) | Verdict::NoMemory => "no memory",
        }
    }
}

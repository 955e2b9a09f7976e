//! Why bytes stand for no database.

use upd_text::NoMemory;

/// Why bytes stand for no database.
#[derive(Clone, Copy, Debug, PartialEq, Eq)]
pub enum DecodeFault {
    /// The offset of the first field that is wrong.
    NotARecord(u32),
    NoMemory,
}

impl From<NoMemory> for DecodeFault {
    ghost use Rattle.std.specs.Prelude.{◌≡◌};
    ghost use Rattle.record_codec.specs.declared.fault.DecodeFault.TheVariants.{NoMemory as OutOfMemory};

    ghost from_gives = { λ _ e. e ≡ OutOfMemory };

    fn from(_e: NoMemory) -> DecodeFault {
        DecodeFault::NoMemory
    }
}

/// The field at this offset is wrong.
#[derive(Clone, Copy, Debug, PartialEq, Eq)]
pub(crate) struct Wrong {
    pub(crate) at: u32,
}

impl From<Wrong> for DecodeFault {
    ghost use Rattle.std.specs.Prelude.{◌≡◌};
    ghost use Rattle.record_codec.specs.declared.fault.DecodeFault.TheVariants.{NotARecord};

    ghost from_gives = { λ w e. e ≡ NotARecord w.at };

    fn from(wrong: Wrong) -> DecodeFault {
        DecodeFault::NotARecord(wrong.at)
    }
}

//! Why the files of the source are no spec.

use io_model::SourceFault as OfSource;
use std::alloc::AllocError;
use upd_text::NoMemory as OutOfMemory;

/// What comes between the words and the faults of a spec.
#[derive(Clone, Copy, Debug, PartialEq, Eq)]
pub enum Early {
    /// See `Made`.
    TooLong(u64),
    SourceFault,
    NoMemory,
}

impl From<OfSource> for Early {
    ghost use Rattle.std.specs.Prelude.{◌≡◌};
    ghost use Rattle.tree_writer.specs.declared.early.Early.TheVariants as early;

    ghost from_gives = { λ _ e. e ≡ early.SourceFault };

    fn from(_fault: OfSource) -> Early {
        Early::SourceFault
    }
}

impl From<OutOfMemory> for Early {
    ghost use Rattle.std.specs.Prelude.{◌≡◌};
    ghost use Rattle.tree_writer.specs.declared.early.Early.TheVariants as early;

    ghost from_gives = { λ _ e. e ≡ early.NoMemory };

    fn from(_fault: OutOfMemory) -> Early {
        Early::NoMemory
    }
}

impl From<AllocError> for Early {
    ghost use Rattle.std.specs.Prelude.{◌≡◌};
    ghost use Rattle.tree_writer.specs.declared.early.Early.TheVariants as early;

    ghost from_gives = { λ _ e. e ≡ early.NoMemory };

    fn from(_fault: AllocError) -> Early {
        Early::NoMemory
    }
}

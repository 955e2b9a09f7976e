//! Why a reading stopped.

ghost use Rattle.std.specs.Prelude.{◌≡◌};

use io_model::SourceFault;
use std::alloc::AllocError;
use upd_text::NoMemory;

/// Nothing else stops a reading of the source.
#[derive(Clone, Copy, Debug, PartialEq, Eq)]
pub enum Stop {
    /// A call of the source failed.
    Source,
    /// An allocation was refused.
    Memory,
}

impl From<SourceFault> for Stop {
    ghost use Rattle.admit.specs.declared.stop.Stop.TheVariants as stop;

    ghost from_gives = { λ _ e. e ≡ stop.Source };

    fn from(_fault: SourceFault) -> Stop {
        Stop::Source
    }
}

impl From<NoMemory> for Stop {
    ghost use Rattle.admit.specs.declared.stop.Stop.TheVariants as stop;

    ghost from_gives = { λ _ e. e ≡ stop.Memory };

    fn from(_fault: NoMemory) -> Stop {
        Stop::Memory
    }
}

impl From<AllocError> for Stop {
    ghost use Rattle.admit.specs.declared.stop.Stop.TheVariants as stop;

    ghost from_gives = { λ _ e. e ≡ stop.Memory };

    fn from(_fault: AllocError) -> Stop {
        Stop::Memory
    }
}

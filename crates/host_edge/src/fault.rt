//! Why the program can't start.

ghost use Rattle.std.specs.Prelude.{◌≡◌, ◌≢◌};
ghost use Rattle.std.specs.IoError.{error_kind};
ghost use Rattle.host_edge.specs.Faults.{fault_number};

use std::alloc::AllocError;
use std::io::{self, ErrorKind};
use thiserror::Error;
use upd_text::NoMemory;

/// What can't be had of the host.
#[derive(Clone, Copy, Debug, PartialEq, Eq, Error)]
pub enum HostFault {
    #[error("the data folder isn't there, or it or its scripts can't be listed")]
    NoFolder,
    #[error("the file device_type can't be read")]
    NoDeviceType,
    #[error("the first line of device_type isn't device_type= and a name")]
    BadDeviceType,
    #[error("the device has more than 64 Download scripts")]
    TooManyScripts,
    #[error("the store can't be opened, made or filled, or another client holds it")]
    NoStore,
    #[error("the tree can't be read, or is no folder")]
    NoTree,
    #[error("no memory")]
    NoMemory,
}

impl HostFault {
    /// The number of `cannot start N`. Inside one `attach` the faults are found in its order, but for want of memory, which may
    /// come at any point.
    pub fn number(self) -> u8
        ensures { result ≡ fault_number self }
    {
        match self {
            HostFault::NoFolder => 1,
            HostFault::NoDeviceType => 2,
            HostFault::BadDeviceType => 3,
            HostFault::TooManyScripts => 4,
            HostFault::NoStore => 5,
            HostFault::NoTree => 6,
            HostFault::NoMemory => 7,
        }
    }

    /// Want of memory shows as itself, each other error as `other`.
    pub fn of(error: &io::Error, other: HostFault) -> HostFault
        ensures memory { error_kind error.now ≡ ErrorKind.OutOfMemory → result ≡ HostFault.NoMemory }
        ensures other { error_kind error.now ≢ ErrorKind.OutOfMemory → result ≡ other }
    {
        if error.kind() == ErrorKind::OutOfMemory {
            HostFault::NoMemory
        } else {
            other
        }
    }
}

impl From<AllocError> for HostFault {
    ghost use Rattle.host_edge.specs.declared.fault.HostFault.TheVariants.{NoMemory};

    ghost from_gives = { λ _ fault. fault ≡ NoMemory };

    fn from(_: AllocError) -> HostFault {
        HostFault::NoMemory
    }
}

impl From<NoMemory> for HostFault {
    ghost use Rattle.host_edge.specs.declared.fault.HostFault.TheVariants as fault;

    ghost from_gives = { λ _ f. f ≡ fault.NoMemory };

    fn from(_: NoMemory) -> HostFault {
        HostFault::NoMemory
    }
}

//! Why a tree isn't admitted.

ghost use Rattle.std.specs.Prelude.{◌≡◌};

use crate::stop::Stop;
use artifact_meta::MetaFault;
use io_model::SourceFault;
use manifest_sums::{ManifestFault, Sum};
use upd_text::{Name, NoMemory};

/// A file that must be there.
#[derive(Clone, Copy, Debug, PartialEq, Eq)]
pub enum Which {
    Version,
    Manifest,
    HeaderInfo,
    TypeInfo,
}

/// A file whose sum isn't the one that the manifest lists.
#[derive(Drop)]
pub struct Differs {
    pub path: Name,
    pub listed: Sum,
    pub found: Sum,
}

/// Why a tree isn't admitted, in the order in which the causes are tried, but for the last two.
/// Indexes of files and payloads count from 0.
#[derive(Drop)]
pub enum Refusal {
    /// The tree has this many files, and more than 256.
    TooManyFiles(u32),
    /// This file is `manifest-augment`, or its path begins with `header-augment`.
    Augmented(u32),
    /// The path of this file is no name, or none that a tree may have.
    BadPath(u32),
    /// An earlier file has the path of this one.
    DoubledPath(u32),
    /// This file isn't there: the first of the four.
    NoFile(Which),
    /// This file is to be read whole and has more than 65,536 bytes: the first such in byte order.
    HeaderTooLong(Name),
    /// The manifest has this fault.
    Manifest(ManifestFault),
    /// This file has no line in the manifest: the first such, but `manifest` and `manifest.sig`.
    NotListed(Name),
    /// The line of this path has no file, or is for `manifest` or `manifest.sig`: the first such.
    Absent(Name),
    /// The first line outside `data/` whose sum isn't that of its file.
    SumDiffers(Differs),
    /// The file `version` isn't that of a Mender artifact of version 3.
    BadVersion,
    /// The fault of header-info, with payload 0; or of the type-info of this payload, with which
    /// it differs in the type where nothing else is wrong: the first payload with one.
    Meta(MetaFault, u32),
    /// This path under `header/scripts/` isn't that of a script that an artifact may bring: the
    /// first such in byte order.
    BadScriptName(Name),
    /// There are this many scripts, and more than 64.
    TooManyScripts(u32),
    /// What is wanted of this key isn't met: the first such of header-info, then of the payloads in
    /// order.
    Unmet(Name),
    /// The first line in `data/` whose sum isn't that of its file.
    PayloadDiffers(Differs),
    /// This payload has no type-info: the first such. It is tried behind the faults of header-info;
    /// payload 0 is among the files that must be there.
    NoTypeInfo(u32),
    /// This path is that of a payload that header-info doesn't name: the first such. It is tried
    /// behind `NoTypeInfo`, and before the faults of type-info.
    NoSuchPayload(Name),
}

/// Why nothing was admitted.
#[derive(Drop)]
pub enum AdmitFault {
    /// A call of the source failed.
    Source,
    /// An allocation was refused.
    Memory,
    /// The tree isn't such as it has to be.
    Refused(Refusal),
}

impl From<Refusal> for AdmitFault {
    ghost use Rattle.admit.specs.declared.refusal.AdmitFault.TheVariants.{Refused};

    ghost from_gives = { λ refusal e. e ≡ Refused refusal };

    fn from(refusal: Refusal) -> AdmitFault {
        AdmitFault::Refused(refusal)
    }
}

impl From<Stop> for AdmitFault {
    ghost use Rattle.admit.specs.Answers.{fault_of};

    ghost from_gives = { λ stop e. e ≡ fault_of stop };

    fn from(stop: Stop) -> AdmitFault {
        match stop {
            Stop::Source => AdmitFault::Source,
            Stop::Memory => AdmitFault::Memory,
        }
    }
}

impl From<NoMemory> for AdmitFault {
    ghost use Rattle.admit.specs.declared.refusal.AdmitFault.TheVariants as fault;

    ghost from_gives = { λ _ e. e ≡ fault.Memory };

    fn from(_fault: NoMemory) -> AdmitFault {
        AdmitFault::Memory
    }
}

impl From<SourceFault> for AdmitFault {
    ghost use Rattle.admit.specs.declared.refusal.AdmitFault.TheVariants as fault;

    ghost from_gives = { λ _ e. e ≡ fault.Source };

    fn from(_fault: SourceFault) -> AdmitFault {
        AdmitFault::Source
    }
}

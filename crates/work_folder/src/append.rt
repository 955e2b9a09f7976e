//! The calls of the work folder.

ghost use Rattle.std.specs.Prelude.{◌≡◌, IfErr, OnOk};
ghost use Rattle.device_model.specs.Work.{cleared, with_bytes, work_synced};
ghost use Rattle.device_model.specs.State.{after_work};
ghost use Rattle.work_folder.specs.Prepare.{IsReady, Touches, IsOfDevice, prepare_how};

use crate::fault::PrepareFault;
use device_model::{Device, Down, Part};
use upd_text::Name;

/// Takes all files out of the folder.
pub(crate) fn clear<D: Device>(device: &mut D) -> Result<(), PrepareFault>
    requires { IsReady (D.means device.old) }
    ensures plan { D.plan device.new ≡ D.plan device.old }
    ensures touches { Touches (prepare_how result) (D.means device.old) (D.means device.new) }
    ensures ready { OnOk result (IsReady (D.means device.new)) }
    ensures cause { IfErr result IsOfDevice }
    ensures done { OnOk result (D.means device.new ≡ after_work cleared (D.means device.old)) }
{
    match device.work_clear() {
        Ok(()) => Ok(()),
        Err(Down::Off) => Err(PrepareFault::Off),
        Err(Down::Fault) => Err(PrepareFault::DiskFault),
    }
}

/// Adds bytes at the end of a file, or makes it with these bytes.
pub(crate) fn append<D: Device>(
    device: &mut D,
    part: Part,
    path: &Name,
    bytes: &[u8],
) -> Result<(), PrepareFault>
    requires { IsReady (D.means device.old) }
    ensures plan { D.plan device.new ≡ D.plan device.old }
    ensures touches { Touches (prepare_how result) (D.means device.old) (D.means device.new) }
    ensures ready { OnOk result (IsReady (D.means device.new)) }
    ensures cause { IfErr result IsOfDevice }
    ensures done { OnOk result (D.means device.new ≡ after_work (with_bytes part path.now bytes.now) (D.means device.old)) }
{
    match device.work_append(part, path, bytes) {
        Ok(()) => Ok(()),
        Err(Down::Off) => Err(PrepareFault::Off),
        Err(Down::Fault) => Err(PrepareFault::DiskFault),
    }
}

/// The folder survives a loss from then on.
pub(crate) fn sync<D: Device>(device: &mut D) -> Result<(), PrepareFault>
    requires { IsReady (D.means device.old) }
    ensures plan { D.plan device.new ≡ D.plan device.old }
    ensures touches { Touches (prepare_how result) (D.means device.old) (D.means device.new) }
    ensures ready { OnOk result (IsReady (D.means device.new)) }
    ensures cause { IfErr result IsOfDevice }
    ensures done { OnOk result (D.means device.new ≡ after_work work_synced (D.means device.old)) }
{
    match device.work_sync() {
        Ok(()) => Ok(()),
        Err(Down::Off) => Err(PrepareFault::Off),
        Err(Down::Fault) => Err(PrepareFault::DiskFault),
    }
}

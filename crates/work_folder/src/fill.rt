//! Preparing the work folder.

ghost use Rattle.std.specs.Prelude.{◌≡◌, ◌≤◌, ◌<◌, true, false, length, IfErr, OnOk, OnErr};
ghost use Rattle.device_model.specs.Disk.{IsSettled, WhereTold};
ghost use Rattle.admit.specs.IsOf.{IsOf};
ghost use Rattle.io_model.specs.Source.{When};
ghost use Rattle.admit.specs.Given.{ReadsPayloads};
ghost use Rattle.work_folder.specs.Rows.{rows_of, copied_of};
ghost use Rattle.work_folder.specs.Folder.{Stands};
ghost use Rattle.work_folder.specs.Prepare.{IsReady, Touches, CopiesAll, CopiesSome, prepare_how, source_after};
ghost use Rattle.work_folder.specs.Adding.{Adds};

use crate::append::{clear, sync};
use crate::fault::PrepareFault;
use crate::groups::Group;
use crate::header::put_group;
use crate::trees::put_payloads;
use admit::Admitted;
use device_model::Device;
use io_model::Source;
use provides_map::Provides;
use script_names::Site;

/// All files, into a folder that was cleared.
#[tactic(auto, using(crate::proofs::Steps::touches_then))]
fn put_all<D: Device, S: Source>(
    device: &mut D,
    source: &mut S,
    admitted: &Admitted,
    site: &Site,
    current: &Provides,
    buffer: &mut [u8],
) -> Result<(), PrepareFault>
    requires ready { IsReady (D.means device.old) }
    requires of_source { IsOf (S.content source.old) admitted.now }
    requires some { 0 < length buffer.old }
    ensures plan { D.plan device.new ≡ D.plan device.old }
    ensures source_plan { S.plan source.new ≡ S.plan source.old }
    ensures same { S.content source.new ≡ S.content source.old }
    ensures counts { S.faults source.new ≡ source_after result (S.faults source.old) }
    ensures touches { Touches (prepare_how result) (D.means device.old) (D.means device.new) }
    ensures ready { OnOk result (IsReady (D.means device.new)) }
    ensures copied { OnOk result (CopiesAll (S.content source.old) (copied_of admitted.now) (S.given source.old) (S.given source.new)) }
    ensures stopped { IfErr result (λ fault. CopiesSome (S.content source.old) (copied_of admitted.now) fault (S.given source.old) (S.given source.new)) }
    ensures done { OnOk result (Adds (S.content source.old) (rows_of site.now current.now admitted.now) (D.means device.old) (D.means device.new)) }
{
    match put_payloads(device, source, admitted, site, current, buffer) {
        Ok(()) => {}
        Err(fault) => return Err(fault),
    }
    let lines = admitted.manifest.lines();
    let numbers = admitted.numbers.as_slice();
    match put_group(device, source, lines, numbers, Group::Payload, buffer) {
        Ok(()) => {}
        Err(fault) => return Err(fault),
    }
    match put_group(device, source, lines, numbers, Group::Scripts, buffer) {
        Ok(()) => {}
        Err(fault) => return Err(fault),
    }
    Ok(())
}

/// Clears the work folder and writes all files of the deployment: for each payload what the device
/// is and holds, what the artifact is and its header, then the payloads and the scripts. A file is copied in pieces of the
/// buffer, and is to have the sum that the manifest lists for it. At the end the folder is synced.
/// After a refusal it may be anything.
#[tactic(auto, using(crate::proofs::Steps::touches_then))]
pub fn prepare<D: Device, S: Source>(
    device: &mut D,
    source: &mut S,
    admitted: &Admitted,
    site: &Site,
    current: &Provides,
    buffer: &mut [u8],
) -> Result<(), PrepareFault>
    requires on { (D.means device.old).on ≡ true }
    requires room { 1 ≤ (D.means device.old).room }
    requires settled { IsSettled (D.means device.old).disk }
    requires of_source { IsOf (S.content source.old) admitted.now }
    requires some { 0 < length buffer.old }
    ensures plan { D.plan device.new ≡ D.plan device.old }
    ensures source_plan { S.plan source.new ≡ S.plan source.old }
    ensures same { S.content source.new ≡ S.content source.old }

    // how it ended, by the three counts
    ensures touches { Touches (prepare_how result) (D.means device.old) (D.means device.new) }
    ensures counts { S.faults source.new ≡ source_after result (S.faults source.old) }

    // what was copied, and why it stopped
    ensures copied { OnOk result (CopiesAll (S.content source.old) (copied_of admitted.now) (S.given source.old) (S.given source.new)) }
    ensures stopped { IfErr result (λ fault. CopiesSome (S.content source.old) (copied_of admitted.now) fault (S.given source.old) (S.given source.new)) }
    ensures payloads { OnOk result (When (S.content source.old) (λ t. ReadsPayloads true t (S.given source.old) (S.given source.new))) }
    ensures payloads_in_part { OnErr result (When (S.content source.old) (λ t. ReadsPayloads false t (S.given source.old) (S.given source.new))) }

    // the folder, where it is told
    ensures folder { OnOk result (WhereTold (λ old new. Stands (S.content source.old) (rows_of site.now current.now admitted.now) new) (D.means device.old).work (D.means device.new).work) }
{
    match clear(device) {
        Ok(()) => {}
        Err(fault) => return Err(fault),
    }
    match put_all(device, source, admitted, site, current, buffer) {
        Ok(()) => {}
        Err(fault) => return Err(fault),
    }
    match sync(device) {
        Ok(()) => {}
        Err(fault) => return Err(fault),
    }
    Ok(())
}

//! The files of one value.

ghost use Rattle.std.specs.Prelude.{◌≡◌, ◌≤◌, IfErr, OnOk, codes};
ghost use Rattle.device_model.specs.declared.calls.Part.TheVariants.{Tree};
ghost use Rattle.device_model.specs.Work.{with_bytes};
ghost use Rattle.device_model.specs.State.{after_work};
ghost use Rattle.provides_map.specs.Pairs.{get};
ghost use Rattle.upd_text.specs.Text.{IsName};
ghost use Rattle.work_folder.specs.Rows.{or_nothing};
ghost use Rattle.work_folder.specs.Prepare.{IsReady, Touches, IsOfDevice, prepare_how};
ghost use Rattle.work_folder.specs.Adding.{AddsValues, current_files, artifact_files};

use crate::append::append;
use crate::fault::PrepareFault;
use crate::groups::name;
use artifact_meta::HeaderInfo;
use device_model::{Device, Part};
use provides_map::Provides;
use script_names::Site;
use upd_text::Name;

/// The value that is held for a key, or nothing.
fn held_value<'a>(held: &'a Provides, key: &Name) -> &'a [u8]
    ensures { result.now ≡ or_nothing (get held.now key.now) }
{
    match held.get(key) {
        Some(value) => value.bytes(),
        None => &[],
    }
}

fn text_of(name: &Option<Name>) -> &[u8]
    ensures { result.now ≡ or_nothing name.now }
{
    match name {
        Some(name) => name.bytes(),
        None => &[],
    }
}

/// A file with these bytes, in the folder of payload k.
pub(crate) fn put_value<D: Device>(
    device: &mut D,
    k: u8,
    path: &[u8],
    bytes: &[u8],
) -> Result<(), PrepareFault>
    requires ready { IsReady (D.means device.old) }
    requires path { IsName path.now }
    ensures plan { D.plan device.new ≡ D.plan device.old }
    ensures touches { Touches (prepare_how result) (D.means device.old) (D.means device.new) }
    ensures ready { OnOk result (IsReady (D.means device.new)) }
    ensures cause { IfErr result IsOfDevice }
    ensures done { OnOk result (D.means device.new ≡ after_work (with_bytes (Tree k) path.now bytes.now) (D.means device.old)) }
{
    let path = name(path);
    append(device, Part::Tree(k), &path, bytes)
}

/// What the device is and holds.
#[tactic(auto, using(crate::proofs::Steps::touches_then), unfolding(upd_text::specs::Text::name_of))]
pub(crate) fn put_current<D: Device>(
    device: &mut D,
    k: u8,
    site: &Site,
    held: &Provides,
) -> Result<(), PrepareFault>
    requires { IsReady (D.means device.old) }
    ensures plan { D.plan device.new ≡ D.plan device.old }
    ensures touches { Touches (prepare_how result) (D.means device.old) (D.means device.new) }
    ensures ready { OnOk result (IsReady (D.means device.new)) }
    ensures cause { IfErr result IsOfDevice }
    ensures done { OnOk result (AddsValues (current_files k site.now held.now) (D.means device.old) (D.means device.new)) }
{
    let artifact_name = name(b"artifact_name");
    let artifact_group = name(b"artifact_group");
    put_value(device, k, b"version", b"3")?;
    put_value(
        device,
        k,
        b"current_artifact_name",
        held_value(held, &artifact_name),
    )?;
    put_value(
        device,
        k,
        b"current_artifact_group",
        held_value(held, &artifact_group),
    )?;
    put_value(device, k, b"current_device_type", site.device_type.bytes())?;
    Ok(())
}

/// What the artifact is, and its payload of this type.
#[tactic(auto, using(crate::proofs::Steps::touches_then), unfolding(upd_text::specs::Text::name_of))]
pub(crate) fn put_artifact<D: Device>(
    device: &mut D,
    k: u8,
    header: &HeaderInfo,
    kind: &Name,
) -> Result<(), PrepareFault>
    requires { IsReady (D.means device.old) }
    ensures plan { D.plan device.new ≡ D.plan device.old }
    ensures touches { Touches (prepare_how result) (D.means device.old) (D.means device.new) }
    ensures ready { OnOk result (IsReady (D.means device.new)) }
    ensures cause { IfErr result IsOfDevice }
    ensures done { OnOk result (AddsValues (artifact_files k header.now kind.now) (D.means device.old) (D.means device.new)) }
{
    put_value(device, k, b"header/artifact_name", header.name.bytes())?;
    put_value(device, k, b"header/artifact_group", text_of(&header.group))?;
    put_value(device, k, b"header/payload_type", kind.bytes())?;
    Ok(())
}

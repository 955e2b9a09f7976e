//! The folder of each payload, but for the payload's own files.

ghost use Rattle.std.specs.Prelude.{◌≡◌, ◌<◌, length, IfErr, OnOk};
ghost use Rattle.artifact_meta.specs.declared.kinds.TheConstants.{MOST_PAYLOADS};
ghost use Rattle.admit.specs.IsOf.{IsOf};
ghost use Rattle.admit.specs.Differing.{listed_of};
ghost use Rattle.admit.specs.Places.{spelled};
ghost use Rattle.admit.specs.declared.place.TreePlace.TheVariants.{TypeInfo, MetaData};
ghost use Rattle.work_folder.specs.Rows.{header_rows, payload_rows, payloads_rows, header_lines, headers_lines};
ghost use Rattle.work_folder.specs.Prepare.{IsReady, Touches, CopiesAll, CopiesSome, prepare_how, source_after};
ghost use Rattle.work_folder.specs.Adding.{Adds};

use crate::fault::PrepareFault;
use crate::header::put_header;
use crate::names::put_names;
use crate::values::{put_artifact, put_current};
use admit::Admitted;
use device_model::Device;
use io_model::Source;
use provides_map::Provides;
use script_names::Site;
use upd_text::Name;

/// Where the digit of the payload's number stands in a path below `header/headers/`.
const DIGIT: usize = 18;

/// The path of the type-info of payload k.
fn info_path(k: u8) -> [u8; 29]
    requires { k < MOST_PAYLOADS }
    ensures { result ≡ spelled (TypeInfo k) }
{
    let mut path = *b"header/headers/0000/type-info";
    path[DIGIT] = b'0' + k;
    path
}

/// The path of the meta-data of payload k.
fn meta_path(k: u8) -> [u8; 29]
    requires { k < MOST_PAYLOADS }
    ensures { result ≡ spelled (MetaData k) }
{
    let mut path = *b"header/headers/0000/meta-data";
    path[DIGIT] = b'0' + k;
    path
}

/// The files of the header of payload k that are copied, and the list of the payload's files.
#[tactic(auto, using(crate::proofs::Steps::touches_then), unfolding(upd_text::specs::Text::name_of))]
fn put_headers<D: Device, S: Source>(
    device: &mut D,
    source: &mut S,
    admitted: &Admitted,
    k: u8,
    buffer: &mut [u8],
) -> Result<(), PrepareFault>
    requires ready { IsReady (D.means device.old) }
    requires of_source { IsOf (S.content source.old) admitted.now }
    requires payload { k < MOST_PAYLOADS }
    requires some { 0 < length buffer.old }
    ensures plan { D.plan device.new ≡ D.plan device.old }
    ensures source_plan { S.plan source.new ≡ S.plan source.old }
    ensures same { S.content source.new ≡ S.content source.old }
    ensures counts { S.faults source.new ≡ source_after result (S.faults source.old) }
    ensures touches { Touches (prepare_how result) (D.means device.old) (D.means device.new) }
    ensures ready { OnOk result (IsReady (D.means device.new)) }
    ensures copied { OnOk result (CopiesAll (S.content source.old) (header_lines k (listed_of admitted.now)) (S.given source.old) (S.given source.new)) }
    ensures stopped { IfErr result (λ fault. CopiesSome (S.content source.old) (header_lines k (listed_of admitted.now)) fault (S.given source.old) (S.given source.new)) }
    ensures done { OnOk result (Adds (S.content source.old) (header_rows admitted.now k) (D.means device.old) (D.means device.new)) }
{
    let lines = admitted.manifest.lines();
    let numbers = admitted.numbers.as_slice();
    match put_header(
        device,
        source,
        lines,
        numbers,
        k,
        b"header/header-info",
        b"header/header-info",
        buffer,
    ) {
        Ok(()) => {}
        Err(fault) => return Err(fault),
    }
    match put_names(device, k, lines) {
        Ok(()) => {}
        Err(fault) => return Err(fault),
    }
    match put_header(
        device,
        source,
        lines,
        numbers,
        k,
        b"header/type-info",
        &info_path(k),
        buffer,
    ) {
        Ok(()) => {}
        Err(fault) => return Err(fault),
    }
    match put_header(
        device,
        source,
        lines,
        numbers,
        k,
        b"header/meta-data",
        &meta_path(k),
        buffer,
    ) {
        Ok(()) => {}
        Err(fault) => return Err(fault),
    }
    Ok(())
}

/// The folder of payload k, which has this type.
#[tactic(auto, using(crate::proofs::Steps::touches_then))]
fn put_payload<D: Device, S: Source>(
    device: &mut D,
    source: &mut S,
    admitted: &Admitted,
    site: &Site,
    current: &Provides,
    k: u8,
    kind: &Name,
    buffer: &mut [u8],
) -> Result<(), PrepareFault>
    requires ready { IsReady (D.means device.old) }
    requires of_source { IsOf (S.content source.old) admitted.now }
    requires payload { k < MOST_PAYLOADS }
    requires some { 0 < length buffer.old }
    ensures plan { D.plan device.new ≡ D.plan device.old }
    ensures source_plan { S.plan source.new ≡ S.plan source.old }
    ensures same { S.content source.new ≡ S.content source.old }
    ensures counts { S.faults source.new ≡ source_after result (S.faults source.old) }
    ensures touches { Touches (prepare_how result) (D.means device.old) (D.means device.new) }
    ensures ready { OnOk result (IsReady (D.means device.new)) }
    ensures copied { OnOk result (CopiesAll (S.content source.old) (header_lines k (listed_of admitted.now)) (S.given source.old) (S.given source.new)) }
    ensures stopped { IfErr result (λ fault. CopiesSome (S.content source.old) (header_lines k (listed_of admitted.now)) fault (S.given source.old) (S.given source.new)) }
    ensures done { OnOk result (Adds (S.content source.old) (payload_rows site.now current.now admitted.now k kind.now) (D.means device.old) (D.means device.new)) }
{
    match put_current(device, k, site, current) {
        Ok(()) => {}
        Err(fault) => return Err(fault),
    }
    match put_artifact(device, k, &admitted.header, kind) {
        Ok(()) => {}
        Err(fault) => return Err(fault),
    }
    match put_headers(device, source, admitted, k, buffer) {
        Ok(()) => Ok(()),
        Err(fault) => Err(fault),
    }
}

/// The folders of all payloads.
#[tactic(auto, using(crate::proofs::Touched::touches_nothing, crate::proofs::Steps::touches_then))]
pub(crate) fn put_payloads<D: Device, S: Source>(
    device: &mut D,
    source: &mut S,
    admitted: &Admitted,
    site: &Site,
    current: &Provides,
    buffer: &mut [u8],
) -> Result<(), PrepareFault>
    requires ready { IsReady (D.means device.old) }
    requires of_source { IsOf (S.content source.old) admitted.now }
    requires some { 0 < length buffer.old }
    ensures plan { D.plan device.new ≡ D.plan device.old }
    ensures source_plan { S.plan source.new ≡ S.plan source.old }
    ensures same { S.content source.new ≡ S.content source.old }
    ensures counts { S.faults source.new ≡ source_after result (S.faults source.old) }
    ensures touches { Touches (prepare_how result) (D.means device.old) (D.means device.new) }
    ensures ready { OnOk result (IsReady (D.means device.new)) }
    ensures copied { OnOk result (CopiesAll (S.content source.old) (headers_lines 0 (length admitted.now.header.kinds) (listed_of admitted.now)) (S.given source.old) (S.given source.new)) }
    ensures stopped { IfErr result (λ fault. CopiesSome (S.content source.old) (headers_lines 0 (length admitted.now.header.kinds) (listed_of admitted.now)) fault (S.given source.old) (S.given source.new)) }
    ensures done { OnOk result (Adds (S.content source.old) (payloads_rows site.now current.now admitted.now 0 admitted.now.header.kinds) (D.means device.old) (D.means device.new)) }
{
    let kinds = admitted.header.kinds.as_slice();
    for (k, kind) in kinds.iter().enumerate() {
        match put_payload(
            device, source, admitted, site, current, k as u8, kind, buffer,
        ) {
            Ok(()) => {}
            Err(fault) => return Err(fault),
        }
    }
    Ok(())
}

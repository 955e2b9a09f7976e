//! The files that are copied.

ghost use Rattle.std.specs.Prelude.{◌≡◌, ◌<◌, ◌∷◌, [], None, Some, length, find, IfErr, IfSome, MatchOption, OnOk};
ghost use Rattle.std.specs.List.{All, cons_option, filter_map, zip};
ghost use Rattle.std.specs.Str.{bytes_eq};
ghost use Rattle.io_model.specs.Source.{count_of};
ghost use Rattle.upd_text.specs.Text.{IsName};
ghost use Rattle.work_folder.specs.Rows.{header_row, row_in, line_with, group_lines};
ghost use Rattle.work_folder.specs.Prepare.{IsReady, Touches, CopiesAll, CopiesSome, prepare_how, source_after};
ghost use Rattle.work_folder.specs.Adding.{Adds};

use crate::append::append;
use crate::copy::copy_line;
use crate::fault::PrepareFault;
use crate::groups::{Group, name, target_of};
use device_model::{Device, Part};
use io_model::Source;
use manifest_sums::Line;

/// The line of a path, and the index of its file.
fn find_line<'a>(lines: &'a [Line], numbers: &[u32], path: &[u8]) -> Option<(&'a Line, u32)>
    requires { length numbers.now ≡ length lines.now }
    ensures found { MatchOption result (find (λ l. bytes_eq l.0.path path.now) (zip lines.now numbers.now) ≡ None) (λ r. find (λ l. bytes_eq l.0.path path.now) (zip lines.now numbers.now) ≡ Some (r.0.now, r.1)) }
{
    for (i, line) in lines.iter().enumerate() {
        if line.path.bytes() == path {
            return Some((line, numbers[i]));
        }
    }
    None
}

/// In the folder of payload k a copy of the file with that path, or an empty file where no line
/// has it.
pub(crate) fn put_header<D: Device, S: Source>(
    device: &mut D,
    source: &mut S,
    lines: &[Line],
    numbers: &[u32],
    k: u8,
    path: &[u8],
    from: &[u8],
    buffer: &mut [u8],
) -> Result<(), PrepareFault>
    requires ready { IsReady (D.means device.old) }
    requires count { length numbers.now ≡ length lines.now }
    requires files { All (λ n. n < count_of (S.content source.old)) numbers.now }
    requires path { IsName path.now }
    requires some { 0 < length buffer.old }
    ensures plan { D.plan device.new ≡ D.plan device.old }
    ensures source_plan { S.plan source.new ≡ S.plan source.old }
    ensures same { S.content source.new ≡ S.content source.old }
    ensures counts { S.faults source.new ≡ source_after result (S.faults source.old) }
    ensures touches { Touches (prepare_how result) (D.means device.old) (D.means device.new) }
    ensures ready { OnOk result (IsReady (D.means device.new)) }
    ensures copied { OnOk result (CopiesAll (S.content source.old) (line_with from.now (zip lines.now numbers.now)) (S.given source.old) (S.given source.new)) }
    ensures stopped { IfErr result (λ fault. CopiesSome (S.content source.old) (line_with from.now (zip lines.now numbers.now)) fault (S.given source.old) (S.given source.new)) }
    ensures done { OnOk result (Adds (S.content source.old) (header_row k path.now from.now (zip lines.now numbers.now) ∷ []) (D.means device.old) (D.means device.new)) }
{
    let path = name(path);
    match find_line(lines, numbers, from) {
        Some((line, n)) => match copy_line(device, source, Part::Tree(k), &path, line, n, buffer) {
            Ok(()) => Ok(()),
            Err(fault) => Err(fault),
        },
        None => match append(device, Part::Tree(k), &path, &[]) {
            Ok(()) => Ok(()),
            Err(fault) => Err(fault),
        },
    }
}

/// Copies the file of a line, if it is of the group.
#[tactic(auto, using(crate::proofs::Touched::touches_nothing))]
fn put_in_group<D: Device, S: Source>(
    device: &mut D,
    source: &mut S,
    line: &Line,
    n: u32,
    group: Group,
    buffer: &mut [u8],
) -> Result<(), PrepareFault>
    requires ready { IsReady (D.means device.old) }
    requires file { n < count_of (S.content source.old) }
    requires some { 0 < length buffer.old }
    ensures plan { D.plan device.new ≡ D.plan device.old }
    ensures source_plan { S.plan source.new ≡ S.plan source.old }
    ensures same { S.content source.new ≡ S.content source.old }
    ensures counts { S.faults source.new ≡ source_after result (S.faults source.old) }
    ensures touches { Touches (prepare_how result) (D.means device.old) (D.means device.new) }
    ensures ready { OnOk result (IsReady (D.means device.new)) }
    ensures copied { OnOk result (CopiesAll (S.content source.old) (group_lines group ((line.now, n) ∷ [])) (S.given source.old) (S.given source.new)) }
    ensures stopped { IfErr result (λ fault. CopiesSome (S.content source.old) (group_lines group ((line.now, n) ∷ [])) fault (S.given source.old) (S.given source.new)) }
    ensures done { OnOk result (Adds (S.content source.old) (cons_option (row_in group (line.now, n)) []) (D.means device.old) (D.means device.new)) }
{
    match target_of(group, &line.path) {
        Some((part, path)) => match copy_line(device, source, part, &path, line, n, buffer) {
            Ok(()) => Ok(()),
            Err(fault) => Err(fault),
        },
        None => Ok(()),
    }
}

/// Copies the files of the group.
#[tactic(auto, using(crate::proofs::Touched::touches_nothing, crate::proofs::Steps::touches_then))]
pub(crate) fn put_group<D: Device, S: Source>(
    device: &mut D,
    source: &mut S,
    lines: &[Line],
    numbers: &[u32],
    group: Group,
    buffer: &mut [u8],
) -> Result<(), PrepareFault>
    requires ready { IsReady (D.means device.old) }
    requires count { length numbers.now ≡ length lines.now }
    requires files { All (λ n. n < count_of (S.content source.old)) numbers.now }
    requires some { 0 < length buffer.old }
    ensures plan { D.plan device.new ≡ D.plan device.old }
    ensures source_plan { S.plan source.new ≡ S.plan source.old }
    ensures same { S.content source.new ≡ S.content source.old }
    ensures counts { S.faults source.new ≡ source_after result (S.faults source.old) }
    ensures touches { Touches (prepare_how result) (D.means device.old) (D.means device.new) }
    ensures ready { OnOk result (IsReady (D.means device.new)) }
    ensures copied { OnOk result (CopiesAll (S.content source.old) (group_lines group (zip lines.now numbers.now)) (S.given source.old) (S.given source.new)) }
    ensures stopped { IfErr result (λ fault. CopiesSome (S.content source.old) (group_lines group (zip lines.now numbers.now)) fault (S.given source.old) (S.given source.new)) }
    ensures done { OnOk result (Adds (S.content source.old) (filter_map (row_in group) (zip lines.now numbers.now)) (D.means device.old) (D.means device.new)) }
{
    for (i, line) in lines.iter().enumerate() {
        match put_in_group(device, source, line, numbers[i], group, buffer) {
            Ok(()) => {}
            Err(fault) => return Err(fault),
        }
    }
    Ok(())
}

//! The files of a tree.

ghost use Rattle.std.specs.Prelude.{◌≡◌, ◌≤◌, ◌<◌, ◌^◌, ◌++◌, ◌∷◌, [], List, ℕ, length, map, drop, None, Ok, IfOk, OnOk};
ghost use Rattle.std.specs.Option.{unwrap_or, option_map};
ghost use Rattle.std.specs.List.{All, filter_map};
ghost use Rattle.admit.specs.Places.{is_header, spelled};
ghost use Rattle.admit.specs.Table.{heads_of, least, lesser, long_path};
ghost use Rattle.admit.specs.declared.place.TreePlace.TheVariants.{Payload, Script, TypeInfo, HeaderInfo};
ghost use Rattle.upd_text.specs.Results.{Gives};
ghost use Rattle.tree_writer.specs.declared.fault.WriteFault.TheVariants.{NoMemory};
ghost use Rattle.tree_writer.specs.Faults.{unless, first_of, spec_causes, written_tree, first_stale, test_of, bad_file, too_long, least_of};
ghost use Rattle.tree_writer.specs.Files.{as_file, payload_entries, data_entries, info_entries, script_entries, front_entries, tree_of};
ghost use Rattle.tree_writer.specs.Plan.{IsAdmitted};
ghost use Rattle.tree_writer.specs.Texts.{header_text, info_text};
ghost use Rattle.tree_writer.specs.declared.checks.Names.TheVariants.{Files, Scripts};

use crate::checks::check;
use crate::fault::WriteFault;
use crate::known::known;
use crate::order::{in_order, name_of};
use crate::spec::{PayloadSpec, TreeSpec};
use crate::texts::{VERSION, header_text, info_text, manifest_text};
use admit::{TreePlace, place_of};
use io_model::{FileList, Line, TreeFile};
use std::alloc::Global;
use upd_text::{Name, NoMemory as OutOfMemory};

// ---- payloads and scripts

#[tactic(auto, using(crate::proofs::Paths::paths))]
fn push_payload_file(tree: &mut FileList, k: u8, file: &TreeFile) -> Result<(), OutOfMemory>
    requires few { k < 8 }
    requires short { length (unwrap_or file.now.0 []) ≤ 118 }
    ensures { OnOk result (tree.new ≡ tree.old ++ as_file (Payload k (unwrap_or file.now.0 []), file.now.1) ∷ []) }
{
    let mut path = Line::new();
    path.add(b"data/000");
    path.add([b'0' + k].as_slice());
    path.add(b"/");
    path.add(name_of(file));
    tree.push(path.bytes(), file.bytes())
}

fn push_payload_files(
    tree: &mut FileList,
    alloc: Global,
    k: u8,
    files: &FileList,
) -> Result<(), OutOfMemory>
    requires few { k < 8 }
    requires fresh { first_stale (test_of Files) [] files.now ≡ None }
    ensures { OnOk result (tree.new ≡ tree.old ++ map as_file (payload_entries k files.now)) }
{
    let order = in_order(alloc, files)?;
    for i in order.as_slice() {
        push_payload_file(tree, k, files.at(*i))?;
    }
    Ok(())
}

fn push_payloads(
    tree: &mut FileList,
    alloc: Global,
    payloads: &[PayloadSpec],
) -> Result<(), OutOfMemory>
    requires few { length payloads.now ≤ 8 }
    requires fresh { bad_file 0 payloads.now ≡ None }
    ensures { OnOk result (tree.new ≡ tree.old ++ map as_file (data_entries 0 payloads.now)) }
{
    for (k, payload) in payloads.iter().enumerate() {
        push_payload_files(tree, alloc, k as u8, &payload.files)?;
    }
    Ok(())
}

#[tactic(auto, using(crate::proofs::Paths::paths))]
fn push_script(tree: &mut FileList, file: &TreeFile) -> Result<(), OutOfMemory>
    requires { length (unwrap_or file.now.0 []) ≤ 113 }
    ensures { OnOk result (tree.new ≡ tree.old ++ as_file (Script (unwrap_or file.now.0 []), file.now.1) ∷ []) }
{
    let mut path = Line::new();
    path.add(b"header/scripts/");
    path.add(name_of(file));
    tree.push(path.bytes(), file.bytes())
}

fn push_scripts(tree: &mut FileList, alloc: Global, scripts: &FileList) -> Result<(), OutOfMemory>
    requires { first_stale (test_of Scripts) [] scripts.now ≡ None }
    ensures { OnOk result (tree.new ≡ tree.old ++ map as_file (script_entries scripts.now)) }
{
    let order = in_order(alloc, scripts)?;
    for i in order.as_slice() {
        push_script(tree, scripts.at(*i))?;
    }
    Ok(())
}

// ---- type-infos

#[tactic(auto, using(crate::proofs::Paths::paths))]
fn push_info(
    tree: &mut FileList,
    alloc: Global,
    k: u8,
    payload: &PayloadSpec,
) -> Result<(), OutOfMemory>
    requires { k < 8 }
    ensures { OnOk result (tree.new ≡ tree.old ++ as_file (TypeInfo k, info_text payload.now) ∷ []) }
{
    let mut path = Line::new();
    path.add(b"header/headers/000");
    path.add([b'0' + k].as_slice());
    path.add(b"/type-info");
    let text = info_text(alloc, payload)?;
    tree.push(path.bytes(), text.as_slice())
}

fn push_infos(
    tree: &mut FileList,
    alloc: Global,
    payloads: &[PayloadSpec],
) -> Result<(), OutOfMemory>
    requires { length payloads.now ≤ 8 }
    ensures { OnOk result (tree.new ≡ tree.old ++ map as_file (info_entries 0 payloads.now)) }
{
    for (k, payload) in payloads.iter().enumerate() {
        push_info(tree, alloc, k as u8, payload)?;
    }
    Ok(())
}

// ---- the tree

// All that comes before the manifest.
#[tactic(auto, using(crate::proofs::Paths::paths))]
fn front(alloc: Global, spec: &TreeSpec) -> Result<FileList, OutOfMemory>
    requires few { length spec.now.payloads ≤ 8 }
    requires files { bad_file 0 spec.now.payloads ≡ None }
    requires scripts { first_stale (test_of Scripts) [] spec.now.scripts ≡ None }
    ensures { IfOk result (λ tree. tree ≡ map as_file (front_entries spec.now)) }
{
    let payloads = spec.payloads.as_slice();
    let mut tree = FileList::new(alloc);
    push_payloads(&mut tree, alloc, payloads)?;
    let text = header_text(alloc, spec)?;
    tree.push(b"header/header-info", text.as_slice())?;
    push_infos(&mut tree, alloc, payloads)?;
    push_scripts(&mut tree, alloc, &spec.scripts)?;
    Ok(tree)
}

#[tactic(auto, using(crate::proofs::Paths::paths), unfolding(crate::specs::Files::tree_of))]
fn tree(alloc: Global, spec: &TreeSpec) -> Result<FileList, OutOfMemory>
    requires few { length spec.now.payloads ≤ 8 }
    requires files { bad_file 0 spec.now.payloads ≡ None }
    requires scripts { first_stale (test_of Scripts) [] spec.now.scripts ≡ None }
    ensures { IfOk result (λ tree. tree ≡ tree_of spec.now) }
{
    let mut tree = front(alloc, spec)?;
    let manifest = manifest_text(alloc, &tree)?;
    tree.push(b"manifest", manifest.as_slice())?;
    tree.push(b"version", VERSION)?;
    Ok(tree)
}

// ---- the lengths

// Whether it is a file that is read whole.
fn is_header(place: &TreePlace) -> bool
    ensures { result ≡ is_header place.now }
{
    match place {
        TreePlace::Signature | TreePlace::Payload(..) => false,
        TreePlace::Augmented | TreePlace::Other => false,
        _ => true,
    }
}

// The path, where the file is to be read whole and is too long for it.
fn long_path(file: &TreeFile) -> Option<Name>
    ensures { result ≡ long_path file.now.0 (length file.now.1) }
{
    match file.path() {
        Some(path) => {
            if 65_536 < file.bytes().len() && is_header(&place_of(path)) {
                Some(path.twin())
            } else {
                None
            }
        }
        None => None,
    }
}

fn lesser(least: Option<Name>, path: Name) -> Name
    ensures { lesser least path ≡ Some result }
{
    match least {
        None => path,
        Some(least) => {
            if path.cmp(&least).is_lt() {
                path
            } else {
                least
            }
        }
    }
}

// The lesser one, where there is another.
fn least_of(least: Option<Name>, path: Option<Name>) -> Option<Name>
    ensures { result ≡ least_of least path }
{
    match path {
        Some(path) => Some(lesser(least, path)),
        None => least,
    }
}

fn check_lengths(tree: &FileList) -> Result<(), WriteFault>
    ensures { result ≡ unless (too_long tree.now) }
{
    let mut least = None;
    for i in 0..tree.len() {
        least = least_of(least, long_path(tree.at(i)));
    }
    match least {
        Some(path) => Err(WriteFault::HeaderTooLong(path)),
        None => Ok(()),
    }
}

/// The files of the tree that says what the spec says, in byte order of their paths: `manifest`,
/// `version`, `header/header-info`, a type-info for each payload, the payloads' files and the
/// scripts, or the first fault in the order of [`WriteFault`].
#[tactic(auto, unfolding(crate::specs::Faults::written_tree))]
pub fn write_tree(alloc: Global, spec: &TreeSpec) -> Result<FileList, WriteFault>
    ensures exact { Gives NoMemory (λ tree. tree) result (written_tree spec.now) }
    ensures admitted { IfOk result (λ _. IsAdmitted spec.now) }
{
    known(spec);
    check(spec)?;
    let tree = tree(alloc, spec)?;
    match check_lengths(&tree) {
        Ok(()) => Ok(tree),
        Err(fault) => Err(fault),
    }
}

//! A tree from words and the files of a source.

ghost use Rattle.std.specs.Prelude.{◌≡◌, ◌-◌, ◌+◌, ◌^◌, ◌<◌, ◌≤◌, ◌∷◌, ◌++◌, [], length, map, min, string_bytes, Ok, IfOk, IfErr, OnOk, Some, true, is_some};
ghost use Rattle.std.specs.Option.{unwrap_or};
ghost use Rattle.std.specs.List.{All};
ghost use Rattle.io_model.specs.Source.{Counts, When, Tree, count_of, path_at, bytes_at};
ghost use Rattle.tree_writer.specs.Sink.{Takes, TakesEach};
ghost use Rattle.tree_writer.specs.Words.{spoken, spec_of};
ghost use Rattle.tree_writer.specs.Made.{CountsEarly, Gives, Stopped, size_of, asked_for, meant, Heeds, Makes, Admits, LeavesTree, faults_after};

use crate::answer::{Made, made_of};
use crate::early::Early;
use crate::fault::WriteFault;
use crate::sink::{TreeFault, TreeSink};
use crate::spec::{PayloadList, PayloadSpec, TreeSpec};
use crate::words::{Spoken, WordFault, read_words};
use crate::write::write_tree;
use io_model::{FileList, Source, SourceFault, TreeFile, fill};
use provides_map::{ValueList, WantList};
use std::alloc::{AllocError, Global};
use upd_text::{Name, NoMemory};

/// How many bytes the files may have together.
const MOST_BYTES: u64 = 268_435_456;

// ---- the files of the source

// How many bytes the files have together, or 2^64 - 1 where that is less.
fn total<S: Source>(source: &mut S) -> Result<u64, SourceFault>
    ensures same { S.content source.new ≡ S.content source.old }
    ensures plan { S.plan source.new ≡ S.plan source.old }
    ensures counts { Counts (S.faults source.old) result (S.faults source.new) }
    ensures size { IfOk result (λ n. When (S.content source.old) (λ t. n ≡ min (size_of t) (2 ^ 64 - 1))) }
{
    let mut size: u64 = 0;
    for i in 0..source.files() {
        let length = source.length(i)?;
        size = size.saturating_add(length);
    }
    Ok(size)
}

fn zeros(alloc: Global, count: usize) -> Result<Vec<u8>, AllocError>
    ensures { IfOk result (λ z. length z.items ≡ count) }
{
    vec![in alloc; 0; count]
}

fn push_file(files: &mut FileList, path: &Option<Name>, bytes: &[u8]) -> Result<(), NoMemory>
    requires { length bytes.now < 2 ^ 60 }
    ensures { OnOk result (files.new ≡ files.old ++ (path.now, bytes.now) ∷ []) }
{
    match path {
        Some(path) => files.push(path.bytes(), bytes),
        None => files.push(&[], bytes),
    }
}

// One more file, behind those that were read.
fn read_file<S: Source>(
    alloc: Global,
    source: &mut S,
    i: u32,
    files: &mut FileList,
) -> Result<(), Early>
    requires { i < count_of (S.content source.old) }
    ensures same { S.content source.new ≡ S.content source.old }
    ensures plan { S.plan source.new ≡ S.plan source.old }
    ensures counts { CountsEarly (S.faults source.old) result (S.faults source.new) }
    ensures stopped { IfErr result Stopped }
    ensures file { OnOk result (When (S.content source.old) (λ t. files.new ≡ files.old ++ (path_at t i, bytes_at t i) ∷ [])) }
{
    let path = source.path(i)?;
    let length = source.length(i)?;
    let mut bytes = zeros(alloc, length as usize)?;
    fill(source, i, bytes.as_mut_slice())?;
    push_file(files, &path, bytes.as_slice())?;
    Ok(())
}

fn read_files<S: Source>(alloc: Global, source: &mut S) -> Result<FileList, Early>
    ensures same { S.content source.new ≡ S.content source.old }
    ensures plan { S.plan source.new ≡ S.plan source.old }
    ensures counts { CountsEarly (S.faults source.old) result (S.faults source.new) }
    ensures stopped { IfErr result Stopped }
    ensures files { IfOk result (λ files. When (S.content source.old) (λ t. files ≡ t)) }
{
    let mut files = FileList::new(alloc);
    for i in 0..source.files() {
        read_file(alloc, source, i, &mut files)?;
    }
    Ok(files)
}

// ---- the spec

fn spec_from(alloc: Global, said: Spoken, files: FileList) -> Result<TreeSpec, NoMemory>
    ensures { IfOk result (λ spec. spec ≡ spec_of said files) }
{
    let mut device_types = ValueList::new(alloc);
    device_types.push(said.device)?;
    let mut payloads = PayloadList::new(alloc);
    payloads.push(PayloadSpec {
        kind: said.kind,
        provides: said.provides,
        wants: WantList::new(alloc),
        clears: said.clears,
        files,
    })?;
    Ok(TreeSpec {
        name: said.name,
        group: None,
        device_types,
        needs_names: ValueList::new(alloc),
        needs_groups: ValueList::new(alloc),
        payloads,
        scripts: FileList::new(alloc),
    })
}

// What is asked for by what the words say, and by the files.
fn ask<S: Source>(alloc: Global, said: Spoken, source: &mut S) -> Result<TreeSpec, Early>
    ensures same { S.content source.new ≡ S.content source.old }
    ensures plan { S.plan source.new ≡ S.plan source.old }
    ensures counts { CountsEarly (S.faults source.old) result (S.faults source.new) }
    ensures asks { When (S.content source.old) (λ t. Gives result (asked_for said t)) }
{
    let size = total(source)?;
    if MOST_BYTES < size {
        return Err(Early::TooLong(size));
    }
    let files = read_files(alloc, source)?;
    let spec = spec_from(alloc, said, files)?;
    Ok(spec)
}

// ---- the files of the tree

fn add_file<T: TreeSink>(tree: &mut T, file: &TreeFile) -> Result<(), TreeFault>
    requires { is_some file.now.0 ≡ true }
    ensures { Takes (T.means tree.old) (unwrap_or file.now.0 []) file.now.1 result (T.means tree.new) }
{
    match file.path() {
        Some(path) => tree.add(path, file.bytes()),
        None => unreachable!(),
    }
}

fn add_files<T: TreeSink>(tree: &mut T, files: &FileList) -> Result<(), TreeFault>
    requires { All (λ file. is_some file.0 ≡ true) files.now }
    ensures { TakesEach (T.means tree.old) files.now result (T.means tree.new) }
{
    for i in 0..files.len() {
        match add_file(tree, files.at(i)) {
            Ok(()) => {}
            Err(fault) => return Err(fault),
        }
    }
    Ok(())
}

/// The words are NAME, DEVICE, KIND, CLEARS (one pattern, or `-` for all) and any number of KEY=VALUE,
/// each split at its first `=`. The source's files are those of the one payload. StandBehind the files of
/// the tree that says so, in byte order of their paths.
pub fn make<S: Source, T: TreeSink>(
    alloc: Global,
    words: &[String],
    source: &mut S,
    tree: &mut T,
) -> Made
    ensures same { S.content source.new ≡ S.content source.old }
    ensures plan { S.plan source.new ≡ S.plan source.old }
    ensures counts { S.faults source.new ≡ faults_after result (S.faults source.old) }
    ensures leaves { LeavesTree result (T.means tree.old) (T.means tree.new) }
    ensures words { Heeds result (spoken (map string_bytes words.now)) }
    ensures told { When (S.content source.old) (λ t. Makes result (meant (map string_bytes words.now) t) (T.means tree.old) (T.means tree.new)) }
    ensures admitted { When (S.content source.old) (λ t. Admits result (spoken (map string_bytes words.now)) t) }
{
    let said = match read_words(alloc, words) {
        Ok(said) => said,
        Err(WordFault::Usage(i)) => return Made::Usage(i),
        Err(WordFault::NoMemory) => return Made::NoMemory,
    };
    let spec = match ask(alloc, said, source) {
        Ok(spec) => spec,
        Err(early) => return made_of(early),
    };
    let files = match write_tree(alloc, &spec) {
        Ok(files) => files,
        Err(WriteFault::NoMemory) => return Made::NoMemory,
        Err(fault) => return Made::Fault(fault),
    };
    match add_files(tree, &files) {
        Ok(()) => Made::Made,
        Err(_) => Made::TreeFault,
    }
}

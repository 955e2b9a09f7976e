//! The scripts that the artifact brings.

ghost use Rattle.std.specs.Prelude.{◌≡◌, ◌≤◌, ◌<◌, ◌^◌, ◌&&◌, None, Some, length, All, IsSome, IfSome, IfOk, IfErr, OnOk, OnErr};
ghost use Rattle.std.specs.Option.{option_copied, is_some};
ghost use Rattle.std.specs.BTreeSet.{insert_key};
ghost use Rattle.upd_text.specs.Order.{byte_cmp};
ghost use Rattle.script_names.specs.Scripts.{is_artifact_script};
ghost use Rattle.admit.specs.Answers.{Gives, Own, IsCause};
ghost use Rattle.admit.specs.Admit.{script_name, script_names, bad_script, bad_script_name, too_many_scripts, in_order, scripts_of, with_script};

use crate::refusal::{AdmitFault, Refusal};
use crate::table::{Head, lesser};
use script_names::{AddFault, ScriptList, ScriptName};
use std::alloc::Global;
use upd_text::{Name, NoMemory};

/// The name of a file in the folder of the scripts.
fn script_name(head: &Head) -> Option<&Name>
    ensures { option_copied result ≡ script_name head.now.path }
{
    head.place().script()
}

/// The script of this name that an artifact may bring.
#[tactic(auto, using(crate::proofs::ScriptLemmas::no_script))]
fn script_of(name: &Name) -> Option<ScriptName>
    ensures name { IfSome result (λ script. script ≡ name.now) }
    ensures brought { is_some result ≡ is_artifact_script name.now }
{
    let script = ScriptName::read(name)?;
    if script.is_of_artifact() {
        return Some(script);
    }
    None
}

/// The path of a file in the folder of the scripts that is none of them.
fn bad_script(head: &Head) -> Option<&Name>
    ensures { option_copied result ≡ bad_script head.now.path }
{
    let name = script_name(head)?;
    if script_of(name).is_some() {
        return None;
    }
    head.path()
}

/// The first of these in byte order.
#[tactic(auto, unfolding(crate::specs::Admit::bad_script_name))]
fn bad_script_name(heads: &[Head]) -> Option<Refusal>
    ensures value { result ≡ bad_script_name heads.now }
    ensures cause { IfSome result IsCause }
{
    let mut least = None;
    for head in heads {
        if let Some(path) = bad_script(head) {
            least = Some(lesser(least, path));
        }
    }
    match least {
        Some(path) => Some(Refusal::BadScriptName(path.twin())),
        None => None,
    }
}

fn count_of(heads: &[Head]) -> usize
    ensures value { result ≡ length (script_names heads.now) }
    ensures most { result ≤ length heads.now }
{
    let mut count = 0;
    for head in heads {
        if script_name(head).is_some() {
            count += 1;
        }
    }
    count
}

#[tactic(auto, unfolding(crate::specs::Admit::too_many_scripts))]
fn too_many_scripts(heads: &[Head]) -> Option<Refusal>
    requires { length heads.now < 2 ^ 32 }
    ensures value { result ≡ too_many_scripts heads.now }
    ensures cause { IfSome result IsCause }
{
    let count = count_of(heads);
    if 64 < count {
        return Some(Refusal::TooManyScripts(count as u32));
    }
    None
}

/// Puts a script at its place. One that is there stays.
fn put(scripts: &mut ScriptList, script: ScriptName) -> Result<(), NoMemory>
    requires { length scripts.old < 64 }
    ensures { OnOk result (scripts.new ≡ insert_key byte_cmp scripts.old script) }
{
    let _scripts = scripts.len();
    match scripts.add(script) {
        Ok(()) => Ok(()),
        Err(AddFault::Doubled) => Ok(()),
        Err(_) => Err(NoMemory),
    }
}

/// Puts the script of a file at its place, where it is one.
fn put_script(scripts: &mut ScriptList, head: &Head) -> Result<(), NoMemory>
    requires room { IsSome (script_name head.now.path) → length scripts.old < 64 }
    requires good { bad_script head.now.path ≡ None }
    ensures { OnOk result (scripts.new ≡ with_script scripts.old (script_name head.now.path)) }
{
    let Some(name) = script_name(head) else {
        return Ok(());
    };
    match script_of(name) {
        Some(script) => put(scripts, script),
        None => Ok(()),
    }
}

/// All scripts in byte order.
fn all_scripts(alloc: Global, heads: &[Head]) -> Result<ScriptList, NoMemory>
    requires few { length (script_names heads.now) ≤ 64 }
    requires good { All (λ head. bad_script head.path ≡ None) heads.now }
    ensures { IfOk result (λ scripts. scripts ≡ in_order (script_names heads.now)) }
{
    let mut scripts = ScriptList::new(alloc);
    for head in heads {
        put_script(&mut scripts, head)?;
    }
    Ok(scripts)
}

/// The scripts, or what is wrong with them.
#[tactic(auto, using(crate::proofs::ScriptLemmas::few_scripts, crate::proofs::ScriptLemmas::good_scripts), unfolding(crate::specs::Admit::scripts_of))]
pub(crate) fn read_scripts(alloc: Global, heads: &[Head]) -> Result<ScriptList, AdmitFault>
    requires { length heads.now < 2 ^ 32 }
    ensures value { Gives result (scripts_of heads.now) }
    ensures own { Own result }
{
    if let Some(refusal) = bad_script_name(heads) {
        return Err(AdmitFault::Refused(refusal));
    }
    if let Some(refusal) = too_many_scripts(heads) {
        return Err(AdmitFault::Refused(refusal));
    }
    let scripts = all_scripts(alloc, heads)?;
    Ok(scripts)
}

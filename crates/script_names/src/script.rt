//! One script's name, and lists of them.

ghost use Rattle.std.specs.Prelude.{◌≡◌, ◌≤◌, ◌<◌, ◌+◌, ◌++◌, ◌∷◌, [], length, drop, codes, Option, Some, None, nat_eq, OnOk, OnErr, slice_get, IfSome, MatchOption, IsErrOf, IfOk, IfErr, ◌↔◌, IsTrue};
ghost use Rattle.std.specs.Option.{is_some};
ghost use Rattle.upd_text.specs.Text.{is_digit};
ghost use Rattle.upd_text.specs.Order.{is_below};
ghost use Rattle.script_names.specs.Scripts.{place_of, stages, actions, named, is_end, AreScripts, is_artifact_script, last_script};

mod adding;

use crate::place::{Action, Place, Stage};
pub use adding::AddFault;
use std::alloc::Global;
use std::marker::Model;
use upd_text::{Name, NoMemory, has_slash};

/// A name that says where the script runs.
#[derive(Drop)]
pub struct ScriptName {
    name: Name,
    place: Place,
}

impl Model for ScriptName {
    ghost use Rattle.std.specs.Prelude.{List, ℕ, ◌≡◌, Some};
    ghost use Rattle.script_names.specs.Scripts.{place_of};

    ghost Value = { List ℕ };

    ghost view = { λ s. s.name };

    ghost invariant = { λ s. place_of s.name ≡ Some s.place };
}

fn stage_of(text: &[u8]) -> Option<(Stage, &[u8])>
    ensures { MatchOption result (named stages text.now ≡ None) (λ r. named stages text.now ≡ Some (r.0, r.1.now)) }
{
    if text.starts_with(b"Download_") {
        return Some((Stage::Download, text.split_at(9).1));
    }
    if text.starts_with(b"ArtifactInstall_") {
        return Some((Stage::Install, text.split_at(16).1));
    }
    if text.starts_with(b"ArtifactReboot_") {
        return Some((Stage::Reboot, text.split_at(15).1));
    }
    if text.starts_with(b"ArtifactCommit_") {
        return Some((Stage::Commit, text.split_at(15).1));
    }
    if text.starts_with(b"ArtifactRollback_") {
        return Some((Stage::Rollback, text.split_at(17).1));
    }
    if text.starts_with(b"ArtifactRollbackReboot_") {
        return Some((Stage::RollbackReboot, text.split_at(23).1));
    }
    if text.starts_with(b"ArtifactFailure_") {
        return Some((Stage::Failure, text.split_at(16).1));
    }
    None
}

fn action_of(text: &[u8]) -> Option<(Action, &[u8])>
    ensures { MatchOption result (named actions text.now ≡ None) (λ r. named actions text.now ≡ Some (r.0, r.1.now)) }
{
    if text.starts_with(b"Enter_") {
        return Some((Action::Enter, text.split_at(6).1));
    }
    if text.starts_with(b"Leave_") {
        return Some((Action::Leave, text.split_at(6).1));
    }
    if text.starts_with(b"Error_") {
        return Some((Action::Error, text.split_at(6).1));
    }
    None
}

fn is_digit(b: u8) -> bool
    ensures { result ≡ is_digit b }
{
    48 <= b && b <= 57
}

fn is_end(text: &[u8]) -> bool
    ensures { result ≡ is_end text.now }
{
    match text {
        [] => false,
        [_] => false,
        [a, b] => is_digit(*a) && is_digit(*b),
        [_, _, _] => false,
        [a, b, c, _, ..] => is_digit(*a) && is_digit(*b) && *c == 95,
    }
}

#[tactic(auto, unfolding(crate::specs::Scripts::place_of))]
fn place_of(text: &[u8]) -> Option<Place>
    ensures { result ≡ place_of text.now }
{
    if has_slash(text) {
        return None;
    }
    let (stage, rest) = stage_of(text)?;
    let (action, rest) = action_of(rest)?;
    if !is_end(rest) {
        return None;
    }
    Some(Place { stage, action })
}

impl ScriptName {
    /// None where the name says no place.
    pub fn read(name: &Name) -> Option<ScriptName>
        ensures some { IfSome result (λ s. s ≡ name.now) }
        ensures place { is_some result ≡ is_some (place_of name.now) }
    {
        let place = place_of(name.bytes())?;
        Some(ScriptName {
            name: name.twin(),
            place,
        })
    }

    pub fn name(&self) -> &Name
        ensures { result.now ≡ self.now }
    {
        &self.name
    }

    pub fn place(&self) -> Place
        ensures { place_of self.now ≡ Some result }
    {
        self.place
    }

    /// Whether an artifact may bring it: a script of any stage but Download.
    pub fn is_of_artifact(&self) -> bool
        ensures { result ≡ is_artifact_script self.now }
    {
        !matches!(self.place.stage, Stage::Download)
    }
}

/// Scripts in strictly ascending byte order, at most 64.
#[derive(Drop)]
pub struct ScriptList {
    scripts: Vec<ScriptName>,
}

impl Model for ScriptList {
    ghost use Rattle.std.specs.Prelude.{List, ℕ};
    ghost use Rattle.script_names.specs.Scripts.{AreScripts};

    ghost Value = { List (List ℕ) };

    ghost view = { λ l. l.scripts.items };

    ghost invariant = { λ l. AreScripts l.scripts.items };
}

impl ScriptList {
    pub fn new(alloc: Global) -> ScriptList
        ensures { result ≡ [] }
    {
        ScriptList {
            scripts: Vec::new(alloc),
        }
    }

    pub fn len(&self) -> u32
        ensures value { result ≡ length self.now }
        ensures scripts { AreScripts self.now }
    {
        self.scripts.len() as u32
    }

    pub fn at(&self, i: u32) -> &ScriptName
        requires { i < length self.now }
        ensures { slice_get self.now i ≡ Some result.now }
    {
        &self.scripts[i as usize]
    }

    /// The scripts, in byte order.
    pub fn as_slice(&self) -> &[ScriptName]
        ensures names { result.now ≡ self.now }
        ensures scripts { AreScripts self.now }
    {
        self.scripts.as_slice()
    }

    /// Whether the name is above all names of the list.
    pub fn is_last(&self, name: &Name) -> bool
        ensures { result ≡ is_below (last_script self.now) name.now }
    {
        match self.scripts.last() {
            None => {
                let _name = name.bytes();
                true
            }
            Some(last) => last.name.cmp(name).is_lt(),
        }
    }

    /// Adds a script behind all others. A refusal changes nothing.
    pub fn push_last(&mut self, script: ScriptName) -> Result<(), NoMemory>
        requires room { length self.old < 64 }
        requires above { IsTrue (is_below (last_script self.old) script) }
        ensures ok { OnOk result (self.new ≡ self.old ++ script ∷ []) }
        ensures err { OnErr result (self.new ≡ self.old) }
    {
        let _name = script.name.bytes();
        self.scripts.push(script)?;
        Ok(())
    }
}

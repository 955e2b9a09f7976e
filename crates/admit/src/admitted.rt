//! What an admitted tree says.

ghost use Rattle.std.specs.Prelude.{◌≡◌, ◌++◌, IfOk, OnOk};
ghost use Rattle.std.specs.List.{flat_map};
ghost use Rattle.provides_map.specs.Pairs.{put_all};
ghost use Rattle.admit.specs.Change.{provides_of, clears_of, patterns_of, change_of};

use crate::lines::NumberList;
use artifact_meta::{HeaderInfo, InfoList, TypeInfo};
use manifest_sums::Manifest;
use provides_map::{Change, Clears, Pattern, PatternList, Provides};
use script_names::ScriptList;
use std::alloc::Global;
use upd_text::{Name, NoMemory};

/// What an admitted tree says, and where its files are.
#[derive(Drop)]
pub struct Admitted {
    pub manifest: Manifest,
    /// For each line of the manifest the index of its file in the source.
    pub numbers: NumberList,
    pub header: HeaderInfo,
    /// What the type-infos say, one for each payload in order.
    pub infos: InfoList,
    /// The scripts that it brings, in byte order.
    pub scripts: ScriptList,
}

impl Admitted {
    /// The change that the fields make: the artifact's name and group, what its payloads provide,
    /// a later one over an earlier one, and what they clear. The only error is want of memory.
    pub fn change(&self, alloc: Global) -> Result<Change, NoMemory>
        ensures { IfOk result (λ change. change ≡ change_of self.now) }
    {
        let infos = self.infos.as_slice();
        let provides = provides_of(alloc, infos)?;
        let clears = clears_of(alloc, infos)?;
        Ok(Change {
            name: self.header.name.twin(),
            group: twin_of(&self.header.group),
            provides,
            clears,
        })
    }
}

fn twin_of(name: &Option<Name>) -> Option<Name>
    ensures { result ≡ name.now }
{
    match name {
        Some(name) => Some(name.twin()),
        None => None,
    }
}

fn put_all(all: &mut Provides, provides: &Provides) -> Result<(), NoMemory>
    ensures { OnOk result (all.new ≡ put_all all.old provides.now) }
{
    for i in 0..provides.len() {
        let (key, value) = provides.pair(i);
        all.insert(key.twin(), value.twin())?;
    }
    Ok(())
}

fn provides_of(alloc: Global, infos: &[TypeInfo]) -> Result<Provides, NoMemory>
    ensures { IfOk result (λ provides. provides ≡ provides_of infos.now) }
{
    let mut all = Provides::new(alloc);
    for info in infos {
        put_all(&mut all, &info.provides)?;
    }
    Ok(all)
}

fn push_all(all: &mut PatternList, patterns: &[Pattern]) -> Result<(), NoMemory>
    ensures { OnOk result (all.new ≡ all.old ++ patterns.now) }
{
    for pattern in patterns {
        all.push(Pattern::of(pattern.name().twin()))?;
    }
    Ok(())
}

fn clears_of(alloc: Global, infos: &[TypeInfo]) -> Result<Clears, NoMemory>
    ensures { IfOk result (λ clears. clears ≡ clears_of infos.now) }
{
    let mut all = PatternList::new(alloc);
    for info in infos {
        match &info.clears {
            Clears::All => return Ok(Clears::All),
            Clears::Listed(patterns) => push_all(&mut all, patterns.as_slice())?,
        }
    }
    Ok(Clears::Listed(all))
}

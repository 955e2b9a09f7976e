//! A deployment that begins.

ghost use Rattle.std.specs.Prelude.{MatchOption, ◌≢◌, ◌≡◌, ◌≤◌, ◌<◌, true, false, Ok, Some, IfOk, IfErr, OnOk, OnErr, length};
ghost use Rattle.std.specs.List.{AllByRecursion};
ghost use Rattle.upd_text.specs.Text.{IsName};
ghost use Rattle.script_names.specs.Scripts.{AreScripts};
ghost use Rattle.device_model.specs.State.{State as DeviceState};
ghost use Rattle.flow_table.specs.declared.position.State.TheVariants as state;
ghost use Rattle.provides_map.specs.Pairs.{IsMap};
ghost use Rattle.record_codec.specs.Spelling.{IsRight, IfFull};
ghost use Rattle.record_codec.specs.Held.{held, position_of};
ghost use Rattle.slot_store.specs.Kept.{IsOf};
ghost use Rattle.io_model.specs.Source.{When};
ghost use Rattle.admit.specs.Given.{SparesPayloads};
ghost use Rattle.client_words.specs.declared.command.Command.TheVariants as command;
ghost use Rattle.client_top.specs.Answers.{row_of, source_count};
ghost use Rattle.client_top.specs.Did.{Did};
ghost use Rattle.client_top.specs.Finds.{Request, next_id, install_found};
ghost use Rattle.admit.specs.Differing.{in_payload};
ghost use Rattle.client_top.specs.Steps.{Mounted, HasParts, Planned, count_after, entry_of, other_sum, unprepared};

use crate::check::not_admitted;
use crate::order::status_after;
use crate::status::{NotNow, Status};
use admit::{Admitted, Differs, Refusal, admit_head, place_of};
use artifact_meta::HeaderInfo;
use device_model::{Device, ROOM};
use flow_drive::drive;
use flow_table::{State, fresh};
use io_model::Source;
use provides_map::{Provides, after};
use record_codec::{Db, Entry, LARGEST_RECORD, begun_length};
use script_names::{ScriptList, Site};
use slot_store::Store;
use std::alloc::Global;
use upd_text::Name;
use work_folder::{PrepareFault, prepare};

/// How many bytes of a file are copied at a time.
const BUFFER: usize = 65_536;

/// A deployment before it has a place in the store: its number, what is provided before it and after it, and its plan.
#[derive(Drop)]
pub(crate) struct Begun {
    id: u16,
    before: Provides,
    new: Provides,
    plan: Admitted,
}

impl Begun {
    /// Its entry, at its first position.
    fn entry(self) -> Entry
        ensures { result ≡ entry_of self }
    {
        let plan = self.plan;
        let header = plan.header;
        Entry {
            position: fresh(),
            id: self.id,
            before: self.before,
            new: self.new,
            kinds: header.kinds,
            scripts: plan.scripts,
        }
    }
}

/// The number of the next deployment.
fn next_id(db: &Db) -> u16
    ensures { result ≡ next_id db.now }
{
    match db {
        Db::Empty => 1,
        Db::Full(entry) if entry.id == u16::MAX => 1,
        Db::Full(entry) => entry.id + 1,
    }
}

/// A name is one by its type.
fn is_name(name: &Name)
    ensures { IsName name.now }
{
    name.bytes();
}

/// What a record may have of these parts, by their types.
fn are_parts(before: &Provides, new: &Provides, header: &HeaderInfo, scripts: &ScriptList)
    ensures before { IsMap before.now }
    ensures new { IsMap new.now }
    ensures name { IsName header.now.name }
    ensures names { AllByRecursion IsName header.now.kinds }
    ensures scripts { AreScripts scripts.now }
{
    before.len();
    new.len();
    scripts.len();
    is_name(&header.name);
    for kind in header.kinds.as_slice() {
        is_name(kind);
    }
}

/// What a plan begins over what is held, where its record fits a slot.
fn parts_of(alloc: Global, id: u16, before: Provides, plan: Admitted) -> Result<Begun, Status>
    ensures { HasParts id before plan result }
{
    let Ok(change) = plan.change(alloc) else {
        return Err(Status::NoMemory);
    };
    let bytes = begun_length(&before, &change, &plan.header.kinds, &plan.scripts);
    if bytes > u64::from(LARGEST_RECORD) {
        return Err(Status::TooLarge(bytes));
    }
    let Ok(new) = after(alloc, &before, &change) else {
        return Err(Status::NoMemory);
    };
    are_parts(&before, &new, &plan.header, &plan.scripts);
    Ok(Begun {
        id,
        before,
        new,
        plan,
    })
}

/// What the tree begins over the database, but for the sums of its payloads, or why it begins nothing.
fn planned<S: Source>(alloc: Global, site: &Site, source: &mut S, db: &Db) -> Result<Begun, Status>
    requires { IfFull IsRight db.now }
    ensures tree { S.content source.new ≡ S.content source.old }
    ensures source { S.plan source.new ≡ S.plan source.old }
    ensures counts { S.faults source.new ≡ count_after result (S.faults source.old) }
    ensures payloads { When (S.content source.old) (λ t. SparesPayloads t (S.given source.old) (S.given source.new)) }
    ensures planned { Planned site.now (S.content source.old) db.now result }
{
    let Ok(before) = db.held(alloc) else {
        return Err(Status::NoMemory);
    };
    match admit_head(alloc, source, site, &before) {
        Ok(plan) => parts_of(alloc, next_id(db), before, plan),
        Err(fault) => Err(not_admitted(fault)),
    }
}

fn is_payload(differs: &Differs) -> bool
    ensures { result ≡ in_payload differs.now.path }
{
    place_of(&differs.path).is_payload()
}

/// The refusal of a copied file with another sum than the listed one.
fn other_sum(differs: Differs) -> Refusal
    ensures { result ≡ other_sum differs }
{
    if is_payload(&differs) {
        Refusal::PayloadDiffers(differs)
    } else {
        Refusal::SumDiffers(differs)
    }
}

/// The answer where the work folder wasn't filled. A file outside the payloads may differ too, if it was changed since it was
/// summed.
fn unprepared(fault: PrepareFault) -> Status
    ensures { result ≡ unprepared fault }
{
    match fault {
        PrepareFault::Off => Status::PowerOff,
        PrepareFault::DiskFault => Status::DiskFault,
        PrepareFault::SourceFault => Status::SourceFault,
        PrepareFault::Differs(differs) => Status::Refused(other_sum(differs)),
    }
}

/// The state of a deployment in progress.
fn in_progress(db: &Db) -> Option<State>
    ensures { MatchOption result ((position_of db.now).state ≡ state.Idle) (λ s. (s ≡ (position_of db.now).state) × (s ≢ state.Idle)) }
{
    match db.position().state {
        State::Idle => None,
        state => Some(state),
    }
}

/// A buffer for the files that are copied.
fn zeros(alloc: Global) -> Result<Vec<u8>, Status>
    ensures ok { IfOk result (λ buffer. 0 < length buffer.items) }
    ensures err { IfErr result (λ status. status ≡ Status.NoMemory) }
{
    match vec![in alloc; 0u8; BUFFER] {
        Ok(buffer) => Ok(buffer),
        Err(_) => Err(Status::NoMemory),
    }
}

/// Begins a deployment of the tree, where none is in progress.
pub(crate) fn install<S: Source, D: Device>(
    alloc: Global,
    store: Store,
    site: &Site,
    source: &mut S,
    device: &mut D,
) -> Status
    requires on { (D.means device.old).on ≡ true }
    requires room { ROOM ≤ (D.means device.old).room }
    requires of { IsOf store (D.means device.old).disk }
    ensures plan { D.plan device.new ≡ D.plan device.old }
    ensures tree { S.content source.new ≡ S.content source.old }
    ensures source { S.plan source.new ≡ S.plan source.old }
    ensures did { (before : DeviceState) → Mounted store before (D.means device.old)
        → Did (record { command = Ok command.Install; site = site.now; content = S.content source.old }) (Some store.db) result before (D.means device.new) (record { faults = S.faults source.old; given = S.given source.old }) (record { faults = S.faults source.new; given = S.given source.new }) }
{
    if let Some(state) = in_progress(store.db()) {
        return Status::NotNow(NotNow::InProgress(state));
    }
    let begun = match planned(alloc, site, source, store.db()) {
        Ok(begun) => begun,
        Err(status) => return status,
    };
    let mut buffer = match zeros(alloc) {
        Ok(buffer) => buffer,
        Err(status) => return status,
    };
    match prepare(
        device,
        source,
        &begun.plan,
        site,
        &begun.before,
        buffer.as_mut_slice(),
    ) {
        Ok(()) => {}
        Err(fault) => return unprepared(fault),
    }
    let mut store = store;
    store.load(begun.entry());
    let end = drive(&mut store, site, device, fresh(), false);
    status_after(end, false)
}

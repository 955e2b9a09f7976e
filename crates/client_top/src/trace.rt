//! Commands whose boot is noted.

ghost use Rattle.std.specs.Prelude.{◌≡◌, ◌≤◌, true, false, [], Ok, Some, IfOk, MatchOption};
ghost use Rattle.io_model.specs.Source.{When};
ghost use Rattle.admit.specs.Given.{SparesPayloads};
ghost use Rattle.record_codec.specs.Spelling.{IsRight, IfFull};
ghost use Rattle.client_words.specs.Forms.{command_of, traced_of};
ghost use Rattle.client_top.specs.Answers.{end_of};
ghost use Rattle.client_top.specs.Asked.{asked_at, command_word};
ghost use Rattle.client_top.specs.Finds.{Request};
ghost use Rattle.client_top.specs.Looks.{AddsNote, Looks, PlansNote, unmounted, written};
ghost use Rattle.client_top.specs.Notes.{deed_of, end_noted};
ghost use Rattle.client_top.specs.Steps.{Mounted, count_after};
ghost use Rattle.device_model.specs.State.{State};
ghost use Rattle.client_top.specs.Traced.{Traced, deed_noted, head_held, head_planned, is_noted, with_lists};

use crate::call::{answer, asked, command_word};
use crate::status::{Good, Status};
use crate::tell::tell;
use admit::{AdmitFault, Admitted, admit_head};
use client_words::{Command, UsageFault, read_words, traced};
use device_model::{Device, ROOM, Told};
use flow_table::Outcome;
use io_model::{Sink, Source};
use record_codec::Db;
use script_names::{ScriptList, ScriptName, Site};
use slot_store::{MountFault, Store};
use std::alloc::Global;
use trace_check::{Deed, NoteEnd, NoteHead, write_note};
use upd_text::{KindList, NoMemory};

/// The deed of a command that runs a deployment.
fn deed_of(command: Command) -> Option<Deed>
    ensures { result ≡ deed_of command }
{
    match command {
        Command::Install => Some(Deed::Install),
        Command::Resume => Some(Deed::Resume),
        Command::ResumeStop => Some(Deed::ResumeStop),
        Command::Commit => Some(Deed::Commit),
        Command::Rollback => Some(Deed::Rollback),
        _ => None,
    }
}

/// What is noted, if anything is.
fn deed_noted(traced: bool, asked: &Result<Command, UsageFault>) -> Option<Deed>
    ensures { result ≡ deed_noted traced asked.now }
{
    if !traced {
        return None;
    }
    match asked {
        Ok(command) => deed_of(*command),
        Err(_) => None,
    }
}

/// How a boot ended, where a note tells of it.
fn end_noted(status: &Status) -> Option<NoteEnd>
    ensures { MatchOption result (is_noted status.now ≡ false) (λ e. (is_noted status.now ≡ true) × (e ≡ end_noted (end_of status.now))) }
{
    match status {
        Status::DiskFault | Status::NoMemory | Status::SinkFault | Status::PowerOff => None,
        Status::Done(Good::Committed) => Some(NoteEnd::Ended(Outcome::Committed)),
        Status::Done(Good::RolledBack) => Some(NoteEnd::Ended(Outcome::RolledBack)),
        Status::Done(Good::Waiting) => Some(NoteEnd::Waits),
        Status::Inconsistent => Some(NoteEnd::Ended(Outcome::Inconsistent)),
        Status::NotInstalled(outcome) => Some(NoteEnd::Ended(*outcome)),
        Status::RebootNeeded => Some(NoteEnd::RebootNeeded),
        _ => Some(NoteEnd::Nothing),
    }
}

// ---- before the boot

/// A copy of a script's name.
fn twin(script: &ScriptName) -> ScriptName
    ensures { result ≡ script.now }
{
    let _place = script.place();
    match ScriptName::read(script.name()) {
        Some(script) => script,
        None => unreachable!(),
    }
}

fn copy_scripts(alloc: Global, scripts: &ScriptList) -> Result<ScriptList, NoMemory>
    ensures { IfOk result (λ copy. copy ≡ scripts.now) }
{
    let mut copy = ScriptList::new(alloc);
    for script in scripts.as_slice() {
        copy.push_last(twin(script))?;
    }
    Ok(copy)
}

fn copy_kinds(alloc: Global, kinds: &KindList) -> Result<KindList, NoMemory>
    ensures { IfOk result (λ copy. copy ≡ kinds.now) }
{
    let mut copy = KindList::new(alloc);
    for kind in kinds.as_slice() {
        copy.push(kind.twin())?;
    }
    Ok(copy)
}

/// How the note begins of a boot that goes on with what is held.
fn head_held(alloc: Global, deed: Deed, site: &Site, db: &Db) -> Result<NoteHead, NoMemory>
    ensures { IfOk result (λ head. head ≡ head_held deed site.now db.now) }
{
    let site = copy_scripts(alloc, &site.scripts)?;
    let (kinds, scripts) = match db {
        Db::Empty => (KindList::new(alloc), ScriptList::new(alloc)),
        Db::Full(entry) => (
            copy_kinds(alloc, &entry.kinds)?,
            copy_scripts(alloc, &entry.scripts)?,
        ),
    };
    Ok(NoteHead {
        deed,
        from: db.position(),
        kinds,
        scripts,
        site,
    })
}

/// How the note begins of a boot that installs this plan.
fn head_planned(alloc: Global, site: &Site, db: &Db, plan: Admitted) -> Result<NoteHead, NoMemory>
    ensures { IfOk result (λ head. head ≡ head_planned site.now db.now plan) }
{
    let site = copy_scripts(alloc, &site.scripts)?;
    let header = plan.header;
    Ok(NoteHead {
        deed: Deed::Install,
        from: db.position(),
        kinds: header.kinds,
        scripts: plan.scripts,
        site,
    })
}

/// How the note of an install begins. None where its tree is refused.
fn look_into<S: Source>(
    alloc: Global,
    site: &Site,
    source: &mut S,
    db: &Db,
) -> Result<Option<NoteHead>, Status>
    requires { IfFull IsRight db.now }
    ensures tree { S.content source.new ≡ S.content source.old }
    ensures source { S.plan source.new ≡ S.plan source.old }
    ensures counts { S.faults source.new ≡ count_after result (S.faults source.old) }
    ensures payloads { When (S.content source.old) (λ t. SparesPayloads t (S.given source.old) (S.given source.new)) }
    ensures plans { PlansNote site.now (S.content source.old) db.now result }
{
    let Ok(before) = db.held(alloc) else {
        return Err(Status::NoMemory);
    };
    let plan = match admit_head(alloc, source, site, &before) {
        Ok(plan) => plan,
        Err(AdmitFault::Refused(_)) => return Ok(None),
        Err(AdmitFault::Source) => return Err(Status::SourceFault),
        Err(AdmitFault::Memory) => return Err(Status::NoMemory),
    };
    match head_planned(alloc, site, db, plan) {
        Ok(head) => Ok(Some(head)),
        Err(_) => Err(Status::NoMemory),
    }
}

/// How the note of a boot begins over the store, and for an install by its tree.
fn found_by<S: Source>(
    alloc: Global,
    deed: Deed,
    site: &Site,
    source: &mut S,
    store: &Store,
) -> Result<Option<NoteHead>, Status>
    ensures tree { S.content source.new ≡ S.content source.old }
    ensures source { S.plan source.new ≡ S.plan source.old }
    ensures looks { (asked : Request) (old mid : State) → deed_noted true asked.command ≡ Some deed → asked.site ≡ site.now → asked.content ≡ S.content source.old
        → Mounted store.now old mid
        → Looks deed asked old mid (record { faults = S.faults source.old; given = S.given source.old }) (record { faults = S.faults source.new; given = S.given source.new }) result }
{
    match deed {
        Deed::Install => look_into(alloc, site, source, store.db()),
        deed => match head_held(alloc, deed, site, store.db()) {
            Ok(head) => Ok(Some(head)),
            Err(_) => Err(Status::NoMemory),
        },
    }
}

/// What a store leaves that wasn't mounted: no note, where it is no record.
fn unmounted(fault: MountFault) -> Result<Option<NoteHead>, Status>
    ensures { result ≡ unmounted fault }
{
    match fault {
        MountFault::BadStore(_) => Ok(None),
        MountFault::Off => Err(Status::PowerOff),
        MountFault::DiskFault => Err(Status::DiskFault),
        MountFault::NoMemory => Err(Status::NoMemory),
    }
}

/// Looks at the store, and for an install into its tree. None where one of them is refused.
fn look<S: Source, D: Device>(
    alloc: Global,
    deed: Deed,
    site: &Site,
    source: &mut S,
    device: &mut D,
) -> Result<Option<NoteHead>, Status>
    requires on { (D.means device.old).on ≡ true }
    requires room { ROOM ≤ (D.means device.old).room }
    ensures plan { D.plan device.new ≡ D.plan device.old }
    ensures tree { S.content source.new ≡ S.content source.old }
    ensures source { S.plan source.new ≡ S.plan source.old }
    ensures looks { (asked : Request) → deed_noted true asked.command ≡ Some deed → asked.site ≡ site.now → asked.content ≡ S.content source.old
        → Looks deed asked (D.means device.old) (D.means device.new) (record { faults = S.faults source.old; given = S.given source.old }) (record { faults = S.faults source.new; given = S.given source.new }) result }
{
    match Store::mount(alloc, device) {
        Ok(store) => found_by(alloc, deed, site, source, &store),
        Err(fault) => unmounted(fault),
    }
}

// ---- behind it

/// The head of a note that ends so.
fn with_lists(alloc: Global, head: NoteHead, end: NoteEnd) -> NoteHead
    ensures { result ≡ with_lists end head }
{
    match end {
        NoteEnd::Nothing => NoteHead {
            deed: head.deed,
            from: head.from,
            kinds: KindList::new(alloc),
            scripts: ScriptList::new(alloc),
            site: ScriptList::new(alloc),
        },
        _ => head,
    }
}

/// Writes the note behind an answer, where there is one. It takes no memory.
fn add_note<O: Sink, D: Told>(
    alloc: Global,
    head: Option<NoteHead>,
    status: Status,
    out: &mut O,
    device: &D,
) -> Status
    ensures { AddsNote (written head (D.means device.now).journal status) (O.means out.old) status (O.means out.new) result }
{
    let Some(head) = head else {
        return status;
    };
    let Some(end) = end_noted(&status) else {
        return status;
    };
    let head = with_lists(alloc, head, end);
    match write_note(&head, device.journal(), end, out) {
        Ok(()) => status,
        Err(_) => Status::SinkFault,
    }
}

// ---- the boot

/// Looks, does what is asked, and notes it.
fn trace<S: Source, O: Sink, D: Told>(
    alloc: Global,
    deed: Deed,
    asked: Result<Command, UsageFault>,
    site: &Site,
    source: &mut S,
    out: &mut O,
    device: &mut D,
) -> Status
    requires on { (D.means device.old).on ≡ true }
    requires fresh { (D.means device.old).journal ≡ [] }
    requires room { ROOM ≤ (D.means device.old).room }
    requires deed { deed_noted true asked ≡ Some deed }
    ensures plan { D.plan device.new ≡ D.plan device.old }
    ensures tree { S.content source.new ≡ S.content source.old }
    ensures source { S.plan source.new ≡ S.plan source.old }
    ensures traced { Traced (Some deed) (record { command = asked; site = site.now; content = S.content source.old }) (D.means device.old) (D.means device.new) (record { faults = S.faults source.old; given = S.given source.old }) (record { faults = S.faults source.new; given = S.given source.new }) (O.means out.old) (O.means out.new) result }
{
    match look(alloc, deed, site, source, device) {
        Ok(head) => {
            let status = answer(alloc, asked, site, source, out, device);
            add_note(alloc, head, status, out, device)
        }
        Err(status) => match tell(out, &status) {
            Ok(()) => status,
            Err(_) => Status::SinkFault,
        },
    }
}

/// Does what `run` does, and where the words ask for a trace of a command that runs a deployment, writes the note of this boot
/// behind its text: of a boot that wasn't cut off and wanted no memory, over a store that is a record and, for an install, a
/// tree that isn't refused. The store and the tree are looked at before the command is done, and a fault, a loss or want of
/// memory there is answered at once; behind the command no memory is taken. Conditions as those of `run`.
pub fn run_traced<S: Source, O: Sink, D: Told>(
    alloc: Global,
    words: &[String],
    site: &Site,
    source: &mut S,
    out: &mut O,
    device: &mut D,
) -> Status
    requires on { (D.means device.old).on ≡ true }
    requires fresh { (D.means device.old).journal ≡ [] }
    requires room { ROOM ≤ (D.means device.old).room }
    ensures plan { D.plan device.new ≡ D.plan device.old }
    ensures tree { S.content source.new ≡ S.content source.old }
    ensures source { S.plan source.new ≡ S.plan source.old }
    ensures traced { Traced (deed_noted (traced_of words.now) (asked_at (command_word words.now) (command_of words.now))) (record { command = asked_at (command_word words.now) (command_of words.now); site = site.now; content = S.content source.old }) (D.means device.old) (D.means device.new) (record { faults = S.faults source.old; given = S.given source.old }) (record { faults = S.faults source.new; given = S.given source.new }) (O.means out.old) (O.means out.new) result }
{
    let asked = asked(read_words(words), command_word(words));
    match deed_noted(traced(words), &asked) {
        Some(deed) => trace(alloc, deed, asked, site, source, out, device),
        None => answer(alloc, asked, site, source, out, device),
    }
}

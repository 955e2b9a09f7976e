//! Whether a tree would be taken.

ghost use Rattle.std.specs.Prelude.{◌≡◌, IfOk, false, Ok, Some};
ghost use Rattle.record_codec.specs.Spelling.{IsRight, IfFull, record_length};
ghost use Rattle.record_codec.specs.declared.entry.Entry.{Entry};
ghost use Rattle.record_codec.specs.Held.{held};
ghost use Rattle.io_model.specs.Source.{When};
ghost use Rattle.admit.specs.Given.{ReadsPayloads};
ghost use Rattle.client_top.specs.Answers.{row_of, source_count};
ghost use Rattle.client_top.specs.Finds.{begun, check_found};
ghost use Rattle.device_model.specs.State.{State};
ghost use Rattle.client_words.specs.declared.command.Command.TheVariants as command;
ghost use Rattle.client_top.specs.Did.{Did};
ghost use Rattle.client_top.specs.Steps.{Mounted, WeighsTree, fitting, not_admitted};

use crate::status::{Good, Status};
use admit::{AdmitFault, Admitted, admit};
use io_model::Source;
use provides_map::Provides;
use record_codec::{Db, LARGEST_RECORD};
use script_names::Site;
use slot_store::Store;
use std::alloc::Global;
use upd_text::NoMemory;

pub(crate) fn not_admitted(fault: AdmitFault) -> Status
    ensures { result ≡ not_admitted fault }
{
    match fault {
        AdmitFault::Source => Status::SourceFault,
        AdmitFault::Memory => Status::NoMemory,
        AdmitFault::Refused(refusal) => Status::Refused(refusal),
    }
}

/// How many bytes the record of the deployment would have that a plan makes of what is held.
fn begun_length(alloc: Global, before: &Provides, plan: &Admitted) -> Result<u64, NoMemory>
    ensures { (c : Db) → before.now ≡ held c → IfOk result (λ bytes. bytes ≡ record_length (begun c plan.now)) }
{
    let change = plan.change(alloc)?;
    Ok(record_codec::begun_length(before, &change, &plan.header.kinds, &plan.scripts))
}

fn fitting(bytes: u64) -> Status
    ensures { (e : Entry) → bytes ≡ record_length e → result ≡ fitting e }
{
    if bytes > u64::from(LARGEST_RECORD) {
        Status::TooLarge(bytes)
    } else {
        Status::Done(Good::Admitted)
    }
}

/// Whether the tree would be taken over the database, and its deployment have a record.
pub(crate) fn weigh<S: Source>(alloc: Global, site: &Site, source: &mut S, db: &Db) -> Status
    requires { IfFull IsRight db.now }
    ensures tree { S.content source.new ≡ S.content source.old }
    ensures source { S.plan source.new ≡ S.plan source.old }
    ensures counts { S.faults source.new ≡ source_count (row_of result).basis (S.faults source.old) }
    ensures payloads { When (S.content source.old) (λ t. ReadsPayloads false t (S.given source.old) (S.given source.new)) }
    ensures weighs { WeighsTree (check_found site.now (S.content source.old) db.now) site.now (S.content source.old) db.now result }
{
    let Ok(before) = db.held(alloc) else {
        return Status::NoMemory;
    };
    let plan = match admit(alloc, source, site, &before) {
        Ok(plan) => plan,
        Err(fault) => return not_admitted(fault),
    };
    match begun_length(alloc, &before, &plan) {
        Ok(bytes) => fitting(bytes),
        Err(_) => Status::NoMemory,
    }
}

/// Whether the tree would be taken over what the store holds.
pub(crate) fn check<S: Source>(alloc: Global, store: &Store, site: &Site, source: &mut S) -> Status
    ensures tree { S.content source.new ≡ S.content source.old }
    ensures source { S.plan source.new ≡ S.plan source.old }
    ensures did { (before now : State) → Mounted store.now before now
        → Did (record { command = Ok command.Check; site = site.now; content = S.content source.old }) (Some store.now.db) result before now (record { faults = S.faults source.old; given = S.given source.old }) (record { faults = S.faults source.new; given = S.given source.new }) }
{
    weigh(alloc, site, source, store.db())
}

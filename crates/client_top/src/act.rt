//! What each command does, but for its text.

ghost use Rattle.std.specs.Prelude.{◌≡◌, ◌≤◌, true, false, Ok, IsTrue};
ghost use Rattle.client_top.specs.Answers.{fail, reads};
ghost use Rattle.device_model.specs.State.{State};
ghost use Rattle.record_codec.specs.Spelling.{IsRight, IfFull};
ghost use Rattle.slot_store.specs.Kept.{IsOf};
ghost use Rattle.client_top.specs.Steps.{Acted, Mounted, not_mounted};

use crate::begin::install;
use crate::check::check;
use crate::order::go_on;
use crate::status::Status;
use client_words::{Command, UsageFault};
use device_model::{Device, ROOM};
use flow_table::Order;
use io_model::Source;
use script_names::Site;
use slot_store::{MountFault, Store};
use std::alloc::Global;

/// What is left to tell once a command is done.
#[derive(Drop)]
pub(crate) enum Deed {
    Tell(Status),
    Show(Store),
}

fn not_mounted(fault: MountFault) -> Status
    ensures { result ≡ not_mounted fault }
{
    match fault {
        MountFault::Off => Status::PowerOff,
        MountFault::DiskFault => Status::DiskFault,
        MountFault::BadStore(offset) => Status::BadStore(offset),
        MountFault::NoMemory => Status::NoMemory,
    }
}

/// The store is to be shown. What it holds is right, as its `db` says.
fn shown(store: Store) -> Deed
    ensures is { result ≡ Deed.Show store }
    ensures right { IfFull IsRight store.db }
{
    store.db();
    Deed::Show(store)
}

/// Does what a command says over the store that was mounted.
fn serve<S: Source, D: Device>(
    alloc: Global,
    command: Command,
    store: Store,
    site: &Site,
    source: &mut S,
    device: &mut D,
) -> Deed
    requires on { (D.means device.old).on ≡ true }
    requires room { ROOM ≤ (D.means device.old).room }
    requires of { IsOf store (D.means device.old).disk }
    requires reads { IsTrue (reads (Ok command)) }
    ensures plan { D.plan device.new ≡ D.plan device.old }
    ensures tree { S.content source.new ≡ S.content source.old }
    ensures source { S.plan source.new ≡ S.plan source.old }
    ensures served { (before : State) → Mounted store before (D.means device.old)
        → Acted (record { command = Ok command; site = site.now; content = S.content source.old }) before (D.means device.new) (record { faults = S.faults source.old; given = S.given source.old }) (record { faults = S.faults source.new; given = S.given source.new }) result }
{
    match command {
        Command::Install => Deed::Tell(install(alloc, store, site, source, device)),
        Command::Check => Deed::Tell(check(alloc, &store, site, source)),
        Command::Resume => Deed::Tell(go_on(store, Order::Resume, site, device)),
        Command::ResumeStop => Deed::Tell(go_on(store, Order::ResumeStop, site, device)),
        Command::Commit => Deed::Tell(go_on(store, Order::Commit, site, device)),
        Command::Rollback => Deed::Tell(go_on(store, Order::Rollback, site, device)),
        Command::ShowProvides => shown(store),
        Command::ShowArtifact => shown(store),
        Command::ShowDeployment => shown(store),
        Command::Simulate { .. } => unreachable!(),
    }
}

/// Nothing is simulated here.
fn simulates(command: Command) -> bool
    ensures yes { result ≡ true → IsTrue (fail (Ok command)) }
    ensures no { result ≡ false → IsTrue (reads (Ok command)) }
{
    match command {
        Command::Simulate { .. } => true,
        _ => false,
    }
}

/// Does what is asked, but for its text.
pub(crate) fn act<S: Source, D: Device>(
    alloc: Global,
    asked: Result<Command, UsageFault>,
    site: &Site,
    source: &mut S,
    device: &mut D,
) -> Deed
    requires on { (D.means device.old).on ≡ true }
    requires room { ROOM ≤ (D.means device.old).room }
    ensures plan { D.plan device.new ≡ D.plan device.old }
    ensures tree { S.content source.new ≡ S.content source.old }
    ensures source { S.plan source.new ≡ S.plan source.old }
    ensures acted { Acted (record { command = asked; site = site.now; content = S.content source.old }) (D.means device.old) (D.means device.new) (record { faults = S.faults source.old; given = S.given source.old }) (record { faults = S.faults source.new; given = S.given source.new }) result }
{
    let command = match asked {
        Ok(command) => command,
        Err(fault) => return Deed::Tell(Status::Usage(fault)),
    };
    if simulates(command) {
        return Deed::Tell(Status::Usage(UsageFault::UnknownCommand(0)));
    }
    match Store::mount(alloc, device) {
        Ok(store) => serve(alloc, command, store, site, source, device),
        Err(fault) => Deed::Tell(not_mounted(fault)),
    }
}

//! A deployment that goes on by an order.

ghost use Rattle.std.specs.Prelude.{◌≡◌, ◌≤◌, true, Ok, Some};
ghost use Rattle.device_model.specs.State.{State};
ghost use Rattle.record_codec.specs.Spelling.{IsRight, IfFull};
ghost use Rattle.slot_store.specs.Kept.{IsOf};
ghost use Rattle.flow_drive.specs.Drive.{IsDecided};
ghost use Rattle.client_top.specs.Did.{Did, Shelf};
ghost use Rattle.client_top.specs.Finds.{Request};
ghost use Rattle.client_top.specs.Steps.{Mounted, Opens, command_of, status_after, status_ended, stops, takes_back};

use crate::status::{Good, NotNow, Status};
use device_model::{Device, ROOM};
use flow_drive::{DriveEnd, drive};
use flow_table::{Opening, Order, Outcome, Position, first};
use record_codec::Db;
use script_names::Site;
use slot_store::Store;

/// The position that the deployment enters by an order, or the answer where it enters none.
fn opened(db: &Db, order: Order) -> Result<Position, Status>
    requires { IfFull IsRight db.now }
    ensures { Opens order db.now result }
{
    let Db::Full(entry) = db else {
        return Err(Status::NoUpdate);
    };
    match first(&entry.position, order) {
        Opening::Enter(position) => Ok(position),
        Opening::Stay => Err(Status::Done(Good::Waiting)),
        Opening::NoUpdate => Err(Status::NoUpdate),
        Opening::MustResume(state) => Err(Status::NotNow(NotNow::MustResume(state))),
        Opening::NoRollback(state) => Err(Status::NotNow(NotNow::NoRollback(state))),
    }
}

/// The answer where a deployment ended. One that was rolled back is installed by nobody, unless that was asked for.
fn ended(outcome: Outcome, takes_back: bool) -> Status
    ensures { result ≡ status_ended outcome takes_back }
{
    match outcome {
        Outcome::Committed => Status::Done(Good::Committed),
        Outcome::RolledBack if takes_back => Status::Done(Good::RolledBack),
        Outcome::Inconsistent => Status::Inconsistent,
        outcome => Status::NotInstalled(outcome),
    }
}

/// The answer after a deployment went on.
pub(crate) fn status_after(end: DriveEnd, takes_back: bool) -> Status
    ensures { result ≡ status_after end takes_back }
{
    match end {
        DriveEnd::Ended(outcome) => ended(outcome, takes_back),
        DriveEnd::Waits => Status::Done(Good::Waiting),
        DriveEnd::RebootNeeded => Status::RebootNeeded,
        DriveEnd::Off => Status::PowerOff,
        DriveEnd::DiskFault => Status::DiskFault,
    }
}

/// Whether the deployment is to wait before its commit.
fn stops(order: Order) -> bool
    ensures { result ≡ stops order }
{
    match order {
        Order::ResumeStop => true,
        _ => false,
    }
}

/// Whether the order is to take the deployment back.
fn takes_back(order: Order) -> bool
    ensures { result ≡ takes_back order }
{
    match order {
        Order::Rollback => true,
        _ => false,
    }
}

/// Goes on with the deployment that the store holds.
pub(crate) fn go_on<D: Device>(store: Store, order: Order, site: &Site, device: &mut D) -> Status
    requires on { (D.means device.old).on ≡ true }
    requires room { ROOM ≤ (D.means device.old).room }
    requires of { IsOf store (D.means device.old).disk }
    ensures plan { D.plan device.new ≡ D.plan device.old }
    ensures did { (asked : Request) (before : State) (shelf : Shelf) → asked.command ≡ Ok (command_of order) → asked.site ≡ site.now → Mounted store before (D.means device.old)
        → Did asked (Some store.db) result before (D.means device.new) shelf shelf }
{
    let mut store = store;
    match opened(store.db(), order) {
        Ok(position) => {
            let end = drive(&mut store, site, device, position, stops(order));
            status_after(end, takes_back(order))
        }
        Err(status) => status,
    }
}

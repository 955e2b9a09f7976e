//! What is noted of a boot.

use device_model::EventList;
use flow_table::{Outcome, Position};
use script_names::ScriptList;
use upd_text::{KindList, ListOf};

/// A command that runs a deployment.
#[derive(Clone, Copy, Debug, PartialEq, Eq)]
pub enum Deed {
    Install,
    Resume,
    /// A resume that waits before the commit.
    ResumeStop,
    Commit,
    Rollback,
}

/// How a boot ended.
#[derive(Clone, Copy, Debug, PartialEq, Eq)]
pub enum NoteEnd {
    /// No deployment began, went on or waits.
    Nothing,
    Ended(Outcome),
    Waits,
    RebootNeeded,
    /// It was cut off.
    Halted,
}

/// What a boot began with: its command, the position in the database, the payload types and scripts of the deployment, and
/// the device's own scripts.
#[derive(Drop)]
pub struct NoteHead {
    pub deed: Deed,
    pub from: Position,
    pub kinds: KindList,
    pub scripts: ScriptList,
    pub site: ScriptList,
}

/// One boot: what it began with, what happened, and how it ended.
#[derive(Drop)]
pub struct Note {
    pub head: NoteHead,
    pub events: EventList,
    pub end: NoteEnd,
}

/// Boots in a row.
pub type NoteList = ListOf<Note>;

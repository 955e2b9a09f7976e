//! What a database holds.

use flow_table::Position;
use provides_map::Provides;
use script_names::ScriptList;
use upd_text::KindList;

/// A deployment, and where it stands: its number, what was provided when it began, what it is to
/// provide, the payload types, at least one and at most eight, and the artifact's scripts.
#[derive(Drop)]
pub struct Entry {
    pub position: Position,
    pub id: u16,
    pub before: Provides,
    pub new: Provides,
    pub kinds: KindList,
    pub scripts: ScriptList,
}

/// The two versions of a record. The first one names one payload type and no number.
#[derive(Clone, Copy, Debug, PartialEq, Eq)]
pub enum Version {
    First,
    Second,
}

/// Nothing, or an entry.
#[derive(Drop)]
pub enum Db {
    Empty,
    Full(Entry),
}

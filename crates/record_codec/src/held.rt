//! What a database holds, and where it stands.

ghost use Rattle.std.specs.Prelude.{◌≡◌, IfOk};
ghost use Rattle.record_codec.specs.Spelling.{IsRight, IfFull};
ghost use Rattle.record_codec.specs.Held.{held, held_of, position_of};

use crate::entry::{Db, Entry};
use flow_table::{Outcome, Position, Reboot, State};
use provides_map::{Provides, broken};
use std::alloc::Global;
use upd_text::NoMemory;

fn held_by(entry: &Entry, alloc: Global) -> Result<Provides, NoMemory>
    requires { IsRight entry.now }
    ensures { IfOk result (λ pairs. pairs ≡ held_of entry.now.position.outcome entry.now.before entry.now.new) }
{
    match entry.position.outcome {
        Outcome::Undecided => entry.before.copy(alloc),
        Outcome::Kept => entry.before.copy(alloc),
        Outcome::RolledBack => entry.before.copy(alloc),
        Outcome::Committed => entry.new.copy(alloc),
        Outcome::Inconsistent => broken(alloc, &entry.new),
    }
}

impl Db {
    /// What the database holds: nothing where it is empty. A deployment that is undecided, kept or
    /// rolled back holds what was provided before it, a committed one what it provides, and an
    /// inconsistent one the same with its name marked.
    ///
    /// The entry has to be right. The only error is want of memory.
    pub fn held(&self, alloc: Global) -> Result<Provides, NoMemory>
        requires { IfFull IsRight self.now }
        ensures { IfOk result (λ pairs. pairs ≡ held self.now) }
    {
        match self {
            Db::Empty => Ok(Provides::new(alloc)),
            Db::Full(entry) => held_by(entry, alloc),
        }
    }

    /// Where the deployment stands. An empty database stands at Idle, with nothing decided.
    pub fn position(&self) -> Position
        ensures { result ≡ position_of self.now }
    {
        match self {
            Db::Empty => Position {
                state: State::Idle,
                outcome: Outcome::Undecided,
                undoable: false,
                reboot: Reboot::No,
                n: 0,
            },
            Db::Full(entry) => entry.position,
        }
    }
}

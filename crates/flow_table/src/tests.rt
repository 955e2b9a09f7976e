mod names;
mod openings;
mod positions;
mod replies;
mod steps;

use crate::{Outcome, Position, Reboot, State, lost};

/// A position of these fields.
fn at(state: State, outcome: Outcome, undoable: bool, reboot: Reboot, n: u8) -> Position {
    Position {
        state,
        outcome,
        undoable,
        reboot,
        n,
    }
}

/// What follows a loss of power, where calls are made.
fn after_loss(p: &Position) -> Option<Position> {
    match p.state {
        State::Idle | State::Wait => None,
        _ => Some(lost(p)),
    }
}

//! The tables of the flow: what follows a state, what follows a loss of power in it, and what an order does.

ghost use Rattle.std.specs.Prelude.{◌≡◌};
ghost use Rattle.flow_table.specs.Table.{enter_of, undo_of, failed_step, next_of, lost_of, first_of, fresh_position, IsRunning};

use crate::position::{Outcome, Position, Reboot, State};

/// What a state heard when it was run: that it failed, that it went well, or what the module replied.
#[derive(Clone, Copy, Debug, PartialEq, Eq)]
pub enum Heard {
    Failed,
    Fine,
    Undoable(bool),
    Needs(Reboot),
}

/// Another position is entered, or the device reboots and the deployment stops until then.
#[derive(Clone, Copy, Debug, PartialEq, Eq)]
pub enum Step {
    Enter(Position),
    Stop,
}

/// What the user orders; `ResumeStop` goes on to Wait, where the update can still be taken back.
#[derive(Clone, Copy, Debug, PartialEq, Eq)]
pub enum Order {
    Resume,
    ResumeStop,
    Commit,
    Rollback,
}

/// What an order does first, or why it does nothing.
#[derive(Clone, Copy, Debug, PartialEq, Eq)]
pub enum Opening {
    Enter(Position),
    Stay,
    NoUpdate,
    MustResume(State),
    NoRollback(State),
}

/// The states that a deployment may enter.
pub const LIMIT: u8 = 28;

/// The payload types that a deployment may have; it has at least one.
pub const MOST_KINDS: u8 = 8;

/// Where a deployment begins.
pub fn fresh() -> Position
    ensures { result ≡ fresh_position }
{
    Position {
        state: State::Download,
        outcome: Outcome::Undecided,
        undoable: false,
        reboot: Reboot::No,
        n: 1,
    }
}

// At the limit no state is entered: the deployment ends.
fn enter(p: &Position, state: State, outcome: Outcome) -> Position
    ensures { result ≡ enter_of p.now state outcome }
{
    if p.n < LIMIT {
        Position {
            state,
            outcome,
            n: p.n + 1,
            ..*p
        }
    } else {
        let outcome = match outcome {
            Outcome::Undecided => Outcome::Inconsistent,
            decided => decided,
        };
        Position {
            state: State::Idle,
            outcome,
            ..*p
        }
    }
}

fn undo(p: &Position) -> Position
    ensures { result ≡ undo_of p.now }
{
    if p.undoable {
        enter(p, State::Rollback, Outcome::Undecided)
    } else {
        enter(p, State::Failure, Outcome::Inconsistent)
    }
}

fn failed(p: &Position) -> Step
    ensures { result ≡ failed_step p.now.state p.now }
{
    Step::Enter(match p.state {
        State::Idle | State::Wait | State::RollbackReboot => return Step::Stop,
        State::Download => enter(p, State::Cleanup, Outcome::Kept),
        State::Install | State::Reboot | State::VerifyReboot | State::Commit => undo(p),
        State::CommitLeave => enter(p, State::Cleanup, Outcome::Committed),
        State::Rollback => enter(p, State::Failure, Outcome::Inconsistent),
        State::VerifyRollbackReboot => enter(p, State::RollbackReboot, Outcome::Undecided),
        State::Failure => enter(p, State::Cleanup, p.outcome),
        State::Cleanup => Position {
            state: State::Idle,
            ..*p
        },
    })
}

/// What follows a state that was run: at VerifyReboot, `stop` goes to Wait where the update can be
/// taken back. What the state can't hear counts as failed.
pub fn next(p: &Position, heard: Heard, stop: bool) -> Step
    ensures { result ≡ next_of p.now heard stop }
{
    use Outcome::{Committed, RolledBack, Undecided};
    Step::Enter(match (p.state, heard) {
        (State::Download, Heard::Undoable(undoable)) => {
            enter(&Position { undoable, ..*p }, State::Install, Undecided)
        }
        (State::Install, Heard::Needs(Reboot::No)) => {
            enter(
                p,
                if p.undoable {
                    State::Wait
                } else {
                    State::Commit
                },
                Undecided,
            )
        }
        (State::Install, Heard::Needs(reboot)) => {
            enter(&Position { reboot, ..*p }, State::Reboot, Undecided)
        }
        (State::Reboot, Heard::Fine) => return Step::Stop,
        (State::VerifyReboot, Heard::Fine) => {
            enter(
                p,
                if stop && p.undoable {
                    State::Wait
                } else {
                    State::Commit
                },
                Undecided,
            )
        }
        (State::Commit, Heard::Fine) => enter(p, State::CommitLeave, Committed),
        (State::Rollback, Heard::Fine) => match p.reboot {
            Reboot::No => enter(p, State::Failure, RolledBack),
            _ => enter(p, State::RollbackReboot, Undecided),
        },
        (State::VerifyRollbackReboot, Heard::Fine) => enter(p, State::Failure, RolledBack),
        _ => return failed(p),
    })
}

/// What follows a state in which the power was lost.
pub fn lost(p: &Position) -> Position
    requires { IsRunning p.now.state }
    ensures { result ≡ lost_of p.now }
{
    match p.state {
        State::Download => enter(p, State::Cleanup, Outcome::Kept),
        State::Install | State::VerifyReboot | State::Commit => undo(p),
        State::Reboot => enter(p, State::VerifyReboot, p.outcome),
        State::RollbackReboot => enter(p, State::VerifyRollbackReboot, p.outcome),
        same => enter(p, same, p.outcome),
    }
}

/// What an order does at a position.
pub fn first(p: &Position, order: Order) -> Opening
    ensures { result ≡ first_of p.now order }
{
    match (p.state, order) {
        (State::Idle, _) => Opening::NoUpdate,
        (State::Wait, Order::Resume | Order::Commit) => {
            Opening::Enter(enter(p, State::Commit, Outcome::Undecided))
        }
        (State::Wait, Order::ResumeStop) => Opening::Stay,
        (State::Wait, Order::Rollback) => {
            Opening::Enter(enter(p, State::Rollback, Outcome::Undecided))
        }
        (State::Reboot, Order::Rollback) if p.undoable => {
            Opening::Enter(enter(p, State::Rollback, Outcome::Undecided))
        }
        (State::Reboot, Order::Rollback) => Opening::NoRollback(State::Reboot),
        (State::Reboot, _) | (_, Order::Resume | Order::ResumeStop) => Opening::Enter(lost(p)),
        (state, Order::Commit | Order::Rollback) => Opening::MustResume(state),
    }
}

use crate::{Outcome, Position, Reboot, State};
use std::process::Abort;

// Undecided, Kept, Committed, RolledBack, Inconsistent
const OPEN: [bool; 5] = [true, false, false, false, false];

const ENDED: [bool; 5] = [false, true, true, true, true];

const KEPT_NEW: [bool; 5] = [false, false, true, false, false];

const UNDONE: [bool; 5] = [false, false, false, true, true];
// not undoable, undoable
const EITHER: [bool; 2] = [true, true];

const CANNOT: [bool; 2] = [true, false];

const CAN: [bool; 2] = [false, true];
// No, Yes, Automatic
const ANY: [bool; 3] = [true, true, true];

const NONE: [bool; 3] = [true, false, false];

const SOME: [bool; 3] = [false, true, true];

#[derive(Drop)]
struct Row {
    state: State,
    outcomes: [bool; 5],
    undoable: [bool; 2],
    reboots: [bool; 3],
}

fn allows(state: State, outcomes: [bool; 5], undoable: [bool; 2], reboots: [bool; 3]) -> Row {
    Row {
        state,
        outcomes,
        undoable,
        reboots,
    }
}

fn checked(rt: &impl Abort, row: Row) {
    let state = row.state;
    let outcomes = [
        state.allows_outcome(Outcome::Undecided),
        state.allows_outcome(Outcome::Kept),
        state.allows_outcome(Outcome::Committed),
        state.allows_outcome(Outcome::RolledBack),
        state.allows_outcome(Outcome::Inconsistent),
    ];
    assert_eq!(rt; outcomes, row.outcomes);
    let undoable = [state.allows_undoable(false), state.allows_undoable(true)];
    assert_eq!(rt; undoable, row.undoable);
    let reboots = [
        state.allows_reboot(Reboot::No),
        state.allows_reboot(Reboot::Yes),
        state.allows_reboot(Reboot::Automatic),
    ];
    assert_eq!(rt; reboots, row.reboots);
}

#[test]
fn each_state_allows(rt: HostRuntime) {
    checked(&rt, allows(State::Idle, ENDED, EITHER, ANY));
    checked(&rt, allows(State::Download, OPEN, CANNOT, NONE));
    checked(&rt, allows(State::Install, OPEN, EITHER, NONE));
    checked(&rt, allows(State::Reboot, OPEN, EITHER, SOME));
    checked(&rt, allows(State::VerifyReboot, OPEN, EITHER, SOME));
    checked(&rt, allows(State::Commit, OPEN, EITHER, ANY));
    checked(&rt, allows(State::CommitLeave, KEPT_NEW, EITHER, ANY));
    checked(&rt, allows(State::Rollback, OPEN, CAN, ANY));
    checked(&rt, allows(State::RollbackReboot, OPEN, CAN, SOME));
    checked(&rt, allows(State::VerifyRollbackReboot, OPEN, CAN, SOME));
    checked(&rt, allows(State::Failure, UNDONE, EITHER, ANY));
    checked(&rt, allows(State::Cleanup, ENDED, EITHER, ANY));
    checked(&rt, allows(State::Wait, OPEN, CAN, ANY));
}

#[test]
fn counts_of_states(rt: HostRuntime) {
    for n in 0..=255 {
        assert_eq!(rt; State::Download.allows_count(n), n == 1);
        assert_eq!(rt; State::Install.allows_count(n), n == 2);
        assert_eq!(rt; State::Cleanup.allows_count(n), 0 < n && n < 29);
    }
}

#[test]
fn positions_compare(rt: HostRuntime) {
    let first = Position {
        state: State::Download,
        outcome: Outcome::Undecided,
        undoable: false,
        reboot: Reboot::No,
        n: 1,
    };
    let second = Position { n: 2, ..first };
    assert_eq!(rt; first, first);
    assert_ne!(rt; first, second);
}

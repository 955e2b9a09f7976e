use super::{after_loss, at};
use crate::Heard::{Failed, Fine, Needs, Undoable};
use crate::Outcome::{Committed, Inconsistent, Kept, RolledBack, Undecided};
use crate::Reboot::{Automatic, No, Yes};
use crate::State::{
    Cleanup, Commit, CommitLeave, Failure, Idle, Install, Reboot, Rollback, RollbackReboot,
    VerifyReboot, VerifyRollbackReboot, Wait,
};
use crate::{Outcome, Position, State, Step, fresh, next};

/// What is entered, with nothing decided.
fn enters(state: State, undoable: bool, reboot: crate::Reboot, n: u8) -> Step {
    Step::Enter(at(state, Undecided, undoable, reboot, n))
}

/// The next state's position, with this outcome.
fn follows(p: Position, state: State, outcome: Outcome, n: u8) -> Position {
    Position {
        state,
        outcome,
        n,
        ..p
    }
}

#[test]
fn after_download_and_install(rt: HostRuntime) {
    let can = at(Install, Undecided, true, No, 2);
    let cannot = at(Install, Undecided, false, No, 2);
    for (from, heard, step) in [
        (fresh(), Undoable(false), Step::Enter(cannot)),
        (fresh(), Undoable(true), Step::Enter(can)),
        (can, Needs(No), enters(Wait, true, No, 3)),
        (cannot, Needs(No), enters(Commit, false, No, 3)),
        (can, Needs(Yes), enters(Reboot, true, Yes, 3)),
        (
            cannot,
            Needs(Automatic),
            enters(Reboot, false, Automatic, 3),
        ),
        (can, Failed, enters(Rollback, true, No, 3)),
        (can, Fine, enters(Rollback, true, No, 3)),
    ] {
        assert_eq!(rt; next(&from, heard, true), step);
    }
    let kept = follows(fresh(), Cleanup, Kept, 2);
    let broken = follows(cannot, Failure, Inconsistent, 3);
    assert_eq!(rt; next(&fresh(), Failed, false), Step::Enter(kept));
    assert_eq!(rt; next(&fresh(), Fine, false), Step::Enter(kept));
    assert_eq!(rt; next(&cannot, Failed, false), Step::Enter(broken));
}

#[test]
fn after_open_states(rt: HostRuntime) {
    for (state, can, heard, to, outcome) in [
        (Reboot, true, Failed, Rollback, Undecided),
        (Reboot, false, Failed, Failure, Inconsistent),
        (VerifyReboot, true, Fine, Commit, Undecided),
        (VerifyReboot, false, Fine, Commit, Undecided),
        (VerifyReboot, true, Failed, Rollback, Undecided),
        (VerifyReboot, false, Failed, Failure, Inconsistent),
        (Commit, true, Fine, CommitLeave, Committed),
        (Commit, false, Fine, CommitLeave, Committed),
        (Commit, true, Failed, Rollback, Undecided),
        (Commit, false, Failed, Failure, Inconsistent),
        (Rollback, true, Fine, RollbackReboot, Undecided),
        (Rollback, true, Failed, Failure, Inconsistent),
        (VerifyRollbackReboot, true, Fine, Failure, RolledBack),
    ] {
        let from = at(state, Undecided, can, Automatic, 7);
        let to = follows(from, to, outcome, 8);
        assert_eq!(rt; next(&from, heard, false), Step::Enter(to));
        let last = Position { n: 28, ..from };
        let outcome = match outcome {
            Undecided => Inconsistent,
            decided => decided,
        };
        let end = follows(from, Idle, outcome, 28);
        assert_eq!(rt; next(&last, heard, false), Step::Enter(end));
    }
}

#[test]
fn after_other_open_states(rt: HostRuntime) {
    let can = at(VerifyReboot, Undecided, true, Yes, 4);
    let cannot = at(VerifyReboot, Undecided, false, Yes, 4);
    let back = at(Rollback, Undecided, true, No, 3);
    let done = follows(back, Failure, RolledBack, 4);
    let verifies = at(VerifyRollbackReboot, Undecided, true, Yes, 7);
    let end = at(Idle, Inconsistent, true, Yes, 28);
    assert_eq!(rt; next(&can, Fine, true), enters(Wait, true, Yes, 5));
    assert_eq!(rt; next(&cannot, Fine, true), enters(Commit, false, Yes, 5));
    assert_eq!(rt; next(&back, Fine, false), Step::Enter(done));
    assert_eq!(rt;
        next(&verifies, Failed, false),
        enters(RollbackReboot, true, Yes, 8)
    );
    let verifies = Position { n: 28, ..verifies };
    assert_eq!(rt; next(&verifies, Failed, false), Step::Enter(end));
    for (state, heard) in [
        (Reboot, Fine),
        (RollbackReboot, Fine),
        (RollbackReboot, Failed),
    ] {
        let from = at(state, Undecided, true, Yes, 3);
        assert_eq!(rt; next(&from, heard, false), Step::Stop);
    }
}

#[test]
fn after_decided_states(rt: HostRuntime) {
    for (state, outcome, to, n) in [
        (CommitLeave, Committed, Cleanup, 8),
        (Failure, RolledBack, Cleanup, 8),
        (Failure, Inconsistent, Cleanup, 8),
        (Cleanup, Kept, Idle, 7),
        (Cleanup, Committed, Idle, 7),
        (Cleanup, RolledBack, Idle, 7),
        (Cleanup, Inconsistent, Idle, 7),
    ] {
        let from = at(state, outcome, true, Yes, 7);
        let to = follows(from, to, outcome, n);
        assert_eq!(rt; next(&from, Fine, false), Step::Enter(to));
        assert_eq!(rt; next(&from, Failed, true), Step::Enter(to));
        let last = Position { n: 28, ..from };
        let end = follows(from, Idle, outcome, 28);
        assert_eq!(rt; next(&last, Fine, false), Step::Enter(end));
    }
}

#[test]
fn after_a_loss(rt: HostRuntime) {
    for (state, can, to, outcome) in [
        (Install, true, Rollback, Undecided),
        (Install, false, Failure, Inconsistent),
        (Reboot, true, VerifyReboot, Undecided),
        (Reboot, false, VerifyReboot, Undecided),
        (VerifyReboot, true, Rollback, Undecided),
        (VerifyReboot, false, Failure, Inconsistent),
        (Commit, true, Rollback, Undecided),
        (Commit, false, Failure, Inconsistent),
        (Rollback, true, Rollback, Undecided),
        (RollbackReboot, true, VerifyRollbackReboot, Undecided),
    ] {
        let from = at(state, Undecided, can, Yes, 2);
        let to = follows(from, to, outcome, 3);
        assert_eq!(rt; after_loss(&from), Some(to));
        let last = Position { n: 28, ..from };
        let end = follows(from, Idle, Inconsistent, 28);
        assert_eq!(rt; after_loss(&last), Some(end));
    }
    let kept = follows(fresh(), Cleanup, Kept, 2);
    assert_eq!(rt; after_loss(&fresh()), Some(kept));
}

#[test]
fn again_after_a_loss(rt: HostRuntime) {
    for (state, outcome, end) in [
        (CommitLeave, Committed, Committed),
        (VerifyRollbackReboot, Undecided, Inconsistent),
        (Failure, RolledBack, RolledBack),
        (Failure, Inconsistent, Inconsistent),
        (Cleanup, Kept, Kept),
        (Cleanup, Committed, Committed),
    ] {
        let from = at(state, outcome, true, Yes, 5);
        let again = follows(from, state, outcome, 6);
        assert_eq!(rt; after_loss(&from), Some(again));
        let last = Position { n: 28, ..from };
        let end = follows(from, Idle, end, 28);
        assert_eq!(rt; after_loss(&last), Some(end));
    }
    assert_eq!(rt; after_loss(&at(Wait, Undecided, true, No, 3)), None);
}

use super::{after_loss, at};
use crate::Opening::{Enter, MustResume, NoRollback, NoUpdate, Stay};
use crate::Outcome::{Committed, Inconsistent, Kept, RolledBack, Undecided};
use crate::Reboot::{No, Yes};
use crate::State::{
    Cleanup, Commit, CommitLeave, Download, Failure, Idle, Install, Reboot, Rollback,
    RollbackReboot, VerifyReboot, VerifyRollbackReboot, Wait,
};
use crate::{Order, first, fresh};

#[test]
fn orders_at_rest(rt: HostRuntime) {
    let kept = at(Idle, Kept, false, No, 2);
    let waiting = at(Wait, Undecided, true, No, 3);
    let last = at(Wait, Undecided, true, Yes, 28);
    let can = at(Reboot, Undecided, true, Yes, 3);
    let cannot = at(Reboot, Undecided, false, Yes, 3);
    let verifies = at(VerifyReboot, Undecided, true, Yes, 4);
    let commits = at(Commit, Undecided, true, No, 4);
    let rolls_back = at(Rollback, Undecided, true, No, 4);
    let broken = at(Idle, Inconsistent, true, Yes, 28);
    for (from, order, opening) in [
        (kept, Order::Resume, NoUpdate),
        (kept, Order::ResumeStop, NoUpdate),
        (kept, Order::Commit, NoUpdate),
        (kept, Order::Rollback, NoUpdate),
        (at(Idle, Undecided, false, No, 0), Order::Commit, NoUpdate),
        (waiting, Order::Resume, Enter(commits)),
        (waiting, Order::ResumeStop, Stay),
        (waiting, Order::Commit, Enter(commits)),
        (waiting, Order::Rollback, Enter(rolls_back)),
        (last, Order::Commit, Enter(broken)),
        (last, Order::Rollback, Enter(broken)),
        (can, Order::Resume, Enter(verifies)),
        (can, Order::ResumeStop, Enter(verifies)),
        (can, Order::Commit, Enter(verifies)),
        (
            can,
            Order::Rollback,
            Enter(at(Rollback, Undecided, true, Yes, 4)),
        ),
        (cannot, Order::Rollback, NoRollback(Reboot)),
    ] {
        assert_eq!(rt; first(&from, order), opening);
    }
}

#[test]
fn orders_while_calls_are_made(rt: HostRuntime) {
    for from in [
        fresh(),
        at(Install, Undecided, true, No, 2),
        at(VerifyReboot, Undecided, true, Yes, 4),
        at(Commit, Undecided, true, No, 3),
        at(CommitLeave, Committed, true, No, 4),
        at(Rollback, Undecided, true, No, 3),
        at(RollbackReboot, Undecided, true, Yes, 5),
        at(VerifyRollbackReboot, Undecided, true, Yes, 6),
        at(Failure, RolledBack, true, No, 4),
        at(Cleanup, Committed, true, No, 5),
    ] {
        let lost = after_loss(&from).map(Enter);
        assert_eq!(rt; Some(first(&from, Order::Resume)), lost);
        assert_eq!(rt; Some(first(&from, Order::ResumeStop)), lost);
        assert_eq!(rt; first(&from, Order::Commit), MustResume(from.state));
        assert_eq!(rt; first(&from, Order::Rollback), MustResume(from.state));
    }
}

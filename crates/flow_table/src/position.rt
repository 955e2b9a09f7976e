//! Where a deployment stands.

ghost use Rattle.std.specs.Prelude.{◌≡◌};

/// A state of the flow.
#[derive(Clone, Copy, Debug, PartialEq, Eq)]
pub enum State {
    Idle,
    Download,
    Install,
    Reboot,
    VerifyReboot,
    Commit,
    CommitLeave,
    Rollback,
    RollbackReboot,
    VerifyRollbackReboot,
    Failure,
    Cleanup,
    Wait,
}

/// What was decided so far.
#[derive(Clone, Copy, Debug, PartialEq, Eq)]
pub enum Outcome {
    Undecided,
    Kept,
    Committed,
    RolledBack,
    Inconsistent,
}

/// Whether a reboot is needed, and who makes it.
#[derive(Clone, Copy, Debug, PartialEq, Eq)]
pub enum Reboot {
    No,
    Yes,
    Automatic,
}

/// Where a deployment stands: what was decided, whether it can be undone, whether it reboots, and
/// how many states were entered.
#[derive(Clone, Copy, Debug, PartialEq, Eq)]
pub struct Position {
    pub state: State,
    pub outcome: Outcome,
    pub undoable: bool,
    pub reboot: Reboot,
    pub n: u8,
}

impl State {
    ghost use Rattle.flow_table.specs.Valid.{is_outcome, is_undoable, is_reboot, is_count};

    /// Whether a valid position in this state may have the outcome.
    #[tactic(auto, unfolding(crate::specs::Valid::is_outcome))]
    pub fn allows_outcome(self, outcome: Outcome) -> bool
        ensures { result ≡ is_outcome self outcome }
    {
        match self {
            State::Idle | State::Cleanup => !matches!(outcome, Outcome::Undecided),
            State::CommitLeave => matches!(outcome, Outcome::Committed),
            State::Failure => matches!(outcome, Outcome::RolledBack | Outcome::Inconsistent),
            _ => matches!(outcome, Outcome::Undecided),
        }
    }

    /// Whether a valid position in this state may be undoable, or not undoable.
    #[tactic(auto, unfolding(crate::specs::Valid::is_undoable))]
    pub fn allows_undoable(self, undoable: bool) -> bool
        ensures { result ≡ is_undoable self undoable }
    {
        match self {
            State::Download => !undoable,
            State::Rollback | State::RollbackReboot | State::VerifyRollbackReboot | State::Wait =>
                undoable,
            _ => true,
        }
    }

    /// Whether a valid position in this state may have the answer on reboots.
    #[tactic(auto, unfolding(crate::specs::Valid::is_reboot))]
    pub fn allows_reboot(self, reboot: Reboot) -> bool
        ensures { result ≡ is_reboot self reboot }
    {
        match self {
            State::Download | State::Install => matches!(reboot, Reboot::No),
            State::Reboot
            | State::VerifyReboot
            | State::RollbackReboot
            | State::VerifyRollbackReboot => !matches!(reboot, Reboot::No),
            _ => true,
        }
    }

    /// Whether a valid position in this state may have entered so many states.
    #[tactic(auto, unfolding(crate::specs::Valid::is_count))]
    pub fn allows_count(self, n: u8) -> bool
        ensures { result ≡ is_count self n }
    {
        match self {
            State::Download => n == 1,
            State::Install => n == 2,
            _ => 1 <= n && n <= 28,
        }
    }
}

//! The bytes of a position.

ghost use Rattle.std.specs.Prelude.{◌≡◌};
ghost use Rattle.record_codec.specs.Bytes.{state_byte, outcome_byte, reboot_byte};
ghost use Rattle.record_codec.specs.Spelling.{position_bytes};

use flow_table::{Outcome, Position, Reboot, State};

/// The states, outcomes, answers and reboots by their bytes in a record.
pub(crate) const STATES: [State; 13] = [
    State::Idle,
    State::Download,
    State::Install,
    State::Reboot,
    State::VerifyReboot,
    State::Commit,
    State::CommitLeave,
    State::Rollback,
    State::RollbackReboot,
    State::VerifyRollbackReboot,
    State::Failure,
    State::Cleanup,
    State::Wait,
];

pub(crate) const OUTCOMES: [Outcome; 5] = [
    Outcome::Undecided,
    Outcome::Kept,
    Outcome::Committed,
    Outcome::RolledBack,
    Outcome::Inconsistent,
];

pub(crate) const ANSWERS: [bool; 2] = [false, true];

pub(crate) const REBOOTS: [Reboot; 3] = [Reboot::No, Reboot::Yes, Reboot::Automatic];

#[tactic(auto, unfolding(crate::specs::Bytes::state_byte))]
fn state_byte(state: State) -> u8
    ensures { result ≡ state_byte state }
{
    state as u8
}

#[tactic(auto, unfolding(crate::specs::Bytes::outcome_byte))]
fn outcome_byte(outcome: Outcome) -> u8
    ensures { result ≡ outcome_byte outcome }
{
    outcome as u8
}

#[tactic(auto, unfolding(crate::specs::Bytes::reboot_byte))]
fn reboot_byte(reboot: Reboot) -> u8
    ensures { result ≡ reboot_byte reboot }
{
    reboot as u8
}

/// The five bytes of a position.
#[tactic(auto, unfolding(crate::specs::Spelling::position_bytes, crate::specs::Bytes::answer_byte))]
pub(crate) fn bytes_of(position: &Position) -> [u8; 5]
    ensures { result ≡ position_bytes position.now }
{
    [
        state_byte(position.state),
        outcome_byte(position.outcome),
        if position.undoable { 1 } else { 0 },
        reboot_byte(position.reboot),
        position.n,
    ]
}

//! States, outcomes and answers on reboots by their names.

ghost use Rattle.std.specs.Prelude.{◌≡◌, ◌≤◌, List, ℕ, Some, length};
ghost use Rattle.flow_table.specs.Names.{state_name, state_named, outcome_name, outcome_named, reboot_name, reboot_named};
ghost use Rattle.flow_table.specs.declared.position.State.{State};
ghost use Rattle.flow_table.specs.declared.position.Outcome.{Outcome};
ghost use Rattle.flow_table.specs.declared.position.Reboot.{Reboot};

use crate::position::{Outcome, Reboot, State};

const STATES: [State; 13] = [
    State::Idle,
    State::Download,
    State::Install,
    State::Reboot,
    State::VerifyReboot,
    State::Commit,
    State::CommitLeave,
    State::Rollback,
    State::RollbackReboot,
    State::VerifyRollbackReboot,
    State::Failure,
    State::Cleanup,
    State::Wait,
];

const OUTCOMES: [Outcome; 5] = [
    Outcome::Undecided,
    Outcome::Kept,
    Outcome::Committed,
    Outcome::RolledBack,
    Outcome::Inconsistent,
];

const REBOOTS: [Reboot; 3] = [Reboot::No, Reboot::Yes, Reboot::Automatic];

impl State {
    #[tactic(auto, unfolding(crate::specs::Names::state_name))]
    pub fn name(self) -> &'static str
        ensures text { result.now ≡ state_name self }
        ensures short { length result.now ≤ 32 }
    {
        match self {
            State::Idle => "Idle",
            State::Download => "Download",
            State::Install => "Install",
            State::Reboot => "Reboot",
            State::VerifyReboot => "VerifyReboot",
            State::Commit => "Commit",
            State::CommitLeave => "CommitLeave",
            State::Rollback => "Rollback",
            State::RollbackReboot => "RollbackReboot",
            State::VerifyRollbackReboot => "VerifyRollbackReboot",
            State::Failure => "Failure",
            State::Cleanup => "Cleanup",
            State::Wait => "Wait",
        }
    }

    /// The state that a text names.
    pub fn read(text: &[u8]) -> Option<State>
        ensures { result ≡ state_named text.now }
    {
        STATES
            .iter()
            .copied()
            .find(|state| text == state.name().as_bytes())
    }
}

impl Outcome {
    #[tactic(auto, unfolding(crate::specs::Names::outcome_name))]
    pub fn name(self) -> &'static str
        ensures text { result.now ≡ outcome_name self }
        ensures short { length result.now ≤ 32 }
    {
        match self {
            Outcome::Undecided => "Undecided",
            Outcome::Kept => "Kept",
            Outcome::Committed => "Committed",
            Outcome::RolledBack => "RolledBack",
            Outcome::Inconsistent => "Inconsistent",
        }
    }

    /// The outcome that a text names.
    pub fn read(text: &[u8]) -> Option<Outcome>
        ensures { result ≡ outcome_named text.now }
    {
        OUTCOMES
            .iter()
            .copied()
            .find(|outcome| text == outcome.name().as_bytes())
    }
}

impl Reboot {
    #[tactic(auto, unfolding(crate::specs::Names::reboot_name))]
    pub fn name(self) -> &'static str
        ensures text { result.now ≡ reboot_name self }
        ensures short { length result.now ≤ 32 }
    {
        match self {
            Reboot::No => "No",
            Reboot::Yes => "Yes",
            Reboot::Automatic => "Automatic",
        }
    }

    /// The answer that a text names.
    pub fn read(text: &[u8]) -> Option<Reboot>
        ensures { result ≡ reboot_named text.now }
    {
        REBOOTS
            .iter()
            .copied()
            .find(|reboot| text == reboot.name().as_bytes())
    }
}

/// What is read of a name is what it names, and nothing else is read.
pub fn names_are_read()
    ensures states { (state : State) → state_named (state_name state) ≡ Some state }
    ensures only_states { (text : List ℕ) (state : State) → state_named text ≡ Some state → text ≡ state_name state }
    ensures outcomes { (outcome : Outcome) → outcome_named (outcome_name outcome) ≡ Some outcome }
    ensures only_outcomes { (text : List ℕ) (outcome : Outcome) → outcome_named text ≡ Some outcome → text ≡ outcome_name outcome }
    ensures reboots { (reboot : Reboot) → reboot_named (reboot_name reboot) ≡ Some reboot }
    ensures only_reboots { (text : List ℕ) (reboot : Reboot) → reboot_named text ≡ Some reboot → text ≡ reboot_name reboot }
{}

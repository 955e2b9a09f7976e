//! What each state does: a row of the table of states.

ghost use Rattle.std.specs.Prelude.{◌≡◌, Some, None};
ghost use Rattle.flow_words.specs.Rows.{row_of, a_row, checked, ignored, counts, counts_every, passes, reboot_child, rollback_reboot_child};

use crate::mode::Mode;
use device_model::{ModState, Query};
use flow_table::{Position, Reboot, State};
use script_names::Stage;

/// The scripts that a state runs, and how.
#[derive(Clone, Copy, Debug, PartialEq, Eq)]
pub struct StageRun {
    pub stage: Stage,
    pub mode: Mode,
}

/// What a state calls.
#[derive(Clone, Copy, Debug, PartialEq, Eq)]
pub enum Child {
    Module(ModState),
    SystemReboot,
}

/// Which modules a main call calls, one for each payload, and what a failure means.
#[derive(Clone, Copy, Debug, PartialEq, Eq)]
pub enum MainMode {
    /// Up to and with the first that fails, and then the call fails.
    Checked,
    /// Every one, and the call fails where one fails.
    Every,
    /// Every one, and the call never fails.
    Ignored,
}

/// The main call of a state.
#[derive(Clone, Copy, Debug, PartialEq, Eq)]
pub struct Main {
    pub child: Child,
    pub mode: MainMode,
}

/// What a state does, in this order; the Error scripts run after a failure, which skips what is left. A step without an
/// entry is empty.
#[derive(Clone, Copy, Debug, PartialEq, Eq)]
pub struct Row {
    pub enter: Option<StageRun>,
    pub main: Option<Main>,
    pub query: Option<Query>,
    pub leave: Option<StageRun>,
    pub error: Option<Stage>,
}

/// A state that calls nothing.
const NOTHING: Row = Row {
    enter: None,
    main: None,
    query: None,
    leave: None,
    error: None,
};

fn checked(stage: Stage) -> Option<StageRun>
    ensures { result ≡ checked stage }
{
    Some(StageRun {
        stage,
        mode: Mode::Checked,
    })
}

fn ignored(stage: Stage) -> Option<StageRun>
    ensures { result ≡ ignored stage }
{
    Some(StageRun {
        stage,
        mode: Mode::Ignored,
    })
}

fn counts(child: Child) -> Option<Main>
    ensures { result ≡ counts child }
{
    Some(Main {
        child,
        mode: MainMode::Checked,
    })
}

fn counts_every(child: Child) -> Option<Main>
    ensures { result ≡ counts_every child }
{
    Some(Main {
        child,
        mode: MainMode::Every,
    })
}

fn passes(child: Child) -> Option<Main>
    ensures { result ≡ passes child }
{
    Some(Main {
        child,
        mode: MainMode::Ignored,
    })
}

// The client itself reboots the device where the module asked for that; else the module does.
fn reboot_child(reboot: Reboot) -> Child
    ensures { result ≡ reboot_child reboot }
{
    match reboot {
        Reboot::Automatic => Child::SystemReboot,
        _ => Child::Module(ModState::ArtifactReboot),
    }
}

fn rollback_reboot_child(reboot: Reboot) -> Child
    ensures { result ≡ rollback_reboot_child reboot }
{
    match reboot {
        Reboot::Automatic => Child::SystemReboot,
        _ => Child::Module(ModState::ArtifactRollbackReboot),
    }
}

// Scripts before and behind the main call and its question, and Error scripts, all of one stage.
fn asking(stage: Stage, state: ModState, query: Query) -> Row
    ensures { result ≡ a_row (checked stage) (counts (Child.Module state)) (Some query) (checked stage) (Some stage) }
{
    Row {
        enter: checked(stage),
        main: counts(Child::Module(state)),
        query: Some(query),
        leave: checked(stage),
        error: Some(stage),
    }
}

// Scripts before the main call, and Error scripts.
fn entering(stage: Stage, child: Child) -> Row
    ensures { result ≡ a_row (checked stage) (counts child) None None (Some stage) }
{
    Row {
        enter: checked(stage),
        main: counts(child),
        error: Some(stage),
        ..NOTHING
    }
}

// A main call, and scripts behind it.
fn leaving(state: ModState, leave: Option<StageRun>, error: Option<Stage>) -> Row
    ensures { result ≡ a_row None (counts (Child.Module state)) None leave error }
{
    Row {
        main: counts(Child::Module(state)),
        leave,
        error,
        ..NOTHING
    }
}

// A main call, and scripts around it whose answers are ignored.
fn around(stage: Stage, main: Option<Main>) -> Row
    ensures { result ≡ a_row (ignored stage) main None (ignored stage) None }
{
    Row {
        enter: ignored(stage),
        main,
        leave: ignored(stage),
        ..NOTHING
    }
}

// A main call whose answers are ignored, maybe with scripts before it.
fn passing(enter: Option<StageRun>, child: Child) -> Row
    ensures { result ≡ a_row enter (passes child) None None None }
{
    Row {
        enter,
        main: passes(child),
        ..NOTHING
    }
}

/// What is done at a position.
pub fn row_at(p: &Position) -> Row
    ensures { result ≡ row_of p.now }
{
    use Child::Module;
    match p.state {
        State::Idle | State::Wait => NOTHING,
        State::Download => asking(Stage::Download, ModState::Download, Query::SupportsRollback),
        State::Install => asking(
            Stage::Install,
            ModState::ArtifactInstall,
            Query::NeedsArtifactReboot,
        ),
        State::Reboot => entering(Stage::Reboot, reboot_child(p.reboot)),
        State::VerifyReboot => leaving(
            ModState::ArtifactVerifyReboot,
            checked(Stage::Reboot),
            Some(Stage::Reboot),
        ),
        State::Commit => entering(Stage::Commit, Module(ModState::ArtifactCommit)),
        State::CommitLeave => Row {
            leave: ignored(Stage::Commit),
            ..NOTHING
        },
        State::Rollback => around(
            Stage::Rollback,
            counts_every(Module(ModState::ArtifactRollback)),
        ),
        State::RollbackReboot => passing(
            ignored(Stage::RollbackReboot),
            rollback_reboot_child(p.reboot),
        ),
        State::VerifyRollbackReboot => leaving(
            ModState::ArtifactVerifyRollbackReboot,
            ignored(Stage::RollbackReboot),
            None,
        ),
        State::Failure => around(Stage::Failure, passes(Module(ModState::ArtifactFailure))),
        State::Cleanup => passing(None, Module(ModState::Cleanup)),
    }
}

//! How scripts are run.

/// How the scripts of a place are run.
#[derive(Clone, Copy, Debug, PartialEq, Eq)]
pub enum Mode {
    /// A script is started again while it asks for that. The first that isn't good ends the run.
    Checked,
    /// The same, but no answer ends the run.
    Ignored,
    /// Each script is started one time, and no answer ends the run.
    Once,
}

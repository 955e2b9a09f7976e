//! What a device brings to an artifact.

use crate::script::ScriptList;
use upd_text::Name;

/// The device's type and its own scripts. They are scripts of the stage Download alone; this is the
/// caller's condition wherever a site is taken.
#[derive(Drop)]
pub struct Site {
    pub device_type: Name,
    pub scripts: ScriptList,
}

//! The paths of a data folder.

ghost use Rattle.std.specs.Prelude.{◌≡◌, IfOk, string_bytes};
ghost use Rattle.host_edge.specs.Paths.{in_folder, script_path};

use crate::files::{joined, named_in};
use device_model::Part;
use std::alloc::{AllocError, Global};
use std::io::{self, ErrorKind};

/// How many parts the work folder has for modules.
const TREES: u32 = 8;

/// The paths of a data folder, each absolute, made once.
#[derive(Drop)]
pub struct Paths {
    pub folder: String,
    pub store: String,
    pub work: String,
    /// The folders of the work folder: that of each module, by the payload's number, and behind them the artifact's scripts.
    pub parts: Vec<String>,
    /// The artifact's scripts.
    pub work_scripts: String,
    modules: String,
    scripts: String,
    reboot: String,
    pub reply: String,
}

fn part_paths(alloc: Global, work: &str, scripts: &str) -> Result<Vec<String>, AllocError> {
    let mut parts = Vec::new(alloc);
    for payload in 0..TREES {
        let name = format!(in alloc; "{payload:04}")?;
        parts.push(joined(alloc, work, name.as_str())?)?;
    }
    parts.push(String::from_str(alloc, scripts)?)?;
    Ok(parts)
}

impl Paths {
    /// The paths below an absolute one.
    pub fn below(alloc: Global, folder: &str) -> Result<Paths, AllocError> {
        let work = joined(alloc, folder, "work")?;
        let work_scripts = joined(alloc, work.as_str(), "scripts")?;
        Ok(Paths {
            folder: String::from_str(alloc, folder)?,
            store: joined(alloc, folder, "store")?,
            parts: part_paths(alloc, work.as_str(), work_scripts.as_str())?,
            work_scripts,
            work,
            modules: joined(alloc, folder, "modules/v3")?,
            scripts: joined(alloc, folder, "scripts")?,
            reboot: joined(alloc, folder, "reboot")?,
            reply: joined(alloc, folder, "reply")?,
        })
    }

    /// The folders of the modules, by the payload's number.
    pub fn trees(&self) -> &[String] {
        match self.parts.as_slice() {
            [trees @ .., _scripts] => trees,
            [] => &[],
        }
    }

    /// The folder of a payload's module.
    pub fn tree(&self, payload: u8) -> io::Result<&str> {
        match self.trees().get(usize::from(payload)) {
            Some(tree) => Ok(tree.as_str()),
            None => Err(io::Error::from(ErrorKind::InvalidInput)),
        }
    }

    /// The folder of a part of the work folder.
    pub fn part(&self, part: Part) -> io::Result<&str> {
        match part {
            Part::Tree(payload) => self.tree(payload),
            Part::Scripts => Ok(self.work_scripts.as_str()),
        }
    }

    /// The folder of the device's own scripts.
    pub fn scripts(&self) -> &str {
        self.scripts.as_str()
    }

    /// The shell script that reboots the system.
    pub fn reboot(&self) -> &str {
        self.reboot.as_str()
    }

    /// The program of a payload type.
    pub fn module(&self, alloc: Global, kind: &[u8]) -> io::Result<String>
        ensures { IfOk result (λ path. string_bytes path ≡ in_folder (string_bytes self.now.modules) kind.now) }
    {
        named_in(alloc, self.modules.as_str(), kind)
    }

    /// A script: one of Download stands on the device, each other in the work folder.
    pub fn script(&self, alloc: Global, name: &[u8]) -> io::Result<String>
        ensures { IfOk result (λ path. string_bytes path ≡ script_path (string_bytes self.now.scripts) (string_bytes self.now.work_scripts) name.now) }
    {
        let folder = if name.starts_with(b"Download_") {
            self.scripts.as_str()
        } else {
            self.work_scripts.as_str()
        };
        named_in(alloc, folder, name)
    }
}

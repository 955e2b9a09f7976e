//! What the device says of itself.

ghost use Rattle.std.specs.Prelude.{◌≡◌};

use crate::failure::Failures;
use crate::fault::HostFault;
use crate::files::{joined, named_in, names_in, read_start};
use crate::paths::Paths;
use script_names::{AddFault, ScriptList, ScriptName, Site, Stage};
use std::alloc::Global;
use std::io::{self, ErrorKind};
use std::rt::Files;
use upd_text::{Name, read_device_type};

/// The device's type, from the first line of the file `device_type` of the data folder, and its own scripts.
/// What can't be had is noted.
pub fn site_of<R: Files>(
    rt: &R,
    alloc: Global,
    paths: &Paths,
    noted: &mut Failures,
) -> Result<Site, HostFault>
    ensures { noted.new.count ≡ noted.old.count }
{
    let names = match script_names_of(rt, alloc, paths.scripts()) {
        Ok(names) => names,
        Err(error) => return Err(noted.refuse(alloc, paths.scripts(), error, HostFault::NoFolder)),
    };
    let path = joined(alloc, paths.folder.as_str(), "device_type")?;
    let device_type = type_of(rt, alloc, path.as_str(), noted)?;
    let mut scripts = ScriptList::new(alloc);
    for name in names.as_slice() {
        add_script(rt, alloc, paths.scripts(), name.as_slice(), &mut scripts)?;
    }
    Ok(Site {
        device_type,
        scripts,
    })
}

fn type_of<R: Files>(
    rt: &R,
    alloc: Global,
    path: &str,
    noted: &mut Failures,
) -> Result<Name, HostFault>
    ensures { noted.new.count ≡ noted.old.count }
{
    // The longest right line has 140 bytes.
    let mut text = [0; 256];
    let size = match read_start(rt, path, &mut text) {
        Ok(size) => size,
        Err(error) => return Err(noted.refuse(alloc, path, error, HostFault::NoDeviceType)),
    };
    match read_device_type(&text[..size]) {
        Some(device_type) => Ok(device_type),
        None => Err(noted.refuse(alloc, path, bad_line(), HostFault::BadDeviceType)),
    }
}

fn bad_line() -> io::Error {
    io::Error::new(
        ErrorKind::InvalidData,
        "its first line isn't device_type= and a name",
    )
}

/// The names in the folder of scripts, which may be absent, and may be a link to a folder.
fn script_names_of<R: Files>(rt: &R, alloc: Global, folder: &str) -> io::Result<Vec<Vec<u8>>> {
    let inside = joined(alloc, folder, "")?;
    match names_in(rt, alloc, inside.as_str()) {
        Err(error) if error.kind() == ErrorKind::NotFound => Ok(Vec::new(alloc)),
        names => names,
    }
}

/// Adds a script, where the name is that of a Download script and stands for no folder.
fn add_script<R: Files>(
    rt: &R,
    alloc: Global,
    folder: &str,
    name: &[u8],
    scripts: &mut ScriptList,
) -> Result<(), HostFault> {
    let Some(script) = script_of(name) else {
        return Ok(());
    };
    if is_folder(rt, alloc, folder, name)? {
        return Ok(());
    }
    match scripts.add(script) {
        Ok(()) => Ok(()),
        Err(AddFault::Full) => Err(HostFault::TooManyScripts),
        // the names of a folder differ
        Err(AddFault::Doubled) => Ok(()),
        Err(AddFault::NoMemory) => Err(HostFault::NoMemory),
    }
}

/// The script of this name, where it is one of Download.
fn script_of(name: &[u8]) -> Option<ScriptName> {
    let name = Name::read(name).ok()?;
    let script = ScriptName::read(&name)?;
    match script.place().stage {
        Stage::Download => Some(script),
        _ => None,
    }
}

/// Whether a folder has this name, or a link to one. A name that isn't text can't be looked at.
fn is_folder<R: Files>(
    rt: &R,
    alloc: Global,
    folder: &str,
    name: &[u8],
) -> Result<bool, HostFault> {
    match named_in(alloc, folder, name) {
        Ok(path) => Ok(rt.metadata(path.as_str()).is_ok_and(|kind| kind.is_dir())),
        Err(error) if error.kind() == ErrorKind::OutOfMemory => Err(HostFault::NoMemory),
        Err(_) => Ok(false),
    }
}

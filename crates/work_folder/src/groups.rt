//! The files of the payloads, and the scripts.

ghost use Rattle.std.specs.Prelude.{◌≡◌, ◌≤◌, ◌++◌, length};
ghost use Rattle.upd_text.specs.Text.{IsName};
ghost use Rattle.work_folder.specs.Rows.{target_of};

use admit::{TreePlace, place_of};
use arrayvec::ArrayVec;
use device_model::Part;
use upd_text::Name;

/// Which files of the artifact go into the folder under their own names.
#[derive(Clone, Copy, Debug, PartialEq, Eq)]
pub(crate) enum Group {
    Payload,
    Scripts,
}

/// The name of these bytes.
pub(crate) fn name(text: &[u8]) -> Name
    requires { IsName text.now }
    ensures { result ≡ text.now }
{
    Name::read(text).ok().unwrap()
}

fn joined(front: &[u8], back: &[u8]) -> ArrayVec<u8, 128>
    requires { length (front.now ++ back.now) ≤ 128 }
    ensures { result.items ≡ front.now ++ back.now }
{
    let mut text = ArrayVec::new();
    if text.try_extend_from_slice(front).is_err() {
        return text;
    }
    match text.try_extend_from_slice(back) {
        Ok(()) => text,
        Err(_) => text,
    }
}

/// Where a file goes, if it is of the group.
pub(crate) fn target_of(group: Group, path: &Name) -> Option<(Part, Name)>
    ensures { result ≡ target_of group path.now }
{
    // The prover learns from it that the path is a name, so that the target is short enough.
    let _name = path.bytes();
    match (group, place_of(path)) {
        (Group::Payload, TreePlace::Payload(k, file)) => {
            let text = joined(b"files/", file.bytes());
            Some((Part::Tree(k), name(text.as_slice())))
        }
        (Group::Scripts, TreePlace::Script(script)) => Some((Part::Scripts, script)),
        _ => None,
    }
}

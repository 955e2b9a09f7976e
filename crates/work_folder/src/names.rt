//! The list of a payload's files.

ghost use Rattle.std.specs.Prelude.{◌≡◌, ◌∷◌, ◌++◌, [], ℕ, List, Some, None, codes, IfErr, OnOk, MatchOption};
ghost use Rattle.io_model.specs.Source.{Content};
ghost use Rattle.device_model.specs.declared.calls.Part.TheVariants.{Tree};
ghost use Rattle.device_model.specs.Work.{with_bytes};
ghost use Rattle.device_model.specs.State.{after_work};
ghost use Rattle.admit.specs.Places.{place_of, payload_at};
ghost use Rattle.work_folder.specs.Rows.{Names, name_in, payload_names};
ghost use Rattle.work_folder.specs.Prepare.{IsReady, Touches, IsOfDevice, prepare_how};
ghost use Rattle.work_folder.specs.Adding.{Adds, IsLast, IsNext};

use crate::append::append;
use crate::fault::PrepareFault;
use crate::groups::name;
use admit::payload_name;
use device_model::{Device, Part};
use manifest_sums::Line;
use upd_text::Name;

/// The first of the two names that is above the last one.
fn nearer<'a>(best: Option<&'a [u8]>, last: &[u8], name: &'a [u8]) -> Option<&'a [u8]>
    ensures { (names : List (List ℕ)) → MatchOption best.entry (IsLast names last.now) (λ next. IsNext names last.now next.now) → MatchOption result (IsLast (names ++ name.now ∷ []) last.now) (λ next. IsNext (names ++ name.now ∷ []) last.now next.now) }
{
    if !last.cmp(name).is_lt() {
        return best;
    }
    match best {
        None => Some(name),
        Some(next) => {
            if name.cmp(next).is_lt() {
                Some(name)
            } else {
                Some(next)
            }
        }
    }
}

/// The name of a file of payload k.
fn name_in(k: u8, path: &Name) -> Option<&[u8]>
    ensures { MatchOption result (name_in k (payload_at (place_of path.now)) ≡ None) (λ name. name_in k (payload_at (place_of path.now)) ≡ Some name.now) }
{
    match payload_name(path) {
        Some((j, name)) => { if j == k { Some(name) } else { None } }
        None => None,
    }
}

/// The first name above the last one, of a file of payload k.
fn next_name<'a>(lines: &'a [Line], k: u8, last: &[u8]) -> Option<&'a [u8]>
    ensures { MatchOption result (IsLast (payload_names k lines.now) last.now) (λ next. IsNext (payload_names k lines.now) last.now next.now) }
{
    let mut best = None;
    for line in lines {
        if let Some(name) = name_in(k, &line.path) {
            best = nearer(best, last, name);
        }
    }
    best
}

/// Adds a name and a newline, in the folder of payload k.
#[tactic(auto, using(crate::proofs::Steps::touches_then))]
fn put_name<D: Device>(device: &mut D, k: u8, path: &Name, name: &[u8]) -> Result<(), PrepareFault>
    requires { IsReady (D.means device.old) }
    ensures plan { D.plan device.new ≡ D.plan device.old }
    ensures touches { Touches (prepare_how result) (D.means device.old) (D.means device.new) }
    ensures ready { OnOk result (IsReady (D.means device.new)) }
    ensures cause { IfErr result IsOfDevice }
    ensures done { OnOk result (D.means device.new ≡ after_work (with_bytes (Tree k) path.now (name.now ++ 10 ∷ [])) (D.means device.old)) }
{
    append(device, Part::Tree(k), path, name)?;
    append(device, Part::Tree(k), path, b"\n")?;
    Ok(())
}

/// The names of the files of payload k in byte order, a newline behind each.
#[tactic(auto, using(crate::proofs::Steps::touches_then), unfolding(upd_text::specs::Text::name_of))]
pub(crate) fn put_names<D: Device>(
    device: &mut D,
    k: u8,
    lines: &[Line],
) -> Result<(), PrepareFault>
    requires { IsReady (D.means device.old) }
    ensures plan { D.plan device.new ≡ D.plan device.old }
    ensures touches { Touches (prepare_how result) (D.means device.old) (D.means device.new) }
    ensures ready { OnOk result (IsReady (D.means device.new)) }
    ensures cause { IfErr result IsOfDevice }
    ensures done { (content : Content) → OnOk result (Adds content (Names (Tree k) (codes "header/files") (payload_names k lines.now) ∷ []) (D.means device.old) (D.means device.new)) }
{
    let path = name(b"header/files");
    append(device, Part::Tree(k), &path, &[])?;
    let mut last: &[u8] = &[];
    'names: while let Some(next) = next_name(lines, k, last) {
        put_name(device, k, &path, next)?;
        last = next;
    }
    Ok(())
}

//! The calls of a place, with the module's own answers.

ghost use Rattle.std.specs.Prelude.{◌≡◌, true, [], length, Some, None, option_map, IfOk, IfErr, OnOk};
ghost use Rattle.file_module.specs.Contents.{content, InContent, IsThere, WhenTold, with_append, with_settle};
ghost use Rattle.file_module.specs.Calls.{Gives};
ghost use Rattle.file_module.specs.Answers.{act_of, IsOfPlace, TouchesFresh, SetsTarget, SetsSaved, Untouched};

use crate::answer::Stop;
use crate::place::{Place, Slot};
use device_model::Down;

pub(crate) fn length<P: Place>(place: &mut P, slot: Slot) -> Result<Option<u64>, Stop>
    requires { (P.means place.old).on ≡ true }
    ensures touches { TouchesFresh (act_of result) (P.means place.old) (P.means place.new) }
    ensures cause { IfErr result IsOfPlace }
    ensures same { OnOk result (P.means place.new ≡ P.means place.old) }
    ensures untouched { Untouched (act_of result) (P.means place.old) (P.means place.new) }
    ensures value { IfOk result (λ n. WhenTold (P.means place.old) (n ≡ option_map length (content slot (P.means place.old)))) }
    ensures regular { OnOk result (WhenTold (P.means place.old) (slot ≡ Slot.Target → (P.means place.old).regular ≡ true)) }
{
    match place.length(slot) {
        Ok(count) => Ok(count),
        Err(Down::Off) => Err(Stop::Off),
        Err(Down::Fault) => Err(Stop::DiskFault),
    }
}

pub(crate) fn read<P: Place>(
    place: &mut P,
    slot: Slot,
    at: u64,
    into: &mut [u8],
) -> Result<(), Stop>
    requires on { (P.means place.old).on ≡ true }
    requires inside { WhenTold (P.means place.old) (InContent at (length into.old) (content slot (P.means place.old))) }
    ensures touches { TouchesFresh (act_of result) (P.means place.old) (P.means place.new) }
    ensures cause { IfErr result IsOfPlace }
    ensures same { OnOk result (P.means place.new ≡ P.means place.old) }
    ensures untouched { Untouched (act_of result) (P.means place.old) (P.means place.new) }
    ensures same_length { length into.new ≡ length into.old }
    ensures bytes { OnOk result (WhenTold (P.means place.old) (Gives (content slot (P.means place.old)) at into.new)) }
{
    match place.read(slot, at, into) {
        Ok(()) => Ok(()),
        Err(Down::Off) => Err(Stop::Off),
        Err(Down::Fault) => Err(Stop::DiskFault),
    }
}

pub(crate) fn start<P: Place>(place: &mut P) -> Result<(), Stop>
    requires { (P.means place.old).on ≡ true }
    ensures touches { TouchesFresh (act_of result) (P.means place.old) (P.means place.new) }
    ensures cause { IfErr result IsOfPlace }
    ensures empty { OnOk result (WhenTold (P.means place.old) ((P.means place.new).fresh ≡ Some [])) }
    ensures there { OnOk result (WhenTold (P.means place.new) (IsThere (P.means place.new).fresh)) }
{
    match place.start() {
        Ok(()) => Ok(()),
        Err(Down::Off) => Err(Stop::Off),
        Err(Down::Fault) => Err(Stop::DiskFault),
    }
}

pub(crate) fn append<P: Place>(place: &mut P, bytes: &[u8]) -> Result<(), Stop>
    requires on { (P.means place.old).on ≡ true }
    requires there { WhenTold (P.means place.old) (IsThere (P.means place.old).fresh) }
    ensures touches { TouchesFresh (act_of result) (P.means place.old) (P.means place.new) }
    ensures cause { IfErr result IsOfPlace }
    ensures done { OnOk result (P.means place.new ≡ with_append bytes.now (P.means place.old)) }
{
    match place.append(bytes) {
        Ok(()) => Ok(()),
        Err(Down::Off) => Err(Stop::Off),
        Err(Down::Fault) => Err(Stop::DiskFault),
    }
}

pub(crate) fn settle<P: Place>(place: &mut P) -> Result<(), Stop>
    requires { (P.means place.old).on ≡ true }
    ensures touches { TouchesFresh (act_of result) (P.means place.old) (P.means place.new) }
    ensures cause { IfErr result IsOfPlace }
    ensures done { OnOk result (P.means place.new ≡ with_settle (P.means place.old)) }
{
    match place.settle() {
        Ok(()) => Ok(()),
        Err(Down::Off) => Err(Stop::Off),
        Err(Down::Fault) => Err(Stop::DiskFault),
    }
}

pub(crate) fn move_to_target<P: Place>(place: &mut P) -> Result<(), Stop>
    requires on { (P.means place.old).on ≡ true }
    requires there { WhenTold (P.means place.old) (IsThere (P.means place.old).fresh) }
    requires settled { (P.means place.old).settled ≡ true }
    ensures sets { SetsTarget (act_of result) (P.means place.old).fresh (P.means place.old) (P.means place.new) }
    ensures cause { IfErr result IsOfPlace }
{
    match place.move_to(Slot::Target) {
        Ok(()) => Ok(()),
        Err(Down::Off) => Err(Stop::Off),
        Err(Down::Fault) => Err(Stop::DiskFault),
    }
}

pub(crate) fn move_to_saved<P: Place>(place: &mut P) -> Result<(), Stop>
    requires on { (P.means place.old).on ≡ true }
    requires there { WhenTold (P.means place.old) (IsThere (P.means place.old).fresh) }
    requires settled { (P.means place.old).settled ≡ true }
    ensures sets { SetsSaved (act_of result) (P.means place.old).fresh (P.means place.old) (P.means place.new) }
    ensures cause { IfErr result IsOfPlace }
{
    match place.move_to(Slot::Saved) {
        Ok(()) => Ok(()),
        Err(Down::Off) => Err(Stop::Off),
        Err(Down::Fault) => Err(Stop::DiskFault),
    }
}

pub(crate) fn remove_target<P: Place>(place: &mut P) -> Result<(), Stop>
    requires { (P.means place.old).on ≡ true }
    ensures sets { SetsTarget (act_of result) None (P.means place.old) (P.means place.new) }
    ensures cause { IfErr result IsOfPlace }
{
    match place.remove(Slot::Target) {
        Ok(()) => Ok(()),
        Err(Down::Off) => Err(Stop::Off),
        Err(Down::Fault) => Err(Stop::DiskFault),
    }
}

pub(crate) fn remove_saved<P: Place>(place: &mut P) -> Result<(), Stop>
    requires { (P.means place.old).on ≡ true }
    ensures sets { SetsSaved (act_of result) None (P.means place.old) (P.means place.new) }
    ensures cause { IfErr result IsOfPlace }
{
    match place.remove(Slot::Saved) {
        Ok(()) => Ok(()),
        Err(Down::Off) => Err(Stop::Off),
        Err(Down::Fault) => Err(Stop::DiskFault),
    }
}

pub(crate) fn remove_fresh<P: Place>(place: &mut P) -> Result<(), Stop>
    requires { (P.means place.old).on ≡ true }
    ensures touches { TouchesFresh (act_of result) (P.means place.old) (P.means place.new) }
    ensures cause { IfErr result IsOfPlace }
    ensures done { OnOk result ((P.means place.new).fresh ≡ None) }
{
    match place.remove(Slot::Fresh) {
        Ok(()) => Ok(()),
        Err(Down::Off) => Err(Stop::Off),
        Err(Down::Fault) => Err(Stop::DiskFault),
    }
}

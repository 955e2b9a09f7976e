//! The top calls.

ghost use Rattle.std.specs.Prelude.{◌≡◌, ◌≤◌, true, [], Ok};
ghost use Rattle.client_words.specs.Forms.{command_of};
ghost use Rattle.client_top.specs.Asked.{asked_at, command_word};
ghost use Rattle.client_top.specs.Did.{Obeyed};

use crate::act::{Deed, act};
use crate::show::show;
use crate::status::{Good, Status};
use crate::tell::tell;
use client_words::{Command, UsageFault, data_dir, read_words, traced};
use device_model::{Device, ROOM};
use io_model::{Sink, Source};
use script_names::Site;
use std::alloc::Global;

/// What is asked for. Nothing is simulated here: the word that says so, at this index, is no command.
pub(crate) fn asked(command: Result<Command, UsageFault>, word: u32) -> Result<Command, UsageFault>
    ensures { result ≡ asked_at word command }
{
    match command {
        Ok(Command::Simulate { .. }) => Err(UsageFault::UnknownCommand(word)),
        command => command,
    }
}

/// The index of the word of the command.
pub(crate) fn command_word(words: &[String]) -> u32
    ensures { result ≡ command_word words.now }
{
    let behind_dir = match data_dir(words) {
        Some(_) => 2,
        None => 0,
    };
    if traced(words) {
        behind_dir + 1
    } else {
        behind_dir
    }
}

/// Does what is asked, and tells it.
pub(crate) fn answer<S: Source, O: Sink, D: Device>(
    alloc: Global,
    asked: Result<Command, UsageFault>,
    site: &Site,
    source: &mut S,
    out: &mut O,
    device: &mut D,
) -> Status
    requires on { (D.means device.old).on ≡ true }
    requires room { ROOM ≤ (D.means device.old).room }
    ensures plan { D.plan device.new ≡ D.plan device.old }
    ensures tree { S.content source.new ≡ S.content source.old }
    ensures source { S.plan source.new ≡ S.plan source.old }
    ensures obeyed { Obeyed (record { command = asked; site = site.now; content = S.content source.old }) (D.means device.old) (D.means device.new) (record { faults = S.faults source.old; given = S.given source.old }) (record { faults = S.faults source.new; given = S.given source.new }) (O.means out.old) (O.means out.new) result }
{
    match act(alloc, asked, site, source, device) {
        Deed::Show(store) => match show(out, asked, store.db()) {
            Ok(()) => Status::Done(Good::Shown),
            Err(_) => Status::SinkFault,
        },
        Deed::Tell(status) => match tell(out, &status) {
            Ok(()) => status,
            Err(_) => Status::SinkFault,
        },
    }
}

/// Does what a command says, and tells it to the sink. `site` is the device's own type and scripts, `source` the tree of
/// `Install` and `Check`. `Simulate` is answered as an unknown command at word 0. Conditions: the device is on, its journal
/// is empty, and it has room for `ROOM` events.
pub fn obey<S: Source, O: Sink, D: Device>(
    alloc: Global,
    command: Command,
    site: &Site,
    source: &mut S,
    out: &mut O,
    device: &mut D,
) -> Status
    requires on { (D.means device.old).on ≡ true }
    requires fresh { (D.means device.old).journal ≡ [] }
    requires room { ROOM ≤ (D.means device.old).room }
    ensures plan { D.plan device.new ≡ D.plan device.old }
    ensures tree { S.content source.new ≡ S.content source.old }
    ensures source { S.plan source.new ≡ S.plan source.old }
    ensures obeyed { Obeyed (record { command = asked_at 0 (Ok command); site = site.now; content = S.content source.old }) (D.means device.old) (D.means device.new) (record { faults = S.faults source.old; given = S.given source.old }) (record { faults = S.faults source.new; given = S.given source.new }) (O.means out.old) (O.means out.new) result }
{
    answer(alloc, asked(Ok(command), 0), site, source, out, device)
}

/// Does what the words say, and tells it to the sink. `site` is the device's own type and scripts, `source` the tree that the
/// words name. `simulate` is answered as an unknown command at its word. Conditions: the device is on, its journal is empty,
/// and it has room for `ROOM` events.
pub fn run<S: Source, O: Sink, D: Device>(
    alloc: Global,
    words: &[String],
    site: &Site,
    source: &mut S,
    out: &mut O,
    device: &mut D,
) -> Status
    requires on { (D.means device.old).on ≡ true }
    requires fresh { (D.means device.old).journal ≡ [] }
    requires room { ROOM ≤ (D.means device.old).room }
    ensures plan { D.plan device.new ≡ D.plan device.old }
    ensures tree { S.content source.new ≡ S.content source.old }
    ensures source { S.plan source.new ≡ S.plan source.old }
    ensures obeyed { Obeyed (record { command = asked_at (command_word words.now) (command_of words.now); site = site.now; content = S.content source.old }) (D.means device.old) (D.means device.new) (record { faults = S.faults source.old; given = S.given source.old }) (record { faults = S.faults source.new; given = S.given source.new }) (O.means out.old) (O.means out.new) result }
{
    let asked = asked(read_words(words), command_word(words));
    answer(alloc, asked, site, source, out, device)
}

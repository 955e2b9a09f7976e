//! The device over real files and programs.

ghost use Rattle.std.specs.Prelude.{◌≡◌, ◌-◌, ◌<◌, IfOk, [], ◌∷◌, ◌++◌};
ghost use Rattle.host_edge.specs.Host.{host_state};

use crate::children::{self, Program};
use crate::clear::clear;
use crate::disk::open_store;
use crate::endings::are_ignored;
use crate::failure::{Failure, Failures, named, told};
use crate::fault::HostFault;
use crate::lock::Lockable;
use crate::paths::Paths;
use crate::site::site_of;
use crate::work::{self, Tail};
use device_model::{
    Answer, Asked, Call, Device, Down, Event, EventList, ModState, ModuleWord, Off, Part, Query,
    ROOM, Ran, Told,
};
use script_names::Site;
use std::alloc::Global;
use std::fs::{self, OpenFile};
use std::io::{self, ErrorKind};
use std::os::unix::fs::FileExt;
use std::path::PathBuf;
use std::process::{Processes, Stdio};
use std::rt::{Clock, Files};
use upd_text::{Name, Text32};

/// A device whose disk is the file `store` of a folder, and whose modules are the programs in its folder `modules/v3`. Each
/// failed file call is a counted fault. It never answers `Off`.
#[derive(Drop)]
pub struct HostDevice<R: Files + Processes + Clock + Drop> {
    rt: R,
    alloc: Global,
    paths: Paths,
    store: R::File,
    /// The file of the work folder that stays open for further bytes.
    tail: Option<Tail<R::File>>,
    journal: EventList,
    failures: Failures,
}

/// Notes an event, for which there is room.
fn note(journal: &mut EventList, event: Event)
    requires { 0 < journal.old.room }
    ensures { journal.new ≡ record { events = journal.old.events ++ event ∷ []; room = journal.old.room - 1 } }
{
    journal.push(event).unwrap();
}

/// The absolute paths of a data folder. An empty word names none.
fn paths_of<R: Files>(
    rt: &R,
    alloc: Global,
    folder: &str,
    noted: &mut Failures,
) -> Result<Paths, HostFault>
    ensures { noted.new.count ≡ noted.old.count }
{
    match real_folder(rt, alloc, folder) {
        Ok(path) => Ok(Paths::below(alloc, path.as_str())?),
        Err(error) => Err(noted.refuse(alloc, folder, error, HostFault::NoFolder)),
    }
}

/// The absolute path of a folder.
fn real_folder<R: Files>(rt: &R, alloc: Global, folder: &str) -> io::Result<PathBuf> {
    if folder.is_empty() {
        return Err(io::Error::from(ErrorKind::NotFound));
    }
    if !rt.metadata(folder)?.is_dir() {
        return Err(io::Error::from(ErrorKind::NotADirectory));
    }
    rt.canonicalize(alloc, folder)
}

/// The store of a device whose children's ends can be learnt.
fn store_of<R: Files + Processes + Clock>(
    rt: &R,
    alloc: Global,
    paths: &Paths,
    noted: &mut Failures,
) -> Result<R::File, HostFault>
where
    R::File: Lockable,
    ensures { noted.new.count ≡ noted.old.count }
{
    if are_ignored(rt, alloc, paths.folder.as_str()) {
        let reason = io::Error::new(
            ErrorKind::Other,
            "it is ignored, so no child's end can be learnt",
        );
        noted.note(Failure::of("SIGCHLD", reason));
        return Err(HostFault::NoStore);
    }
    let path = paths.store.as_str();
    match open_store(rt, alloc, path) {
        Ok(store) => Ok(store),
        Err(error) => Err(noted.refuse(alloc, path, error, HostFault::NoStore)),
    }
}

impl<R: Files + Processes + Clock + Drop> HostDevice<R>
where
    R::File: FileExt + Lockable + Into<Stdio>,
{
    /// Opens the device of a data folder, and reads its type and its scripts. The store is made where it isn't there, and grown
    /// where it is short. The faults are found in the order of their numbers.
    pub fn attach(rt: R, alloc: Global, folder: &str) -> Result<(HostDevice<R>, Site), HostFault>
        ensures { IfOk result (λ r. host_state r.0.journal.events r.0.journal.room r.0.failures.count ≡ host_state [] ROOM 0) }
    {
        let mut noted = Failures::none();
        HostDevice::attach_noting(rt, alloc, folder, &mut noted)
    }

    /// The same, where what can't be had is noted.
    pub fn attach_noting(
        rt: R,
        alloc: Global,
        folder: &str,
        noted: &mut Failures,
    ) -> Result<(HostDevice<R>, Site), HostFault>
        ensures device { IfOk result (λ r. host_state r.0.journal.events r.0.journal.room r.0.failures.count ≡ host_state [] ROOM 0) }
        ensures noted { noted.new.count ≡ noted.old.count }
    {
        let paths = paths_of(&rt, alloc, folder, noted)?;
        let site = site_of(&rt, alloc, &paths, noted)?;
        let store = store_of(&rt, alloc, &paths, noted)?;
        let journal = EventList::with_room(alloc, ROOM)?;
        let device = HostDevice {
            rt,
            alloc,
            paths,
            store,
            tail: None,
            journal,
            failures: Failures::none(),
        };
        Ok((device, site))
    }

    /// The calls that failed, and the children that weren't started.
    pub fn failures(&self) -> &Failures {
        &self.failures
    }

    /// Notes elsewhere what failed first.
    pub fn hand_first(&mut self, noted: &mut Failures)
        ensures { noted.new.count ≡ noted.old.count }
    {
        noted.follow(&mut self.failures);
    }

    /// The folder of a payload's module, which is made where it isn't there.
    fn tree(&self, payload: u8) -> Result<&str, Failure> {
        let tree = named(
            self.alloc,
            self.paths.work.as_str(),
            self.paths.tree(payload),
        )?;
        named(self.alloc, tree, fs::create_dir_all(&self.rt, tree))?;
        Ok(tree)
    }

    /// The path of the module for a payload type.
    fn module(&self, kind: &Name) -> Result<String, Failure> {
        let path = self.paths.module(self.alloc, kind.bytes());
        named(self.alloc, "modules/v3", path)
    }

    /// Calls a module in a state.
    fn call_module(&self, payload: u8, kind: &Name, state: ModState) -> Result<u8, Failure> {
        let module = self.module(kind)?;
        let tree = self.tree(payload)?;
        let program = Program::module(module.as_str(), ModuleWord::State(state), tree);
        children::run(&self.rt, self.alloc, program)
    }

    /// Asks a module.
    fn ask_module(&self, payload: u8, kind: &Name, query: Query) -> Result<(u8, Text32), Failure> {
        let module = self.module(kind)?;
        let tree = self.tree(payload)?;
        let program = Program::module(module.as_str(), ModuleWord::Ask(query), tree);
        children::ask(&self.rt, self.alloc, program, self.paths.reply.as_str())
    }

    /// Runs the shell in the data folder, with one word or two.
    fn run_shell(&self, first: &str, second: Option<&str>) -> Result<u8, Failure> {
        let program = Program {
            path: "sh",
            first,
            second,
            folder: self.paths.folder.as_str(),
        };
        children::run(&self.rt, self.alloc, program)
    }

    /// The exit code of a child that is no question. An error says that it was not started.
    fn started(&self, call: &Call) -> Result<u8, Failure> {
        match call {
            Call::Module {
                payload,
                kind,
                state,
            } => self.call_module(*payload, kind, *state),
            Call::Script(name) => {
                let script = self.paths.script(self.alloc, name.bytes());
                let script = named(self.alloc, "scripts", script)?;
                self.run_shell(script.as_str(), None)
            }
            Call::SystemReboot => self.run_shell(self.paths.reboot(), None),
            Call::Ask { .. } => Err(Failure::of(
                "a question",
                io::Error::from(ErrorKind::InvalidInput),
            )),
        }
    }

    /// Has a child sleep so many seconds. How it ends says nothing.
    fn sleep(&self, seconds: u32) -> Result<u8, Failure> {
        let line = format!(in self.alloc; "sleep {seconds}")?;
        self.run_shell("-c", Some(line.as_str()))
    }
}

impl<R: Files + Processes + Clock + Drop> Device for HostDevice<R>
where
    R::File: FileExt + Lockable + Into<Stdio>,
{
    ghost use Rattle.std.specs.Prelude.{None};

    type Plan = ();

    ghost plan = { λ _. None };

    ghost means = { λ d. host_state d.journal.events d.journal.room d.failures.count };

    ghost whole = { λ _. tt };

    fn room(&self) -> u32 {
        self.journal.room()
    }

    fn disk_read(&mut self, at: u32, into: &mut [u8]) -> Result<(), Down> {
        let done = self.store.read_exact_at(into, u64::from(at));
        let done = named(self.alloc, self.paths.store.as_str(), done);
        told(&mut self.failures, done)
    }

    fn disk_write(&mut self, at: u32, bytes: &[u8]) -> Result<(), Down> {
        let done = self.store.write_all_at(bytes, u64::from(at));
        let done = named(self.alloc, self.paths.store.as_str(), done);
        told(&mut self.failures, done)
    }

    fn disk_sync(&mut self) -> Result<(), Down> {
        let done = self.store.sync_data();
        let done = named(self.alloc, self.paths.store.as_str(), done);
        told(&mut self.failures, done)
    }

    fn work_clear(&mut self) -> Result<(), Down> {
        self.tail = None;
        let done = clear(&self.rt, self.alloc, &self.paths);
        told(&mut self.failures, done)
    }

    fn work_append(&mut self, part: Part, path: &Name, bytes: &[u8]) -> Result<(), Down> {
        let last = &mut self.tail;
        let done = work::append(&self.rt, self.alloc, &self.paths, last, part, path, bytes);
        told(&mut self.failures, done)
    }

    fn work_sync(&mut self) -> Result<(), Down> {
        self.tail = None;
        let done = work::sync(&self.rt, self.alloc, &self.paths);
        told(&mut self.failures, done)
    }

    fn run_child(&mut self, call: &Call) -> Ran {
        self.tail = None;
        note(&mut self.journal, Event::Start(call.twin()));
        match self.started(call) {
            Ok(code) => {
                note(&mut self.journal, Event::End(Answer::Exit(code)));
                Ran::Exit(code)
            }
            Err(failure) => {
                self.failures.note(failure);
                note(&mut self.journal, Event::End(Answer::NotStarted));
                Ran::NotStarted
            }
        }
    }

    fn ask_child(&mut self, payload: u8, kind: &Name, query: Query) -> Asked {
        self.tail = None;
        let call = Call::Ask {
            payload,
            kind: kind.twin(),
            query,
        };
        note(&mut self.journal, Event::Start(call));
        match self.ask_module(payload, kind, query) {
            Ok((code, text)) => {
                note(
                    &mut self.journal,
                    Event::End(Answer::Reply(code, text.twin())),
                );
                Asked::Reply(code, text)
            }
            Err(failure) => {
                self.failures.note(failure);
                note(&mut self.journal, Event::End(Answer::NotStarted));
                Asked::NotStarted
            }
        }
    }

    fn pause(&mut self, seconds: u32) -> Result<(), Off> {
        note(&mut self.journal, Event::Pause(seconds));
        let _ = self.sleep(seconds);
        Ok(())
    }
}

impl<R: Files + Processes + Clock + Drop> Told for HostDevice<R>
where
    R::File: FileExt + Lockable + Into<Stdio>,
{
    fn journal(&self) -> &EventList {
        &self.journal
    }
}

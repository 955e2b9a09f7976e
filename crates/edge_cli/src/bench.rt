//! A device and a tree on which lines are done.

ghost use Rattle.std.specs.Prelude.{◌≤◌, ◌+◌, length, IfOk};

use crate::noting::Noting;
use crate::words::{
    bytes, name, number, number_to, part, parted, payload, query, state, three, wrong,
};
use device_model::{AREA, Answer, Asked, Call, Device, Event, Ran};
use event_text::line_of;
use host_edge::{Failures, HostDevice, HostFault, HostSource};
use io_model::Source;
use script_names::Site;
use std::alloc::Global;
use std::fmt::Display;
use std::io;
use upd_text::Name;

/// The most bytes that a line reads.
const MOST: u64 = 64;

/// The device and the tree that a row has at hand.
#[derive(Drop)]
pub struct Bench<'a> {
    noting: &'a Noting<'a>,
    device: Option<HostDevice<&'a Noting<'a>>>,
    tree: Option<HostSource<&'a Noting<'a>>>,
    /// What an `attach` or a `tree` couldn't have.
    noted: Failures,
}

/// What became of a call that answers nothing else.
fn done<E: Drop>(alloc: Global, answer: Result<(), E>) -> io::Result<String> {
    let word = if answer.is_ok() { "done" } else { "fault" };
    Ok(String::from_str(alloc, word)?)
}

/// Bytes as text, in which what isn't printed is told by its number.
fn shown(alloc: Global, bytes: &[u8]) -> io::Result<String> {
    let mut text = String::new(alloc);
    for byte in bytes {
        match *byte {
            b' '..=b'[' | b']'..=b'~' => text.push(char::from(*byte))?,
            byte => write!(text, "\\{byte:02x}")?,
        }
    }
    Ok(text)
}

/// The device's type and its scripts, a line each.
fn site_text(alloc: Global, site: &Site) -> io::Result<String> {
    let mut text = shown(alloc, site.device_type.bytes())?;
    for script in site.scripts.as_slice() {
        text.push_str("\n")?;
        text.push_str(shown(alloc, script.name().bytes())?.as_str())?;
    }
    Ok(text)
}

fn not_started(alloc: Global, fault: HostFault) -> io::Result<String> {
    let number = fault.number();
    Ok(format!(in alloc; "cannot start {number}")?)
}

/// The end of a child as a line of a journal.
fn ended(alloc: Global, answer: Answer) -> io::Result<String> {
    let line = line_of(&Event::End(answer));
    Ok(String::from_utf8_lossy(alloc, line.bytes())?)
}

/// What failed first. A path is told from the row's folder on.
fn first_of(alloc: Global, failures: &Failures) -> io::Result<String> {
    let Some(failure) = failures.first() else {
        return Ok(String::from_str(alloc, "nothing")?);
    };
    let text = format!(in alloc; "{failure}")?;
    match text.as_str().split_once("/row/") {
        Some((_, text)) => Ok(String::from_str(alloc, text)?),
        None => Ok(text),
    }
}

impl<'a> Bench<'a> {
    /// Neither device nor tree, where nothing is hindered.
    pub fn new(noting: &'a Noting<'a>) -> Bench<'a> {
        noting.replies.set(u32::MAX);
        noting.reads.set(true);
        Bench {
            noting,
            device: None,
            tree: None,
            noted: Failures::none(),
        }
    }

    fn alloc(&self) -> Global {
        self.noting.rt.alloc()
    }

    /// `attach FOLDER`. The device before is let go.
    fn attach(&mut self, folder: &str) -> io::Result<String> {
        self.device = None;
        self.noted = Failures::none();
        let alloc = self.alloc();
        match HostDevice::attach_noting(self.noting, alloc, folder, &mut self.noted) {
            Ok((device, site)) => {
                self.device = Some(device);
                site_text(alloc, &site)
            }
            Err(fault) => not_started(alloc, fault),
        }
    }

    /// `again FOLDER`: a second client, while the device is held.
    fn again(&self, folder: &str) -> io::Result<String> {
        let alloc = self.alloc();
        match HostDevice::attach(self.noting, alloc, folder) {
            Ok((_, site)) => site_text(alloc, &site),
            Err(fault) => not_started(alloc, fault),
        }
    }

    /// `tree FOLDER`.
    fn look(&mut self, folder: &str) -> io::Result<String> {
        let alloc = self.alloc();
        self.noted = Failures::none();
        match HostSource::attach_noting(self.noting, alloc, folder, &mut self.noted) {
            Ok(tree) => {
                let files = tree.files();
                self.tree = Some(tree);
                Ok(format!(in alloc; "{files} files")?)
            }
            Err(fault) => not_started(alloc, fault),
        }
    }

    /// A child that is no question.
    fn child(&mut self, call: &Call) -> io::Result<String> {
        let alloc = self.alloc();
        let Some(device) = &mut self.device else {
            return Err(wrong());
        };
        if device.room() < 3 || matches!(call, Call::Ask { .. }) {
            return Err(wrong());
        }
        match device.run_child(call) {
            Ran::Exit(code) => ended(alloc, Answer::Exit(code)),
            Ran::NotStarted => ended(alloc, Answer::NotStarted),
            Ran::Off => Err(wrong()),
        }
    }

    /// `module PAYLOAD STATE TYPE`.
    fn module(&mut self, rest: &str) -> io::Result<String> {
        let (number, word, kind) = three(rest);
        self.child(&Call::Module {
            payload: payload(number)?,
            kind: name(kind.as_bytes())?,
            state: state(word)?,
        })
    }

    /// `ask PAYLOAD QUESTION TYPE`.
    fn ask(&mut self, rest: &str) -> io::Result<String> {
        let (number, word, kind) = three(rest);
        let alloc = self.alloc();
        let Some(device) = &mut self.device else {
            return Err(wrong());
        };
        if device.room() < 3 {
            return Err(wrong());
        }
        match device.ask_child(payload(number)?, &name(kind.as_bytes())?, query(word)?) {
            Asked::Reply(code, text) => {
                let text = shown(alloc, text.bytes())?;
                Ok(format!(in alloc; "reply {code} '{text}'")?)
            }
            Asked::NotStarted => ended(alloc, Answer::NotStarted),
            Asked::Off => Err(wrong()),
        }
    }

    /// `pause SECONDS`, `clear`, `sync` and `flush`, which answer nothing.
    fn plain(&mut self, word: &str, rest: &str) -> io::Result<String> {
        let alloc = self.alloc();
        let Some(device) = &mut self.device else {
            return Err(wrong());
        };
        if device.room() < 2 {
            return Err(wrong());
        }
        match word {
            "pause" => done(alloc, device.pause(number(rest)?)),
            "clear" => done(alloc, device.work_clear()),
            "sync" => done(alloc, device.work_sync()),
            "flush" => done(alloc, device.disk_sync()),
            _ => Err(wrong()),
        }
    }

    /// `append PART PATH BYTES`: bytes for a file of the work folder.
    fn append(&mut self, rest: &str) -> io::Result<String> {
        let (word, path, text) = three(rest);
        let alloc = self.alloc();
        let path = bytes(alloc, path)?;
        let text = bytes(alloc, text)?;
        let Some(device) = &mut self.device else {
            return Err(wrong());
        };
        if device.room() == 0 {
            return Err(wrong());
        }
        done(alloc, device.work_append(part(word)?, &name(&path)?, &text))
    }

    /// `write AT BYTES`: bytes of the store.
    fn write(&mut self, rest: &str) -> io::Result<String> {
        let (at, text) = parted(rest);
        let alloc = self.alloc();
        let at = number(at)?;
        let text = bytes(alloc, text)?;
        let Some(device) = &mut self.device else {
            return Err(wrong());
        };
        let fits = text.len() <= AREA as usize && at <= AREA - text.len() as u32;
        if device.room() == 0 || !fits {
            return Err(wrong());
        }
        done(alloc, device.disk_write(at, &text))
    }

    /// `read AT COUNT`: bytes of the store.
    fn read(&mut self, rest: &str) -> io::Result<String> {
        let (at, count) = parted(rest);
        let alloc = self.alloc();
        let at = number(at)?;
        let count = number_to(count, MOST)? as usize;
        let mut into = [0; MOST as usize];
        let Some(device) = &mut self.device else {
            return Err(wrong());
        };
        if device.room() == 0 || at > AREA - count as u32 {
            return Err(wrong());
        }
        match device.disk_read(at, &mut into[..count]) {
            Ok(()) => shown(alloc, &into[..count]),
            Err(_) => done::<()>(alloc, Err(())),
        }
    }

    /// `path FILE`, `length FILE` and `bytes FILE AT COUNT` of the tree.
    fn file(&mut self, word: &str, rest: &str) -> io::Result<String> {
        let (file, at, count) = three(rest);
        let file = number(file)?;
        let alloc = self.alloc();
        let Some(tree) = &mut self.tree else {
            return Err(wrong());
        };
        match word {
            "path" => path_text(alloc, tree, file),
            "length" => length_text(alloc, tree, file),
            _ => {
                let at = number_to(at, u64::MAX)?;
                bytes_text(alloc, tree, file, at, number_to(count, MOST)? as usize)
            }
        }
    }

    /// `first`: what couldn't be had, or what failed first of the device, or of the tree.
    fn first(&self) -> io::Result<String> {
        let alloc = self.alloc();
        if self.noted.first().is_some() {
            return first_of(alloc, &self.noted);
        }
        match (&self.device, &self.tree) {
            (Some(device), _) => first_of(alloc, device.failures()),
            (None, Some(tree)) => first_of(alloc, tree.failures()),
            (None, None) => Err(wrong()),
        }
    }

    /// What is said to the runtime and to no device.
    fn arrange(&mut self, word: &str, rest: &str) -> io::Result<String> {
        match word {
            "leave" => self.device = None,
            "replies" => self.noting.replies.set(number(rest)?),
            "unread" => self.noting.reads.set(false),
            _ => return Err(wrong()),
        }
        Ok(String::new(self.alloc()))
    }

    /// Does a line, and says what was found.
    pub fn act(&mut self, line: &str) -> io::Result<String> {
        let (word, rest) = parted(line);
        match word {
            "attach" => self.attach(rest),
            "again" => self.again(rest),
            "tree" => self.look(rest),
            "module" => self.module(rest),
            "ask" => self.ask(rest),
            "run" => self.child(&Call::Script(name(rest.as_bytes())?)),
            "reboot" => self.child(&Call::SystemReboot),
            "append" => self.append(rest),
            "write" => self.write(rest),
            "read" => self.read(rest),
            "pause" | "clear" | "sync" | "flush" => self.plain(word, rest),
            "path" | "length" | "bytes" => self.file(word, rest),
            "first" => self.first(),
            _ => self.arrange(word, rest),
        }
    }
}

fn path_text(alloc: Global, tree: &mut HostSource<&Noting<'_>>, file: u32) -> io::Result<String> {
    if file >= tree.files() {
        return Err(wrong());
    }
    match tree.path(file) {
        Ok(Some(path)) => shown(alloc, path.bytes()),
        Ok(None) => Ok(String::from_str(alloc, "no name")?),
        Err(_) => Ok(String::from_str(alloc, "fault")?),
    }
}

fn length_text(alloc: Global, tree: &mut HostSource<&Noting<'_>>, file: u32) -> io::Result<String> {
    if file >= tree.files() {
        return Err(wrong());
    }
    match tree.length(file) {
        Ok(length) => Ok(format!(in alloc; "{length}")?),
        Err(_) => Ok(String::from_str(alloc, "fault")?),
    }
}

fn bytes_text(
    alloc: Global,
    tree: &mut HostSource<&Noting<'_>>,
    file: u32,
    at: u64,
    most: usize,
) -> io::Result<String> {
    let mut into = [0; MOST as usize];
    if file >= tree.files() || most == 0 || most > into.len() {
        return Err(wrong());
    }
    match tree.read(file, at, &mut into[..most]) {
        Ok(count) if count <= most => shown(alloc, &into[..count]),
        _ => Ok(String::from_str(alloc, "fault")?),
    }
}

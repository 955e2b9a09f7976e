//! What a row gives: a device, what is its own, its tree, and what befalls it.

use crate::bytes::bytes_of;
use crate::client::Client;
use crate::numbers::{add_exits, add_numbers, number, number_to, parted};
use crate::reason::{Reason, Stop};
use crate::tree::{MOST_BYTES, Place, Tree};
use device_mem::{AnswerList, AreaBytes, LossAt, LossList, MemDevice, Script, Tear};
use device_model::{AREA, Answer, ROOM};
use io_model::MemSource;
use script_names::{ScriptList, ScriptName, Site};
use std::alloc::Global;
use upd_text::{CallList, Name, NoMemory, Text32};

/// The last pair that a line can add, so that two digits are enough for its name.
const LAST_PAIR: u64 = 99;

/// The longest value of a pair.
const LONGEST_VALUE: u64 = 1_024;

/// The most files that a line can add.
const MOST_FILES: u64 = 999;

/// What the lines of a row have set up so far.
#[derive(Drop)]
pub struct Setup {
    alloc: Global,
    site: Site,
    tree: Tree,
    area: AreaBytes,
    /// Where the bytes of the area end that were written last.
    written: u32,
    script: Script,
    /// The calls of the source that fail.
    source: CallList,
    /// The puts of the first boot that fail.
    puts: CallList,
}

fn reply(text: &[u8]) -> Answer {
    Answer::Reply(0, Text32::cut(text))
}

/// A device on which nothing fails: each child exits 0, and no question has a text for a reply.
pub fn calm(alloc: Global) -> Script {
    Script {
        answers: AnswerList::new(alloc),
        supports: reply(b""),
        needs: reply(b""),
        others: AnswerList::new(alloc),
        losses: LossList::new(alloc),
        cuts: CallList::new(alloc),
        faults: CallList::new(alloc),
        meddle: false,
    }
}

/// The tear of a word: `old`, `new` or the byte in base 16.
fn tear_of(word: &str) -> Result<Tear, Reason> {
    match word {
        "old" => Ok(Tear::Old),
        "new" => Ok(Tear::New),
        _ if word.len() == 2 => match u8::from_str_radix(word, 16) {
            Ok(byte) => Ok(Tear::Byte(byte)),
            Err(_) => Err(Reason::Tear),
        },
        _ => Err(Reason::Tear),
    }
}

/// A loss: the call, `before` or `after`, and a tear.
fn loss_of(text: &str) -> Result<LossAt, Reason> {
    let (call, rest) = parted(text)?;
    let (moment, tear) = rest.split_once(' ').ok_or(Reason::Moment)?;
    let before = moment == "before";
    if !before && moment != "after" {
        return Err(Reason::Moment);
    }
    Ok(LossAt {
        call: number(call)?,
        before,
        tear: tear_of(tear)?,
    })
}

/// A pair of a record: the name b and two digits, and a value of so many bytes. Conditions: two digits are enough.
fn pair(alloc: Global, number: u8, length: u16) -> Result<Vec<u8>, NoMemory> {
    let mut bytes = Vec::new(alloc);
    bytes.extend_from_slice(&[0, 3, b'b', b'0' + number / 10 % 10, b'0' + number % 10])?;
    bytes.extend_from_slice(&length.to_be_bytes())?;
    for _ in 0..length {
        bytes.push(b'v')?;
    }
    Ok(bytes)
}

/// A word and what stands behind it.
fn headed(text: &str) -> (&str, &str) {
    text.split_once(' ').unwrap_or((text, ""))
}

impl Setup {
    /// A device of the type `beaglebone` whose area is zeros, without scripts, and a tree without files.
    pub fn new(alloc: Global) -> Result<Setup, NoMemory> {
        let Ok(device_type) = Name::read(b"beaglebone") else {
            return Err(NoMemory);
        };
        Ok(Setup {
            alloc,
            site: Site {
                device_type,
                scripts: ScriptList::new(alloc),
            },
            tree: Tree::new(alloc),
            area: AreaBytes::zeros(alloc)?,
            written: 0,
            script: calm(alloc),
            source: CallList::new(alloc),
            puts: CallList::new(alloc),
        })
    }

    /// The device, and all else.
    pub fn client(self) -> Result<Client, Stop> {
        let source = MemSource::new(self.tree.files()?, self.source);
        let device = MemDevice::new(self.alloc, self.area, ROOM, self.script)?;
        Ok(Client {
            site: self.site,
            source,
            device,
            puts: self.puts,
        })
    }

    /// Takes a line that sets something up.
    pub fn take(&mut self, line: &str) -> Result<(), Stop> {
        let (word, rest) = headed(line);
        match word {
            "type" => Ok(self.take_type(rest)?),
            "own" => Ok(self.take_script(rest)?),
            "area" => self.take_area(rest),
            "more" => self.take_more(rest),
            "pairs" => self.take_pairs(rest),
            "odd" => self.take_odd(rest),
            "supports" | "needs" | "other" => self.take_reply(word, rest),
            "exits" | "cut" | "fault" | "source" | "puts" | "loss" => self.take_fate(word, rest),
            _ => self.take_tree(word, rest),
        }
    }

    /// `type NAME`: the device's type.
    fn take_type(&mut self, text: &str) -> Result<(), Reason> {
        match Name::read(text.as_bytes()) {
            Ok(name) => {
                self.site.device_type = name;
                Ok(())
            }
            Err(_) => Err(Reason::Name),
        }
    }

    /// `own NAME`: a script of the device's own.
    fn take_script(&mut self, text: &str) -> Result<(), Reason> {
        let Ok(name) = Name::read(text.as_bytes()) else {
            return Err(Reason::Script);
        };
        let script = ScriptName::read(&name).ok_or(Reason::Script)?;
        match self.site.scripts.add(script) {
            Ok(()) => Ok(()),
            Err(_) => Err(Reason::Script),
        }
    }

    /// Writes bytes of the area.
    fn write(&mut self, at: u32, bytes: &[u8]) -> Result<(), Reason> {
        let size = AREA as usize;
        if bytes.len() > size || at as usize > size - bytes.len() {
            return Err(Reason::Area);
        }
        self.area.set(at, bytes);
        self.written = at + bytes.len() as u32;
        Ok(())
    }

    /// `area AT BYTES`: bytes of the area.
    fn take_area(&mut self, text: &str) -> Result<(), Stop> {
        let (at, bytes) = parted(text)?;
        let at = number_to(at, u64::from(AREA))?;
        let bytes = bytes_of(self.alloc, bytes)?;
        Ok(self.write(at as u32, &bytes)?)
    }

    /// `more BYTES`: bytes behind those that were written last.
    fn take_more(&mut self, text: &str) -> Result<(), Stop> {
        let bytes = bytes_of(self.alloc, text)?;
        Ok(self.write(self.written, &bytes)?)
    }

    /// `pairs FROM TO LENGTH`: behind those that were written last, pairs of a record, whose names are b00, b01 and so on, and
    /// whose values are so long.
    fn take_pairs(&mut self, text: &str) -> Result<(), Stop> {
        let (from, rest) = parted(text)?;
        let (to, length) = parted(rest)?;
        let length = number_to(length, LONGEST_VALUE)?;
        for i in number(from)?..=number_to(to, LAST_PAIR)? {
            let bytes = pair(self.alloc, i as u8, length as u16)?;
            self.write(self.written, &bytes)?;
        }
        Ok(())
    }

    /// `manifest BYTES`: the whole manifest. `bare`: there is none. `line SUM PATH`: the manifest has this line in place of
    /// the one of the file.
    fn take_tree(&mut self, word: &str, text: &str) -> Result<(), Stop> {
        match word {
            "manifest" => self.tree.give_manifest(bytes_of(self.alloc, text)?),
            "bare" => self.tree.drop_manifest(),
            "line" => {
                let (sum, path) = parted(text)?;
                let sum = bytes_of(self.alloc, sum)?;
                let path = bytes_of(self.alloc, path)?;
                self.tree.give_line(path, sum)?;
            }
            _ => {
                let (path, rest) = headed(text);
                let path = bytes_of(self.alloc, path)?;
                if Name::read(&path).is_err() {
                    return self.refuse_path(word);
                }
                self.take_file(word, path, rest)?;
            }
        }
        Ok(())
    }

    /// A line of a file, whose path is no name.
    fn take_odd(&mut self, line: &str) -> Result<(), Stop> {
        let (word, text) = headed(line);
        let (path, rest) = headed(text);
        let path = bytes_of(self.alloc, path)?;
        if Name::read(&path).is_ok() {
            return self.refuse_path(word);
        }
        self.take_file(word, path, rest)
    }

    /// A path that is wrong, or a word that isn't one of a file.
    fn refuse_path(&self, word: &str) -> Result<(), Stop> {
        let why = match word {
            "tree" | "file" | "front" | "unlisted" | "filled" | "many" => Reason::Path,
            _ => Reason::Word,
        };
        Err(Stop::Wrong(why))
    }

    /// `tree PATH BYTES`: a file in front of the manifest. `file PATH BYTES`: other bytes of it, or one behind the manifest.
    /// `front PATH BYTES`: a file in front of all, without a line in the manifest. `unlisted PATH BYTES`: one behind all.
    /// `filled PATH COUNT BYTES`: behind the bytes of a file these so many times, as by `file`. `many PATH COUNT`: so many files of
    /// three bytes, as by `tree`, whose paths have 00, 01 and so on at their end.
    fn take_file(&mut self, word: &str, path: Vec<u8>, rest: &str) -> Result<(), Stop> {
        match word {
            "tree" => self
                .tree
                .add(Place::Own, path, bytes_of(self.alloc, rest)?)?,
            "file" => self.tree.change(path, bytes_of(self.alloc, rest)?)?,
            "front" => self
                .tree
                .add(Place::Front, path, bytes_of(self.alloc, rest)?)?,
            "unlisted" => self
                .tree
                .add(Place::Unlisted, path, bytes_of(self.alloc, rest)?)?,
            "filled" => self.take_filled(path, rest)?,
            "many" => self
                .tree
                .add_many(&path, number_to(rest, MOST_FILES)? as u16)?,
            _ => return Err(Stop::Wrong(Reason::Word)),
        }
        Ok(())
    }

    fn take_filled(&mut self, path: Vec<u8>, text: &str) -> Result<(), Stop> {
        let (count, bytes) = parted(text)?;
        let count = number(count)?;
        if count >= MOST_BYTES as u64 {
            return Err(Stop::Wrong(Reason::Large));
        }
        let bytes = bytes_of(self.alloc, bytes)?;
        self.tree.fill(path, count as u32, &bytes)
    }

    /// `supports TEXT`, `needs TEXT`: what modules reply to the two questions. `other TEXT`: what the next payload behind the first
    /// replies to the first one.
    fn take_reply(&mut self, word: &str, text: &str) -> Result<(), Stop> {
        let bytes = bytes_of(self.alloc, text)?;
        match word {
            "supports" => self.script.supports = reply(&bytes),
            "needs" => self.script.needs = reply(&bytes),
            _ => self.script.others.push(reply(&bytes))?,
        }
        Ok(())
    }

    /// `exits CODE..`: how the children exit that aren't asked. `cut CHILD..`: the starts that lose the power. `fault CALL..`: the
    /// calls of the disk and of the work folder that fail. `source CALL..`: those of the tree. `puts PUT..`: those of the first
    /// boot's text. `loss CALL before|after TEAR`: power is lost at a call of the device; unsynced bytes are the old ones, the
    /// new ones or become one byte.
    fn take_fate(&mut self, word: &str, text: &str) -> Result<(), Stop> {
        match word {
            "exits" => add_exits(&mut self.script.answers, text),
            "cut" => add_numbers(&mut self.script.cuts, text),
            "fault" => add_numbers(&mut self.script.faults, text),
            "source" => add_numbers(&mut self.source, text),
            "puts" => add_numbers(&mut self.puts, text),
            _ => Ok(self.script.losses.push(loss_of(text)?)?),
        }
    }
}

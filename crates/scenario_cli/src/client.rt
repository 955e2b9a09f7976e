//! A client in memory, and what its boots say.

use crate::bytes::text_of;
use crate::setup::calm;
use device_mem::{AreaBytes, MemDevice, WorkFile};
use device_model::{Device, Part, ROOM};
use event_text::spelled;
use io_model::{FileList, MemSink, MemSource, Source};
use lab::top;
use manifest_sums::Summing;
use script_names::{ScriptList, Site};
use slot_store::Store;
use std::alloc::{AllocError, Global};
use std::mem;
use upd_text::{CallList, Name, NoMemory};

/// A device with what is its own, and the tree that it is given.
#[derive(Drop)]
pub struct Client {
    pub site: Site,
    pub source: MemSource,
    pub device: MemDevice,
    /// The puts of the next boot that fail.
    pub puts: CallList,
}

/// What a boot says, and its events as lines.
#[derive(Drop)]
pub struct Said {
    pub status: u8,
    pub text: String,
    pub events: String,
}

/// The text of a boot has at most so many bytes.
const MOST_TEXT: u32 = 200_000;

/// The longest file whose bytes are told.
const LONGEST: usize = 1_000;

/// The bytes of a block of the area, in which a cell has room.
const BLOCK: usize = 64;

/// The words of a line, which a blank parts.
fn words_of(alloc: Global, line: &str) -> Result<Vec<String>, AllocError> {
    let mut words = Vec::new(alloc);
    if !line.is_empty() {
        for word in line.split(' ') {
            words.push(String::from_str(alloc, word)?)?;
        }
    }
    Ok(words)
}

/// How many states the deployment entered for which the disk of a device stands; 0 where it stands for none.
fn count_of(alloc: Global, device: &mut MemDevice) -> u8 {
    device.power_on();
    if device.room() < 1 {
        return 0;
    }
    match Store::mount(alloc, device) {
        Ok(store) => store.db().position().n,
        Err(_) => 0,
    }
}

/// The bytes of a file; of a long one their number and their sum.
fn content_of(alloc: Global, bytes: &[u8]) -> Result<String, NoMemory> {
    if bytes.len() <= LONGEST {
        return text_of(alloc, bytes);
    }
    let mut summing = Summing::new();
    summing.piece(bytes);
    let sum = summing.finish().hex();
    let sum = String::from_utf8_lossy(alloc, sum.as_slice())?;
    let count = bytes.len();
    let text = format!(in alloc; "{count} bytes with the sum {sum}")?;
    Ok(text)
}

/// A line for a file of the work folder.
fn line_of(alloc: Global, file: &WorkFile) -> Result<String, NoMemory> {
    let path = String::from_utf8_lossy(alloc, file.path().bytes())?;
    let mut line = match file.part() {
        Part::Tree(k) => format!(in alloc; "{k} {path}:")?,
        Part::Scripts => format!(in alloc; "scripts {path}:")?,
    };
    if !file.bytes().is_empty() {
        line.push_str(" ")?;
        line.push_str(content_of(alloc, file.bytes())?.as_str())?;
    }
    line.push_str("\n")?;
    Ok(line)
}

impl Client {
    /// The next boot: power comes on, and the words of a line are obeyed.
    pub fn boot(&mut self, alloc: Global, line: &str) -> Result<Said, NoMemory> {
        let words = words_of(alloc, line)?;
        let puts = mem::replace(&mut self.puts, CallList::new(alloc));
        let mut out = MemSink::new(alloc, MOST_TEXT, puts)?;
        self.device.power_on();
        if self.device.room() < ROOM {
            return Err(NoMemory);
        }
        let status = top(
            alloc,
            words.as_slice(),
            &self.site,
            &mut self.source,
            &mut out,
            &mut self.device,
        );
        let events = spelled(alloc, self.device.journal())?;
        Ok(Said {
            status: status.number(),
            text: String::from_utf8_lossy(alloc, out.written())?,
            events: String::from_utf8_lossy(alloc, &events)?,
        })
    }

    /// The text of the next boot.
    pub fn tell(&mut self, alloc: Global, line: &str) -> Result<String, NoMemory> {
        let said = self.boot(alloc, line)?;
        Ok(said.text)
    }

    /// A device with this one's disk, on which nothing fails, so that looking at it counts no call of this one.
    fn twin(&self, alloc: Global) -> Result<Client, NoMemory> {
        let mut area = AreaBytes::zeros(alloc)?;
        area.set(0, self.device.area());
        let Ok(device_type) = Name::read(b"none") else {
            return Err(NoMemory);
        };
        Ok(Client {
            site: Site {
                device_type,
                scripts: ScriptList::new(alloc),
            },
            source: MemSource::new(FileList::new(alloc), CallList::new(alloc)),
            device: MemDevice::new(alloc, area, ROOM, calm(alloc))?,
            puts: CallList::new(alloc),
        })
    }

    /// How many states the deployment entered for which the disk stands, what `show-deployment` says, and what
    /// `show-provides` says.
    pub fn look(&self, alloc: Global) -> Result<(u8, String, String), NoMemory> {
        let mut twin = self.twin(alloc)?;
        let stands = twin.tell(alloc, "show-deployment")?;
        let holds = twin.tell(alloc, "show-provides")?;
        let n = count_of(alloc, &mut twin.device);
        Ok((n, stands, holds))
    }

    /// So many bytes of the area.
    pub fn bytes(&self, alloc: Global, at: usize, count: usize) -> Result<String, NoMemory> {
        let behind = self.device.area().get(at..).unwrap_or(&[]);
        text_of(alloc, behind.get(..count).unwrap_or(behind))
    }

    /// Where the blocks of the area begin that have other bytes than in the area of a client.
    pub fn changed(&self, alloc: Global, first: &Client) -> Result<String, NoMemory> {
        let mut text = String::new(alloc);
        let mut at = 0u32;
        let blocks = self.device.area().chunks(BLOCK);
        for (block, old) in blocks.zip(first.device.area().chunks(BLOCK)) {
            if block != old {
                text.push_str(format!(in alloc; "{at}\n")?.as_str())?;
            }
            at = at.saturating_add(BLOCK as u32);
        }
        Ok(text)
    }

    /// The files of the work folder as they were at the first child.
    pub fn given(&self, alloc: Global) -> Result<String, NoMemory> {
        let mut text = String::new(alloc);
        let files = self.device.given();
        for i in 0..files.len() {
            text.push_str(line_of(alloc, files.at(i))?.as_str())?;
        }
        Ok(text)
    }

    /// How many bytes the source gave of each file.
    pub fn read(&self, alloc: Global) -> Result<String, NoMemory> {
        let mut text = String::new(alloc);
        for i in 0..self.source.files() {
            let count = self.source.given(i);
            text.push_str(format!(in alloc; "{count}\n")?.as_str())?;
        }
        Ok(text)
    }
}

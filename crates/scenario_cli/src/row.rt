//! A row: what sets it up, and its boots.

use crate::client::{Client, Said};
use crate::reason::Stop;
use crate::setup::Setup;
use std::alloc::Global;
use upd_text::NoMemory;

/// A boot of a row: its words, and what it said.
#[derive(Drop)]
pub struct Told {
    pub line: String,
    pub said: Said,
}

/// The lines that set a row up, and the boots that it had so far.
#[derive(Drop)]
pub struct Row {
    pub lines: Vec<String>,
    pub boots: Vec<Told>,
}

/// Tries a line alone: what it sets up, and the device that this makes.
fn try_line(alloc: Global, line: &str) -> Result<(), Stop> {
    let mut setup = Setup::new(alloc)?;
    setup.take(line)?;
    setup.client()?;
    Ok(())
}

impl Row {
    pub fn new(alloc: Global) -> Row {
        Row {
            lines: Vec::new(alloc),
            boots: Vec::new(alloc),
        }
    }

    /// Adds a line that sets something up.
    pub fn add(&mut self, alloc: Global, line: &str) -> Result<(), Stop> {
        try_line(alloc, line)?;
        self.lines.push(String::from_str(alloc, line)?)?;
        Ok(())
    }

    /// A row with the same lines, and no boots yet.
    pub fn twin(&self, alloc: Global) -> Result<Row, NoMemory> {
        let mut row = Row::new(alloc);
        for line in &self.lines {
            row.lines.push(line.clone()?)?;
        }
        Ok(row)
    }

    /// The client that these lines set up, and one more if it isn't empty.
    pub fn client(&self, alloc: Global, more: &str) -> Result<Client, Stop> {
        let mut setup = Setup::new(alloc)?;
        for line in &self.lines {
            setup.take(line.as_str())?;
        }
        if !more.is_empty() {
            setup.take(more)?;
        }
        setup.client()
    }
}

//! Rows of a file, played one after another.

use crate::client::{Client, Said};
use crate::each::ends;
use crate::numbers::{number_to, parted};
use crate::reason::{Reason, Stop, Stopped};
use crate::row::{Row, Told};
use device_model::AREA;
use std::alloc::{AllocError, Global};
use upd_text::NoMemory;

/// A file as it should be, and how many rows and boots it has.
#[derive(Drop)]
pub struct Played {
    pub text: String,
    pub rows: u32,
    pub boots: u32,
    /// The first line that asks for something and has no answer under it, from 1.
    pub unanswered: Option<usize>,
}

/// A line of a file that is no answer, its number from 1, and whether an answer stands under it.
#[derive(Clone, Copy)]
struct Line<'a> {
    number: usize,
    text: &'a str,
    is_answered: bool,
}

fn word_of(line: &str) -> (&str, &str) {
    line.split_once(' ').unwrap_or((line, ""))
}

/// What begins with a line.
#[derive(Clone, Copy, PartialEq, Eq)]
enum Head {
    /// `all`: what sets up all rows behind it.
    All,
    /// `row TITLE`.
    Row,
    /// `variant TITLE`: a row with what sets up the last one.
    Variant,
}

fn head_of(line: &str) -> Option<Head> {
    let (word, _) = word_of(line);
    match word {
        "all" => Some(Head::All),
        "row" => Some(Head::Row),
        "variant" => Some(Head::Variant),
        _ => None,
    }
}

fn begins_row(line: &str) -> bool {
    head_of(line).is_some()
}

/// Whether the line sets up nothing, but asks for something.
fn is_step(line: &str) -> bool {
    let (word, _) = word_of(line);
    matches!(
        word,
        ">" | "-" | "each" | "bytes" | "changed" | "given" | "read"
    )
}

fn is_comment(line: &str) -> bool {
    line.is_empty() || line.starts_with('#')
}

/// An answer of an earlier time, in whose place a new one comes.
fn is_answer(line: &str) -> bool {
    line.starts_with("  ")
}

/// `AT COUNT`: where bytes of the area begin, and how many they are.
fn range_of(text: &str) -> Result<(usize, usize), Reason> {
    let (at, count) = parted(text)?;
    let at = number_to(at, u64::from(AREA))?;
    let count = number_to(count, u64::from(AREA))?;
    Ok((at as usize, count as usize))
}

impl Played {
    fn new(alloc: Global) -> Played {
        Played {
            text: String::new(alloc),
            rows: 0,
            boots: 0,
            unanswered: None,
        }
    }

    /// Whether this text says what was found. The end of its last line may be left out.
    pub fn is_told_by(&self, text: &str) -> bool {
        let found = self.text.as_str();
        found == text || found.strip_suffix("\n") == Some(text)
    }

    /// Adds a line as it is.
    fn keep(&mut self, line: &str) -> Result<(), AllocError> {
        self.text.push_str(line)?;
        self.text.push_str("\n")
    }

    /// Adds the lines of an answer.
    fn answer(&mut self, lines: &str) -> Result<(), AllocError> {
        for line in lines.lines() {
            self.text.push_str("  ")?;
            self.keep(line)?;
        }
        Ok(())
    }

    /// A boot: its events and its text.
    fn tell(&mut self, said: &Said) -> Result<(), AllocError> {
        self.boots = self.boots.saturating_add(1);
        self.answer(said.events.as_str())?;
        self.answer(said.text.as_str())
    }
}

/// What stands and is held after a boot.
fn look(alloc: Global, client: &Client, status: u8, played: &mut Played) -> Result<(), NoMemory> {
    let (n, stands, holds) = client.look(alloc)?;
    let stands = stands.as_str();
    let line = format!(in alloc; "status {status}, n {n}, {stands}")?;
    played.answer(line.as_str())?;
    played.answer(holds.as_str())?;
    Ok(())
}

/// `> WORDS`, `- WORDS`: a boot. The first one tells what then stands and is held, too.
fn boot(
    alloc: Global,
    client: &mut Client,
    (word, line): (&str, &str),
    played: &mut Played,
) -> Result<Told, NoMemory> {
    let said = client.boot(alloc, line)?;
    played.tell(&said)?;
    let status = said.status;
    if word == ">" {
        look(alloc, client, status, played)?;
    } else {
        played.answer(format!(in alloc; "status {status}")?.as_str())?;
    }
    let line = String::from_str(alloc, line)?;
    Ok(Told { line, said })
}

/// `each MOMENTS`: the boots played anew. `bytes AT COUNT`: bytes of the area. `changed`: where the area has other bytes than the
/// row gave it. `given`: the work folder at the first child. `read`: how many bytes of each file of the tree were read.
fn shown(
    alloc: Global,
    row: &Row,
    client: &Client,
    (word, rest): (&str, &str),
) -> Result<String, Stop> {
    match word {
        "each" => ends(alloc, row, rest),
        "given" => Ok(client.given(alloc)?),
        "read" => Ok(client.read(alloc)?),
        "changed" => Ok(client.changed(alloc, &row.client(alloc, "")?)?),
        "bytes" => {
            let (at, count) = range_of(rest)?;
            Ok(client.bytes(alloc, at, count)?)
        }
        _ => Err(Stop::Wrong(Reason::Word)),
    }
}

/// Does what a line asks for.
fn step(
    alloc: Global,
    row: &mut Row,
    client: &mut Client,
    line: &str,
    played: &mut Played,
) -> Result<(), Stop> {
    let (word, rest) = word_of(line);
    if word == ">" || word == "-" {
        let told = boot(alloc, client, (word, rest), played)?;
        row.boots.push(told)?;
    } else {
        let lines = shown(alloc, row, client, (word, rest))?;
        played.answer(lines.as_str())?;
    }
    Ok(())
}

/// Sets a row up.
fn set_up(
    alloc: Global,
    row: &mut Row,
    lines: &[Line<'_>],
    played: &mut Played,
) -> Result<(), Stopped> {
    for line in lines {
        played.keep(line.text)?;
        if !is_comment(line.text) && !begins_row(line.text) {
            row.add(alloc, line.text)
                .map_err(|stop| stop.at(line.number))?;
        }
    }
    Ok(())
}

/// Does what the lines ask for.
fn go(
    alloc: Global,
    row: &mut Row,
    client: &mut Client,
    lines: &[Line<'_>],
    played: &mut Played,
) -> Result<(), Stopped> {
    for line in lines {
        played.keep(line.text)?;
        if is_comment(line.text) {
            continue;
        }
        let before = played.text.len();
        step(alloc, row, client, line.text, played).map_err(|stop| stop.at(line.number))?;
        let is_silent = played.text.len() == before;
        if played.unanswered.is_none() && !line.is_answered && !is_silent {
            played.unanswered = Some(line.number);
        }
    }
    Ok(())
}

/// What sets up all rows, and what sets up the last one's variants.
#[derive(Drop)]
struct Common {
    all: Row,
    last: Row,
}

impl Common {
    fn new(alloc: Global) -> Common {
        Common {
            all: Row::new(alloc),
            last: Row::new(alloc),
        }
    }

    /// What a row begins with.
    fn begin(&self, alloc: Global, head: Option<Head>) -> Result<Row, NoMemory> {
        match head {
            Some(Head::Row) => self.all.twin(alloc),
            Some(Head::Variant) => self.last.twin(alloc),
            _ => Ok(Row::new(alloc)),
        }
    }

    /// Keeps what sets this row up.
    fn keep(&mut self, alloc: Global, head: Option<Head>, row: &Row) -> Result<(), NoMemory> {
        match head {
            Some(Head::Row) => self.last = row.twin(alloc)?,
            Some(Head::All) => self.all = row.twin(alloc)?,
            _ => {}
        }
        Ok(())
    }
}

/// Lines in front of the first row are comments.
fn only_comments(lines: &[Line<'_>], played: &mut Played) -> Result<(), Stopped> {
    for line in lines {
        if !is_comment(line.text) {
            return Err(Stopped::Wrong(line.number, Reason::NoRow));
        }
        played.keep(line.text)?;
    }
    Ok(())
}

/// Plays the lines of a row, the first of which is its head. A row without a boot has a variant behind it.
fn play_row(
    alloc: Global,
    common: &mut Common,
    lines: &[Line<'_>],
    next: Option<Head>,
    played: &mut Played,
) -> Result<(), Stopped> {
    let Some(first) = lines.first() else {
        return Ok(());
    };
    let kind = head_of(first.text);
    if kind.is_none() {
        return only_comments(lines, played);
    }
    let at = lines.iter().position(|line| is_step(line.text));
    let (head, steps) = lines.split_at(at.unwrap_or(lines.len()));
    let mut row = common.begin(alloc, kind)?;
    set_up(alloc, &mut row, head, played)?;
    common.keep(alloc, kind, &row)?;
    let Some(step) = steps.first() else {
        if kind == Some(Head::All) || next == Some(Head::Variant) {
            return Ok(());
        }
        return Err(Stopped::Wrong(first.number, Reason::NoBoot));
    };
    played.rows = played.rows.saturating_add(1);
    let made = row.client(alloc, "");
    let mut client = made.map_err(|stop| stop.at(step.number))?;
    go(alloc, &mut row, &mut client, steps, played)
}

/// Plays the rows of a text. Lines that begin with two blanks are answers: they are left out, and what is found stands in their
/// place.
pub fn play(alloc: Global, text: &str) -> Result<Played, Stopped> {
    let mut played = Played::new(alloc);
    let mut common = Common::new(alloc);
    let mut lines: Vec<Line<'_>> = Vec::new(alloc);
    let mut number = 0usize;
    for text in text.lines() {
        number = number.saturating_add(1);
        if is_answer(text) {
            if let Some(asked) = lines.last_mut() {
                asked.is_answered = true;
            }
            continue;
        }
        if begins_row(text) {
            play_row(
                alloc,
                &mut common,
                lines.as_slice(),
                head_of(text),
                &mut played,
            )?;
            lines.clear();
        }
        lines.push(Line {
            number,
            text,
            is_answered: false,
        })?;
    }
    play_row(alloc, &mut common, lines.as_slice(), None, &mut played)?;
    Ok(played)
}

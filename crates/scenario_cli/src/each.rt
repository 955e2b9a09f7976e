//! A row played once for each moment at which something may fail, and where that leaves it.

use crate::client::{Client, Said};
use crate::numbers::{number, number_to, parted};
use crate::reason::{Reason, Stop};
use crate::row::{Row, Told};
use std::alloc::{AllocError, Global};
use upd_text::NoMemory;

/// After so many resumes a deployment has come to its end.
const MOST_RESUMES: u32 = 32;

/// The last call at which something can fail.
const LAST_CALL: u64 = 99_999;

/// Neighbouring moments with one end.
#[derive(Drop)]
struct Span {
    first: String,
    last: String,
    end: String,
}

/// All moments, as lines.
#[derive(Drop)]
struct Spans {
    alloc: Global,
    text: String,
    open: Option<Span>,
}

impl Spans {
    fn close(&mut self) -> Result<(), AllocError> {
        if let Some(span) = self.open.take() {
            let first = span.first.as_str();
            let last = span.last.as_str();
            let end = span.end.as_str();
            let line = if first == last {
                format!(in self.alloc; "{first}: {end}\n")?
            } else {
                format!(in self.alloc; "{first} to {last}: {end}\n")?
            };
            self.text.push_str(line.as_str())?;
        }
        Ok(())
    }

    /// Adds the next moment.
    fn add(&mut self, moment: String, end: String) -> Result<(), AllocError> {
        if let Some(span) = &mut self.open
            && span.end.as_str() == end.as_str()
        {
            span.last = moment;
            return Ok(());
        }
        self.close()?;
        self.open = Some(Span {
            first: moment.clone()?,
            last: moment,
            end,
        });
        Ok(())
    }
}

/// Whether nothing failed in a boot.
fn is_whole(said: &Said, told: &Said) -> bool {
    said.status == told.status
        && said.text.as_str() == told.text.as_str()
        && said.events.as_str() == told.events.as_str()
}

/// Whether a boot did a front of what it does where nothing fails.
fn is_front(said: &Said, told: &Said) -> bool {
    let events = said.events.as_str();
    let front = events.strip_suffix("loss\n").unwrap_or(events);
    told.events.as_str().starts_with(front)
}

/// Goes through the boots up to the one in which something fails, and says how that one ends.
fn begin(alloc: Global, client: &mut Client, boots: &[Told]) -> Result<String, NoMemory> {
    let mut text = String::new(alloc);
    for told in boots {
        let said = client.boot(alloc, told.line.as_str())?;
        if is_whole(&said, &told.said) {
            continue;
        }
        if !is_front(&said, &told.said) {
            text.push_str("other events, ")?;
        }
        if said.status == 10 {
            text.push_str("lost, ")?;
        } else {
            text.push_str(first_line(said.text.as_str()))?;
            text.push_str(", ")?;
        }
        break;
    }
    Ok(text)
}

/// The state of a deployment that is in progress, by what `show-deployment` says.
fn state_of(stands: &str) -> Option<&str> {
    let state = stands.split(' ').nth(1)?;
    if state == "Idle" { None } else { Some(state) }
}

/// Steps of resumes, of which the last one came so many times in a row.
#[derive(Drop)]
struct Steps {
    text: String,
    last: String,
    times: u32,
}

impl Steps {
    fn new(alloc: Global, text: String) -> Steps {
        Steps {
            text,
            last: String::new(alloc),
            times: 0,
        }
    }

    /// Adds the last step to the text.
    fn close(&mut self) -> Result<(), AllocError> {
        self.text.push_str(self.last.as_str())?;
        if self.times > 1 {
            let times = self.times;
            write!(self.text, " {times} times")?;
        }
        if self.times > 0 {
            self.text.push_str(", ")?;
        }
        Ok(())
    }

    fn add(&mut self, step: String) -> Result<(), AllocError> {
        if step.as_str() == self.last.as_str() {
            self.times = self.times.saturating_add(1);
            return Ok(());
        }
        self.close()?;
        self.last = step;
        self.times = 1;
        Ok(())
    }

    /// The steps, and where they end.
    fn end(mut self, end: &str) -> Result<String, AllocError> {
        self.close()?;
        self.text.push_str(end)?;
        Ok(self.text)
    }
}

/// The first line of a text, or a dash.
fn first_line(lines: &str) -> &str {
    lines.lines().next().unwrap_or("-")
}

/// Resumes until no deployment is in progress. A step is a state, and the first event of the boot that goes on from it.
fn settled(alloc: Global, client: &mut Client, text: String) -> Result<String, NoMemory> {
    let mut steps = Steps::new(alloc, text);
    for _ in 0..MOST_RESUMES {
        let stands = client.tell(alloc, "show-deployment")?;
        let Some(state) = state_of(stands.as_str()) else {
            return Ok(steps.end(first_line(stands.as_str()))?);
        };
        let said = client.boot(alloc, "resume")?;
        let event = first_line(said.events.as_str());
        steps.add(format!(in alloc; "{state} > {event}")?)?;
    }
    Ok(steps.end("no end")?)
}

/// Where a row ends that has one more line.
fn end_of(alloc: Global, row: &Row, line: &str) -> Result<String, Stop> {
    let mut client = row.client(alloc, line)?;
    let text = begin(alloc, &mut client, row.boots.as_slice())?;
    Ok(settled(alloc, &mut client, text)?)
}

/// What fails at each moment.
#[derive(Clone, Copy)]
enum Kind<'a> {
    /// Power, with this tear.
    Loss(&'a str),
    /// A call of the disk, of the tree or a put, by the word of the line.
    Call(&'a str),
}

/// Adds the ends of a loss before a call and after it, or of the call's failure.
fn add_call(
    alloc: Global,
    row: &Row,
    kind: Kind<'_>,
    call: u64,
    spans: &mut Spans,
) -> Result<(), Stop> {
    match kind {
        Kind::Loss(tear) => {
            for side in ["before", "after"] {
                let line = format!(in alloc; "loss {call} {side} {tear}")?;
                let end = end_of(alloc, row, line.as_str())?;
                spans.add(format!(in alloc; "{call} {side}")?, end)?;
            }
        }
        Kind::Call(word) => {
            let line = format!(in alloc; "{word} {call}")?;
            let end = end_of(alloc, row, line.as_str())?;
            spans.add(format!(in alloc; "{call}")?, end)?;
        }
    }
    Ok(())
}

/// `each loss TEAR FROM TO`, `each fault FROM TO`, `each source FROM TO`: what fails, and the range of the calls at which it
/// does.
fn read(text: &str) -> Result<(Kind<'_>, &str), Reason> {
    let (word, rest) = parted(text)?;
    match word {
        "loss" => {
            let (tear, range) = parted(rest)?;
            Ok((Kind::Loss(tear), range))
        }
        "fault" | "source" => Ok((Kind::Call(word), rest)),
        _ => Err(Reason::Word),
    }
}

/// A line for neighbouring moments with one end.
pub fn ends(alloc: Global, row: &Row, text: &str) -> Result<String, Stop> {
    if row.boots.is_empty() {
        return Err(Stop::Wrong(Reason::NoBoot));
    }
    let (kind, range) = read(text)?;
    let (from, to) = parted(range)?;
    let mut spans = Spans {
        alloc,
        text: String::new(alloc),
        open: None,
    };
    for call in number(from)?..=number_to(to, LAST_CALL)? {
        add_call(alloc, row, kind, call, &mut spans)?;
    }
    spans.close()?;
    Ok(spans.text)
}

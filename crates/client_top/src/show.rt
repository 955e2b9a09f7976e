//! What is shown of a database.

ghost use Rattle.std.specs.Prelude.{◌≡◌, ◌++◌, ◌≤◌, length, codes, OnOk, OnErr};
ghost use Rattle.std.specs.List.{flat_map};
ghost use Rattle.std.specs.Str.{bytes_eq};
ghost use Rattle.provides_map.specs.After.{artifact_name, broken};
ghost use Rattle.provides_map.specs.Pairs.{IsMap, get};
ghost use Rattle.io_model.specs.Sink.{Puts, WritesFront};
ghost use Rattle.record_codec.specs.Held.{marked, held, held_of};
ghost use Rattle.client_top.specs.Waiting.{IsAhead};
ghost use Rattle.client_top.specs.Texts.{line, mark_if, name_line, deployment, shown};

use crate::page::{Page, add_line, flush};
use client_words::{Command, UsageFault};
use flow_table::Outcome;
use io_model::{Line, Sink, SinkFault};
use provides_map::{Provides, name_key};
use record_codec::{Db, Entry};
use upd_text::{Name, Value, decimal};

/// `key=value` and a newline.
#[tactic(auto, unfolding(crate::specs::Texts::line))]
fn line_of(key: &Name, value: &Value) -> Line
    ensures { result ≡ line (key.now, value.now) }
{
    let mut text = Line::new();
    text.add(key.bytes());
    text.add(b"=");
    text.add(value.bytes());
    text.add(b"\n");
    text
}

fn is_artifact_name(key: &Name) -> bool
    ensures { result ≡ bytes_eq key.now artifact_name }
{
    key.bytes() == b"artifact_name".as_slice()
}

/// The line of `artifact_name` with the mark behind its value.
fn name_line(key: &Name, value: &Value) -> Line
    ensures { result ≡ key.now ++ codes "=" ++ value.now ++ codes "_INCONSISTENT" ++ codes "\n" }
{
    let mut text = Line::new();
    text.add(key.bytes());
    text.add(b"=");
    text.add(value.bytes());
    text.add(b"_INCONSISTENT");
    text.add(b"\n");
    text
}

/// The line of a pair of an inconsistent update: the name has the mark.
fn marked_line(key: &Name, value: &Value) -> Line
    ensures { result ≡ line (marked (key.now, value.now)) }
{
    if is_artifact_name(key) {
        name_line(key, value)
    } else {
        line_of(key, value)
    }
}

fn pair_line(key: &Name, value: &Value, mark: bool) -> Line
    ensures { result ≡ line (mark_if mark (key.now, value.now)) }
{
    if mark {
        marked_line(key, value)
    } else {
        line_of(key, value)
    }
}

/// Adds the line of a pair to what waits to be written.
fn add_pair<O: Sink>(
    out: &mut O,
    page: &mut Page,
    key: &Name,
    value: &Value,
    mark: bool,
) -> Result<(), SinkFault>
    ensures ok { OnOk result (IsAhead (O.means out.old) (page.old ++ line (mark_if mark (key.now, value.now))) page.new (O.means out.new)) }
    ensures err { OnErr result (WritesFront (O.means out.old) page.old (O.means out.new)) }
{
    let line = pair_line(key, value, mark);
    add_line(out, page, &line)
}

/// A line for each pair, in pieces of a page.
fn put_lines<O: Sink>(out: &mut O, pairs: &Provides, mark: bool) -> Result<(), SinkFault>
    ensures lines { Puts (O.means out.old) (flat_map (λ p. line (mark_if mark p)) pairs.now) result (O.means out.new) }
    ensures map { IsMap pairs.now }
{
    let mut page = Page::new();
    for i in 0..pairs.len() {
        let (key, value) = pairs.pair(i);
        match add_pair(out, &mut page, key, value, mark) {
            Ok(()) => {}
            Err(fault) => return Err(fault),
        }
    }
    match flush(out, &mut page) {
        Ok(()) => Ok(()),
        Err(fault) => Err(fault),
    }
}

fn show_held<O: Sink>(out: &mut O, entry: &Entry) -> Result<(), SinkFault>
    ensures { Puts (O.means out.old) (flat_map line (held_of entry.now.position.outcome entry.now.before entry.now.new)) result (O.means out.new) }
{
    match entry.position.outcome {
        Outcome::Undecided => put_lines(out, &entry.before, false),
        Outcome::Kept => put_lines(out, &entry.before, false),
        Outcome::Committed => put_lines(out, &entry.new, false),
        Outcome::RolledBack => put_lines(out, &entry.before, false),
        Outcome::Inconsistent => put_lines(out, &entry.new, true),
    }
}

/// The pairs that a database holds, a line each.
fn show_provides<O: Sink>(out: &mut O, db: &Db) -> Result<(), SinkFault>
    ensures { Puts (O.means out.old) (flat_map line (held db.now)) result (O.means out.new) }
{
    match db {
        Db::Empty => Ok(()),
        Db::Full(entry) => show_held(out, entry),
    }
}

/// The name of the artifact that is held.
fn put_name<O: Sink>(out: &mut O, pairs: &Provides) -> Result<(), SinkFault>
    ensures { Puts (O.means out.old) (name_line (get pairs.now artifact_name)) result (O.means out.new) }
{
    match pairs.get(&name_key()) {
        Some(name) => out.put(Line::named(b"", name.bytes()).bytes()),
        None => out.put(b"unknown\n"),
    }
}

/// The name with the mark behind it.
fn marked_name(name: &Value) -> Line
    ensures { result ≡ (name.now ++ codes "_INCONSISTENT") ++ codes "\n" }
{
    let mut text = Line::new();
    text.add(name.bytes());
    text.add(b"_INCONSISTENT");
    text.add(b"\n");
    text
}

/// The name of an artifact that is mixed with another.
fn put_marked_name<O: Sink>(out: &mut O, pairs: &Provides) -> Result<(), SinkFault>
    ensures { Puts (O.means out.old) (name_line (get (broken pairs.now) artifact_name)) result (O.means out.new) }
{
    match pairs.get(&name_key()) {
        Some(name) => out.put(marked_name(name).bytes()),
        None => out.put(b"unknown\n"),
    }
}

fn show_artifact<O: Sink>(out: &mut O, db: &Db) -> Result<(), SinkFault>
    ensures { Puts (O.means out.old) (name_line (get (held db.now) artifact_name)) result (O.means out.new) }
{
    let Db::Full(entry) = db else {
        return out.put(b"unknown\n");
    };
    match entry.position.outcome {
        Outcome::Undecided => put_name(out, &entry.before),
        Outcome::Kept => put_name(out, &entry.before),
        Outcome::Committed => put_name(out, &entry.new),
        Outcome::RolledBack => put_name(out, &entry.before),
        Outcome::Inconsistent => put_marked_name(out, &entry.new),
    }
}

/// The number of the deployment, its state and its outcome.
fn show_deployment<O: Sink>(out: &mut O, db: &Db) -> Result<(), SinkFault>
    ensures { Puts (O.means out.old) (deployment db.now ++ codes "\n") result (O.means out.new) }
{
    let Db::Full(entry) = db else {
        return out.put(b"none\n");
    };
    let mut text = Line::new();
    text.add(decimal(u64::from(entry.id)).bytes());
    text.add(b" ");
    text.add(entry.position.state.name().as_bytes());
    text.add(b" ");
    text.add(entry.position.outcome.name().as_bytes());
    text.add(b"\n");
    out.put(text.bytes())
}

/// What a command shows of a database.
pub(crate) fn show<O: Sink>(
    out: &mut O,
    asked: Result<Command, UsageFault>,
    db: &Db,
) -> Result<(), SinkFault>
    ensures { Puts (O.means out.old) (shown asked db.now) result (O.means out.new) }
{
    match asked {
        Ok(Command::ShowProvides) => show_provides(out, db),
        Ok(Command::ShowArtifact) => show_artifact(out, db),
        Ok(Command::ShowDeployment) => show_deployment(out, db),
        _ => Ok(()),
    }
}

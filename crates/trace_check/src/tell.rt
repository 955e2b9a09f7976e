//! Writing the text of a note.

ghost use Rattle.std.specs.Prelude.{◌≡◌, ◌++◌};
ghost use Rattle.std.specs.List.{flat_map};
ghost use Rattle.io_model.specs.Sink.{Puts};
ghost use Rattle.event_text.specs.Lines.{line};
ghost use Rattle.trace_check.specs.Texts.{boot_line, from_line, kind_line, script_line, site_line, end_line, start_text, lists_text};
ghost use Rattle.trace_check.specs.Form.{has_text};
ghost use Rattle.trace_check.specs.Told.{Tells};

use crate::form::has_text;
use crate::note::{Deed, NoteEnd, NoteHead};
use crate::words::undoable_name;
use device_model::{Event, EventList};
use event_text::line_of;
use flow_table::Position;
use io_model::{Line, Sink, SinkFault};
use script_names::{ScriptList, ScriptName};
use upd_text::{KindList, Name, decimal};

pub(crate) fn from_line(p: &Position) -> Line
    ensures { result ≡ from_line p.now }
{
    let digits = decimal(u64::from(p.n));
    let mut line = Line::new();
    line.add(b"from ");
    line.add(p.state.name().as_bytes());
    line.add(b" ");
    line.add(p.outcome.name().as_bytes());
    line.add(b" ");
    line.add(undoable_name(p.undoable).as_bytes());
    line.add(b" ");
    line.add(p.reboot.name().as_bytes());
    line.add(b" ");
    line.add(digits.bytes());
    line.add(b"\n");
    line
}

fn end_line(end: NoteEnd) -> Line
    ensures { result ≡ end_line end }
{
    match end {
        NoteEnd::Nothing => Line::named(b"end none", b""),
        NoteEnd::Ended(outcome) => Line::named(b"end ended ", outcome.name().as_bytes()),
        NoteEnd::Waits => Line::named(b"end waits", b""),
        NoteEnd::RebootNeeded => Line::named(b"end reboot-needed", b""),
        NoteEnd::Halted => Line::named(b"end halted", b""),
    }
}

fn put_boot<O: Sink>(out: &mut O, deed: Deed) -> Result<(), SinkFault>
    ensures { Puts (O.means out.old) (boot_line deed) result (O.means out.new) }
{
    out.put(Line::named(b"boot ", deed.name().as_bytes()).bytes())
}

fn put_from<O: Sink>(out: &mut O, from: &Position) -> Result<(), SinkFault>
    ensures { Puts (O.means out.old) (from_line from.now) result (O.means out.new) }
{
    out.put(from_line(from).bytes())
}

fn put_kind<O: Sink>(out: &mut O, kind: &Name) -> Result<(), SinkFault>
    ensures { Puts (O.means out.old) (kind_line kind.now) result (O.means out.new) }
{
    out.put(Line::named(b"kind ", kind.bytes()).bytes())
}

fn put_script<O: Sink>(out: &mut O, script: &ScriptName) -> Result<(), SinkFault>
    ensures { Puts (O.means out.old) (script_line script.now) result (O.means out.new) }
{
    out.put(Line::named(b"script ", script.name().bytes()).bytes())
}

fn put_own<O: Sink>(out: &mut O, script: &ScriptName) -> Result<(), SinkFault>
    ensures { Puts (O.means out.old) (site_line script.now) result (O.means out.new) }
{
    out.put(Line::named(b"site ", script.name().bytes()).bytes())
}

fn put_event<O: Sink>(out: &mut O, event: &Event) -> Result<(), SinkFault>
    ensures { Puts (O.means out.old) (line event.now) result (O.means out.new) }
{
    out.put(line_of(event).bytes())
}

fn put_end<O: Sink>(out: &mut O, end: NoteEnd) -> Result<(), SinkFault>
    ensures { Puts (O.means out.old) (end_line end) result (O.means out.new) }
{
    out.put(end_line(end).bytes())
}

fn put_kinds<O: Sink>(out: &mut O, kinds: &KindList) -> Result<(), SinkFault>
    ensures { Puts (O.means out.old) (flat_map kind_line kinds.now) result (O.means out.new) }
{
    for i in 0..kinds.len() {
        put_kind(out, kinds.at(i))?;
    }
    Ok(())
}

fn put_scripts<O: Sink>(out: &mut O, scripts: &ScriptList) -> Result<(), SinkFault>
    ensures { Puts (O.means out.old) (flat_map script_line scripts.now) result (O.means out.new) }
{
    for i in 0..scripts.len() {
        put_script(out, scripts.at(i))?;
    }
    Ok(())
}

fn put_site<O: Sink>(out: &mut O, scripts: &ScriptList) -> Result<(), SinkFault>
    ensures { Puts (O.means out.old) (flat_map site_line scripts.now) result (O.means out.new) }
{
    for i in 0..scripts.len() {
        put_own(out, scripts.at(i))?;
    }
    Ok(())
}

fn put_events<O: Sink>(out: &mut O, events: &EventList) -> Result<(), SinkFault>
    ensures { Puts (O.means out.old) (flat_map line events.now.events) result (O.means out.new) }
{
    for i in 0..events.len() {
        put_event(out, events.at(i))?;
    }
    Ok(())
}

/// The lines of the command and of the position.
fn put_start<O: Sink>(out: &mut O, deed: Deed, from: &Position) -> Result<(), SinkFault>
    ensures { Puts (O.means out.old) (boot_line deed ++ from_line from.now) result (O.means out.new) }
{
    put_boot(out, deed)?;
    put_from(out, from)
}

fn put_lists<O: Sink>(out: &mut O, head: &NoteHead) -> Result<(), SinkFault>
    ensures { Puts (O.means out.old) (lists_text head.now) result (O.means out.new) }
{
    put_kinds(out, &head.kinds)?;
    put_scripts(out, &head.scripts)?;
    put_site(out, &head.site)
}

fn put_rest<O: Sink>(out: &mut O, events: &EventList, end: NoteEnd) -> Result<(), SinkFault>
    ensures { Puts (O.means out.old) (flat_map line events.now.events ++ end_line end) result (O.means out.new) }
{
    put_events(out, events)?;
    put_end(out, end)
}

fn put_note<O: Sink>(
    head: &NoteHead,
    events: &EventList,
    end: NoteEnd,
    out: &mut O,
) -> Result<(), SinkFault>
    ensures { Puts (O.means out.old) (start_text head.now ++ (lists_text head.now ++ (flat_map line events.now.events ++ end_line end))) result (O.means out.new) }
{
    put_start(out, head.deed, &head.from)?;
    put_lists(out, head)?;
    put_rest(out, events, end)
}

/// Writes the text of the note of these three parts where it has one, and else nothing. It takes no memory.
pub fn write_note<O: Sink>(
    head: &NoteHead,
    events: &EventList,
    end: NoteEnd,
    out: &mut O,
) -> Result<(), SinkFault>
    ensures { Tells head.now events.now.events end (O.means out.old) result (O.means out.new) }
{
    if !has_text(head, events, end) {
        return Ok(());
    }
    put_note(head, events, end, out)
}

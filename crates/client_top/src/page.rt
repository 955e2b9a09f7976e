//! Text that is written in pieces of a buffer, in few calls of the sink.

ghost use Rattle.std.specs.Prelude.{◌≡◌, ◌+◌, ◌≤◌, ◌++◌, [], true, length, OnOk, OnErr};
ghost use Rattle.io_model.specs.Sink.{Puts, WritesFront};
ghost use Rattle.client_top.specs.Waiting.{IsAhead};

use arrayvec::ArrayVec;
use io_model::{Line, Sink, SinkFault};
use std::marker::Model;

/// At most 8,192 bytes that wait to be written.
#[derive(Drop)]
pub(crate) struct Page {
    text: ArrayVec<u8, 8192>,
}

impl Model for Page {
    ghost use Rattle.std.specs.Prelude.{List, ℕ};

    ghost Value = { List ℕ };

    ghost view = { λ p. p.text.items };
}

impl Page {
    pub(crate) fn new() -> Page
        ensures { result ≡ [] }
    {
        Page {
            text: ArrayVec::new(),
        }
    }

    fn fits(&self, bytes: &[u8]) -> bool
        ensures { result ≡ true → length self.now + length bytes.now ≤ 8192 }
    {
        bytes.len() <= 8192 - self.text.as_slice().len()
    }

    fn add(&mut self, bytes: &[u8])
        requires { length self.old + length bytes.now ≤ 8192 }
        ensures { self.new ≡ self.old ++ bytes.now }
    {
        match self.text.try_extend_from_slice(bytes) {
            Ok(()) => {}
            Err(_) => {}
        }
    }
}

/// Writes what waits.
pub(crate) fn flush<O: Sink>(out: &mut O, page: &mut Page) -> Result<(), SinkFault>
    ensures put { Puts (O.means out.old) page.old result (O.means out.new) }
    ensures empty { OnOk result (page.new ≡ []) }
{
    match out.put(page.text.as_slice()) {
        Ok(()) => {
            page.text.clear();
            Ok(())
        }
        Err(fault) => Err(fault),
    }
}

/// Adds a line to what waits, which is written first where the line doesn't fit beside it.
pub(crate) fn add_line<O: Sink>(out: &mut O, page: &mut Page, line: &Line) -> Result<(), SinkFault>
    ensures ok { OnOk result (IsAhead (O.means out.old) (page.old ++ line.now) page.new (O.means out.new)) }
    ensures err { OnErr result (WritesFront (O.means out.old) page.old (O.means out.new)) }
{
    if page.fits(line.bytes()) {
        page.add(line.bytes());
        return Ok(());
    }
    match flush(out, page) {
        Ok(()) => {
            page.add(line.bytes());
            Ok(())
        }
        Err(fault) => Err(fault),
    }
}

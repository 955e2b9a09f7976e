//! One line of text, without memory.

ghost use Rattle.std.specs.Prelude.{◌≡◌, ◌+◌, ◌≤◌, ◌++◌, [], length, codes};
ghost use Rattle.std.specs.Fmt.{decimal};

use arrayvec::ArrayVec;
use std::marker::Model;
use upd_text::decimal;

/// The most bytes of a line: a key of 128, a value of 1,024, a mark and what stands between fit.
pub const LONGEST_LINE: usize = 1_280;

/// A line of at most `LONGEST_LINE` bytes, which is made piece by piece.
#[derive(Drop)]
pub struct Line {
    text: ArrayVec<u8, LONGEST_LINE>,
}

impl Model for Line {
    ghost use Rattle.std.specs.Prelude.{List, ℕ};

    ghost Value = { List ℕ };

    ghost view = { λ l. l.text.items };
}

impl Line {
    /// A line without bytes.
    pub fn new() -> Line
        ensures { result ≡ [] }
    {
        Line {
            text: ArrayVec::new(),
        }
    }

    /// Adds bytes at the end. Condition: they fit.
    pub fn add(&mut self, bytes: &[u8])
        requires { length self.old + length bytes.now ≤ LONGEST_LINE }
        ensures { self.new ≡ self.old ++ bytes.now }
    {
        match self.text.try_extend_from_slice(bytes) {
            Ok(()) => {}
            Err(_) => {}
        }
    }

    /// The bytes of the line.
    pub fn bytes(&self) -> &[u8]
        ensures bytes { result.now ≡ self.now }
        ensures short { length result.now ≤ LONGEST_LINE }
    {
        self.text.as_slice()
    }

    /// A front, a number and a newline.
    pub fn numbered(front: &[u8], n: u64) -> Line
        requires { length front.now ≤ 64 }
        ensures { result ≡ front.now ++ decimal n ++ codes "\n" }
    {
        let digits = decimal(n);
        let mut text = Line::new();
        text.add(front);
        text.add(digits.bytes());
        text.add(b"\n");
        text
    }

    /// A front, a text and a newline.
    pub fn named(front: &[u8], name: &[u8]) -> Line
        requires front { length front.now ≤ 64 }
        requires name { length name.now ≤ 1024 }
        ensures { result ≡ front.now ++ name.now ++ codes "\n" }
    {
        let mut text = Line::new();
        text.add(front);
        text.add(name);
        text.add(b"\n");
        text
    }
}

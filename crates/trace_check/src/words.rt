//! The words of a note's text that are its own.

ghost use Rattle.std.specs.Prelude.{◌≡◌, ◌≤◌, length};
ghost use Rattle.trace_check.specs.Texts.{deed_name, undoable_name};
ghost use Rattle.trace_check.specs.Lines.{deed_named, undoable_named};

use crate::note::Deed;

const DEEDS: [Deed; 5] = [
    Deed::Install,
    Deed::Resume,
    Deed::ResumeStop,
    Deed::Commit,
    Deed::Rollback,
];

impl Deed {
    pub(crate) fn name(self) -> &'static str
        ensures text { result.now ≡ deed_name self }
        ensures short { length result.now ≤ 32 }
    {
        match self {
            Deed::Install => "install",
            Deed::Resume => "resume",
            Deed::ResumeStop => "resume-stop",
            Deed::Commit => "commit",
            Deed::Rollback => "rollback",
        }
    }

    /// The command that a text names.
    pub(crate) fn read(text: &[u8]) -> Option<Deed>
        ensures { result ≡ deed_named text.now }
    {
        DEEDS
            .iter()
            .copied()
            .find(|deed| text == deed.name().as_bytes())
    }
}

pub(crate) fn undoable_name(undoable: bool) -> &'static str
    ensures text { result.now ≡ undoable_name undoable }
    ensures short { length result.now ≤ 32 }
{
    if undoable { "1" } else { "0" }
}

pub(crate) fn undoable_named(text: &[u8]) -> Option<bool>
    ensures { result ≡ undoable_named text.now }
{
    if text == b"0".as_slice() {
        Some(false)
    } else if text == b"1".as_slice() {
        Some(true)
    } else {
        None
    }
}

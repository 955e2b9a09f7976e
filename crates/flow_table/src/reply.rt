//! What a module's replies mean.

ghost use Rattle.std.specs.Prelude.{◌≡◌, ◌++◌, ◌∷◌, [], ◌||◌, codes};
ghost use Rattle.flow_table.specs.Replies.{is_reply, supports_of, needs_of};

use crate::position::Reboot;
use upd_text::Text32;

// Whether the text is the word, alone or with one newline behind it.
fn is_reply(text: &[u8], word: &[u8], line: &[u8]) -> bool
    requires { line.now ≡ word.now ++ 10 ∷ [] }
    ensures { result ≡ is_reply word.now text.now }
{
    text == word || text == line
}

fn says_no(text: &[u8]) -> bool
    ensures { result ≡ (is_reply [] text.now || is_reply (codes "No") text.now) }
{
    is_reply(text, b"", b"\n") || is_reply(text, b"No", b"No\n")
}

/// Whether a module can take back what it installs, by its reply to `SupportsRollback`: `Yes`, and
/// `No` or no text at all. A newline at the end is dropped. `None` exactly for every other text and
/// every other code than 0.
pub fn read_supports(code: u8, text: &Text32) -> Option<bool>
    ensures { result ≡ supports_of code text.now }
{
    let text = text.bytes();
    if code != 0 {
        None
    } else if says_no(text) {
        Some(false)
    } else if is_reply(text, b"Yes", b"Yes\n") {
        Some(true)
    } else {
        None
    }
}

/// Whether a module needs a reboot, by its reply to `NeedsArtifactReboot`: as `read_supports`, and
/// `Automatic`, which has the client itself reboot the device.
pub fn read_needs(code: u8, text: &Text32) -> Option<Reboot>
    ensures { result ≡ needs_of code text.now }
{
    let text = text.bytes();
    if code != 0 {
        None
    } else if says_no(text) {
        Some(Reboot::No)
    } else if is_reply(text, b"Yes", b"Yes\n") {
        Some(Reboot::Yes)
    } else if is_reply(text, b"Automatic", b"Automatic\n") {
        Some(Reboot::Automatic)
    } else {
        None
    }
}

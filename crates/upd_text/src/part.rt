//! Parts of paths.

ghost use Rattle.std.specs.Prelude.{◌≡◌};
ghost use Rattle.upd_text.specs.Parts.{has_slash, is_plain};

/// Whether there is a `/` among these bytes.
pub fn has_slash(text: &[u8]) -> bool
    ensures { result ≡ has_slash text.now }
{
    text.iter().any(|b| *b == b'/')
}

/// Whether these bytes have no `/` and are neither `.` nor `..`. A name that is plain may be a
/// file in a folder, or a payload type.
pub fn is_plain(text: &[u8]) -> bool
    ensures { result ≡ is_plain text.now }
{
    !has_slash(text) && text != b".".as_slice() && text != b"..".as_slice()
}

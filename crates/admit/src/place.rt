//! What stands at a path of a tree.

ghost use Rattle.std.specs.Prelude.{◌≡◌, None, Some, MatchOption};
ghost use Rattle.std.specs.Option.{option_copied};
ghost use Rattle.admit.specs.Places.{numbered, file_name, in_headers, in_scripts, in_data, is_augmented, place_of, place_at, is_allowed, is_barred, script_at, payload_at, info_at, is_info_of, payload_of, is_manifest, is_payload, is_header};

use artifact_meta::MOST_PAYLOADS;
use upd_text::{Name, is_plain};

/// What stands at a path of a tree. Payloads are counted from 0, and K is such a number as one
/// digit.
#[derive(Drop)]
pub enum TreePlace {
    /// `version`
    Version,
    /// `manifest`
    Manifest,
    /// `manifest.sig`
    Signature,
    /// `header/header-info`
    HeaderInfo,
    /// `header/headers/000K/type-info`
    TypeInfo(u8),
    /// `header/headers/000K/meta-data`
    MetaData(u8),
    /// `header/scripts/`, and behind it a file's name
    Script(Name),
    /// `data/000K/`, and behind it a file's name
    Payload(u8, Name),
    /// `manifest-augment`, and all that begins with `header-augment`
    Augmented,
    /// Any other path.
    Other,
}

/// What stands behind `000K/`, and K.
fn numbered(text: &[u8]) -> Option<(u8, &[u8])>
    ensures { MatchOption result (numbered text.now ≡ None) (λ p. numbered text.now ≡ Some (p.0, p.1.now)) }
{
    let [a, b, c, digit, slash, rest @ ..] = text else {
        return None;
    };
    let zeros = *a == b'0' && *b == b'0' && *c == b'0';
    if zeros && b'0' <= *digit && *digit < b'0' + MOST_PAYLOADS && *slash == b'/' {
        return Some((*digit - b'0', rest));
    }
    None
}

/// A name without `/` that is neither `.` nor `..`.
#[tactic(auto, using(crate::proofs::Placed::file_named))]
fn file_name(text: &[u8]) -> Option<Name>
    ensures { result ≡ file_name text.now }
{
    match Name::read(text) {
        Ok(name) => { if is_plain(text) { Some(name) } else { None } }
        Err(_) => None,
    }
}

fn in_headers(text: &[u8]) -> TreePlace
    ensures { result ≡ in_headers (numbered text.now) }
{
    let Some((k, name)) = numbered(text) else {
        return TreePlace::Other;
    };
    if name == b"type-info".as_slice() {
        return TreePlace::TypeInfo(k);
    }
    if name == b"meta-data".as_slice() {
        return TreePlace::MetaData(k);
    }
    TreePlace::Other
}

fn in_scripts(text: &[u8]) -> TreePlace
    ensures { result ≡ in_scripts (file_name text.now) }
{
    match file_name(text) {
        Some(name) => TreePlace::Script(name),
        None => TreePlace::Other,
    }
}

fn in_data(text: &[u8]) -> TreePlace
    ensures { result ≡ in_data (numbered text.now) }
{
    let Some((k, text)) = numbered(text) else {
        return TreePlace::Other;
    };
    match file_name(text) {
        Some(name) => TreePlace::Payload(k, name),
        None => TreePlace::Other,
    }
}

fn is_augmented(path: &[u8]) -> bool
    ensures { result ≡ is_augmented path.now }
{
    path == b"manifest-augment".as_slice() || path.starts_with(b"header-augment")
}

/// What stands at the path.
#[tactic(auto, unfolding(crate::specs::Places::place_of))]
pub fn place_of(path: &Name) -> TreePlace
    ensures { result ≡ place_of path.now }
{
    let path = path.bytes();
    if path == b"version".as_slice() {
        return TreePlace::Version;
    }
    if path == b"manifest".as_slice() {
        return TreePlace::Manifest;
    }
    if path == b"manifest.sig".as_slice() {
        return TreePlace::Signature;
    }
    if path == b"header/header-info".as_slice() {
        return TreePlace::HeaderInfo;
    }
    if path.starts_with(b"header/headers/") {
        return in_headers(path.split_at(15).1);
    }
    if path.starts_with(b"header/scripts/") {
        return in_scripts(path.split_at(15).1);
    }
    if path.starts_with(b"data/") {
        return in_data(path.split_at(5).1);
    }
    if is_augmented(path) {
        return TreePlace::Augmented;
    }
    TreePlace::Other
}

/// The payload of a payload's file, and the file's name as it stands in its path.
pub fn payload_name(path: &Name) -> Option<(u8, &[u8])>
    ensures { MatchOption result (payload_at (place_of path.now) ≡ None) (λ p. payload_at (place_of path.now) ≡ Some (p.0, p.1.now)) }
{
    match place_of(path) {
        TreePlace::Payload(k, _) => Some((k, path.bytes().split_at(10).1)),
        _ => None,
    }
}

/// What stands at the path of a file, which may be none.
pub(crate) fn place_at(path: &Option<Name>) -> TreePlace
    ensures { result ≡ place_at path.now }
{
    match path {
        Some(path) => place_of(path),
        None => TreePlace::Other,
    }
}

impl TreePlace {
    /// Whether a tree may have a file there.
    pub(crate) fn is_allowed(&self) -> bool
        ensures { result ≡ is_allowed self.now }
    {
        !matches!(self, TreePlace::Augmented | TreePlace::Other)
    }

    /// Whether it is an augmented manifest or header.
    pub(crate) fn is_barred(&self) -> bool
        ensures { result ≡ is_barred self.now }
    {
        matches!(self, TreePlace::Augmented)
    }

    /// Whether it is the manifest itself or its signature.
    pub(crate) fn is_manifest(&self) -> bool
        ensures { result ≡ is_manifest self.now }
    {
        matches!(self, TreePlace::Manifest | TreePlace::Signature)
    }

    /// Whether it is a file of a payload.
    pub fn is_payload(&self) -> bool
        ensures { result ≡ is_payload self.now }
    {
        matches!(self, TreePlace::Payload(..))
    }

    /// Whether it is a file that is read whole.
    pub(crate) fn is_header(&self) -> bool
        ensures { result ≡ is_header self.now }
    {
        self.is_allowed() && !self.is_payload() && !matches!(self, TreePlace::Signature)
    }

    /// The payload whose type-info it is.
    pub(crate) fn info(&self) -> Option<u8>
        ensures { result ≡ info_at self.now }
    {
        match self {
            TreePlace::TypeInfo(k) => Some(*k),
            _ => None,
        }
    }

    /// Whether it is the type-info of this payload.
    pub(crate) fn is_info_of(&self, payload: u32) -> bool
        ensures { result ≡ is_info_of payload self.now }
    {
        match self {
            TreePlace::TypeInfo(k) => u32::from(*k) == payload,
            _ => false,
        }
    }

    /// The payload that it belongs to.
    pub(crate) fn payload(&self) -> Option<u8>
        ensures { result ≡ payload_of self.now }
    {
        match self {
            TreePlace::TypeInfo(k) | TreePlace::MetaData(k) | TreePlace::Payload(k, _) => Some(*k),
            _ => None,
        }
    }

    /// The name of a script.
    pub(crate) fn script(&self) -> Option<&Name>
        ensures { option_copied result ≡ script_at self.now }
    {
        match self {
            TreePlace::Script(name) => Some(name),
            _ => None,
        }
    }
}

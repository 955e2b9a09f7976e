//! The texts of refusals.

ghost use Rattle.std.specs.Prelude.{◌≡◌, ◌++◌, ◌≤◌, length, codes};
ghost use Rattle.std.specs.Fmt.{decimal};
ghost use Rattle.admit.specs.Texts.{refused, about_manifest, about_meta, of_payload, about_sums, field_number, file_number};
ghost use Rattle.admit.specs.Table.{path_of};

use crate::refusal::{Differs, Refusal, Which};
use artifact_meta::{Field, MetaFault, MetaFile};
use io_model::Line;
use manifest_sums::ManifestFault;

fn path_of(which: Which) -> &'static [u8]
    ensures path { result.now ≡ path_of which }
    ensures short { length result.now ≤ 128 }
{
    match which {
        Which::Version => b"version",
        Which::Manifest => b"manifest",
        Which::HeaderInfo => b"header/header-info",
        Which::TypeInfo => b"header/headers/0000/type-info",
    }
}

fn file_number(file: MetaFile) -> u64
    ensures { result ≡ file_number file }
{
    match file {
        MetaFile::HeaderInfo => 1,
        MetaFile::TypeInfo => 2,
    }
}

fn field_number(field: Field) -> u64
    ensures { result ≡ field_number field }
{
    match field {
        Field::HeaderTop => 1,
        Field::Payloads => 2,
        Field::PayloadType => 3,
        Field::HeaderProvides => 4,
        Field::ArtifactName => 5,
        Field::ArtifactGroup => 6,
        Field::HeaderDepends => 7,
        Field::DeviceType => 8,
        Field::DependsName => 9,
        Field::DependsGroup => 10,
        Field::InfoTop => 11,
        Field::InfoType => 12,
        Field::InfoProvides => 13,
        Field::InfoDepends => 14,
        Field::InfoClears => 15,
    }
}

fn about_manifest(fault: ManifestFault) -> Line
    ensures { result ≡ codes "refused 9 " ++ about_manifest fault ++ codes "\n" }
{
    match fault {
        ManifestFault::BadLine(line) => Line::numbered(b"refused 9 1 ", u64::from(line)),
        ManifestFault::Doubled(line) => Line::numbered(b"refused 9 2 ", u64::from(line)),
        ManifestFault::PackedHeader(line) => Line::numbered(b"refused 9 3 ", u64::from(line)),
        ManifestFault::TooMany => Line::named(b"refused 9 ", b"4"),
        ManifestFault::NoMemory => Line::named(b"refused 9 ", b"5"),
    }
}

/// A front and a number.
fn counted(front: &[u8], n: u64) -> Line
    requires { length front.now ≤ 64 }
    ensures text { result ≡ front.now ++ decimal n }
    ensures short { length result ≤ 96 }
{
    let digits = upd_text::decimal(n);
    let mut text = Line::new();
    text.add(front);
    text.add(digits.bytes());
    text
}

fn digit(text: &[u8]) -> Line
    requires { length text.now ≤ 64 }
    ensures text { result ≡ text.now }
    ensures short { length result ≤ 96 }
{
    let mut line = Line::new();
    line.add(text);
    line
}

fn about_meta(fault: MetaFault) -> Line
    ensures text { result ≡ about_meta fault }
    ensures short { length result ≤ 96 }
{
    match fault {
        MetaFault::NotJson(file) => counted(b"1 ", file_number(file)),
        MetaFault::Missing(field) => counted(b"2 ", field_number(field)),
        MetaFault::WrongKind(field) => counted(b"3 ", field_number(field)),
        MetaFault::BadText(field) => counted(b"4 ", field_number(field)),
        MetaFault::PayloadCount(count) => counted(b"5 ", u64::from(count)),
        MetaFault::NullType => digit(b"6"),
        MetaFault::TypeDiffers => digit(b"7"),
        MetaFault::NoMemory => digit(b"8"),
    }
}

/// The payload whose type-info it is, unless that is payload 0.
fn of_payload(payload: u32) -> Line
    ensures text { result ≡ of_payload payload }
    ensures short { length result ≤ 96 }
{
    if payload == 0 {
        return Line::new();
    }
    counted(b" ", u64::from(payload))
}

/// The fault of a metadata file, and the payload that it is of.
fn meta_line(fault: MetaFault, payload: u32) -> Line
    ensures { result ≡ codes "refused 14 " ++ (about_meta fault ++ of_payload payload) ++ codes "\n" }
{
    let about = about_meta(fault);
    let behind = of_payload(payload);
    let mut text = Line::new();
    text.add(b"refused 14 ");
    text.add(about.bytes());
    text.add(behind.bytes());
    text.add(b"\n");
    text
}

/// The path and the two sums behind a front.
fn about_sums(front: &[u8], differs: &Differs) -> Line
    requires { length front.now ≤ 64 }
    ensures { result ≡ front.now ++ about_sums differs.now ++ codes "\n" }
{
    let mut text = Line::new();
    text.add(front);
    text.add(differs.path.bytes());
    text.add(b" ");
    text.add(&differs.listed.hex());
    text.add(b" ");
    text.add(&differs.found.hex());
    text.add(b"\n");
    text
}

impl Refusal {
    /// What a user reads of it: `refused`, its number and what it is about, and a newline.
    #[tactic(auto, unfolding(crate::specs::Texts::refused))]
    pub fn line(&self) -> Line
        ensures { result ≡ refused self.now ++ codes "\n" }
    {
        match self {
            Refusal::TooManyFiles(count) => Line::numbered(b"refused 3 ", u64::from(*count)),
            Refusal::Augmented(index) => Line::numbered(b"refused 4 ", u64::from(*index)),
            Refusal::BadPath(index) => Line::numbered(b"refused 5 ", u64::from(*index)),
            Refusal::DoubledPath(index) => Line::numbered(b"refused 6 ", u64::from(*index)),
            Refusal::NoFile(which) => Line::named(b"refused 7 ", path_of(*which)),
            Refusal::HeaderTooLong(path) => Line::named(b"refused 8 ", path.bytes()),
            Refusal::Manifest(fault) => about_manifest(*fault),
            Refusal::NotListed(path) => Line::named(b"refused 10 ", path.bytes()),
            Refusal::Absent(path) => Line::named(b"refused 11 ", path.bytes()),
            Refusal::SumDiffers(differs) => about_sums(b"refused 12 ", differs),
            Refusal::BadVersion => Line::named(b"refused 13", b""),
            Refusal::Meta(fault, payload) => meta_line(*fault, *payload),
            Refusal::BadScriptName(path) => Line::named(b"refused 15 ", path.bytes()),
            Refusal::TooManyScripts(count) => Line::numbered(b"refused 16 ", u64::from(*count)),
            Refusal::Unmet(key) => Line::named(b"refused 17 ", key.bytes()),
            Refusal::PayloadDiffers(differs) => about_sums(b"refused 18 ", differs),
            Refusal::NoTypeInfo(payload) => Line::numbered(b"refused 19 ", u64::from(*payload)),
            Refusal::NoSuchPayload(path) => Line::named(b"refused 20 ", path.bytes()),
        }
    }
}

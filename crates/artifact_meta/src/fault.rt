ghost use Rattle.std.specs.Prelude.{◌≡◌};
ghost use Rattle.artifact_meta.specs.declared.fault.MetaFault.TheVariants.{NoMemory};

use upd_text::NoMemory as OutOfMemory;

/// Which file.
#[derive(Clone, Copy, Debug, PartialEq, Eq)]
pub enum MetaFile {
    HeaderInfo,
    TypeInfo,
}

/// A field of these files, in the order in which they are read.
///
/// Where a field holds strings, one string stands for a list of one.
#[derive(Clone, Copy, Debug, PartialEq, Eq)]
pub enum Field {
    /// Header-info as a whole: an object.
    HeaderTop,
    /// `payloads`: a list. It has to be there, with 1 to 8 items.
    Payloads,
    /// `type` of each payload in order, which is an object: a name without `/` that is neither `.`
    /// nor `..`. It has to be there.
    PayloadType,
    /// `artifact_provides` of header-info: an object. It has to be there.
    HeaderProvides,
    /// `artifact_name` in it: a name. It has to be there.
    ArtifactName,
    /// `artifact_group` in it: a name. An empty string counts as absent.
    ArtifactGroup,
    /// `artifact_depends` of header-info: an object. It has to be there.
    HeaderDepends,
    /// `device_type` in it: strings that are values. It has to be there.
    DeviceType,
    /// `artifact_name` in it: strings that are values. Where it is absent there is no want.
    DependsName,
    /// `artifact_group` in it: strings that are values. Where it is absent there is no want.
    DependsGroup,
    /// Type-info as a whole: an object.
    InfoTop,
    /// `type` of type-info, as `PayloadType`. It has to be there.
    InfoType,
    /// `artifact_provides` of type-info: an object of names to strings that are values. Where it is
    /// absent nothing is provided.
    InfoProvides,
    /// `artifact_depends` of type-info: an object of names to strings that are values, one or a list
    /// at each. Where it is absent there is no want.
    InfoDepends,
    /// `clears_artifact_provides` of type-info: strings that are names. Where it is absent all
    /// provides are cleared.
    InfoClears,
}

/// What is wrong with a file.
#[derive(Clone, Copy, Debug, PartialEq, Eq)]
pub enum MetaFault {
    /// The file is no JSON. This comes before the file's first field.
    NotJson(MetaFile),
    /// The field has to be there, and is absent or `null`.
    Missing(Field),
    /// The field, or an item in it, is of another JSON kind. So is an item or a pair's value that is
    /// `null`, and a payload that is no object counts so at its type.
    WrongKind(Field),
    /// A string or a key in the field isn't such a name or value.
    BadText(Field),
    /// The list of payloads has this many items, none or more than 8; 2^32 - 1 stands for all
    /// greater numbers.
    PayloadCount(u32),
    /// A payload type is `null`.
    NullType,
    /// The types of header-info and of type-info differ. No reader of this crate answers it.
    TypeDiffers,
    /// Memory was refused. This is the one answer that no file explains.
    NoMemory,
}

impl From<OutOfMemory> for MetaFault {
    ghost from_gives = { λ _ e. e ≡ NoMemory };

    fn from(_e: OutOfMemory) -> MetaFault {
        MetaFault::NoMemory
    }
}

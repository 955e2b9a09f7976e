/// Why bytes are no name or no value. Where several hold, the first in this order.
#[derive(Clone, Copy, Debug, PartialEq, Eq)]
pub enum NameFault {
    /// There are no bytes.
    Empty,
    /// There are more bytes than the kind allows.
    TooLong,
    /// The index of the first bad byte.
    BadByte(u32),
}

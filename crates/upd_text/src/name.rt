ghost use Rattle.std.specs.Prelude.{◌≡◌, ◌≤◌, ◌<◌, length};
ghost use Rattle.upd_text.specs.Text.{name_of, IsName};

use crate::fault::NameFault;
use crate::value::first_bad;
use arrayvec::ArrayVec;
use std::marker::Model;

/// 1 to 128 bytes, none of them a control byte or 127.
#[derive(Drop, PartialEq, Eq, PartialOrd, Ord)]
pub struct Name {
    text: ArrayVec<u8, 128>,
}

impl Model for Name {
    ghost use Rattle.std.specs.Prelude.{List, ℕ};
    ghost use Rattle.upd_text.specs.Text.{IsName};

    ghost Value = { List ℕ };

    ghost view = { λ n. n.text.items };

    ghost invariant = { λ n. IsName n.text.items };

    ghost inverse = { λ bytes. record { text = record { items = bytes } } };
}

impl Name {
    /// The name of these bytes. Refused, the first that holds: `Empty` exactly where there are no
    /// bytes, `TooLong` exactly where there are more than 128, `BadByte(i)` exactly where `i` is
    /// the first byte below 32 or equal to 127.
    #[tactic(auto, unfolding(crate::specs::Text::name_of))]
    pub fn read(bytes: &[u8]) -> Result<Name, NameFault>
        ensures { result ≡ name_of bytes.now }
    {
        if bytes.is_empty() {
            return Err(NameFault::Empty);
        }
        if 128 < bytes.len() {
            return Err(NameFault::TooLong);
        }
        if let Some(at) = first_bad(bytes) {
            return Err(NameFault::BadByte(at as u32));
        }
        let text = copied(bytes);
        Ok(Name { text })
    }

    /// The bytes of the name.
    #[tactic(auto, using(crate::proofs::TextLemmas::name_parts))]
    pub fn bytes(&self) -> &[u8]
        ensures bytes { result.now ≡ self.now }
        ensures name { IsName self.now }
        ensures some { 0 < length self.now }
        ensures short { length self.now ≤ 128 }
    {
        self.text.as_slice()
    }

    /// A copy. It takes no memory and can't be refused.
    #[tactic(auto, using(crate::proofs::TextLemmas::name_parts))]
    pub fn twin(&self) -> Name
        ensures { result ≡ self.now }
    {
        let text = copied(self.text.as_slice());
        Name { text }
    }
}

/// The bytes in a vector of fixed room.
pub(crate) fn copied<const N: usize>(bytes: &[u8]) -> ArrayVec<u8, N>
    requires { length bytes.now ≤ N }
    ensures { result.items ≡ bytes.now }
{
    let mut text = ArrayVec::new();
    match text.try_extend_from_slice(bytes) {
        Ok(()) => text,
        Err(_) => text,
    }
}

ghost use Rattle.std.specs.Prelude.{◌≡◌, ◌≤◌, ◌<◌, length, position, ◌+◌, ◌++◌};
ghost use Rattle.upd_text.specs.Text.{value_of, is_bad, IsValue};

use crate::fault::NameFault;
use crate::name::{Name, copied};
use arrayvec::ArrayVec;
use std::marker::Model;

/// At most 1,024 bytes, none of them a control byte or 127.
#[derive(Drop, PartialEq, Eq)]
pub struct Value {
    text: ArrayVec<u8, 1024>,
}

impl Model for Value {
    ghost use Rattle.std.specs.Prelude.{List, ℕ};
    ghost use Rattle.upd_text.specs.Text.{IsValue};

    ghost Value = { List ℕ };

    ghost view = { λ v. v.text.items };

    ghost invariant = { λ v. IsValue v.text.items };

    ghost inverse = { λ bytes. record { text = record { items = bytes } } };
}

/// Where the first bad byte is.
pub(crate) fn first_bad(bytes: &[u8]) -> Option<usize>
    ensures { result ≡ position is_bad bytes.now }
{
    bytes.iter().position(|b| *b < 32 || *b == 127)
}

impl Value {
    /// The value of these bytes. Refused, the first that holds: `TooLong` exactly where there are
    /// more than 1,024, `BadByte(i)` exactly where `i` is the first byte below 32 or equal to 127.
    #[tactic(auto, unfolding(crate::specs::Text::value_of))]
    pub fn read(bytes: &[u8]) -> Result<Value, NameFault>
        ensures { result ≡ value_of bytes.now }
    {
        if 1024 < bytes.len() {
            return Err(NameFault::TooLong);
        }
        if let Some(at) = first_bad(bytes) {
            return Err(NameFault::BadByte(at as u32));
        }
        let text = copied(bytes);
        Ok(Value { text })
    }

    /// The value with the bytes of a name.
    #[tactic(auto, using(crate::proofs::TextLemmas::value_from_name, crate::proofs::TextLemmas::name_parts))]
    pub fn of_name(name: &Name) -> Value
        ensures { result ≡ name.now }
    {
        let text = copied(name.bytes());
        Value { text }
    }

    /// The value with the name behind it. Condition: together they have at most 1,024 bytes.
    #[tactic(auto, using(crate::proofs::TextLemmas::value_joined))]
    pub fn joined(front: &Value, end: &Name) -> Value
        requires { length front.now + length end.now ≤ 1024 }
        ensures { result ≡ front.now ++ end.now }
    {
        let mut text = copied(front.bytes());
        match text.try_extend_from_slice(end.bytes()) {
            Ok(()) => Value { text },
            Err(_) => Value { text },
        }
    }

    /// The bytes of the value.
    #[tactic(auto, using(crate::proofs::TextLemmas::value_parts))]
    pub fn bytes(&self) -> &[u8]
        ensures bytes { result.now ≡ self.now }
        ensures value { IsValue self.now }
        ensures short { length self.now ≤ 1024 }
    {
        self.text.as_slice()
    }

    /// A copy. It takes no memory and can't be refused.
    #[tactic(auto, using(crate::proofs::TextLemmas::value_parts))]
    pub fn twin(&self) -> Value
        ensures { result ≡ self.now }
    {
        let text = copied(self.text.as_slice());
        Value { text }
    }
}

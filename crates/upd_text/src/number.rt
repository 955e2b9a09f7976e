ghost use Rattle.std.specs.Prelude.{◌≡◌, ◌≤◌, ◌+◌, ◌*◌, ◌^◌, length, take, decimal, nat_lt, if◌then◌else◌, Some, None, position, ◌==◌, ◌<◌, IfSome};
ghost use Rattle.upd_text.specs.Text.{decimal_of, device_type_of, first_line};

use crate::name::{Name, copied};
use arrayvec::ArrayVec;
use itoa::Buffer;
use std::marker::Model;

/// At most 32 bytes of any kind.
#[derive(Drop, PartialEq, Eq)]
pub struct Text32 {
    text: ArrayVec<u8, 32>,
}

impl Model for Text32 {
    ghost use Rattle.std.specs.Prelude.{List, ℕ, length, ◌≤◌};

    ghost Value = { List ℕ };

    ghost view = { λ t. t.text.items };

    ghost invariant = { λ t. length t.text.items ≤ 32 };

    ghost inverse = { λ bytes. record { text = record { items = bytes } } };
}

impl Text32 {
    /// The first 32 bytes, or all where there are fewer.
    pub fn cut(bytes: &[u8]) -> Text32
        ensures { result ≡ take 32 bytes.now }
    {
        if bytes.len() <= 32 {
            return Text32 {
                text: copied(bytes),
            };
        }
        let text = copied(bytes.split_at(32).0);
        Text32 { text }
    }

    /// The bytes of the text.
    pub fn bytes(&self) -> &[u8]
        ensures bytes { result.now ≡ self.now }
        ensures short { length self.now ≤ 32 }
    {
        self.text.as_slice()
    }

    /// A copy. It takes no memory and can't be refused.
    pub fn twin(&self) -> Text32
        ensures { result ≡ self.now }
    {
        let text = copied(self.text.as_slice());
        Text32 { text }
    }
}

/// The decimal digits, without leading zeros.
pub fn decimal(n: u64) -> Text32
    ensures { result ≡ decimal n }
{
    let mut buffer = Buffer::new();
    Text32::cut(buffer.format(n).as_bytes())
}

/// The number, exactly where the bytes are 1 to 20 decimal digits and it is below 2^64; else `None`.
/// Leading zeros may stand.
#[tactic(auto, unfolding(crate::specs::Text::decimal_of))]
pub fn read_decimal(bytes: &[u8]) -> Option<u64>
    ensures { result ≡ decimal_of bytes.now }
{
    if bytes.is_empty() || 20 < bytes.len() {
        return None;
    }
    let mut number: u64 = 0;
    for byte in bytes {
        if *byte < 48 || 57 < *byte {
            return None;
        }
        let Some(next) = append_digit(number, *byte - 48) else {
            return None;
        };
        number = next;
    }
    Some(number)
}

fn append_digit(number: u64, digit: u8) -> Option<u64>
    ensures fits { IfSome result (λ n. n < 2 ^ 64) }
    ensures sum { result ≡ (if nat_lt (number * 10 + digit) (2 ^ 64) then Some (number * 10 + digit) else None) }
{
    number.checked_mul(10)?.checked_add(u64::from(digit))
}

fn newline(bytes: &[u8]) -> Option<usize>
    ensures at { result ≡ position (λ b. b == 10) bytes.now }
    ensures bound { IfSome result (λ i. i < length bytes.now) }
{
    bytes.iter().position(|b| *b == 10)
}

#[tactic(auto, using(crate::proofs::TextLemmas::lines))]
fn first_line(bytes: &[u8]) -> &[u8]
    ensures { result.now ≡ first_line bytes.now }
{
    match newline(bytes) {
        Some(at) => bytes.split_at(at).0,
        None => bytes,
    }
}

/// The name behind `device_type=` in the bytes up to the first newline, or in all where there is
/// none. `None` where they don't begin so, or no name follows; what stands behind the newline
/// doesn't count.
#[tactic(auto, unfolding(crate::specs::Text::device_type_of))]
pub fn read_device_type(bytes: &[u8]) -> Option<Name>
    ensures { result ≡ device_type_of bytes.now }
{
    let line = first_line(bytes);
    if !line.starts_with(b"device_type=") {
        return None;
    }
    match Name::read(line.split_at(12).1) {
        Ok(name) => Some(name),
        Err(_) => None,
    }
}

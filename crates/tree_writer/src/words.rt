//! What the words say.

ghost use Rattle.std.specs.Prelude.{◌≡◌, ◌<◌, ◌^◌, ◌-◌, ◌==◌, ◌&&◌, [], length, map, take, drop, position, is_some, string_bytes, Some, None, Ok, IfOk, IfSome, MatchOption};
ghost use Rattle.upd_text.specs.Text.{name_of, value_of};
ghost use Rattle.upd_text.specs.Results.{Gives};
ghost use Rattle.provides_map.specs.Pairs.{put};
ghost use Rattle.tree_writer.specs.Words.{usage, word, one_pattern, clears_word, is_equals, parts_at, name_and_value, pair_of, new_pair, pairs_after, spoken};
ghost use Rattle.tree_writer.specs.declared.words.WordFault.TheVariants as fault;

use provides_map::{Clears, Pattern, Provides};
use std::alloc::Global;
use upd_text::{ListOf, Name, NoMemory as OutOfMemory, Value};

/// What the words say.
#[derive(Drop)]
pub struct Spoken {
    pub name: Name,
    pub device: Value,
    pub kind: Name,
    pub clears: Clears,
    pub provides: Provides,
}

/// Why the words say nothing.
#[derive(Clone, Copy, Debug, PartialEq, Eq)]
pub enum WordFault {
    /// See `Made`.
    Usage(u32),
    NoMemory,
}

impl From<OutOfMemory> for WordFault {
    ghost use Rattle.std.specs.Prelude.{◌≡◌};
    ghost use Rattle.tree_writer.specs.declared.words.WordFault.TheVariants as fault;

    ghost from_gives = { λ _ e. e ≡ fault.NoMemory };

    fn from(_fault: OutOfMemory) -> WordFault {
        WordFault::NoMemory
    }
}

fn name_in(i: u32, text: &[u8]) -> Result<Name, WordFault>
    ensures { result ≡ word i (name_of text.now) }
{
    match Name::read(text) {
        Ok(name) => Ok(name),
        Err(_) => Err(WordFault::Usage(i)),
    }
}

fn value_in(i: u32, text: &[u8]) -> Result<Value, WordFault>
    ensures { result ≡ word i (value_of text.now) }
{
    match Value::read(text) {
        Ok(value) => Ok(value),
        Err(_) => Err(WordFault::Usage(i)),
    }
}

// One pattern.
fn pattern_in(alloc: Global, text: &[u8]) -> Result<Clears, WordFault>
    ensures { Gives fault.NoMemory (λ clears. clears) result (one_pattern text.now) }
{
    let name = name_in(3, text)?;
    let mut patterns = ListOf::new(alloc);
    patterns.push(Pattern::of(name))?;
    Ok(Clears::Listed(patterns))
}

fn clears_in(alloc: Global, text: &[u8]) -> Result<Clears, WordFault>
    ensures { Gives fault.NoMemory (λ clears. clears) result (clears_word text.now) }
{
    if text == b"-".as_slice() {
        return Ok(Clears::All);
    }
    pattern_in(alloc, text)
}

fn equals(text: &[u8]) -> Option<usize>
    ensures at { result ≡ position is_equals text.now }
    ensures bound { IfSome result (λ i. i < length text.now) }
{
    text.iter().position(|b| *b == b'=')
}

fn name_and_value(key: &[u8], value: &[u8]) -> Option<(Name, Value)>
    ensures { result ≡ name_and_value (name_of key.now) (value_of value.now) }
{
    let Ok(key) = Name::read(key) else {
        return None;
    };
    match Value::read(value) {
        Ok(value) => Some((key, value)),
        Err(_) => None,
    }
}

// A name and a value, split at the first `=`.
fn pair_in(text: &[u8]) -> Option<(Name, Value)>
    ensures { result ≡ pair_of text.now }
{
    let at = equals(text)?;
    name_and_value(&text[..at], &text[at + 1..])
}

fn usage(i: usize) -> WordFault
    ensures { result ≡ usage i }
{
    WordFault::Usage(i.min(0xffff_ffff) as u32)
}

fn new_pair(i: usize, found: &Provides, text: &[u8]) -> Result<(Name, Value), WordFault>
    ensures { result ≡ new_pair i found.now (pair_of text.now) }
{
    let Some((key, value)) = pair_in(text) else {
        return Err(usage(i));
    };
    if found.get(&key).is_some() {
        return Err(usage(i));
    }
    Ok((key, value))
}

fn pairs_in(alloc: Global, words: &[String]) -> Result<Provides, WordFault>
    ensures { Gives fault.NoMemory (λ pairs. pairs) result (pairs_after 4 [] (map string_bytes words.now)) }
{
    let mut found = Provides::new(alloc);
    for (i, word) in words.iter().enumerate() {
        let (key, value) = new_pair(i.saturating_add(4), &found, word.as_bytes())?;
        found.insert(key, value)?;
    }
    Ok(found)
}

/// What the words say, or `Usage` of the first one that is wrong.
#[tactic(auto, unfolding(crate::specs::Words::spoken))]
pub(crate) fn read_words(alloc: Global, words: &[String]) -> Result<Spoken, WordFault>
    ensures { Gives fault.NoMemory (λ spoken. spoken) result (spoken (map string_bytes words.now)) }
{
    let [name, device, kind, clears, pairs @ ..] = words else {
        return Err(WordFault::Usage(words.len() as u32));
    };
    let name = name_in(0, name.as_bytes())?;
    let device = value_in(1, device.as_bytes())?;
    let kind = name_in(2, kind.as_bytes())?;
    let clears = clears_in(alloc, clears.as_bytes())?;
    let provides = pairs_in(alloc, pairs)?;
    Ok(Spoken {
        name,
        device,
        kind,
        clears,
        provides,
    })
}

ghost use Rattle.std.specs.Prelude.{◌≡◌, [], true, IfOk, option_map};
ghost use Rattle.serde_json.specs.View.{view, items_view, members_view};
ghost use Rattle.upd_text.specs.Text.{name_of, value_of};
ghost use Rattle.upd_text.specs.Parts.{is_plain};
ghost use Rattle.artifact_meta.specs.Meta.{Answers, text, texts, texts_after, kind_of, present, provides_after, provides_of, wants_after, wants_of, clears_of};

use crate::fault::{Field, MetaFault};
use provides_map::{Clears, Pattern, PatternList, Provides, ValueList, Want, WantList};
use serde_json::{Map, Value as Json};
use std::alloc::Global;
use upd_text::{ListOf, Name, Value, is_plain};

// A string that is a name.
pub(crate) fn name_in(field: Field, json: &Json) -> Result<Name, MetaFault>
    ensures { Answers result (text name_of field (view json.now)) }
{
    let Some(text) = json.as_str() else {
        return Err(MetaFault::WrongKind(field));
    };
    match Name::read(text.as_bytes()) {
        Ok(name) => Ok(name),
        Err(_) => Err(MetaFault::BadText(field)),
    }
}

// A string that is a value.
pub(crate) fn value_in(field: Field, json: &Json) -> Result<Value, MetaFault>
    ensures { Answers result (text value_of field (view json.now)) }
{
    let Some(text) = json.as_str() else {
        return Err(MetaFault::WrongKind(field));
    };
    match Value::read(text.as_bytes()) {
        Ok(value) => Ok(value),
        Err(_) => Err(MetaFault::BadText(field)),
    }
}

fn values_of(alloc: Global, field: Field, items: &[Json]) -> Result<ValueList, MetaFault>
    ensures { Answers result (texts_after [] value_of field (items_view items.now)) }
{
    let mut values = ListOf::new(alloc);
    for item in items {
        let value = value_in(field, item)?;
        values.push(value)?;
    }
    Ok(values)
}

// One value, or a list of values.
pub(crate) fn values_in(alloc: Global, field: Field, json: &Json) -> Result<ValueList, MetaFault>
    ensures { Answers result (texts value_of field (view json.now)) }
{
    if json.is_string() {
        let value = value_in(field, json)?;
        let mut values = ListOf::new(alloc);
        values.push(value)?;
        return Ok(values);
    }
    let Some(items) = json.as_array() else {
        return Err(MetaFault::WrongKind(field));
    };
    values_of(alloc, field, items.as_slice())
}

fn patterns_of(alloc: Global, items: &[Json]) -> Result<PatternList, MetaFault>
    ensures { Answers result (texts_after [] name_of Field.InfoClears (items_view items.now)) }
{
    let mut patterns = ListOf::new(alloc);
    for item in items {
        let name = name_in(Field::InfoClears, item)?;
        patterns.push(Pattern::of(name))?;
    }
    Ok(patterns)
}

fn patterns_in(alloc: Global, json: &Json) -> Result<PatternList, MetaFault>
    ensures { Answers result (texts name_of Field.InfoClears (view json.now)) }
{
    if json.is_string() {
        let name = name_in(Field::InfoClears, json)?;
        let mut patterns = ListOf::new(alloc);
        patterns.push(Pattern::of(name))?;
        return Ok(patterns);
    }
    let Some(items) = json.as_array() else {
        return Err(MetaFault::WrongKind(Field::InfoClears));
    };
    patterns_of(alloc, items.as_slice())
}

pub(crate) fn clears_in(alloc: Global, json: Option<&Json>) -> Result<Clears, MetaFault>
    ensures { Answers result (clears_of (option_map (λ v. view v.now) json.entry)) }
{
    let Some(json) = json else {
        return Ok(Clears::All);
    };
    let patterns = patterns_in(alloc, json)?;
    Ok(Clears::Listed(patterns))
}

// A payload type.
pub(crate) fn kind_in(field: Field, json: Option<&Json>) -> Result<Name, MetaFault>
    ensures value { Answers result (kind_of field (option_map (λ v. view v.now) json.entry)) }
    ensures plain { IfOk result (λ name. is_plain name ≡ true) }
{
    let Some(json) = json else {
        return Err(MetaFault::Missing(field));
    };
    if json.is_null() {
        return Err(MetaFault::NullType);
    }
    let name = name_in(field, json)?;
    if is_plain(name.bytes()) {
        Ok(name)
    } else {
        Err(MetaFault::BadText(field))
    }
}

fn pairs_of(alloc: Global, map: &Map<String, Json>) -> Result<Provides, MetaFault>
    ensures { Answers result (provides_after [] (members_view map.now.entries)) }
{
    let mut provides = Provides::new(alloc);
    for (key, json) in map {
        let Ok(name) = Name::read(key.as_bytes()) else {
            return Err(MetaFault::BadText(Field::InfoProvides));
        };
        let value = value_in(Field::InfoProvides, json)?;
        provides.insert(name, value)?;
    }
    Ok(provides)
}

pub(crate) fn provides_in(alloc: Global, json: Option<&Json>) -> Result<Provides, MetaFault>
    ensures { Answers result (provides_of (option_map (λ v. view v.now) json.entry)) }
{
    let Some(json) = json else {
        return Ok(Provides::new(alloc));
    };
    let Some(map) = json.as_object() else {
        return Err(MetaFault::WrongKind(Field::InfoProvides));
    };
    pairs_of(alloc, map)
}

fn wants_from(alloc: Global, map: &Map<String, Json>) -> Result<WantList, MetaFault>
    ensures { Answers result (wants_after [] (members_view map.now.entries)) }
{
    let mut wants = ListOf::new(alloc);
    for (key, wanted) in map {
        let Ok(name) = Name::read(key.as_bytes()) else {
            return Err(MetaFault::BadText(Field::InfoDepends));
        };
        let allowed = values_in(alloc, Field::InfoDepends, wanted)?;
        if allowed.len() > 0 {
            wants.push(Want { key: name, allowed })?;
        }
    }
    Ok(wants)
}

pub(crate) fn wants_in(alloc: Global, json: Option<&Json>) -> Result<WantList, MetaFault>
    ensures { Answers result (wants_of (option_map (λ v. view v.now) json.entry)) }
{
    let Some(json) = json else {
        return Ok(ListOf::new(alloc));
    };
    let Some(map) = json.as_object() else {
        return Err(MetaFault::WrongKind(Field::InfoDepends));
    };
    wants_from(alloc, map)
}

// What an object has under a name, if it isn't `null`.
pub(crate) fn present<'a>(name: &str, json: &'a Json) -> Option<&'a Json>
    ensures { option_map (λ v. view v.now) result ≡ present name.now (view json.now) }
{
    let Some(found) = json.get(name) else {
        return None;
    };
    if found.is_null() {
        return None;
    }
    Some(found)
}

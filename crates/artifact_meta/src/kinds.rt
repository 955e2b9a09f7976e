//! The types of the payloads.

ghost use Rattle.std.specs.Prelude.{◌≡◌, ◌≤◌, [], length, true, Ok, IfOk, OnOk, option_map};
ghost use Rattle.std.specs.List.{AllPass};
ghost use Rattle.serde_json.specs.View.{view, items_view};
ghost use Rattle.upd_text.specs.Parts.{is_plain};
ghost use Rattle.upd_text.specs.Results.{Gives};
ghost use Rattle.artifact_meta.specs.Meta.{Answers};
ghost use Rattle.artifact_meta.specs.Header.{counted_payloads, is_payload_count, payload_kind, kinds_after, payload_kinds, AreKinds};

use crate::fault::{Field, MetaFault};
use crate::fields::kind_in;
use crate::header::needed;
use serde_json::Value as Json;
use std::alloc::Global;
use upd_text::{KindList, Name};

/// How many payloads a tree may have.
pub const MOST_PAYLOADS: u8 = 8;

fn is_payload_count(count: usize) -> bool
    ensures { result ≡ is_payload_count count }
{
    1 <= count && count <= usize::from(MOST_PAYLOADS)
}

// There are as many payloads as there may be.
fn check_count(count: usize) -> Result<(), MetaFault>
    ensures value { Answers result (counted_payloads count) }
    ensures some { OnOk result (1 ≤ count) }
    ensures few { OnOk result (count ≤ MOST_PAYLOADS) }
{
    if is_payload_count(count) {
        return Ok(());
    }
    Err(MetaFault::PayloadCount(count.min(0xffff_ffff) as u32))
}

fn payload_kind(payload: &Json) -> Result<Name, MetaFault>
    ensures value { Answers result (payload_kind (view payload.now)) }
    ensures plain { IfOk result (λ name. is_plain name ≡ true) }
{
    if !payload.is_object() {
        return Err(MetaFault::WrongKind(Field::PayloadType));
    }
    kind_in(Field::PayloadType, payload.get("type"))
}

fn kinds_of(alloc: Global, payloads: &[Json]) -> Result<KindList, MetaFault>
    ensures value { Answers result (kinds_after [] (items_view payloads.now)) }
    ensures count { IfOk result (λ kinds. length kinds ≡ length payloads.now) }
    ensures plain { IfOk result (λ kinds. AllPass is_plain kinds) }
{
    let mut kinds = KindList::new(alloc);
    for payload in payloads {
        let kind = payload_kind(payload)?;
        kinds.push(kind)?;
    }
    Ok(kinds)
}

// The types of the payloads, one for each in order.
#[tactic(auto, using(crate::proofs::Payloads::counted_items), unfolding(crate::specs::Header::payload_kinds))]
pub(crate) fn payload_kinds(alloc: Global, json: &Json) -> Result<KindList, MetaFault>
    ensures value { Answers result (payload_kinds (view json.now)) }
    ensures kinds { IfOk result AreKinds }
{
    let payloads = needed(Field::Payloads, "payloads", json)?;
    let Some(items) = payloads.as_array() else {
        return Err(MetaFault::WrongKind(Field::Payloads));
    };
    check_count(items.len())?;
    kinds_of(alloc, items.as_slice())
}

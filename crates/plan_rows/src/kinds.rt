// Values of the document by their kinds.

ghost use Rattle.std.specs.Prelude.{◌≡◌, [], true, not, map, Some, None, if◌then◌else◌};
ghost use Rattle.std.specs.Option.{option_map_or};
ghost use Rattle.toml.specs.Data.{as_str, as_integer, as_array};
ghost use Rattle.toml.specs.View.{view, table_view};
ghost use Rattle.plan_rows.specs.declared.error.PlanFileErr.TheVariants.{Key, Kind};
ghost use Rattle.plan_rows.specs.Format.{is_text, is_integer, is_array};
ghost use Rattle.plan_rows.specs.Rules.{data_of};
ghost use Rattle.plan_rows.specs.Slots.{seen, text_in, integer_in, name_in};
ghost use Rattle.plan_rows.specs.private.Slots.{entries_in};
ghost use Rattle.plan_rows.specs.private.Values.{table_in};
ghost use Rattle.plan_rows.specs.private.Gives.{Sees};

use crate::error::PlanFileErr;
use std::alloc::Global;
use sync_text::Text;
use sync_topo::Place;
use toml::{Table, Value};

/// What a slot has is a text, if it has anything.
pub(crate) fn fits_text(slot: &Option<Value>) -> bool
    ensures { result ≡ option_map_or is_text (seen slot.now) true }
{
    match slot {
        Some(value) => value.as_str().is_some(),
        None => true,
    }
}

/// What a slot has is an integer, if it has anything.
pub(crate) fn fits_integer(slot: &Option<Value>) -> bool
    ensures { result ≡ option_map_or is_integer (seen slot.now) true }
{
    match slot {
        Some(value) => value.as_integer().is_some(),
        None => true,
    }
}

/// What a slot has is an array, if it has anything.
pub(crate) fn fits_array(slot: &Option<Value>) -> bool
    ensures { result ≡ option_map_or is_array (seen slot.now) true }
{
    match slot {
        Some(value) => value.as_array().is_some(),
        None => true,
    }
}

/// The rule that a table breaks: it has an unknown key or lacks one, or what it has is not of its kinds.
pub(crate) fn refusal(place: Place, lacks: bool, fits: bool) -> Option<PlanFileErr>
    ensures { result ≡ (if lacks then Some (Key place) else if not fits then Some (Kind place) else None) }
{
    if lacks {
        return Some(PlanFileErr::Key(place));
    }
    if fits {
        None
    } else {
        Some(PlanFileErr::Kind(place))
    }
}

/// The integer in a slot.
pub(crate) fn integer_in(slot: Option<Value>) -> Option<i64>
    ensures { result ≡ integer_in (seen slot) }
{
    match slot {
        Some(value) => value.as_integer(),
        None => None,
    }
}

/// The text that a value is. It is moved.
#[tactic(auto, using(crate::proofs::ValueFacts::views))]
fn text_of(value: Value) -> Option<Text>
    ensures { result ≡ as_str (view value) }
{
    match value {
        Value::String(text) => Some(Text::from(text.into_bytes())),
        _ => None,
    }
}

/// The text in a slot.
pub(crate) fn text_in(slot: Option<Value>) -> Option<Text>
    ensures { result ≡ text_in (seen slot) }
{
    match slot {
        Some(value) => text_of(value),
        None => None,
    }
}

/// The text in a slot, and the empty one where it has none.
pub(crate) fn name_in(alloc: Global, slot: Option<Value>) -> Text
    ensures { result ≡ name_in (seen slot) }
{
    match text_in(slot) {
        Some(text) => text,
        None => Text::new(alloc),
    }
}

/// The entries of the array that a value is, and none where it is another value.
#[tactic(auto, using(crate::proofs::ValueFacts::views))]
fn entries_of(alloc: Global, value: Value) -> Vec<Value>
    ensures { map view result.items ≡ option_map_or data_of (as_array (view value)) [] }
{
    match value {
        Value::Array(entries) => entries,
        _ => Vec::new(alloc),
    }
}

/// The entries of the array in a slot.
pub(crate) fn entries_in(alloc: Global, slot: Option<Value>) -> Vec<Value>
    ensures { map view result.items ≡ entries_in (seen slot) }
{
    match slot {
        Some(value) => entries_of(alloc, value),
        None => Vec::new(alloc),
    }
}

/// The table that an entry is.
#[tactic(auto, using(crate::proofs::ValueFacts::views))]
pub(crate) fn table_of(place: Place, entry: Value) -> Result<Table, PlanFileErr>
    ensures { Sees table_view result (table_in place (view entry)) }
{
    match entry {
        Value::Table(fields) => Ok(fields),
        _ => Err(PlanFileErr::Kind(place)),
    }
}

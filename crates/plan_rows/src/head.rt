// The head of a document: its own keys.

ghost use Rattle.std.specs.Prelude.{◌≡◌, true, option_and_then};
ghost use Rattle.std.specs.Option.{option_map_or};
ghost use Rattle.toml.specs.Data.{integer, as_str};
ghost use Rattle.toml.specs.View.{view, table_view};
ghost use Rattle.sync_topo.specs.declared.place.Section.TheVariants as section;
ghost use Rattle.plan_rows.specs.declared.version.Version.TheVariants.{Two};
ghost use Rattle.plan_rows.specs.Format.{keys_of, is_version, is_option, option_of, version_said};
ghost use Rattle.plan_rows.specs.Slots.{seen, fits, said_by};
ghost use Rattle.plan_rows.specs.Values.{head_slots, version_in, option_in};
ghost use Rattle.plan_rows.specs.private.Values.{head_said, head_seen, head_in};
ghost use Rattle.plan_rows.specs.private.Gives.{Sees};

use crate::error::PlanFileErr;
use crate::kinds::{entries_in, fits_array, refusal};
use crate::values::HeadValues;
use crate::version::Version;
use std::alloc::Global;
use sync_ql::NetOption;
use sync_topo::{Place, Section};
use toml::{Table, Value};

/// What the head of a document says.
#[derive(Drop)]
pub(crate) struct Head {
    pub(crate) version: Version,
    pub(crate) option: NetOption,
    pub(crate) elements: Vec<Value>,
    pub(crate) links: Vec<Value>,
    pub(crate) sources: Vec<Value>,
}

/// The version that an integer says.
fn version_of_number(number: i64) -> Option<Version>
    ensures { result ≡ version_said (integer number) }
{
    match number {
        1 => Some(Version::One),
        2 => Some(Version::Two),
        _ => None,
    }
}

/// The version that a value says.
fn version_of(value: &Value) -> Option<Version>
    ensures { result ≡ version_said (view value.now) }
{
    version_of_number(value.as_integer()?)
}

/// The network option of a text, `I` or `II`; `None` of any other. After G.781, network options.
pub fn option_of_text(text: &str) -> Option<NetOption>
    ensures { result ≡ option_of text.now }
{
    match text {
        "I" => Some(NetOption::I),
        "II" => Some(NetOption::II),
        _ => None,
    }
}

/// The network option that a value says.
fn option_of(value: &Value) -> Option<NetOption>
    ensures { result ≡ option_and_then option_of (as_str (view value.now)) }
{
    option_of_text(value.as_str()?)
}

/// What a slot has is a version, if it has anything.
pub fn fits_version(slot: &Option<Value>) -> bool
    ensures { result ≡ option_map_or is_version (seen slot.now) true }
{
    match slot {
        Some(value) => version_of(value).is_some(),
        None => true,
    }
}

/// What a slot has is a network option, if it has anything.
pub fn fits_option(slot: &Option<Value>) -> bool
    ensures { result ≡ option_map_or is_option (seen slot.now) true }
{
    match slot {
        Some(value) => option_of(value).is_some(),
        None => true,
    }
}

/// The version in a slot, and the first where it has none.
pub fn version_in(slot: &Option<Value>) -> Version
    ensures { result ≡ version_in (seen slot.now) }
{
    match slot {
        Some(value) => version_of(value).unwrap_or(Version::One),
        None => Version::One,
    }
}

/// The network option in a slot, and I where it has none.
pub fn option_in(slot: &Option<Value>) -> NetOption
    ensures { result ≡ option_in (seen slot.now) }
{
    match slot {
        Some(value) => option_of(value).unwrap_or(NetOption::I),
        None => NetOption::I,
    }
}

/// What the head has is of its kinds.
#[tactic(auto, using(crate::proofs::ValueFacts::all_five))]
fn head_fits(values: &HeadValues) -> bool
    ensures { result ≡ fits (keys_of Two section.Head) (head_slots values.now).values }
{
    fits_version(&values.version)
        && fits_option(&values.option)
        && fits_array(&values.elements)
        && fits_array(&values.links)
        && fits_array(&values.sources)
}

/// What the values of a head say.
fn head_said(alloc: Global, values: HeadValues) -> Head
    ensures { head_seen result ≡ head_said (head_slots values).values }
{
    Head {
        version: version_in(&values.version),
        option: option_in(&values.option),
        elements: entries_in(alloc, values.elements),
        links: entries_in(alloc, values.links),
        sources: entries_in(alloc, values.sources),
    }
}

/// The head that these values make.
fn head_by(alloc: Global, place: Place, values: HeadValues) -> Result<Head, PlanFileErr>
    ensures { Sees head_seen result (said_by place (keys_of Two section.Head) head_said (head_slots values)) }
{
    match refusal(place, values.other, head_fits(&values)) {
        None => Ok(head_said(alloc, values)),
        Some(error) => {
            drop(values);
            Err(error)
        }
    }
}

/// The head of a document.
pub(crate) fn head_of(alloc: Global, document: Table) -> Result<Head, PlanFileErr>
    ensures { Sees head_seen result (head_in (table_view document)) }
{
    let place = Place {
        section: Section::Head,
        row: 0,
    };
    head_by(alloc, place, HeadValues::of_table(document))
}

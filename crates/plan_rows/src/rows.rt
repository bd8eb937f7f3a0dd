// The rows of a document's tables.

ghost use Rattle.std.specs.Prelude.{◌≡◌, ◌||◌, map};
ghost use Rattle.toml.specs.View.{view, table_view};
ghost use Rattle.sync_topo.specs.declared.place.Section.TheVariants as section;
ghost use Rattle.plan_rows.specs.declared.version.Version.TheVariants.{One, Two};
ghost use Rattle.plan_rows.specs.Format.{keys_of};
ghost use Rattle.plan_rows.specs.Rows.{element_row, link_row, source_row, rows_of_document};
ghost use Rattle.plan_rows.specs.private.Rows.{row_at};
ghost use Rattle.plan_rows.specs.Slots.{lacks, fits, said_by};
ghost use Rattle.plan_rows.specs.Values.{element_slots, link_slots, source_slots, element_said, link_said, source_said};
ghost use Rattle.plan_rows.specs.private.Values.{rows_from};
ghost use Rattle.sync_text.specs.Gives.{Gives};

use crate::error::PlanFileErr;
use crate::head::head_of;
use crate::kinds::{fits_integer, fits_text, integer_in, name_in, refusal, table_of, text_in};
use crate::values::{ElementValues, LinkValues, SourceValues};
use crate::version::Version;
use std::alloc::Global;
use sync_text::{NoAnswer, Rows};
use sync_topo::{ElementRow, LinkRow, Place, PlanRows, Section, SourceRow};
use toml::{Table, Value};

/// An element has an unknown key, or lacks one that it must have.
#[tactic(auto, using(crate::proofs::ValueFacts::needed_one))]
fn element_lacks(values: &ElementValues) -> bool
    ensures { let slots = element_slots values.now in
        result ≡ (slots.other || lacks (keys_of Two section.Elements) slots.values) }
{
    values.other || values.name.is_none()
}

/// What an element has is of its kinds.
#[tactic(auto, using(crate::proofs::ValueFacts::all_five))]
fn element_fits(values: &ElementValues) -> bool
    ensures { result ≡ fits (keys_of Two section.Elements) (element_slots values.now).values }
{
    fits_text(&values.name)
        && fits_text(&values.own)
        && fits_text(&values.floor)
        && fits_integer(&values.holdoff)
        && fits_integer(&values.wtr)
}

/// What the values of an element say.
fn element_said(alloc: Global, values: ElementValues) -> ElementRow
    ensures { result ≡ element_said (element_slots values).values }
{
    ElementRow {
        name: name_in(alloc, values.name),
        own: text_in(values.own),
        floor: text_in(values.floor),
        holdoff: integer_in(values.holdoff),
        wtr: integer_in(values.wtr),
    }
}

/// The row that these values make.
pub fn element_by(
    alloc: Global,
    place: Place,
    values: ElementValues,
) -> Result<ElementRow, PlanFileErr>
    ensures { result ≡ said_by place (keys_of Two section.Elements) element_said (element_slots values) }
{
    match refusal(place, element_lacks(&values), element_fits(&values)) {
        None => Ok(element_said(alloc, values)),
        Some(error) => {
            drop(values);
            Err(error)
        }
    }
}

/// The row that an entry of `element` says.
#[tactic(auto, using(crate::proofs::EntryFacts::element_in_entry))]
fn element_row(alloc: Global, row: u64, entry: Value) -> Result<ElementRow, PlanFileErr>
    ensures { result ≡ row_at One element_row section.Elements row (view entry) }
{
    let place = Place {
        section: Section::Elements,
        row,
    };
    let fields = table_of(place, entry)?;
    element_by(alloc, place, ElementValues::of_table(fields))
}

/// The rows of the entries of `element`.
fn element_rows(
    alloc: Global,
    entries: Vec<Value>,
) -> Result<Rows<ElementRow>, NoAnswer<PlanFileErr>>
    ensures { Gives result (rows_from One element_row section.Elements 1 (map view entries.items)) }
{
    let mut rows = Rows::with_capacity(alloc, entries.len())?;
    let mut number = 1;
    for entry in entries {
        match element_row(alloc, number, entry) {
            Ok(row) => rows.push(row)?,
            Err(refused) => return Err(NoAnswer::Refused(refused)),
        }
        number += 1;
    }
    Ok(rows)
}

/// A link has an unknown key, or lacks one that it must have.
#[tactic(auto, using(crate::proofs::ValueFacts::needed_three))]
fn link_lacks(values: &LinkValues) -> bool
    ensures { let slots = link_slots values.now in
        result ≡ (slots.other || lacks (keys_of Two section.Links) slots.values) }
{
    values.other || values.name.is_none() || values.a.is_none() || values.b.is_none()
}

/// What a link has is of its kinds.
#[tactic(auto, using(crate::proofs::ValueFacts::all_eight))]
fn link_fits(values: &LinkValues) -> bool
    ensures { result ≡ fits (keys_of Two section.Links) (link_slots values.now).values }
{
    fits_text(&values.name)
        && fits_text(&values.a)
        && fits_text(&values.b)
        && fits_integer(&values.priority_a)
        && fits_integer(&values.priority_b)
        && fits_integer(&values.delay_a)
        && fits_integer(&values.delay_b)
        && fits_text(&values.bundle)
}

/// What the values of a link say.
fn link_said(alloc: Global, values: LinkValues) -> LinkRow
    ensures { result ≡ link_said (link_slots values).values }
{
    LinkRow {
        name: name_in(alloc, values.name),
        a: name_in(alloc, values.a),
        b: name_in(alloc, values.b),
        priority_a: integer_in(values.priority_a),
        priority_b: integer_in(values.priority_b),
        delay_a: integer_in(values.delay_a),
        delay_b: integer_in(values.delay_b),
        bundle: text_in(values.bundle),
    }
}

/// The row that these values make.
pub fn link_by(alloc: Global, place: Place, values: LinkValues) -> Result<LinkRow, PlanFileErr>
    ensures { result ≡ said_by place (keys_of Two section.Links) link_said (link_slots values) }
{
    match refusal(place, link_lacks(&values), link_fits(&values)) {
        None => Ok(link_said(alloc, values)),
        Some(error) => {
            drop(values);
            Err(error)
        }
    }
}

/// The row that an entry of `link` says.
#[tactic(auto, using(crate::proofs::EntryFacts::link_in_entry))]
fn link_row(alloc: Global, version: Version, row: u64, entry: Value) -> Result<LinkRow, PlanFileErr>
    ensures { result ≡ row_at version (link_row version) section.Links row (view entry) }
{
    let place = Place {
        section: Section::Links,
        row,
    };
    let fields = table_of(place, entry)?;
    link_by(
        alloc,
        place,
        LinkValues::of_table(fields).of_version(version),
    )
}

/// The rows of the entries of `link`.
fn link_rows(
    alloc: Global,
    version: Version,
    entries: Vec<Value>,
) -> Result<Rows<LinkRow>, NoAnswer<PlanFileErr>>
    ensures { Gives result (rows_from version (link_row version) section.Links 1 (map view entries.items)) }
{
    let mut rows = Rows::with_capacity(alloc, entries.len())?;
    let mut number = 1;
    for entry in entries {
        match link_row(alloc, version, number, entry) {
            Ok(row) => rows.push(row)?,
            Err(refused) => return Err(NoAnswer::Refused(refused)),
        }
        number += 1;
    }
    Ok(rows)
}

/// A source has an unknown key, or lacks one that it must have.
#[tactic(auto, using(crate::proofs::ValueFacts::needed_three))]
fn source_lacks(values: &SourceValues) -> bool
    ensures { let slots = source_slots values.now in
        result ≡ (slots.other || lacks (keys_of Two section.Sources) slots.values) }
{
    values.other || values.name.is_none() || values.at.is_none() || values.level.is_none()
}

/// What a source has is of its kinds.
#[tactic(auto, using(crate::proofs::ValueFacts::all_four))]
fn source_fits(values: &SourceValues) -> bool
    ensures { result ≡ fits (keys_of Two section.Sources) (source_slots values.now).values }
{
    fits_text(&values.name)
        && fits_text(&values.at)
        && fits_text(&values.level)
        && fits_integer(&values.priority)
}

/// What the values of a source say.
fn source_said(alloc: Global, values: SourceValues) -> SourceRow
    ensures { result ≡ source_said (source_slots values).values }
{
    SourceRow {
        name: name_in(alloc, values.name),
        at: name_in(alloc, values.at),
        level: name_in(alloc, values.level),
        priority: integer_in(values.priority),
    }
}

/// The row that these values make.
pub fn source_by(
    alloc: Global,
    place: Place,
    values: SourceValues,
) -> Result<SourceRow, PlanFileErr>
    ensures { result ≡ said_by place (keys_of Two section.Sources) source_said (source_slots values) }
{
    match refusal(place, source_lacks(&values), source_fits(&values)) {
        None => Ok(source_said(alloc, values)),
        Some(error) => {
            drop(values);
            Err(error)
        }
    }
}

/// The row that an entry of `source` says.
#[tactic(auto, using(crate::proofs::EntryFacts::source_in_entry))]
fn source_row(alloc: Global, row: u64, entry: Value) -> Result<SourceRow, PlanFileErr>
    ensures { result ≡ row_at One source_row section.Sources row (view entry) }
{
    let place = Place {
        section: Section::Sources,
        row,
    };
    let fields = table_of(place, entry)?;
    source_by(alloc, place, SourceValues::of_table(fields))
}

/// The rows of the entries of `source`.
fn source_rows(alloc: Global, entries: Vec<Value>) -> Result<Rows<SourceRow>, NoAnswer<PlanFileErr>>
    ensures { Gives result (rows_from One source_row section.Sources 1 (map view entries.items)) }
{
    let mut rows = Rows::with_capacity(alloc, entries.len())?;
    let mut number = 1;
    for entry in entries {
        match source_row(alloc, number, entry) {
            Ok(row) => rows.push(row)?,
            Err(refused) => return Err(NoAnswer::Refused(refused)),
        }
        number += 1;
    }
    Ok(rows)
}

/// The rows that a document says: its head first, then each element in order, each link, and each
/// source.
#[tactic(auto, using(crate::proofs::RowsSoFar::document_is))]
pub fn rows_of(alloc: Global, document: Table) -> Result<PlanRows, NoAnswer<PlanFileErr>>
    ensures { Gives result (rows_of_document (table_view document)) }
{
    let head = match head_of(alloc, document) {
        Ok(head) => head,
        Err(refused) => return Err(NoAnswer::Refused(refused)),
    };
    let elements = element_rows(alloc, head.elements)?;
    let links = link_rows(alloc, head.version, head.links)?;
    let sources = source_rows(alloc, head.sources)?;
    Ok(PlanRows {
        option: head.option,
        elements,
        links,
        sources,
    })
}

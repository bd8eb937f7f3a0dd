//! What a plan file would say of the ladder.

ghost use Rattle.std.specs.Prelude.{◌≡◌, ◌+◌, ◌++◌, ◌<◌, ◌≤◌, map, flat_map, IfOk, OnOk, None, Some};
ghost use Rattle.std.specs.List.{range_with_len};
ghost use Rattle.plan_gen.specs.Ladder.{numbered};
ghost use Rattle.plan_gen.specs.private.LadderRows.{element_row, link_row, link_rows_up_to, source_row, ladder_rows};

use std::alloc::Global;
use sync_ql::NetOption;
use sync_text::{NoMemory, Rows, Text};
use sync_topo::{ElementRow, LinkRow, PlanRows, SourceRow};

/// How many milliseconds a message takes on each line.
const DELAY: i64 = 10;

/// What is said of the ladder of so many elements.
pub(crate) fn ladder_rows(alloc: Global, elements: u32) -> Result<PlanRows, NoMemory>
    ensures { IfOk result (λ rows. rows ≡ ladder_rows elements) }
{
    Ok(PlanRows {
        option: NetOption::I,
        elements: element_rows(alloc, elements)?,
        links: link_rows(alloc, elements)?,
        sources: source_rows(alloc)?,
    })
}

/// The elements, by number.
#[tactic(auto, using(crate::proofs::RowLaws::element_rows_more))]
fn element_rows(alloc: Global, elements: u32) -> Result<Rows<ElementRow>, NoMemory>
    ensures { IfOk result (λ rows. rows ≡ map element_row (range_with_len 0 elements)) }
{
    let mut rows = Rows::with_capacity(alloc, elements as usize)?;
    for element in 0..elements {
        rows.push(element_row(alloc, element)?)?;
    }
    Ok(rows)
}

/// One element: only its name is said.
fn element_row(alloc: Global, element: u32) -> Result<ElementRow, NoMemory>
    ensures { IfOk result (λ row. row ≡ element_row element) }
{
    Ok(ElementRow {
        name: numbered(alloc, b"E", element)?,
        own: None,
        floor: None,
        holdoff: None,
        wtr: None,
    })
}

/// The links up to each element in turn.
#[tactic(auto, using(crate::proofs::RowLaws::link_rows_more))]
fn link_rows(alloc: Global, elements: u32) -> Result<Rows<LinkRow>, NoMemory>
    ensures { IfOk result (λ rows. rows ≡ flat_map link_rows_up_to (range_with_len 0 elements)) }
{
    let mut rows = Rows::with_capacity(alloc, 2 * elements as usize)?;
    for element in 0..elements {
        put_links_up_to(alloc, &mut rows, element)?;
    }
    Ok(rows)
}

/// Puts the links up to an element at the end.
fn put_links_up_to(alloc: Global, rows: &mut Rows<LinkRow>, element: u32) -> Result<(), NoMemory>
    ensures { OnOk result (rows.new ≡ rows.old ++ link_rows_up_to element) }
{
    if element == 0 {
        return Ok(());
    }
    rows.push(link_row(alloc, b"S", element - 1, element, 2)?)?;
    if element == 1 {
        return Ok(());
    }
    rows.push(link_row(alloc, b"R", element - 2, element, 1)?)
}

/// A link from an earlier element up to another, which alone gives a priority to its line.
fn link_row(
    alloc: Global,
    letter: &[u8],
    from: u32,
    to: u32,
    priority: i64,
) -> Result<LinkRow, NoMemory>
    ensures { IfOk result (λ row. row ≡ link_row letter.now from to priority) }
{
    Ok(LinkRow {
        name: numbered(alloc, letter, to)?,
        a: numbered(alloc, b"E", from)?,
        b: numbered(alloc, b"E", to)?,
        priority_a: None,
        priority_b: Some(priority),
        delay_a: Some(DELAY),
        delay_b: Some(DELAY),
        bundle: None,
    })
}

/// The two sources at the foot.
fn source_rows(alloc: Global) -> Result<Rows<SourceRow>, NoMemory>
    ensures { IfOk result (λ rows. rows ≡ (ladder_rows 0).sources) }
{
    let mut rows = Rows::new(alloc);
    rows.push(source_row(alloc, b"P0", b"E0", b"QL-PRC")?)?;
    rows.push(source_row(alloc, b"P1", b"E1", b"QL-SSU-A")?)?;
    Ok(rows)
}

/// A source of the priority that is the default.
fn source_row(alloc: Global, name: &[u8], at: &[u8], level: &[u8]) -> Result<SourceRow, NoMemory>
    ensures { IfOk result (λ row. row ≡ source_row name.now at.now level.now) }
{
    Ok(SourceRow {
        name: Text::from_bytes(alloc, name)?,
        at: Text::from_bytes(alloc, at)?,
        level: Text::from_bytes(alloc, level)?,
        priority: None,
    })
}

/// A name of a letter and a number.
pub(crate) fn numbered(alloc: Global, letter: &[u8], number: u32) -> Result<Text, NoMemory>
    ensures { IfOk result (λ text. text ≡ numbered letter.now number) }
{
    let mut text = Text::from_bytes(alloc, letter)?;
    text.put_number(u64::from(number))?;
    Ok(text)
}

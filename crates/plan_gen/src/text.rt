//! The text of the ladder, put together row by row.

ghost use Rattle.std.specs.Prelude.{◌≡◌, ◌≤◌, ◌++◌, map, flat_map, length, codes, IfOk, OnOk};
ghost use Rattle.std.specs.List.{range_with_len};
ghost use Rattle.plan_file.specs.IsPlanText.{IsPlanText};
ghost use Rattle.plan_file.specs.Writing.{element_table, table_at};
ghost use Rattle.plan_file.specs.Spelling.{row_text, rows_text, plan_text, plan_size};
ghost use Rattle.plan_gen.specs.Ladder.{numbered, level_named, ladder_element, link_up, links_up_to, ladder_source, ladder};
ghost use Rattle.plan_gen.specs.private.LadderText.{table_up};

use crate::rows::numbered;
use plan_file::{put_element, put_link, put_option, put_source};
use std::alloc::Global;
use sync_ql::{Level, NetOption, do_not_use, level_of_name};
use sync_text::{NoMemory, Text};
use sync_topo::{Element, Link, MOST_ELEMENTS, Source};

/// The text of the ladder of `elements` elements: what `plan_file` writes for the plan that
/// [`generate`](crate::generate) gives, without that plan.
///
/// This project's own.
pub fn write_ladder(alloc: Global, elements: u32) -> Result<Text, NoMemory>
    requires least { 2 ≤ elements }
    requires greatest { elements ≤ MOST_ELEMENTS }
    ensures text { IfOk result (IsPlanText (ladder elements)) }
    ensures spelled { IfOk result (λ text. text ≡ plan_text (ladder elements)) }
    ensures short { IfOk result (λ text. length text ≤ plan_size (ladder elements)) }
{
    let mut text = Text::new(alloc);
    put_option(&mut text, NetOption::I)?;
    put_elements(alloc, &mut text, elements)?;
    put_links(alloc, &mut text, elements)?;
    put_foot(alloc, &mut text, b"P0", 0, b"QL-PRC")?;
    put_foot(alloc, &mut text, b"P1", 1, b"QL-SSU-A")?;
    Ok(text)
}

/// Puts the tables of the elements, by number.
fn put_elements(alloc: Global, text: &mut Text, elements: u32) -> Result<(), NoMemory>
    ensures { OnOk result (text.new ≡ text.old
        ++ rows_text (codes "element") element_table (map ladder_element (range_with_len 0 elements))) }
{
    for element in 0..elements {
        put_element(text, &ladder_element(alloc, element)?)?;
    }
    Ok(())
}

/// One element of the ladder.
fn ladder_element(alloc: Global, element: u32) -> Result<Element, NoMemory>
    ensures { IfOk result (λ found. found ≡ ladder_element element) }
{
    Ok(Element {
        name: numbered(alloc, b"E", element)?,
        own: level_named(b"QL-SEC"),
        floor: None,
        holdoff: 300,
        wtr: 300_000,
    })
}

/// The level of a name in option I.
fn level_named(name: &[u8]) -> Level
    ensures { result ≡ level_named name.now }
{
    level_of_name(NetOption::I, name).unwrap_or(do_not_use(NetOption::I))
}

/// Puts the tables of the links up to each element in turn.
fn put_links(alloc: Global, text: &mut Text, elements: u32) -> Result<(), NoMemory>
    ensures { OnOk result (text.new ≡ text.old
        ++ rows_text (codes "link") table_up (flat_map links_up_to (range_with_len 0 elements))) }
{
    for element in 0..elements {
        put_links_up_to(alloc, text, element)?;
    }
    Ok(())
}

/// Puts the tables of the links up to an element.
fn put_links_up_to(alloc: Global, text: &mut Text, element: u32) -> Result<(), NoMemory>
    ensures { OnOk result (text.new ≡ text.old ++ rows_text (codes "link") table_up (links_up_to element)) }
{
    if element == 0 {
        return Ok(());
    }
    put_link_up(alloc, text, b"S", element - 1, element, 2)?;
    if element == 1 {
        return Ok(());
    }
    put_link_up(alloc, text, b"R", element - 2, element, 1)
}

/// Puts the table of a link from an earlier element up to another.
fn put_link_up(
    alloc: Global,
    text: &mut Text,
    letter: &[u8],
    from: u32,
    to: u32,
    priority: u8,
) -> Result<(), NoMemory>
    ensures { OnOk result (text.new
        ≡ text.old ++ row_text (codes "link") (table_up (link_up letter.now from to priority))) }
{
    let link = Link {
        name: numbered(alloc, letter, to)?,
        a: from,
        b: to,
        priority_a: 0,
        priority_b: priority,
        delay_a: 10,
        delay_b: 10,
        bundle: None,
    };
    let a = numbered(alloc, b"E", from)?;
    let b = numbered(alloc, b"E", to)?;
    put_link(text, a.bytes(), b.bytes(), &link)
}

/// Puts the table of a source at an element at the foot.
fn put_foot(
    alloc: Global,
    text: &mut Text,
    name: &[u8],
    at: u32,
    level: &[u8],
) -> Result<(), NoMemory>
    ensures { OnOk result (text.new ≡ text.old
        ++ row_text (codes "source") (table_at (numbered (codes "E") at) (ladder_source name.now at level.now))) }
{
    let source = Source {
        name: Text::from_bytes(alloc, name)?,
        at,
        level: level_named(level),
        priority: 1,
    };
    let element = numbered(alloc, b"E", at)?;
    put_source(text, element.bytes(), &source)
}

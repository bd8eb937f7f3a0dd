ghost use Rattle.std.specs.Prelude.{◌≡◌, ◌<◌, ◌+◌, ◌*◌, length, map, IfOk, option_map, slice_index};
ghost use Rattle.sync_ql.specs.Level.{name_of};
ghost use Rattle.sync_topo.specs.Lines.{line_count, element_name};
ghost use Rattle.sync_topo.specs.RowsOfPlan.{row_of_element, row_of_link, row_of_source, rows_of_plan};
ghost use Rattle.nominate.specs.Nomination.{with_priorities};

use std::alloc::Global;
use sync_ql::limits::MINUTE;
use sync_ql::{Level, name_of};
use sync_text::{NoMemory, Rows, Text};
use sync_topo::{Element, ElementRow, Link, LinkRow, Plan, PlanRows, Source, SourceRow};

/// The rows of the plan with these priorities of its lines.
pub(crate) fn rows_with(alloc: Global, plan: &Plan, priorities: &[u8]) -> Result<PlanRows, NoMemory>
    requires { length priorities.now ≡ line_count plan.now }
    ensures { IfOk result (λ rows. rows ≡ rows_of_plan (record plan.now
        { links = with_priorities (λ line. slice_index priorities.now line) 0 plan.now.links })) }
{
    Ok(PlanRows {
        option: plan.option(),
        elements: element_rows(alloc, plan)?,
        links: link_rows(alloc, plan, priorities)?,
        sources: source_rows(alloc, plan)?,
    })
}

/// The rows of the elements.
fn element_rows(alloc: Global, plan: &Plan) -> Result<Rows<ElementRow>, NoMemory>
    ensures { IfOk result (λ rows. rows ≡ map row_of_element plan.now.elements) }
{
    let mut rows = Rows::new(alloc);
    for element in 0..plan.elements() {
        rows.push(element_row(alloc, plan.element(element))?)?;
    }
    Ok(rows)
}

/// The rows of the links with these priorities.
fn link_rows(alloc: Global, plan: &Plan, priorities: &[u8]) -> Result<Rows<LinkRow>, NoMemory>
    requires { length priorities.now ≡ line_count plan.now }
    ensures { IfOk result (λ rows. rows ≡ map (row_of_link plan.now)
        (with_priorities (λ line. slice_index priorities.now line) 0 plan.now.links)) }
{
    let mut rows = Rows::new(alloc);
    for link in 0..plan.links() {
        let line = 2 * link as usize;
        let row = link_row(
            alloc,
            plan,
            plan.link(link),
            priorities[line + 1],
            priorities[line],
        )?;
        rows.push(row)?;
    }
    Ok(rows)
}

/// The rows of the sources.
fn source_rows(alloc: Global, plan: &Plan) -> Result<Rows<SourceRow>, NoMemory>
    ensures { IfOk result (λ rows. rows ≡ map (row_of_source plan.now) plan.now.sources) }
{
    let mut rows = Rows::new(alloc);
    for source in 0..plan.sources() {
        rows.push(source_row(alloc, plan, plan.source(source))?)?;
    }
    Ok(rows)
}

/// The row of an element.
fn element_row(alloc: Global, element: &Element) -> Result<ElementRow, NoMemory>
    ensures { IfOk result (λ row. row ≡ row_of_element element.now) }
{
    Ok(ElementRow {
        name: Text::from_bytes(alloc, element.name.bytes())?,
        own: Some(Text::from_bytes(alloc, name_of(element.own).as_bytes())?),
        floor: floor_name(alloc, element.floor)?,
        holdoff: Some(i64::from(element.holdoff)),
        wtr: Some(i64::from(element.wtr / MINUTE)),
    })
}

/// The name of a floor, if there is one.
fn floor_name(alloc: Global, floor: Option<Level>) -> Result<Option<Text>, NoMemory>
    ensures { IfOk result (λ name. name ≡ option_map name_of floor) }
{
    match floor {
        Some(level) => Ok(Some(Text::from_bytes(alloc, name_of(level).as_bytes())?)),
        None => Ok(None),
    }
}

/// The row of a link of the plan with these priorities.
fn link_row(
    alloc: Global,
    plan: &Plan,
    link: &Link,
    priority_a: u8,
    priority_b: u8,
) -> Result<LinkRow, NoMemory>
    requires a { link.now.a < length plan.now.elements }
    requires b { link.now.b < length plan.now.elements }
    ensures { IfOk result (λ row. row ≡ row_of_link plan.now
        (record link.now { priority_a = priority_a; priority_b = priority_b })) }
{
    Ok(LinkRow {
        name: Text::from_bytes(alloc, link.name.bytes())?,
        a: Text::from_bytes(alloc, element_name(plan, link.a))?,
        b: Text::from_bytes(alloc, element_name(plan, link.b))?,
        priority_a: Some(i64::from(priority_a)),
        priority_b: Some(i64::from(priority_b)),
        delay_a: Some(i64::from(link.delay_a)),
        delay_b: Some(i64::from(link.delay_b)),
        bundle: bundle_name(alloc, &link.bundle)?,
    })
}

/// The name of a bundle, if there is one.
fn bundle_name(alloc: Global, bundle: &Option<Text>) -> Result<Option<Text>, NoMemory>
    ensures { IfOk result (λ name. name ≡ bundle.now) }
{
    match bundle {
        Some(name) => Ok(Some(Text::from_bytes(alloc, name.bytes())?)),
        None => Ok(None),
    }
}

/// The row of a source of the plan.
fn source_row(alloc: Global, plan: &Plan, source: &Source) -> Result<SourceRow, NoMemory>
    requires { source.now.at < length plan.now.elements }
    ensures { IfOk result (λ row. row ≡ row_of_source plan.now source.now) }
{
    Ok(SourceRow {
        name: Text::from_bytes(alloc, source.name.bytes())?,
        at: Text::from_bytes(alloc, element_name(plan, source.at))?,
        level: Text::from_bytes(alloc, name_of(source.level).as_bytes())?,
        priority: Some(i64::from(source.priority)),
    })
}

/// The name of an element of the plan.
fn element_name(plan: &Plan, element: u32) -> &[u8]
    requires { element < length plan.now.elements }
    ensures { result.now ≡ element_name plan.now element }
{
    plan.element(element).name.bytes()
}

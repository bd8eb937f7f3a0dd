// From a plan to a text of it.

ghost use Rattle.std.specs.Prelude.{◌≡◌, ◌<◌, ◌≤◌, ◌==◌, ◌++◌, [], length, codes, if◌then◌else◌, IfOk, OnOk};
ghost use Rattle.std.specs.Fmt.{decimal};
ghost use Rattle.toml.specs.Data.{string, no_members};
ghost use Rattle.sync_topo.specs.Lines.{element_name};
ghost use Rattle.sync_topo.specs.WellFormed.{IsWellFormed};
ghost use Rattle.plan_file.specs.IsPlanText.{IsPlanText};
ghost use Rattle.plan_file.specs.Writing.{option_name, with_floor, element_table, with_bundle, table_between, link_table, table_at, source_table, names_bundle, with_version};
ghost use Rattle.plan_file.specs.Spelling.{field_text, fields_text, row_text, rows_text, head_fields, plan_text, plan_size};

use std::alloc::Global;
use sync_ql::limits::MINUTE;
use sync_ql::{Level, NetOption, name_of};
use sync_text::{NoMemory, Text};
use sync_topo::{Element, Link, Plan, Source};

/// The text of the plan: reading it gives this plan, in each size that has room for it.
///
/// It has a table for each element, link and source, with every key but a floor and a bundle that
/// isn't given, and says the second version where a bundle is. It is spelled as the crate `toml`
/// spells documents, and has at most 350 bytes for the head, 388 for each element, 598 for each link
/// and 318 for each source.
/// This project's own.
pub fn write_plan(alloc: Global, plan: &Plan) -> Result<Text, NoMemory>
    ensures text { IfOk result (IsPlanText plan.now) }
    ensures spelled { IfOk result (λ text. text ≡ plan_text plan.now) }
    ensures short { IfOk result (λ text. length text ≤ plan_size plan.now) }
{
    let mut text = Text::new(alloc);
    put_head(&mut text, plan)?;
    put_elements(&mut text, plan)?;
    put_links(&mut text, plan)?;
    put_sources(&mut text, plan)?;
    Ok(text)
}

/// Puts the lines of the head: its sections without tables, its option, and its version where a
/// link names a bundle.
fn put_head(text: &mut Text, plan: &Plan) -> Result<(), NoMemory>
    ensures put { OnOk result (text.new ≡ text.old ++ fields_text (head_fields plan.now)) }
    ensures well_formed { IsWellFormed plan.now }
{
    put_if_none(text, plan.elements(), b"element = []\n")?;
    put_if_none(text, plan.links(), b"link = []\n")?;
    put_option(text, plan.option())?;
    put_if_none(text, plan.sources(), b"source = []\n")?;
    put_version(text, names_bundle(plan))
}

/// Puts the line of a section that has no tables.
fn put_if_none(text: &mut Text, count: u32, line: &[u8]) -> Result<(), NoMemory>
    ensures { OnOk result (text.new ≡ text.old ++ (if count == 0 then line.now else [])) }
{
    if count == 0 {
        return text.put(line);
    }
    Ok(())
}

/// Puts the line of the option at the end of a text of a plan.
///
/// This project's own.
pub fn put_option(text: &mut Text, option: NetOption) -> Result<(), NoMemory>
    ensures { OnOk result (text.new
        ≡ text.old ++ field_text (codes "option") (string (option_name option))) }
{
    match option {
        NetOption::I => text.put(b"option = \"I\"\n"),
        NetOption::II => text.put(b"option = \"II\"\n"),
    }
}

/// Puts the second version where bundles need it, and none elsewhere.
fn put_version(text: &mut Text, second: bool) -> Result<(), NoMemory>
    ensures { OnOk result (text.new ≡ text.old ++ fields_text (with_version second)) }
{
    if second {
        return put_number(text, b"version = ", 2);
    }
    Ok(())
}

/// A link of the plan names a bundle.
fn names_bundle(plan: &Plan) -> bool
    ensures { result ≡ names_bundle plan.now }
{
    for link in 0..plan.links() {
        if plan.link(link).bundle.is_some() {
            return true;
        }
    }
    false
}

/// Puts the tables of the elements, in order.
fn put_elements(text: &mut Text, plan: &Plan) -> Result<(), NoMemory>
    ensures { OnOk result (text.new
        ≡ text.old ++ rows_text (codes "element") element_table plan.now.elements) }
{
    for element in 0..plan.elements() {
        put_element(text, plan.element(element))?;
    }
    Ok(())
}

/// Puts the tables of the links, in order.
fn put_links(text: &mut Text, plan: &Plan) -> Result<(), NoMemory>
    ensures { OnOk result (text.new
        ≡ text.old ++ rows_text (codes "link") (link_table plan.now) plan.now.links) }
{
    for link in 0..plan.links() {
        let link = plan.link(link);
        put_link(
            text,
            element_name(plan, link.a),
            element_name(plan, link.b),
            link,
        )?;
    }
    Ok(())
}

/// Puts the tables of the sources, in order.
fn put_sources(text: &mut Text, plan: &Plan) -> Result<(), NoMemory>
    ensures { OnOk result (text.new
        ≡ text.old ++ rows_text (codes "source") (source_table plan.now) plan.now.sources) }
{
    for source in 0..plan.sources() {
        let source = plan.source(source);
        put_source(text, element_name(plan, source.at), source)?;
    }
    Ok(())
}

/// Puts the table of an element at the end of a text of a plan.
///
/// This project's own.
pub fn put_element(text: &mut Text, element: &Element) -> Result<(), NoMemory>
    ensures { OnOk result (text.new
        ≡ text.old ++ row_text (codes "element") (element_table element.now)) }
{
    text.put(b"\n[[element]]\n")?;
    put_floor(text, element.floor)?;
    put_number(text, b"holdoff = ", element.holdoff)?;
    put_name(text, b"name = \"", element.name.bytes())?;
    put_name(text, b"own = \"", name_of(element.own).as_bytes())?;
    put_number(text, b"wtr = ", element.wtr / MINUTE)
}

/// Puts the floor, if there is one.
fn put_floor(text: &mut Text, floor: Option<Level>) -> Result<(), NoMemory>
    ensures { OnOk result (text.new ≡ text.old ++ fields_text (with_floor floor no_members)) }
{
    match floor {
        Some(floor) => put_name(text, b"floor = \"", name_of(floor).as_bytes()),
        None => Ok(()),
    }
}

/// Puts the table of a link between elements of the names `a` and `b` at the end of a text of a plan.
/// The numbers of its elements aren't looked at.
///
/// This project's own.
pub fn put_link(text: &mut Text, a: &[u8], b: &[u8], link: &Link) -> Result<(), NoMemory>
    ensures { OnOk result (text.new
        ≡ text.old ++ row_text (codes "link") (table_between a.now b.now link.now)) }
{
    text.put(b"\n[[link]]\n")?;
    put_name(text, b"a = \"", a)?;
    put_name(text, b"b = \"", b)?;
    put_bundle(text, &link.bundle)?;
    put_number(text, b"delay_a = ", link.delay_a)?;
    put_number(text, b"delay_b = ", link.delay_b)?;
    put_name(text, b"name = \"", link.name.bytes())?;
    put_number(text, b"priority_a = ", u32::from(link.priority_a))?;
    put_number(text, b"priority_b = ", u32::from(link.priority_b))
}

/// Puts the bundle, if there is one.
fn put_bundle(text: &mut Text, bundle: &Option<Text>) -> Result<(), NoMemory>
    ensures { OnOk result (text.new ≡ text.old ++ fields_text (with_bundle bundle.now no_members)) }
{
    match bundle {
        Some(name) => put_name(text, b"bundle = \"", name.bytes()),
        None => Ok(()),
    }
}

/// Puts the table of a source at an element of the name `at` at the end of a text of a plan. The number
/// of its element isn't looked at.
///
/// This project's own.
pub fn put_source(text: &mut Text, at: &[u8], source: &Source) -> Result<(), NoMemory>
    ensures { OnOk result (text.new
        ≡ text.old ++ row_text (codes "source") (table_at at.now source.now)) }
{
    text.put(b"\n[[source]]\n")?;
    put_name(text, b"at = \"", at)?;
    put_name(text, b"level = \"", name_of(source.level).as_bytes())?;
    put_name(text, b"name = \"", source.name.bytes())?;
    put_number(text, b"priority = ", u32::from(source.priority))
}

/// The name of an element.
fn element_name(plan: &Plan, element: u32) -> &[u8]
    requires { element < length plan.now.elements }
    ensures { result.now ≡ element_name plan.now element }
{
    plan.element(element).name.bytes()
}

/// Puts the line of a name: what stands before it up to the first quote, and then the name.
fn put_name(text: &mut Text, before: &[u8], name: &[u8]) -> Result<(), NoMemory>
    ensures { OnOk result (text.new ≡ text.old ++ (before.now ++ (name.now ++ codes "\"\n"))) }
{
    text.put(before)?;
    text.put(name)?;
    text.put(b"\"\n")
}

/// Puts the line of a number: what stands before it, and then the number.
fn put_number(text: &mut Text, before: &[u8], number: u32) -> Result<(), NoMemory>
    ensures { OnOk result (text.new ≡ text.old ++ (before.now ++ (decimal number ++ codes "\n"))) }
{
    text.put(before)?;
    text.put_number(u64::from(number))?;
    text.put(b"\n")
}

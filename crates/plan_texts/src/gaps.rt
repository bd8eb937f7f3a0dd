//! The rows of failures that cut somebody off.

ghost use Rattle.std.specs.Prelude.{◌≡◌, ◌++◌, ◌<◌, [], length, unwrap_or, IfOk, OnOk};
ghost use Rattle.std.specs.List.{All};
ghost use Rattle.protection.specs.Gaps.{IsNamed, IsGapIn};
ghost use Rattle.plan_texts.specs.Gaps.{failure_word, failure_name, cut_text, gap_row, gaps_text};

use protection::{Failure, Gap};
use std::alloc::Global;
use sync_text::{NoMemory, Text};
use sync_topo::Plan;

/// The word for what fails.
fn failure_word(failure: &Failure) -> &'static [u8]
    ensures { result.now ≡ failure_word failure.now }
{
    match failure {
        Failure::Nothing => b"none",
        Failure::Link(_) => b"link",
        Failure::Bundle(_) => b"bundle",
        Failure::Source(_) => b"source",
        Failure::Element(_) => b"element",
        Failure::Group(_) => b"group",
    }
}

/// Puts the name of a bundle, if there is one.
fn put_bundle(text: &mut Text, bundle: &Option<Text>) -> Result<(), NoMemory>
    ensures { OnOk result (text.new ≡ text.old ++ unwrap_or bundle.now []) }
{
    match bundle {
        Some(name) => text.put(name.bytes()),
        None => text.put(b""),
    }
}

/// Puts the name of what fails.
fn put_failure(text: &mut Text, plan: &Plan, failure: &Failure) -> Result<(), NoMemory>
    requires { IsNamed plan.now failure.now }
    ensures { OnOk result (text.new ≡ text.old ++ failure_name plan.now failure.now) }
{
    match failure {
        Failure::Nothing => text.put(b""),
        Failure::Link(link) => text.put(plan.link(*link).name.bytes()),
        Failure::Bundle(link) => put_bundle(text, &plan.link(*link).bundle),
        Failure::Source(source) => text.put(plan.source(*source).name.bytes()),
        Failure::Element(element) => text.put(plan.element(*element).name.bytes()),
        Failure::Group(group) => text.put(group.name.bytes()),
    }
}

/// Puts whom a failure cuts off.
fn put_cut(text: &mut Text, plan: &Plan, gap: &Gap) -> Result<(), NoMemory>
    requires { gap.now.first < length plan.now.elements }
    ensures { OnOk result (text.new ≡ text.old ++ cut_text plan.now gap.now) }
{
    text.put(b",")?;
    text.put_number(u64::from(gap.elements))?;
    text.put(b",")?;
    text.put(plan.element(gap.first).name.bytes())?;
    text.put(b"\n")
}

/// Puts the row of a failure.
fn put_gap(text: &mut Text, plan: &Plan, gap: &Gap) -> Result<(), NoMemory>
    requires { IsGapIn plan.now gap.now }
    ensures { OnOk result (text.new ≡ text.old ++ gap_row plan.now gap.now) }
{
    text.put(failure_word(&gap.failure))?;
    text.put(b",")?;
    put_failure(text, plan, &gap.failure)?;
    put_cut(text, plan, gap)
}

/// The rows of the failures of a plan that cut somebody off: what fails, its name, how many elements it
/// cuts off, and the first of them.
///
/// The first row is `kind,failure,elements,first`. This project's own.
pub fn gaps_text(alloc: Global, plan: &Plan, gaps: &[Gap]) -> Result<Text, NoMemory>
    requires { All (IsGapIn plan.now) gaps.now }
    ensures { IfOk result (λ text. text ≡ gaps_text plan.now gaps.now) }
{
    let mut text = Text::new(alloc);
    text.put(b"kind,failure,elements,first\n")?;
    for gap in gaps {
        put_gap(&mut text, plan, gap)?;
    }
    Ok(text)
}

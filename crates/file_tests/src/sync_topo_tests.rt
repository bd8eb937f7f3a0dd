//! What no clause says: that a plan is made, and that names and events are told apart.

use crate::plan_file_tests::{HEAD, LINK};
use plan_file::read_plan;
use std::process::Abort;
use std::test::Fail;
use sync_ql::{NetOption, do_not_use};
use sync_text::NoAnswer;
use sync_topo::{Event, InputId, LineId, Part, Plan, PlanErr, Size, What};
use test_makers::is_printed_as;

/// Three links in a bundle, the second with its ends swapped, one beside it, and a source.
const PLAN: &[u8] = b"version = 2\nelement = [{ name = 'A' }, { name = 'B' }]\n\
link = [{ name = 'L1', a = 'A', b = 'B', priority_a = 1, priority_b = 1, bundle = 'T' },\n\
 { name = 'L2', a = 'B', b = 'A', priority_a = 1, priority_b = 1, bundle = 'T' },\n\
 { name = 'L3', a = 'A', b = 'B', priority_a = 1, priority_b = 1 },\n\
 { name = 'L4', a = 'A', b = 'B', priority_a = 1, priority_b = 1, bundle = 'T' }]\n\
source = [{ name = 'S', at = 'B', level = 'QL-PRC' }]\n";

fn element_is(rt: &impl Abort, plan: &Plan, name: &str, number: Option<u32>) {
    assert!(rt; plan.element_of_name(name.as_bytes()) == number);
}

fn link_is(rt: &impl Abort, plan: &Plan, name: &str, number: Option<u32>) {
    assert!(rt; plan.link_of_name(name.as_bytes()) == number);
}

fn source_is(rt: &impl Abort, plan: &Plan, name: &str, number: Option<u32>) {
    assert!(rt; plan.source_of_name(name.as_bytes()) == number);
}

fn line_is(rt: &impl Abort, plan: &Plan, name: &str, number: Option<LineId>) {
    assert!(rt; plan.line_of_name(name.as_bytes()) == number);
}

fn input_is(rt: &impl Abort, plan: &Plan, name: &str, input: Option<InputId>) {
    assert!(rt; plan.input_of_name(name.as_bytes()) == input);
}

fn bundle_is(rt: &impl Abort, plan: &Plan, link: u32, lowest: u32) {
    assert!(rt; link < plan.links());
    assert!(rt; plan.bundle(link) == lowest);
}

fn hop_is(rt: &impl Abort, plan: &Plan, from: u32, to: u32, hop: bool) {
    assert!(rt; from < plan.lines() && to < plan.lines());
    assert!(rt; plan.hop(LineId(from), LineId(to)) == hop);
}

fn fits(rt: &impl Abort, plan: &Plan, what: What, fits: bool) {
    assert!(rt; plan.fits(&Event { at: 0, what }) == fits);
}

fn is_told_apart(rt: &impl Abort, plan: &Plan) {
    element_is(rt, plan, "B", Some(1));
    element_is(rt, plan, "b", None);
    link_is(rt, plan, "L4", Some(3));
    link_is(rt, plan, "T", None);
    source_is(rt, plan, "S", Some(0));
    source_is(rt, plan, "L1", None);
    line_is(rt, plan, "L2>A", Some(LineId(2)));
    line_is(rt, plan, "L2>B", Some(LineId(3)));
    line_is(rt, plan, "L2", None);
    input_is(rt, plan, "L3>A", Some(InputId::Line(LineId(5))));
    input_is(rt, plan, "S", Some(InputId::Source(0)));
    input_is(rt, plan, "A", None);
}

fn goes_back_by_bundle(rt: &impl Abort, plan: &Plan) {
    bundle_is(rt, plan, 0, 0);
    bundle_is(rt, plan, 1, 0);
    bundle_is(rt, plan, 2, 2);
    bundle_is(rt, plan, 3, 0);
    // From L1>B back over L1, over L2 with its ends swapped, over L4, and over L3 beside the bundle.
    hop_is(rt, plan, 0, 1, false);
    hop_is(rt, plan, 0, 2, false);
    hop_is(rt, plan, 0, 7, false);
    hop_is(rt, plan, 0, 5, true);
}

fn takes_its_own_events(rt: &impl Abort, plan: &Plan) {
    fits(rt, plan, What::Down(Part::Link(3)), true);
    fits(rt, plan, What::Up(Part::Link(4)), false);
    fits(rt, plan, What::Down(Part::Line(LineId(7))), true);
    fits(rt, plan, What::EsmcOff(LineId(8)), false);
    fits(rt, plan, What::Up(Part::Source(1)), false);
    fits(rt, plan, What::Forced(InputId::Source(0)), true);
    fits(rt, plan, What::Lockout(InputId::Line(LineId(8))), false);
    fits(rt, plan, What::Clear(1), true);
    fits(rt, plan, What::Clear(2), false);
    fits(
        rt,
        plan,
        What::SourceLevel(0, do_not_use(NetOption::I)),
        true,
    );
    fits(
        rt,
        plan,
        What::SourceLevel(0, do_not_use(NetOption::II)),
        false,
    );
}

#[test]
fn plan_tells_names_bundles_and_events(rt: HostRuntime) -> Result<(), Fail> {
    let plan = read_plan(rt.alloc(), PLAN, Size::Standard)?;
    is_told_apart(&rt, &plan);
    goes_back_by_bundle(&rt, &plan);
    takes_its_own_events(&rt, &plan);
    Ok(())
}

#[test]
fn plan_refusals_are_printed(rt: HostRuntime) -> Result<(), Fail> {
    for (error, text) in [
        (
            PlanErr::Limit(LINK),
            "link 2: a limit of the plan is passed",
        ),
        (
            PlanErr::Bundle(LINK),
            "link 2: a bundle has a bad name, or joins other elements",
        ),
        (
            PlanErr::Name(HEAD),
            "head: a name breaks the rule for names",
        ),
    ] {
        assert!(rt; is_printed_as(rt.alloc(), error, text)?);
        assert!(rt; is_printed_as(rt.alloc(), NoAnswer::Refused(error), text)?);
    }
    let short: NoAnswer<PlanErr> = NoAnswer::NoMemory;
    assert!(rt; is_printed_as(rt.alloc(), short, "out of memory")?);
    Ok(())
}

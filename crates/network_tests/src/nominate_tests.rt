// Plans worked by hand: what no run of the program shows of hop counts and of the order of elements.

use nominate::{hops_ok, least_hops, nominate, order_cert};
use plan_file::read_plan;
use rank_cert::write_cert;
use std::alloc::Global;
use std::process::Abort;
use std::test::Fail;
use sync_text::{NoMemory, Text};
use sync_topo::{Plan, Size};

const CHAIN: &[u8] = b"element = [{ name = 'A' }, { name = 'B' }, { name = 'C' }]\n\
link = [{ name = 'L1', a = 'A', b = 'B' }, { name = 'L2', a = 'B', b = 'C' }]\n\
source = [{ name = 'S', at = 'A', level = 'QL-PRC', priority = 1 }]\n";

const RING: &[u8] = b"element = [{ name = 'A' }, { name = 'B' }, { name = 'C' }]\n\
link = [{ name = 'L1', a = 'A', b = 'B' }, { name = 'L2', a = 'B', b = 'C' }, { name = 'L3', a = 'C', b = 'A' }]\n\
source = [{ name = 'S', at = 'A', level = 'QL-PRC', priority = 1 }]\n";

const CLOCKLESS: &[u8] = b"element = [{ name = 'A' }, { name = 'B' }, { name = 'C' }]\n\
link = [{ name = 'L1', a = 'A', b = 'B' }, { name = 'L2', a = 'B', b = 'C' }, { name = 'L3', a = 'C', b = 'A' }]\n\
source = []\n";

/// A plan, and the certificate of the order of its elements: of each nominated line the place of its sender.
const ORDERS: [(&[u8], &[u8]); 10] = [
    // a chain is counted from its clock
    (CHAIN, b"line,rank\nL1>B,0\nL2>C,1\n"),
    // of two lines round a ring the one from the clock is first
    (RING, b"line,rank\nL1>B,0\nL2>C,1\nL3>C,0\n"),
    // without a clock nothing is nominated
    (CLOCKLESS, b"line,rank\n"),
    // a source that is not nominated is no clock
    (
        b"element = [{ name = 'A' }, { name = 'B' }]\n\
link = [{ name = 'L1', a = 'A', b = 'B' }]\n\
source = [{ name = 'S', at = 'A', level = 'QL-PRC', priority = 0 }]\n",
        b"line,rank\n",
    ),
    // a part without a clock has no counts
    (
        b"element = [{ name = 'A' }, { name = 'B' }, { name = 'C' }, { name = 'D' }]\n\
link = [{ name = 'L1', a = 'A', b = 'B' }, { name = 'L2', a = 'C', b = 'D' }]\n\
source = [{ name = 'S', at = 'B', level = 'QL-PRC', priority = 1 }]\n",
        b"line,rank\nL1>A,0\n",
    ),
    // parallel links come by their numbers
    (
        b"element = [{ name = 'A' }, { name = 'B' }]\n\
link = [{ name = 'L1', a = 'A', b = 'B' }, { name = 'L2', a = 'A', b = 'B' }]\n\
source = [{ name = 'S', at = 'A', level = 'QL-PRC', priority = 1 }]\n",
        b"line,rank\nL1>B,0\nL2>B,0\n",
    ),
    // bundles are kept
    (
        b"version = 2\nelement = [{ name = 'A' }, { name = 'B' }]\n\
link = [{ name = 'L1', a = 'A', b = 'B', bundle = 'T' }, { name = 'L2', a = 'B', b = 'A', bundle = 'T' }]\n\
source = [{ name = 'S', at = 'A', level = 'QL-PRC', priority = 1 }]\n",
        b"line,rank\nL1>B,0\nL2>B,0\n",
    ),
    // lines follow an elements own sources
    (
        b"element = [{ name = 'A' }, { name = 'B' }]\n\
link = [{ name = 'L1', a = 'B', b = 'A' }]\n\
source = [{ name = 'S', at = 'A', level = 'QL-PRC', priority = 3 }, { name = 'T', at = 'B', level = 'QL-PRC', priority = 7 }, { name = 'U', at = 'B', level = 'QL-PRC', priority = 2 }]\n",
        b"line,rank\nL1>B,0\n",
    ),
    // a priority is at most 255
    (
        b"element = [{ name = 'A' }, { name = 'B' }]\n\
link = [{ name = 'L1', a = 'A', b = 'B' }, { name = 'L2', a = 'A', b = 'B' }]\n\
source = [{ name = 'S', at = 'A', level = 'QL-PRC', priority = 1 }, { name = 'T', at = 'B', level = 'QL-PRC', priority = 254 }]\n",
        b"line,rank\nL1>B,0\n",
    ),
    // a lower count comes before a lower number
    (
        b"element = [{ name = 'A' }, { name = 'B' }, { name = 'C' }, { name = 'D' }]\n\
link = [{ name = 'L1', a = 'A', b = 'D' }, { name = 'L2', a = 'C', b = 'B' }, { name = 'L3', a = 'A', b = 'B' }, { name = 'L4', a = 'D', b = 'B' }]\n\
source = [{ name = 'S', at = 'C', level = 'QL-PRC', priority = 1 }]\n",
        b"line,rank\nL1>D,2\nL2>B,0\nL3>A,1\nL4>D,1\n",
    ),
];

fn order_text(alloc: Global, plan: &Plan) -> Result<Text, NoMemory> {
    let nominated = nominate(alloc, plan)?;
    let cert = order_cert(alloc, plan)?;
    write_cert(alloc, &nominated, &cert)
}

fn has_hops_of(alloc: Global, plan: &Plan, other: &Plan) -> Result<bool, NoMemory> {
    let hops = least_hops(alloc, other)?;
    if plan.elements() != other.elements() {
        return Ok(false);
    }
    hops_ok(alloc, plan, &hops)
}

fn is_right(rt: &(impl Abort + AllocGlobal), plan: &Plan) -> Result<(), Fail> {
    assert!(rt; has_hops_of(rt.alloc(), plan, plan)?);
    Ok(())
}

fn order_is(rt: &(impl Abort + AllocGlobal), plan: &Plan, want: &[u8]) -> Result<(), Fail> {
    let order = order_text(rt.alloc(), plan)?;
    assert!(rt; order.bytes() == want);
    Ok(())
}

fn has_order(rt: &(impl Abort + AllocGlobal), text: &[u8], want: &[u8]) -> Result<(), Fail> {
    let plan = read_plan(rt.alloc(), text, Size::Standard)?;
    is_right(rt, &plan)?;
    order_is(rt, &plan, want)
}

#[test]
fn ranks_are_the_places_in_the_order_of_elements(rt: HostRuntime) -> Result<(), Fail> {
    for (plan, want) in ORDERS {
        has_order(&rt, plan, want)?;
    }
    Ok(())
}

/// The element B has 63 sources of its own, so that one line more is its last input.
#[test]
fn order_of_a_crowded_element(rt: HostRuntime) -> Result<(), Fail> {
    let mut text = Text::new(rt.alloc());
    text.put(b"element = [{ name = 'A' }, { name = 'B' }]\n")?;
    text.put(b"link = [{ name = 'L1', a = 'A', b = 'B' }, { name = 'L2', a = 'A', b = 'B' }]\n")?;
    text.put(b"source = [{ name = 'S', at = 'A', level = 'QL-PRC' }")?;
    for number in 0..63 {
        text.put(b", { at = 'B', level = 'QL-PRC', name = 'M")?;
        text.put_number(number)?;
        text.put(b"' }")?;
    }
    text.put(b"]\n")?;
    has_order(&rt, text.bytes(), b"line,rank\nL1>B,0\n")
}

fn is_wrong(rt: &(impl Abort + AllocGlobal), plan: &Plan, other: &Plan) -> Result<(), Fail> {
    assert!(rt; !has_hops_of(rt.alloc(), plan, other)?);
    Ok(())
}

fn hops_are_wrong(rt: &(impl Abort + AllocGlobal), text: &[u8], other: &[u8]) -> Result<(), Fail> {
    let plan = read_plan(rt.alloc(), text, Size::Standard)?;
    let other = read_plan(rt.alloc(), other, Size::Standard)?;
    is_wrong(rt, &plan, &other)
}

#[test]
fn hops_of_another_plan_are_wrong(rt: HostRuntime) -> Result<(), Fail> {
    hops_are_wrong(&rt, CHAIN, RING)?;
    hops_are_wrong(&rt, RING, CHAIN)?;
    hops_are_wrong(&rt, RING, CLOCKLESS)
}

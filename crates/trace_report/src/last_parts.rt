//! Whence each element has its timing, which loops stand, and whether the network is settled.

ghost use Rattle.std.specs.Prelude.{◌≡◌, ◌<◌, ◌++◌, ℕ, false, List, length, map, OnOk, OnErr};
ghost use Rattle.std.specs.List.{All};
ghost use Rattle.sync_topo.specs.declared.event.Event.{Event};
ghost use Rattle.sync_net.specs.Standing.{StandsFor};
ghost use Rattle.settle_trace.specs.Now.{now_of};
ghost use Rattle.sync_topo.specs.Lines.{numbers};
ghost use Rattle.closed_walks.specs.Within.{IsEndOf, AreLinesOf};
ghost use Rattle.trace_report.specs.LastParts.{AreLastParts, end_name, end_word, loops_part, settled_part, trace_row, traces_part};

use closed_walks::put_walks;
use settle_trace::{End, Ending, Walk, loops, settled, traces};
use std::alloc::Global;
use sync_net::Net;
use sync_text::{NoMemory, Text};
use sync_topo::Plan;

/// Puts the last parts, as they are in the millisecond of the last step.
pub(crate) fn put_last_parts(alloc: Global, text: &mut Text, net: &Net<'_>) -> Result<(), NoMemory>
    requires live { net.now.spent ≡ false }
    requires stepped { 0 < net.now.next }
    ensures put { OnOk result ((all : List Event) → StandsFor net.now all net.now.next →
        (last : List ℕ) × AreLastParts net.now.plan all (now_of net.now) last
        × (text.new ≡ text.old ++ last)) }
{
    let endings = traces(alloc, net)?;
    let walks = loops(alloc, net)?;
    put_traces(text, net.plan(), endings.as_slice())?;
    put_loops(alloc, text, net.plan(), walks.as_slice())?;
    put_settled(text, settled(net))?;
    Ok(())
}

/// Puts how the traces of all elements end.
fn put_traces(text: &mut Text, plan: &Plan, endings: &[Ending]) -> Result<(), NoMemory>
    requires count { length endings.now ≡ length plan.now.elements }
    requires of_plan { All (IsEndOf plan.now) endings.now }
    ensures put { OnOk result (text.new ≡ text.old ++ traces_part plan.now endings.now) }
{
    text.put(b"traces\n")?;
    for element in 0..plan.elements() {
        put_trace(text, plan, element, endings[element as usize])?;
    }
    Ok(())
}

/// Puts how the trace of one element ends.
fn put_trace(text: &mut Text, plan: &Plan, element: u32, ending: Ending) -> Result<(), NoMemory>
    requires within { element < length plan.now.elements }
    requires of_plan { IsEndOf plan.now ending }
    ensures put { OnOk result (text.new ≡ text.old ++ trace_row plan.now element ending) }
{
    text.put(plan.element(element).name.bytes())?;
    text.put(b",")?;
    text.put_number(u64::from(ending.lines))?;
    text.put(b",")?;
    text.put(end_word(ending.end))?;
    text.put(b",")?;
    text.put(end_name(plan, ending))?;
    text.put(b"\n")
}

/// The kind of an end, in a word.
fn end_word(end: End) -> &'static [u8]
    ensures { result.now ≡ end_word end }
{
    match end {
        End::Source(_) => b"source",
        End::OwnClock(_) => b"own",
        End::Loop(_) => b"loop",
    }
}

/// The name of the source or element at which a trace ends.
fn end_name(plan: &Plan, ending: Ending) -> &[u8]
    requires of_plan { IsEndOf plan.now ending }
    ensures { result.now ≡ end_name plan.now ending.end }
{
    match ending.end {
        End::Source(source) => plan.source(source).name.bytes(),
        End::OwnClock(element) | End::Loop(element) => plan.element(element).name.bytes(),
    }
}

/// Puts all closed walks.
fn put_loops(alloc: Global, text: &mut Text, plan: &Plan, walks: &[Walk]) -> Result<(), NoMemory>
    requires of_plan { All (AreLinesOf plan.now) walks.now }
    ensures put { OnOk result (text.new ≡ text.old ++ loops_part plan.now (map numbers walks.now)) }
{
    text.put(b"loops\n")?;
    put_walks(alloc, text, plan, walks)
}

/// Puts the line on whether a network is settled.
///
/// `NoMemory` comes only when out of memory, and leaves the text as it was. This project's own.
pub fn put_settled(text: &mut Text, settled: bool) -> Result<(), NoMemory>
    ensures put { OnOk result (text.new ≡ text.old ++ settled_part settled) }
    ensures unchanged { OnErr result (text.new ≡ text.old) }
{
    if settled {
        text.put(b"settled yes\n")
    } else {
        text.put(b"settled no\n")
    }
}

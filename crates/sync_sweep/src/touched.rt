//! Which elements, lines and sources of a network the steps since another touched.

ghost use Rattle.std.specs.Prelude.{◌≡◌, ◌<◌, ◌/◌, nat_eq, length, IfOk};
ghost use Rattle.std.specs.List.{All, list_any};
ghost use Rattle.net_rules.specs.Settling.{switches_line};
ghost use Rattle.sync_net.specs.Named.{named_source, is_it};
ghost use Rattle.sync_topo.specs.Events.{Fits, MayHappen};
ghost use Rattle.sync_topo.specs.Lines.{line_count};
ghost use Rattle.sync_topo.specs.Topology.{Topology};
ghost use Rattle.sync_sweep.specs.private.Branching.{AreMarksOf, AreMarkedToo, AreEventsNamed};

use agenda::Marks;
use std::alloc::Global;
use sync_net::named_source;
use sync_text::NoMemory;
use sync_topo::{Event, LineId, Part, Plan, What};

/// Which elements, lines and sources were touched: evaluated, called or switched, and named.
#[derive(Debug, Drop)]
pub struct Touched {
    /// The elements that a step evaluated.
    pub elements: Marks,
    /// The lines that a step called, and those that an event named.
    pub lines: Marks,
    /// The sources that an event named.
    pub sources: Marks,
}

/// Nothing of a plan is touched.
pub(crate) fn none_touched(alloc: Global, plan: &Plan) -> Result<Touched, NoMemory>
    ensures marks { IfOk result (AreMarksOf plan.now) }
{
    let elements = Marks::new(alloc, plan.elements() as usize)?;
    let lines = Marks::new(alloc, plan.lines() as usize)?;
    let sources = Marks::new(alloc, plan.sources() as usize)?;
    Ok(Touched {
        elements,
        lines,
        sources,
    })
}

/// Nothing is touched any more.
pub(crate) fn forget(touched: &mut Touched)
    ensures { (plan : Topology) → AreMarksOf plan touched.old → AreMarksOf plan touched.new }
{
    touched.elements.clear();
    touched.lines.clear();
    touched.sources.clear();
}

/// Marks all places of a list.
pub(crate) fn mark_all(marks: &mut Marks, places: &[u32])
    requires within { All (λ k. k < length marks.old.flags) places.now }
    ensures { AreMarkedToo (λ k. list_any (nat_eq k) places.now) marks.old marks.new }
{
    for place in places {
        marks.mark(*place);
    }
}

/// Marks the lines that events switch, and the sources that they name.
pub(crate) fn mark_named(plan: &Plan, touched: &mut Touched, events: &[Event])
    requires fit { All (Fits plan.now) events.now }
    requires marks { AreMarksOf plan.now touched.old }
    ensures { AreEventsNamed events.now touched.old touched.new }
{
    for event in events {
        mark_lines(plan, &mut touched.lines, event.what);
        mark_source(plan, &mut touched.sources, event.what);
    }
}

/// Marks the lines that an event switches.
fn mark_lines(plan: &Plan, marks: &mut Marks, what: What)
    requires may { MayHappen plan.now what }
    requires marks { length marks.old.flags ≡ line_count plan.now }
    ensures { AreMarkedToo (λ line. switches_line line what) marks.old marks.new }
{
    match what {
        What::Down(Part::Link(link)) => mark_link(plan, marks, link),
        What::Up(Part::Link(link)) => mark_link(plan, marks, link),
        What::Down(Part::Line(line)) => mark_line(marks, line),
        What::Up(Part::Line(line)) => mark_line(marks, line),
        What::EsmcOff(line) => mark_line(marks, line),
        What::EsmcOn(line) => mark_line(marks, line),
        _ => {}
    }
}

/// Marks both lines of a link.
fn mark_link(plan: &Plan, marks: &mut Marks, link: u32)
    requires link { link < length plan.now.links }
    requires marks { length marks.old.flags ≡ line_count plan.now }
    ensures { AreMarkedToo (λ line. nat_eq (line / 2) link) marks.old marks.new }
{
    // Twice the number of links fits.
    let _links = plan.links();
    marks.mark(2 * link);
    marks.mark(2 * link + 1);
}

/// Marks a line.
fn mark_line(marks: &mut Marks, line: LineId)
    requires line { line.0 < length marks.old.flags }
    ensures { AreMarkedToo (λ other. nat_eq other line.0) marks.old marks.new }
{
    marks.mark(line.0);
}

/// Marks the source that an event names.
fn mark_source(plan: &Plan, marks: &mut Marks, what: What)
    requires may { MayHappen plan.now what }
    requires marks { length marks.old.flags ≡ length plan.now.sources }
    ensures { AreMarkedToo (λ source. is_it (named_source what) source) marks.old marks.new }
{
    if let Some(source) = named_source(plan, what) {
        marks.mark(source);
    }
}

//! What events make of lines and sources.

ghost use Rattle.std.specs.Prelude.{◌≡◌, ◌<◌, ◌+◌, ◌*◌, [], ◌∷◌, length};
ghost use Rattle.std.specs.List.{All};
ghost use Rattle.sync_topo.specs.Events.{Fits};
ghost use Rattle.sync_topo.specs.Lines.{line_count};
ghost use Rattle.sync_net.specs.private.Noting.{with_up, with_esmc, with_mark, AreOfOption, AreLinesNoted, AreSourcesNoted};

use crate::signals::{LineSignal, SourceSignal};
use agenda::Marks;
use sync_topo::{Event, InputId, LineId, Part, Plan, What};

/// Notes what events say of lines, and marks the nominated lines that they name.
pub(crate) fn note_lines(plan: &Plan, lines: &mut [LineSignal], marks: &mut Marks, events: &[Event])
    requires fit { All (Fits plan.now) events.now }
    requires lines { length lines.old ≡ line_count plan.now }
    requires marks { length marks.old.flags ≡ line_count plan.now }
    ensures { AreLinesNoted plan.now events.now [] lines.old lines.new marks.old.flags marks.new.flags }
{
    for event in events {
        note_line(plan, lines, marks, *event);
    }
}

fn note_line(plan: &Plan, lines: &mut [LineSignal], marks: &mut Marks, event: Event)
    requires fits { Fits plan.now event }
    requires lines { length lines.old ≡ line_count plan.now }
    requires marks { length marks.old.flags ≡ line_count plan.now }
    ensures { AreLinesNoted plan.now (event ∷ []) [] lines.old lines.new marks.old.flags marks.new.flags }
{
    match event.what {
        What::Down(Part::Link(link)) => set_link_up(plan, lines, marks, link, false),
        What::Up(Part::Link(link)) => set_link_up(plan, lines, marks, link, true),
        What::Down(Part::Line(line)) => set_up(plan, lines, marks, line, false),
        What::Up(Part::Line(line)) => set_up(plan, lines, marks, line, true),
        What::EsmcOff(line) => set_esmc(plan, lines, marks, line, false),
        What::EsmcOn(line) => set_esmc(plan, lines, marks, line, true),
        _ => {}
    }
}

/// Both lines of a link go up or down.
fn set_link_up(plan: &Plan, lines: &mut [LineSignal], marks: &mut Marks, link: u32, up: bool)
    requires link { link < length plan.now.links }
    requires lines { length lines.old ≡ line_count plan.now }
    requires marks { length marks.old.flags ≡ line_count plan.now }
    ensures lines { lines.new ≡ with_up (with_up lines.old (2 * link) up) (2 * link + 1) up }
    ensures marks { marks.new.flags ≡
        with_mark plan.now (with_mark plan.now marks.old.flags (2 * link)) (2 * link + 1) }
{
    // A plan has at most 200,000 links, so the sum fits.
    let _links = plan.links();
    set_up(plan, lines, marks, LineId(2 * link), up);
    set_up(plan, lines, marks, LineId(2 * link + 1), up);
}

fn set_up(plan: &Plan, lines: &mut [LineSignal], marks: &mut Marks, line: LineId, up: bool)
    requires line { line.0 < line_count plan.now }
    requires lines { length lines.old ≡ line_count plan.now }
    requires marks { length marks.old.flags ≡ line_count plan.now }
    ensures lines { lines.new ≡ with_up lines.old line.0 up }
    ensures marks { marks.new.flags ≡ with_mark plan.now marks.old.flags line.0 }
{
    lines[line.0 as usize].up = up;
    mark_nominated(plan, marks, line);
}

fn set_esmc(plan: &Plan, lines: &mut [LineSignal], marks: &mut Marks, line: LineId, on: bool)
    requires line { line.0 < line_count plan.now }
    requires lines { length lines.old ≡ line_count plan.now }
    requires marks { length marks.old.flags ≡ line_count plan.now }
    ensures lines { lines.new ≡ with_esmc lines.old line.0 on }
    ensures marks { marks.new.flags ≡ with_mark plan.now marks.old.flags line.0 }
{
    lines[line.0 as usize].esmc = on;
    mark_nominated(plan, marks, line);
}

/// Nobody hears a line that isn't nominated.
fn mark_nominated(plan: &Plan, marks: &mut Marks, line: LineId)
    requires line { line.0 < line_count plan.now }
    requires marks { length marks.old.flags ≡ line_count plan.now }
    ensures { marks.new.flags ≡ with_mark plan.now marks.old.flags line.0 }
{
    if plan.nominated(InputId::Line(line)) {
        marks.mark(line.0);
    }
}

/// Notes what events say of sources; their levels are settled later.
pub(crate) fn note_sources(plan: &Plan, sources: &mut [SourceSignal], events: &[Event])
    requires fit { All (Fits plan.now) events.now }
    requires sources { length sources.old ≡ length plan.now.sources }
    requires of_option { AreOfOption plan.now.option sources.old }
    ensures noted { AreSourcesNoted events.now [] sources.old sources.new }
    ensures of_option { AreOfOption plan.now.option sources.new }
{
    for event in events {
        note_source(plan, sources, *event);
    }
}

fn note_source(plan: &Plan, sources: &mut [SourceSignal], event: Event)
    requires fits { Fits plan.now event }
    requires sources { length sources.old ≡ length plan.now.sources }
    requires of_option { AreOfOption plan.now.option sources.old }
    ensures noted { AreSourcesNoted (event ∷ []) [] sources.old sources.new }
    ensures of_option { AreOfOption plan.now.option sources.new }
{
    match event.what {
        What::Down(Part::Source(source)) => sources[source as usize].up = false,
        What::Up(Part::Source(source)) => sources[source as usize].up = true,
        What::SourceLevel(source, level) => sources[source as usize].said = level,
        _ => {}
    }
}

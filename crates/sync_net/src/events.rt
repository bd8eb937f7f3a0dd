//! Takes in the events of a millisecond.

ghost use Rattle.std.specs.Prelude.{◌≡◌, length, OnOk};
ghost use Rattle.std.specs.List.{All};
ghost use Rattle.sync_topo.specs.Events.{Fits};
ghost use Rattle.sync_topo.specs.Lines.{line_count};
ghost use Rattle.sync_net.specs.private.Noting.{AreOfOption};
ghost use Rattle.sync_net.specs.private.Taking.{AreTaken};

use crate::outside::{note_lines, note_sources};
use crate::signals::{LineSignal, SourceSignal};
use crate::source_levels::note_source_levels;
use agenda::Marks;
use net_words::{Tellings, tell_events};
use sync_text::NoMemory;
use sync_topo::{Event, Plan};

/// Takes in the events of a millisecond: what they make of lines and sources, and what elements
/// are told of them. It takes the same time for each event, whatever the plan.
pub(crate) fn take_events(
    plan: &Plan,
    lines: &mut [LineSignal],
    sources: &mut [SourceSignal],
    marks: &mut Marks,
    tellings: &mut Tellings,
    events: &[Event],
) -> Result<(), NoMemory>
    requires fit { All (Fits plan.now) events.now }
    requires lines { length lines.old ≡ line_count plan.now }
    requires sources { length sources.old ≡ length plan.now.sources }
    requires of_option { AreOfOption plan.now.option sources.old }
    requires marks { length marks.old.flags ≡ line_count plan.now }
    requires lists { length tellings.old.changes.items ≡ length plan.now.elements }
    requires flags { length tellings.old.active.flags ≡ length plan.now.elements }
    ensures taken { OnOk result (AreTaken plan.now events.now
        (record { lines = lines.old; sources = sources.old; marks = marks.old.flags; tellings = tellings.old })
        (record { lines = lines.new; sources = sources.new; marks = marks.new.flags; tellings = tellings.new })) }
    ensures of_option { OnOk result (AreOfOption plan.now.option sources.new) }
{
    // Every plan keeps the rules.
    let _elements = plan.elements();
    note_lines(plan, lines, marks, events);
    note_sources(plan, sources, events);
    tell_events(plan, tellings, events)?;
    note_source_levels(plan, sources, tellings, events)?;
    Ok(())
}

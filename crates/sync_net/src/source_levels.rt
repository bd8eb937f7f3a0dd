//! The levels of sources, once the events of a millisecond are noted.

ghost use Rattle.std.specs.Prelude.{◌≡◌, ◌<◌, [], ◌∷◌, length, slice_set, OnOk, IfSome};
ghost use Rattle.std.specs.List.{All};
ghost use Rattle.sync_topo.specs.Events.{Fits, MayHappen};
ghost use Rattle.sync_net.specs.private.Noting.{source_at, AreOfOption};
ghost use Rattle.sync_net.specs.Named.{named_source};
ghost use Rattle.sync_net.specs.private.SourceLevels.{settled, AreSourcesSettled, level_words, all_level_words};
ghost use Rattle.net_words.specs.Tellings.{AreTold};

use crate::signals::SourceSignal;
use net_words::{Saying, Tellings, tell_input};
use sync_ql::Level;
use sync_text::NoMemory;
use sync_topo::{Event, InputId, Part, Plan, What};

/// Settles the level of each source that an event names, and tells it.
pub(crate) fn note_source_levels(
    plan: &Plan,
    sources: &mut [SourceSignal],
    tellings: &mut Tellings,
    events: &[Event],
) -> Result<(), NoMemory>
    requires fit { All (Fits plan.now) events.now }
    requires sources { length sources.old ≡ length plan.now.sources }
    requires of_option { AreOfOption plan.now.option sources.old }
    requires lists { length tellings.old.changes.items ≡ length plan.now.elements }
    requires flags { length tellings.old.active.flags ≡ length plan.now.elements }
    ensures told { OnOk result (AreTold (all_level_words plan.now sources.old events.now) tellings.old tellings.new) }
    ensures settled { OnOk result (AreSourcesSettled events.now [] sources.old sources.new) }
    ensures of_option { OnOk result (AreOfOption plan.now.option sources.new) }
{
    for event in events {
        note_source_level(plan, sources, tellings, *event)?;
    }
    Ok(())
}

fn note_source_level(
    plan: &Plan,
    sources: &mut [SourceSignal],
    tellings: &mut Tellings,
    event: Event,
) -> Result<(), NoMemory>
    requires fits { Fits plan.now event }
    requires sources { length sources.old ≡ length plan.now.sources }
    requires of_option { AreOfOption plan.now.option sources.old }
    requires lists { length tellings.old.changes.items ≡ length plan.now.elements }
    requires flags { length tellings.old.active.flags ≡ length plan.now.elements }
    ensures told { OnOk result (AreTold (level_words plan.now sources.old (named_source event.what)) tellings.old tellings.new) }
    ensures settled { OnOk result (AreSourcesSettled (event ∷ []) [] sources.old sources.new) }
    ensures of_option { OnOk result (AreOfOption plan.now.option sources.new) }
{
    let Some(source) = named_source(plan, event.what) else {
        return Ok(());
    };
    let level = level_now(sources, source);
    tell_input(
        plan,
        tellings,
        InputId::Source(source),
        Saying::HasLevel(level),
    )
}

/// The source that an event names.
pub fn named_source(plan: &Plan, what: What) -> Option<u32>
    requires { MayHappen plan.now what }
    ensures named { result ≡ named_source what }
    ensures within { IfSome result (λ source. source < length plan.now.sources) }
{
    match what {
        What::Down(Part::Source(source)) => Some(source),
        What::Up(Part::Source(source)) => Some(source),
        What::SourceLevel(source, _) => Some(source),
        _ => None,
    }
}

/// A source that is up gets the level that was said last; what comes back is its level.
fn level_now(sources: &mut [SourceSignal], source: u32) -> Level
    requires { source < length sources.old }
    ensures sources { sources.new ≡ slice_set sources.old source (settled (source_at sources.old source)) }
    ensures level { result ≡ (settled (source_at sources.old source)).level }
{
    let kept = &mut sources[source as usize];
    if kept.up {
        kept.level = kept.said;
    }
    kept.level
}

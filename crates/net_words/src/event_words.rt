//! Tells elements of events.

ghost use Rattle.std.specs.Prelude.{◌≡◌, ◌<◌, length, OnOk};
ghost use Rattle.std.specs.List.{All};
ghost use Rattle.sync_topo.specs.Events.{Fits, IsPart, MayHappen};
ghost use Rattle.sync_topo.specs.Lines.{IsInput};
ghost use Rattle.net_words.specs.Words.{input_words, part_words, words_of, all_words};
ghost use Rattle.net_words.specs.Tellings.{AreTold};

use crate::input_words::{Saying, said_as};
use crate::places::input_place;
use crate::tellings::Tellings;
use sync_ql::rules::{Cmd, InputEvent};
use sync_text::NoMemory;
use sync_topo::{Event, InputId, LineId, Part, Plan, What};

/// Tells elements of events in their order: of all but levels.
///
/// When out of memory, a part of it may be told, so the tellings aren't used again. This project's own.
pub fn tell_events(plan: &Plan, tellings: &mut Tellings, events: &[Event]) -> Result<(), NoMemory>
    requires fit { All (Fits plan.now) events.now }
    requires lists { length tellings.old.changes.items ≡ length plan.now.elements }
    requires flags { length tellings.old.active.flags ≡ length plan.now.elements }
    ensures { OnOk result (AreTold (all_words plan.now events.now) tellings.old tellings.new) }
{
    for event in events {
        tell_event(plan, tellings, event.what)?;
    }
    Ok(())
}

fn tell_event(plan: &Plan, tellings: &mut Tellings, what: What) -> Result<(), NoMemory>
    requires may { MayHappen plan.now what }
    requires lists { length tellings.old.changes.items ≡ length plan.now.elements }
    requires flags { length tellings.old.active.flags ≡ length plan.now.elements }
    ensures { OnOk result (AreTold (words_of plan.now what) tellings.old tellings.new) }
{
    match what {
        What::Down(part) => tell_part(plan, tellings, part, false),
        What::Up(part) => tell_part(plan, tellings, part, true),
        What::EsmcOff(_) | What::EsmcOn(_) | What::SourceLevel(_, _) => Ok(()),
        What::Lockout(input) => tell_input(plan, tellings, input, Saying::IsLocked),
        What::Unlock(input) => tell_input(plan, tellings, input, Saying::IsUnlocked),
        What::Forced(input) => tell_input(plan, tellings, input, Saying::IsForced),
        What::Manual(input) => tell_input(plan, tellings, input, Saying::IsManual),
        What::Clear(element) => tellings.tell(element, InputEvent::Command(Cmd::Clear)),
        What::ClearWtr(input) => tell_input(plan, tellings, input, Saying::IsCleared),
    }
}

/// A part goes down or comes up: both lines of a link.
fn tell_part(plan: &Plan, tellings: &mut Tellings, part: Part, up: bool) -> Result<(), NoMemory>
    requires part { IsPart plan.now part }
    requires lists { length tellings.old.changes.items ≡ length plan.now.elements }
    requires flags { length tellings.old.active.flags ≡ length plan.now.elements }
    ensures { OnOk result (AreTold (part_words plan.now up part) tellings.old tellings.new) }
{
    match part {
        Part::Link(link) => tell_link(plan, tellings, link, up),
        Part::Line(line) => tell_input(plan, tellings, InputId::Line(line), Saying::IsUp(up)),
        Part::Source(source) => tell_input(
            plan,
            tellings,
            InputId::Source(source),
            Saying::IsUp(up),
        ),
    }
}

fn tell_link(plan: &Plan, tellings: &mut Tellings, link: u32, up: bool) -> Result<(), NoMemory>
    requires link { link < length plan.now.links }
    requires lists { length tellings.old.changes.items ≡ length plan.now.elements }
    requires flags { length tellings.old.active.flags ≡ length plan.now.elements }
    ensures { OnOk result (AreTold (part_words plan.now up (Part.Link link)) tellings.old tellings.new) }
{
    // A plan has at most 200,000 links, so the sum fits.
    let _links = plan.links();
    let first = InputId::Line(LineId(2 * link));
    let second = InputId::Line(LineId(2 * link + 1));
    tell_input(plan, tellings, first, Saying::IsUp(up))?;
    tell_input(plan, tellings, second, Saying::IsUp(up))
}

/// Tells the element of an input, if it is nominated there, what is said of it. When out of memory, a
/// part of it may be told. This project's own.
pub fn tell_input(
    plan: &Plan,
    tellings: &mut Tellings,
    input: InputId,
    saying: Saying,
) -> Result<(), NoMemory>
    requires input { IsInput plan.now input }
    requires lists { length tellings.old.changes.items ≡ length plan.now.elements }
    requires flags { length tellings.old.active.flags ≡ length plan.now.elements }
    ensures { OnOk result (AreTold (input_words plan.now saying input) tellings.old tellings.new) }
{
    let Some(there) = input_place(plan, input) else {
        return Ok(());
    };
    tellings.tell(there.element, said_as(saying, there.place))
}

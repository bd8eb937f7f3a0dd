//! Which events fit a plan.

ghost use Rattle.std.specs.Prelude.{◌↔◌, ◌<◌, IsTrue};
ghost use Rattle.sync_topo.specs.Events.{Fits, MayHappen, IsPart};
ghost use Rattle.sync_topo.specs.Lines.{IsInput, line_count};
ghost use Rattle.sync_topo.specs.WellFormed.{IsWellFormed};

use crate::event::{Event, Part, What};
use crate::input::{InputId, LineId};
use crate::plan::Plan;

impl Plan {
    /// The event is of something that the plan has, and its level, if it has one, is one of the
    /// plan's option. This project's own.
    pub fn fits(&self, event: &Event) -> bool
        ensures well_formed { IsWellFormed self.now }
        ensures fits { IsTrue result ↔ Fits self.now event.now }
    {
        self.may_happen(event.what)
    }

    /// What happens is of something that the plan has.
    fn may_happen(&self, what: What) -> bool
        ensures well_formed { IsWellFormed self.now }
        ensures happens { IsTrue result ↔ MayHappen self.now what }
    {
        match what {
            What::Down(part) | What::Up(part) => self.has_part(part),
            What::EsmcOff(line) | What::EsmcOn(line) => self.has_line(line),
            What::SourceLevel(source, level) => {
                source < self.sources() && level.option == self.option()
            }
            What::Lockout(input)
            | What::Unlock(input)
            | What::Forced(input)
            | What::Manual(input)
            | What::ClearWtr(input) => self.has_input(input),
            What::Clear(element) => element < self.elements(),
        }
    }

    /// The plan has the link, the line or the source.
    fn has_part(&self, part: Part) -> bool
        ensures well_formed { IsWellFormed self.now }
        ensures part { IsTrue result ↔ IsPart self.now part }
    {
        match part {
            Part::Link(link) => link < self.links(),
            Part::Line(line) => self.has_line(line),
            Part::Source(source) => source < self.sources(),
        }
    }

    /// The plan has the input.
    fn has_input(&self, input: InputId) -> bool
        ensures well_formed { IsWellFormed self.now }
        ensures input { IsTrue result ↔ IsInput self.now input }
    {
        match input {
            InputId::Line(line) => self.has_line(line),
            InputId::Source(source) => source < self.sources(),
        }
    }

    /// The plan has the line.
    fn has_line(&self, line: LineId) -> bool
        ensures well_formed { IsWellFormed self.now }
        ensures line { IsTrue result ↔ line.0 < line_count self.now }
    {
        line.0 < self.lines()
    }
}

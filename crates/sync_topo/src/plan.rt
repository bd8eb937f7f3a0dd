ghost use Rattle.std.specs.Prelude.{◌≡◌, ℕ, ◌+◌, ◌*◌, ◌<◌, ◌≤◌, ◌↔◌, IsTrue, IfOk, Ok, Err, length, slice_get, Some, is_some};
ghost use Rattle.std.specs.List.{All};
ghost use Rattle.sync_topo.specs.Lines.{line_count, sender_of, receiver_of, reverse_of, delay_of, priority_of, inputs_of, lines_out, element_of, place_at, input_number, input_priority, is_nominated_input, IsInput};
ghost use Rattle.sync_topo.specs.Bundles.{bundle_of};
ghost use Rattle.sync_topo.specs.Hops.{goes_back};
ghost use Rattle.sync_text.specs.Gives.{Gives};
ghost use Rattle.sync_topo.specs.Limits.{input_limit, least_delay, greatest_delay};
ghost use Rattle.sync_topo.specs.RowValues.{plan_from};
ghost use Rattle.sync_topo.specs.PlanRows.{rules_of, plan_of_rows, AreKept, IsFirstBroken};
ghost use Rattle.sync_topo.specs.RowsOfPlan.{rows_of_plan};
ghost use Rattle.sync_topo.specs.Topology.{Topology};
ghost use Rattle.sync_topo.specs.WellFormed.{IsWellFormed, IsElementOf, JoinsTwo, IsSourceOf};
ghost use Rattle.sync_topo.specs.declared.error.PlanErr.{PlanErr};
ghost use Rattle.sync_topo.specs.declared.rows.PlanRows.{PlanRows};

mod fitting;
mod hops;
mod naming;
mod sizing;

use crate::element::Element;
use crate::error::PlanErr;
use crate::input::{InputId, LineId};
use crate::link::Link;
use crate::parts::PlanTables;
use crate::rows::PlanRows;
use crate::source::Source;
use std::alloc::Global;
use std::fmt;
use std::marker::Model;
use sync_ql::NetOption;
use sync_text::NoAnswer;

/// A plan that keeps every rule.
///
/// Contracts see its option, its elements, its links and its sources.
pub struct Plan {
    parts: PlanTables,
}

// Written out, so that a way out of a function drops the whole in one step and not field by field.
impl Drop for Plan {
    fn drop(self) {
        let Plan { parts } = self;
        drop(parts);
    }
}

impl Model for Plan {
    ghost use Rattle.sync_topo.specs.Topology.{Topology};

    ghost Value = { Topology };

    ghost use Rattle.sync_topo.specs.Indexed.{topology};
    ghost use Rattle.sync_topo.specs.private.Indexed.{IsIndexed};

    ghost view = { λ plan. topology plan.parts };

    ghost invariant = { λ plan. IsIndexed plan.parts };
}

impl fmt::Debug for Plan {
    fn fmt<W: fmt::Write>(&self, f: &mut fmt::Formatter<W>) -> fmt::Result {
        let parts = &self.parts;
        f.debug_struct("Plan")
            .field("option", &parts.option)
            .field("elements", &parts.elements)
            .field("links", &parts.links)
            .field("sources", &parts.sources)
            .finish()
    }
}

impl Plan {
    /// The plan that rows give, of whatever size.
    ///
    /// A refusal tells the first rule that is broken, with its place. First come the numbers of rows:
    /// `Limit` at the first element, link or source past 100,000, 200,000 or 100,000. Then each element
    /// row in order: `Name`, `Twice`, `Range` for its times, `LevelName`. Then each link row: `Name`,
    /// `Twice`, `NoElement`, `SelfLink`, `Range`, `Bundle`, and `Limit` where an end has a 65th
    /// nominated input by this row. Then each source row: `Name`, `Twice`, `NoElement`, `Range`,
    /// `LevelName`, and `Limit` as for links. This project's own.
    pub fn new(alloc: Global, rows: PlanRows) -> Result<Plan, NoAnswer<PlanErr>>
        ensures exact { Gives result (plan_of_rows rows) }
        ensures well_formed { IfOk result (λ plan. IsWellFormed plan) }
        ensures plan { IfOk result (λ plan. plan ≡ plan_from rows) }

        // Rows give what they say exactly where no rule is broken, and a refusal exactly where that
        // rule is broken at that place and no rule before it is.
        ensures kept { (plan_of_rows rows ≡ Ok (plan_from rows)) ↔ AreKept (rules_of rows) }
        ensures refused { (refusal : PlanErr) →
            (plan_of_rows rows ≡ Err refusal) ↔ IsFirstBroken (rules_of rows) refusal }

        // Every plan that any rows give keeps the rules.
        ensures accepted { (given : PlanRows) (plan : Topology) →
            plan_of_rows given ≡ Ok plan → IsWellFormed plan }

        // What keeps the rules is the plan of some rows: of those that say it in full.
        ensures again { (plan : Topology) → IsWellFormed plan →
            plan_of_rows (rows_of_plan plan) ≡ Ok plan }
    {
        let parts = PlanTables::of_rows(alloc, rows)?;
        Ok(Plan { parts })
    }

    /// The network option. After G.781, network options I and II.
    pub fn option(&self) -> NetOption
        ensures well_formed { IsWellFormed self.now }
        ensures option { result ≡ self.now.option }
    {
        self.parts.option
    }

    /// How many elements there are.
    pub fn elements(&self) -> u32
        ensures well_formed { IsWellFormed self.now }
        ensures count { result ≡ length self.now.elements }
    {
        self.parts.elements.len() as u32
    }

    /// How many links there are.
    pub fn links(&self) -> u32
        ensures well_formed { IsWellFormed self.now }
        ensures count { result ≡ length self.now.links }
    {
        self.parts.links.len() as u32
    }

    /// How many sources there are.
    pub fn sources(&self) -> u32
        ensures well_formed { IsWellFormed self.now }
        ensures count { result ≡ length self.now.sources }
    {
        self.parts.sources.len() as u32
    }

    /// How many lines there are: two for each link.
    pub fn lines(&self) -> u32
        ensures well_formed { IsWellFormed self.now }
        ensures count { result ≡ line_count self.now }
    {
        2 * self.links()
    }

    /// An element, by its number.
    pub fn element(&self, element: u32) -> &Element
        requires { element < length self.now.elements }
        ensures well_formed { IsWellFormed self.now }
        ensures element { slice_get self.now.elements element ≡ Some result.now }
        ensures fits { IsElementOf self.now.option result.now }
    {
        &self.parts.elements[element as usize]
    }

    /// A link, by its number.
    pub fn link(&self, link: u32) -> &Link
        requires { link < length self.now.links }
        ensures well_formed { IsWellFormed self.now }
        ensures link { slice_get self.now.links link ≡ Some result.now }
        ensures fits { JoinsTwo (length self.now.elements) result.now }
    {
        &self.parts.links[link as usize]
    }

    /// The lowest-numbered link of a link's bundle, by its number: the link itself where it names no
    /// bundle. This project's own.
    pub fn bundle(&self, link: u32) -> u32
        requires { link < length self.now.links }
        ensures well_formed { IsWellFormed self.now }
        ensures bundle { result ≡ bundle_of self.now link }
        ensures lowest { result ≤ link }
    {
        self.parts.bundles.bundle_of(link)
    }

    /// A source, by its number.
    pub fn source(&self, source: u32) -> &Source
        requires { source < length self.now.sources }
        ensures well_formed { IsWellFormed self.now }
        ensures source { slice_get self.now.sources source ≡ Some result.now }
        ensures fits { IsSourceOf self.now.option (length self.now.elements) result.now }
    {
        &self.parts.sources[source as usize]
    }

    /// The element that a line brings timing from.
    pub fn from(&self, line: LineId) -> u32
        requires { line.0 < line_count self.now }
        ensures well_formed { IsWellFormed self.now }
        ensures sender { result ≡ sender_of self.now line.0 }
        ensures within { result < length self.now.elements }
    {
        let link = self.link(line.0 / 2);
        if line.ends_at_b() { link.a } else { link.b }
    }

    /// The element that a line brings timing to.
    pub fn to(&self, line: LineId) -> u32
        requires { line.0 < line_count self.now }
        ensures well_formed { IsWellFormed self.now }
        ensures receiver { result ≡ receiver_of self.now line.0 }
        ensures within { result < length self.now.elements }
    {
        let link = self.link(line.0 / 2);
        if line.ends_at_b() { link.b } else { link.a }
    }

    /// The other direction of a line's link.
    pub fn rev(&self, line: LineId) -> LineId
        requires { line.0 < line_count self.now }
        ensures well_formed { IsWellFormed self.now }
        ensures reverse { result.0 ≡ reverse_of line.0 }
        ensures goes_back { IsTrue (goes_back self.now line.0 result.0) }
        ensures within { result.0 < line_count self.now }
    {
        // A plan has at most 200,000 links, so the sum fits.
        let _links = self.links();
        LineId(if line.ends_at_b() {
            line.0 + 1
        } else {
            line.0 - 1
        })
    }

    /// How long a message takes on a line, 1 to 2,000 milliseconds.
    pub fn delay(&self, line: LineId) -> u32
        requires { line.0 < line_count self.now }
        ensures well_formed { IsWellFormed self.now }
        ensures delay { result ≡ delay_of self.now line.0 }
        ensures at_least { least_delay ≤ result }
        ensures at_most { result ≤ greatest_delay }
    {
        let link = self.link(line.0 / 2);
        if line.ends_at_b() {
            link.delay_b
        } else {
            link.delay_a
        }
    }

    /// The priority that its receiver gives a line; 0 is not nominated.
    pub(crate) fn line_priority(&self, line: LineId) -> u8
        requires { line.0 < line_count self.now }
        ensures well_formed { IsWellFormed self.now }
        ensures priority { result ≡ priority_of self.now line.0 }
    {
        let link = self.link(line.0 / 2);
        if line.ends_at_b() {
            link.priority_b
        } else {
            link.priority_a
        }
    }

    /// The priority that an element gives an input: 1 is the highest, 255 the lowest, and 0 is not
    /// nominated. After G.781, priority.
    pub fn priority(&self, input: InputId) -> u8
        requires { IsInput self.now input }
        ensures well_formed { IsWellFormed self.now }
        ensures priority { result ≡ input_priority self.now input }
    {
        match input {
            InputId::Line(line) => self.line_priority(line),
            InputId::Source(j) => self.source(j).priority,
        }
    }

    /// An element may take its timing from the input. After G.781, nominated input.
    pub fn nominated(&self, input: InputId) -> bool
        requires { IsInput self.now input }
        ensures well_formed { IsWellFormed self.now }
        ensures nominated { result ≡ is_nominated_input self.now input }
    {
        0 < self.priority(input)
    }

    /// The number of an input: a line's is the line's own, and those of the sources come after all
    /// lines. This project's own.
    pub fn number(&self, input: InputId) -> u32
        requires { IsInput self.now input }
        ensures well_formed { IsWellFormed self.now }
        ensures number { result ≡ input_number self.now input }
    {
        let lines = self.lines();
        match input {
            InputId::Line(line) => line.0,
            InputId::Source(j) => lines + j,
        }
    }

    /// The inputs of an element, in order of number: the nominated lines into it, and then the
    /// nominated sources at it. There are at most 64. After G.781, nominated inputs.
    pub fn inputs(&self, element: u32) -> &[InputId]
        requires { element < length self.now.elements }
        ensures well_formed { IsWellFormed self.now }
        ensures inputs { result.now ≡ inputs_of self.now element }
        ensures within { All (IsInput self.now) result.now }
        ensures few { length result.now ≤ input_limit }
    {
        self.parts.wiring.inputs[element as usize].as_slice()
    }

    /// The nominated lines out of an element, in order of number: those from which their receivers may
    /// take timing. After G.781, nominated inputs.
    pub fn lines_out(&self, element: u32) -> &[LineId]
        requires { element < length self.now.elements }
        ensures well_formed { IsWellFormed self.now }
        ensures lines { result.now ≡ lines_out self.now element }
    {
        self.parts.wiring.lines_out[element as usize].as_slice()
    }

    /// The element that an input brings timing to: a line's receiver, and a source's own.
    pub fn element_of(&self, input: InputId) -> u32
        requires { IsInput self.now input }
        ensures well_formed { IsWellFormed self.now }
        ensures element { result ≡ element_of self.now input }
        ensures within { result < length self.now.elements }
    {
        match input {
            InputId::Line(line) => self.to(line),
            InputId::Source(j) => self.source(j).at,
        }
    }

    /// The place of an input among those of its element, from 0; `None` for one that isn't nominated.
    pub fn place_of(&self, input: InputId) -> Option<u32>
        requires { IsInput self.now input }
        ensures well_formed { IsWellFormed self.now }
        ensures place { result ≡ place_at self.now (element_of self.now input) input }
        ensures nominated { is_some result ≡ is_nominated_input self.now input }
    {
        if !self.nominated(input) {
            return None;
        }
        let place = match input {
            InputId::Line(line) => self.parts.wiring.line_places[line.0 as usize],
            InputId::Source(j) => self.parts.wiring.source_places[j as usize],
        };
        Some(u32::from(place))
    }
}

ghost use Rattle.std.specs.Prelude.{◌≡◌, ◌<◌, ◌≤◌, ◌+◌, ◌*◌, ◌^◌, ℕ, length, replicate, slice_index, slice_set, IfOk};
ghost use Rattle.sync_topo.specs.Lines.{line_count, receiver_of, sources_at, IsInput};
ghost use Rattle.sync_topo.specs.WellFormed.{IsWellFormed};
ghost use Rattle.nominate.specs.HopCount.{AreHopCounts};
ghost use Rattle.nominate.specs.Nomination.{base_priority, numbered_priority, new_priority};
ghost use Rattle.nominate.specs.private.Numbering.{is_across, leads, IsNumberedOne, IsNumbered, ArePriorities, own_priority};

use crate::facts::is_one_less;
use crate::hops::Hops;
use crate::search::is_source;
use std::alloc::Global;
use sync_ql::limits::MOST_INPUTS;
use sync_text::NoMemory;
use sync_topo::{InputId, LineId, Plan};

/// The new priorities of lines that are given so far.
#[derive(Drop)]
pub(crate) struct Numbering {
    /// For each element how many lines into it have numbers.
    pub(crate) numbered: Vec<u32>,
    /// For each line its priority.
    pub(crate) priorities: Vec<u8>,
}

/// The new priority of each line.
pub(crate) fn new_priorities(alloc: Global, plan: &Plan, hops: &Hops) -> Result<Vec<u8>, NoMemory>
    requires { AreHopCounts plan.now hops.now }
    ensures well_formed { IfOk result (λ _. IsWellFormed plan.now) }
    ensures given { IfOk result (λ priorities.
        ArePriorities plan.now (new_priority plan.now hops.now) priorities.items) }
{
    let mut numbering = Numbering::new(alloc, plan)?;
    numbering.number_all(plan, hops, false);
    numbering.number_all(plan, hops, true);
    Ok(numbering.priorities)
}

impl Numbering {
    /// No line has a number.
    fn new(alloc: Global, plan: &Plan) -> Result<Numbering, NoMemory>
        ensures well_formed { IfOk result (λ _. IsWellFormed plan.now) }
        ensures numbered { IfOk result (λ numbering. numbering.numbered.items
            ≡ replicate (length plan.now.elements) 0) }
        ensures priorities { IfOk result (λ numbering. numbering.priorities.items
            ≡ replicate (line_count plan.now) 0) }
    {
        let Ok(numbered) = vec![in alloc; 0; plan.elements() as usize] else {
            return Err(NoMemory);
        };
        let Ok(priorities) = vec![in alloc; 0; plan.lines() as usize] else {
            return Err(NoMemory);
        };
        Ok(Numbering {
            numbered,
            priorities,
        })
    }

    /// Numbers the lines that lead to an element of the same count, or else those that lead to one
    /// with one more.
    fn number_all(&mut self, plan: &Plan, hops: &Hops, across: bool)
        requires counted { length hops.now ≡ length plan.now.elements }
        requires elements { length self.old.numbered.items ≡ length plan.now.elements }
        requires lines { length self.old.priorities.items ≡ line_count plan.now }
        requires small { (element : ℕ) → element < length plan.now.elements
            → slice_index self.old.numbered.items element ≤ line_count plan.now }
        ensures { IsNumbered plan.now hops.now across (line_count plan.now) self.old self.new }
    {
        for number in 0..plan.lines() {
            self.number(plan, hops, across, LineId(number));
        }
    }

    /// Numbers the line, if it is of the kind.
    fn number(&mut self, plan: &Plan, hops: &Hops, across: bool, line: LineId)
        requires counted { length hops.now ≡ length plan.now.elements }
        requires elements { length self.old.numbered.items ≡ length plan.now.elements }
        requires lines { length self.old.priorities.items ≡ line_count plan.now }
        requires within { line.0 < line_count plan.now }
        requires small { slice_index self.old.numbered.items (receiver_of plan.now line.0)
            ≤ 2 * line_count plan.now }
        ensures { IsNumberedOne plan.now hops.now across line.0 self.old self.new }
    {
        if !leads(plan, hops, across, line) {
            return;
        }
        self.give(plan, line);
    }

    /// Gives the line the next number of the element where it ends.
    fn give(&mut self, plan: &Plan, line: LineId)
        requires elements { length self.old.numbered.items ≡ length plan.now.elements }
        requires lines { length self.old.priorities.items ≡ line_count plan.now }
        requires within { line.0 < line_count plan.now }
        requires small { slice_index self.old.numbered.items (receiver_of plan.now line.0)
            ≤ 2 * line_count plan.now }
        ensures numbered { self.new.numbered.items ≡ slice_set self.old.numbered.items
            (receiver_of plan.now line.0)
            (slice_index self.old.numbered.items (receiver_of plan.now line.0) + 1) }
        ensures priorities { self.new.priorities.items ≡ slice_set self.old.priorities.items line.0
            (numbered_priority plan.now (receiver_of plan.now line.0)
            (slice_index self.old.numbered.items (receiver_of plan.now line.0) + 1)) }
    {
        // A plan has at most 200,000 links, so the number fits.
        let _lines = plan.lines();
        let receiver = plan.to(line);
        let number = self.numbered[receiver as usize] + 1;
        self.numbered[receiver as usize] = number;
        self.priorities[line.0 as usize] = numbered_priority(plan, receiver, number);
    }
}

/// The line leads to an element of the same count, or else to one with one more.
fn leads(plan: &Plan, hops: &Hops, across: bool, line: LineId) -> bool
    requires counted { length hops.now ≡ length plan.now.elements }
    requires within { line.0 < line_count plan.now }
    ensures { result ≡ leads plan.now hops.now across line.0 }
{
    let sender = plan.from(line);
    let receiver = plan.to(line);
    if across {
        is_across(hops.of(sender), sender, hops.of(receiver), receiver)
    } else {
        is_one_less(hops.of(sender), hops.of(receiver))
    }
}

/// Both have the same count, and the first has the lower number.
fn is_across(hops: Option<u32>, one: u32, further: Option<u32>, other: u32) -> bool
    ensures { result ≡ is_across hops one further other }
{
    match (hops, further) {
        (Some(hops), Some(further)) => hops == further && one < other,
        _ => false,
    }
}

/// The priority that an element gives the candidate of this number; 0 where its own sources and
/// those before it leave no room.
fn numbered_priority(plan: &Plan, element: u32, number: u32) -> u8
    requires within { element < length plan.now.elements }
    requires small { number < 2 ^ 31 }
    ensures { result ≡ numbered_priority plan.now element number }
{
    let priority = u32::from(base_priority(plan, element)) + number;
    if priority <= u32::from(u8::MAX)
        && number + source_count(plan, element) <= MOST_INPUTS as u32
    {
        priority as u8
    } else {
        0
    }
}

/// The greatest priority that the element gives a source of its own; 0 without one.
fn base_priority(plan: &Plan, element: u32) -> u8
    requires { element < length plan.now.elements }
    ensures { result ≡ base_priority plan.now element }
{
    let mut greatest = 0;
    for input in plan.inputs(element) {
        greatest = own_priority(plan, *input).max(greatest);
    }
    greatest
}

/// The priority of a source, and 0 of a line.
fn own_priority(plan: &Plan, input: InputId) -> u8
    requires { IsInput plan.now input }
    ensures { result ≡ own_priority plan.now input }
{
    match input {
        InputId::Line(_) => 0,
        InputId::Source(_) => plan.priority(input),
    }
}

/// How many nominated sources the element has.
fn source_count(plan: &Plan, element: u32) -> u32
    requires { element < length plan.now.elements }
    ensures count { result ≡ length (sources_at plan.now element) }
    ensures few { result ≤ MOST_INPUTS }
{
    let mut count = 0;
    for input in plan.inputs(element) {
        count += u32::from(is_source(*input));
    }
    count
}

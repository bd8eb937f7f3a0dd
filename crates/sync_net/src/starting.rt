//! A network before its first step.

ghost use Rattle.std.specs.Prelude.{◌≡◌, ◌≤◌, ◌<◌, ◌+◌, ℕ, true, false, List, [], ◌∷◌, ◌++◌, IfOk, None, length, replicate};
ghost use Rattle.sync_topo.specs.declared.event.Event.{Event};
ghost use Rattle.sync_topo.specs.Lines.{line_count};
ghost use Rattle.sync_net.specs.private.Beginning.{IsBegun, IsNewPlace, IsNewSource};
ghost use Rattle.net_rules.specs.History.{by_levels};
ghost use Rattle.net_words.specs.NewElements.{AreEach, IsNewElement};
ghost use Rattle.sync_net.specs.Standing.{IsOfPast};
ghost use Rattle.sync_net.specs.Whole.{state_of};
ghost use Rattle.sync_net.specs.private.Whole.{IsWhole};

use crate::parts::NetParts;
use crate::shared_element::SharedElement;
use crate::shared_line::SharedLine;
use crate::signals::{LineSignal, SourceSignal};
use agenda::{DueTimes, Marks};
use link_model::Line;
use net_words::{Chooses, new_element, new_tellings};
use std::alloc::Global;
use sync_ql::Level;
use sync_text::{NoMemory, Rows};
use sync_topo::{InputId, LineId, Plan};

/// The parts of a network that was told nothing.
pub(crate) fn new_parts<'a>(alloc: Global, plan: &Plan) -> Result<NetParts<'a>, NoMemory>
    ensures whole { IfOk result (IsWhole plan.now) }
    ensures next { IfOk result (λ parts. parts.next ≡ 0) }
    ensures later_steps { IfOk result (λ parts. parts.later_steps ≡ 0) }
    ensures evaluated { IfOk result (λ parts. parts.tellings.active.listed ≡ []) }
    ensures called { IfOk result (λ parts. parts.called.listed ≡ []) }
    ensures stands { IfOk result (λ parts. (events : List Event) →
        IsOfPast (state_of plan.now false parts) events 0) }
{
    begun(alloc, plan)
}

/// The parts, each as it is before anything is told.
fn begun<'a>(alloc: Global, plan: &Plan) -> Result<NetParts<'a>, NoMemory>
    ensures { IfOk result (IsBegun plan.now) }
{
    let elements = new_elements(alloc, plan)?;
    let lines = new_lines(alloc, plan)?;
    let signals = new_signals(alloc, plan)?;
    let sources = new_sources(alloc, plan)?;
    let heards = no_levels(alloc, plan)?;
    let dues = DueTimes::new(alloc, (plan.elements() + plan.lines()) as usize)?;
    let tellings = new_tellings(alloc, plan)?;
    let called = Marks::new(alloc, plan.lines() as usize)?;
    Ok(NetParts {
        next: 0,
        later_steps: 0,
        elements,
        lines,
        signals,
        sources,
        heards,
        dues,
        tellings,
        called,
    })
}

/// The elements, by number.
fn new_elements<'a>(alloc: Global, plan: &Plan) -> Result<Vec<SharedElement<'a>>, NoMemory>
    ensures { IfOk result (λ elements.
        AreEach (IsNewElement (by_levels plan.now) plan.now) (length plan.now.elements) elements.items) }
{
    let mut elements = Rows::with_capacity(alloc, plan.elements() as usize)?;
    for element in 0..plan.elements() {
        elements.push(own_element(alloc, plan, element)?)?;
    }
    Ok(elements.into_vec())
}

/// An element that was told nothing.
fn own_element<'a>(alloc: Global, plan: &Plan, number: u32) -> Result<SharedElement<'a>, NoMemory>
    requires { number < length plan.now.elements }
    ensures { IfOk result (IsNewElement (by_levels plan.now) plan.now number) }
{
    let element = new_element(alloc, plan, number, Chooses::ByLevel)?;
    let own = SharedElement::new(alloc, element)?;
    Ok(own)
}

/// The lines, by number, of which only the nominated ones are kept.
fn new_lines<'a>(alloc: Global, plan: &Plan) -> Result<Vec<Option<SharedLine<'a>>>, NoMemory>
    ensures { IfOk result (λ lines.
        AreEach (IsNewPlace plan.now) (line_count plan.now) lines.items) }
{
    let mut lines = Rows::with_capacity(alloc, plan.lines() as usize)?;
    for number in 0..plan.lines() {
        lines.push(new_line(alloc, plan, LineId(number))?)?;
    }
    Ok(lines.into_vec())
}

/// A line that was told nothing, if it is nominated.
fn new_line<'a>(
    alloc: Global,
    plan: &Plan,
    line: LineId,
) -> Result<Option<SharedLine<'a>>, NoMemory>
    requires { line.0 < line_count plan.now }
    ensures { IfOk result (IsNewPlace plan.now line.0) }
{
    if !plan.nominated(InputId::Line(line)) {
        return Ok(None);
    }
    let made = Line::new(alloc, plan.delay(line))?;
    let _due = made.due();
    let own = SharedLine::new(alloc, made)?;
    Ok(Some(own))
}

/// All lines are up, and their ESMC is on.
fn new_signals(alloc: Global, plan: &Plan) -> Result<Vec<LineSignal>, NoMemory>
    ensures { IfOk result (λ signals.
        signals.items ≡ replicate (line_count plan.now) (record { up = true; esmc = true })) }
{
    let signal = LineSignal {
        up: true,
        esmc: true,
    };
    match vec![in alloc; signal; plan.lines() as usize] {
        Ok(signals) => Ok(signals),
        Err(_) => Err(NoMemory),
    }
}

/// The sources, by number.
fn new_sources(alloc: Global, plan: &Plan) -> Result<Vec<SourceSignal>, NoMemory>
    ensures { IfOk result (λ sources.
        AreEach (IsNewSource plan.now) (length plan.now.sources) sources.items) }
{
    let mut sources = Rows::with_capacity(alloc, plan.sources() as usize)?;
    for number in 0..plan.sources() {
        sources.push(new_source(plan, number))?;
    }
    Ok(sources.into_vec())
}

/// A source that was told nothing.
fn new_source(plan: &Plan, number: u32) -> SourceSignal
    requires { number < length plan.now.sources }
    ensures { IsNewSource plan.now number result }
{
    let level = plan.source(number).level;
    SourceSignal {
        up: true,
        said: level,
        level,
    }
}

/// Nothing is heard on any line.
fn no_levels(alloc: Global, plan: &Plan) -> Result<Vec<Option<Level>>, NoMemory>
    ensures { IfOk result (λ levels. levels.items ≡ replicate (line_count plan.now) None) }
{
    match vec![in alloc; None; plan.lines() as usize] {
        Ok(levels) => Ok(levels),
        Err(_) => Err(NoMemory),
    }
}

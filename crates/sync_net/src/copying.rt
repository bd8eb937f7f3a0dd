//! All that a network keeps, once more.

ghost use Rattle.std.specs.Prelude.{◌≡◌, IfOk};
ghost use Rattle.sync_net.specs.private.Copied.{AreSame};

use crate::parts::NetParts;
use crate::shared_element::SharedElement;
use crate::shared_line::SharedLine;
use crate::signals::{LineSignal, SourceSignal};
use net_words::Tellings;
use std::alloc::Global;
use sync_ql::Level;
use sync_ql::rules::InputEvent;
use sync_text::{NoMemory, Rows};

/// The same parts once more.
pub(crate) fn try_clone_parts<'b>(
    alloc: Global,
    parts: &NetParts<'_>,
) -> Result<NetParts<'b>, NoMemory>
    ensures { IfOk result (AreSame parts.now) }
{
    let elements = try_clone_elements(alloc, parts.elements.as_slice())?;
    let lines = try_clone_lines(alloc, parts.lines.as_slice())?;
    let copy = copy_others(alloc, parts, elements, lines)?;
    Ok(copy)
}

/// The same parts for another network, which has these elements and lines until it calls them.
pub(crate) fn share_parts<'b>(
    alloc: Global,
    parts: &'b NetParts<'_>,
) -> Result<NetParts<'b>, NoMemory>
    ensures { IfOk result (AreSame parts.now) }
{
    let elements = share_elements(alloc, parts.elements.as_slice())?;
    let lines = share_lines(alloc, parts.lines.as_slice())?;
    let shared = copy_others(alloc, parts, elements, lines)?;
    Ok(shared)
}

/// The same parts once more, over the same elements and lines.
fn copy_others<'b>(
    alloc: Global,
    parts: &NetParts<'_>,
    elements: Vec<SharedElement<'b>>,
    lines: Vec<Option<SharedLine<'b>>>,
) -> Result<NetParts<'b>, NoMemory>
    requires elements { elements.items ≡ parts.now.elements.items }
    requires lines { lines.items ≡ parts.now.lines.items }
    ensures { IfOk result (AreSame parts.now) }
{
    let signals = copy_signals(alloc, parts.signals.as_slice())?;
    let sources = copy_sources(alloc, parts.sources.as_slice())?;
    let heards = copy_levels(alloc, parts.heards.as_slice())?;
    let dues = parts.dues.try_clone(alloc)?;
    let changes = try_clone_told(alloc, parts.tellings.changes.as_slice())?;
    let active = parts.tellings.active.try_clone(alloc)?;
    let called = parts.called.try_clone(alloc)?;
    Ok(NetParts {
        next: parts.next,
        later_steps: parts.later_steps,
        elements,
        lines,
        signals,
        sources,
        heards,
        dues,
        tellings: Tellings { changes, active },
        called,
    })
}

fn share_elements<'b>(
    alloc: Global,
    elements: &'b [SharedElement<'_>],
) -> Result<Vec<SharedElement<'b>>, NoMemory>
    ensures { IfOk result (λ copies. copies.items ≡ elements.now) }
{
    let mut copies = Rows::with_capacity(alloc, elements.len())?;
    for element in elements {
        copies.push(element.share())?;
    }
    Ok(copies.into_vec())
}

fn share_lines<'b>(
    alloc: Global,
    lines: &'b [Option<SharedLine<'_>>],
) -> Result<Vec<Option<SharedLine<'b>>>, NoMemory>
    ensures { IfOk result (λ copies. copies.items ≡ lines.now) }
{
    let mut copies = Rows::with_capacity(alloc, lines.len())?;
    for line in lines {
        copies.push(share_line(line))?;
    }
    Ok(copies.into_vec())
}

fn share_line<'b>(line: &'b Option<SharedLine<'_>>) -> Option<SharedLine<'b>>
    ensures { result ≡ line.now }
{
    match line {
        Some(line) => Some(line.share()),
        None => None,
    }
}

fn try_clone_elements<'b>(
    alloc: Global,
    elements: &[SharedElement<'_>],
) -> Result<Vec<SharedElement<'b>>, NoMemory>
    ensures { IfOk result (λ copies. copies.items ≡ elements.now) }
{
    let mut copies = Rows::with_capacity(alloc, elements.len())?;
    for element in elements {
        copies.push(element.try_clone(alloc)?)?;
    }
    Ok(copies.into_vec())
}

fn try_clone_lines<'b>(
    alloc: Global,
    lines: &[Option<SharedLine<'_>>],
) -> Result<Vec<Option<SharedLine<'b>>>, NoMemory>
    ensures { IfOk result (λ copies. copies.items ≡ lines.now) }
{
    let mut copies = Rows::with_capacity(alloc, lines.len())?;
    for line in lines {
        copies.push(try_clone_line(alloc, line)?)?;
    }
    Ok(copies.into_vec())
}

pub(crate) fn try_clone_line<'b>(
    alloc: Global,
    line: &Option<SharedLine<'_>>,
) -> Result<Option<SharedLine<'b>>, NoMemory>
    ensures { IfOk result (λ copy. copy ≡ line.now) }
{
    match line {
        Some(line) => Ok(Some(line.try_clone(alloc)?)),
        None => Ok(None),
    }
}

fn try_clone_told(
    alloc: Global,
    changes: &[Rows<InputEvent>],
) -> Result<Vec<Rows<InputEvent>>, NoMemory>
    ensures { IfOk result (λ copies. copies.items ≡ changes.now) }
{
    let mut copies = Rows::with_capacity(alloc, changes.len())?;
    for told in changes {
        copies.push(told.try_clone(alloc)?)?;
    }
    Ok(copies.into_vec())
}

fn copy_signals(alloc: Global, signals: &[LineSignal]) -> Result<Vec<LineSignal>, NoMemory>
    ensures { IfOk result (λ copies. copies.items ≡ signals.now) }
{
    match Vec::from_slice(alloc, signals) {
        Ok(copies) => Ok(copies),
        Err(_) => Err(NoMemory),
    }
}

fn copy_sources(alloc: Global, sources: &[SourceSignal]) -> Result<Vec<SourceSignal>, NoMemory>
    ensures { IfOk result (λ copies. copies.items ≡ sources.now) }
{
    match Vec::from_slice(alloc, sources) {
        Ok(copies) => Ok(copies),
        Err(_) => Err(NoMemory),
    }
}

fn copy_levels(alloc: Global, levels: &[Option<Level>]) -> Result<Vec<Option<Level>>, NoMemory>
    ensures { IfOk result (λ copies. copies.items ≡ levels.now) }
{
    match Vec::from_slice(alloc, levels) {
        Ok(copies) => Ok(copies),
        Err(_) => Err(NoMemory),
    }
}

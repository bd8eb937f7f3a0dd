//! Following what is taken, from an element backwards.

ghost use Rattle.std.specs.Prelude.{◌≡◌, ◌<◌, ◌⊎◌, ℕ, true, false, List, length, replicate, IfOk};
ghost use Rattle.net_rules.specs.Walks.{IsTraceAfter};
ghost use Rattle.closed_walks.specs.Taking.{taken_in_list, AreTaken};
ghost use Rattle.sync_topo.specs.Lines.{numbers};
ghost use Rattle.closed_walks.specs.Traces.{end_of};
ghost use Rattle.closed_walks.specs.Following.{next_of, Follows, IsPassed, is_met, AreMet};

use crate::traced::End;
use std::alloc::Global;
use sync_text::{NoMemory, Rows};
use sync_topo::{InputId, LineId, Plan};

/// The lines that were followed, the element that they lead to, and the end there.
///
/// This project's own.
#[derive(Debug, Drop)]
pub struct Followed {
    /// The lines, in the order in which they were followed.
    pub lines: Rows<LineId>,
    /// The element that they lead to.
    pub last: u32,
    /// The end there.
    pub end: End,
}

/// What comes after an element: the line that it takes, or the end.
///
/// This project's own.
#[derive(Clone, Copy, Debug)]
pub enum Next {
    /// The line that it takes.
    On(LineId),
    /// The end.
    Over(End),
}

/// What comes after an element, by what it takes.
///
/// This project's own.
pub fn next_of(taken: Option<InputId>, element: u32) -> Next
    ensures { result ≡ next_of taken element }
{
    match taken {
        Some(InputId::Line(line)) => Next::On(line),
        Some(InputId::Source(source)) => Next::Over(End::Source(source)),
        None => Next::Over(End::OwnClock(element)),
    }
}

/// Follows what is taken from an element on, up to one that is marked, or that takes no line. Each
/// that is passed is marked.
///
/// `NoMemory` comes only when out of memory. This project's own.
pub fn follow(
    alloc: Global,
    plan: &Plan,
    taken: &[Option<InputId>],
    met: &mut [bool],
    from: u32,
) -> Result<Followed, NoMemory>
    requires taken { AreTaken plan.now taken.now }
    requires marks { length met.old ≡ length plan.now.elements }
    requires element { from < length plan.now.elements }
    ensures trace { IfOk result (λ way. (before : List ℕ) → AreMet met.old before →
        IsTraceAfter plan.now (taken_in_list taken.now) before from (numbers way.lines) (end_of way.end)) }
    ensures follows { IfOk result (λ way.
        Follows plan.now (taken_in_list taken.now) from (numbers way.lines) way.last) }
    ensures met { IfOk result (λ way. (k : ℕ) → is_met met.new k ≡ true →
        (is_met met.old k ≡ true) ⊎ IsPassed plan.now from (numbers way.lines) k) }
    ensures within { IfOk result (λ way. way.last < length plan.now.elements) }
{
    let mut lines = Rows::new(alloc);
    let mut at = from;
    while !met[at as usize] {
        match next_of(taken[at as usize], at) {
            Next::On(line) => {
                lines.push(line)?;
                met[at as usize] = true;
                at = plan.from(line);
            }
            Next::Over(end) => {
                return Ok(Followed {
                    lines,
                    last: at,
                    end,
                });
            }
        }
    }
    Ok(Followed {
        lines,
        last: at,
        end: End::Loop(at),
    })
}

/// So many elements, none of which is marked.
///
/// `NoMemory` comes only when out of memory. This project's own.
pub fn no_marks(alloc: Global, count: u32) -> Result<Vec<bool>, NoMemory>
    ensures { IfOk result (λ met. met.items ≡ replicate count false) }
{
    match vec![in alloc; false; count as usize] {
        Ok(met) => Ok(met),
        Err(_) => Err(NoMemory),
    }
}

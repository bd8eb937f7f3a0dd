//! Whence an element has its timing.

use sync_text::Rows;
use sync_topo::LineId;

/// Where a trace ends: at a source; at an element that takes nothing, which has its own clock; or,
/// where timing goes round, at the first element that is met again. Each by its number.
///
/// This project's own.
#[derive(Clone, Copy, Debug, PartialEq, Eq, Drop)]
pub enum End {
    /// A source.
    Source(u32),
    /// An element that takes nothing.
    OwnClock(u32),
    /// The first element that is met again.
    Loop(u32),
}

/// The trace of an element: the lines that are followed from it backwards, in this order, and the
/// end.
///
/// This project's own.
#[derive(Debug, Drop)]
pub struct Traced {
    /// The lines, the one into the element first.
    pub lines: Rows<LineId>,
    /// The end.
    pub end: End,
}

/// How the trace of an element ends: how many lines are followed, and the end.
///
/// This project's own.
#[derive(Clone, Copy, Debug, PartialEq, Eq, Drop)]
pub struct Ending {
    /// The number of lines.
    pub lines: u32,
    /// The end.
    pub end: End,
}

/// A closed walk: its lines, of which each begins where the one before ends, and the first where the
/// last ends.
///
/// This project's own.
pub type Walk = Rows<LineId>;

//! What may happen in a network.

use crate::input::{InputId, LineId};
use sync_ql::Level;
use sync_text::Rows;

/// What may go down and come up.
///
/// This project's own.
#[derive(Clone, Copy, Debug, PartialEq, Eq, Drop)]
pub enum Part {
    /// A link, by its number: both its lines.
    Link(u32),
    /// One line.
    Line(LineId),
    /// A source, by its number.
    Source(u32),
}

/// Something that happens at a millisecond.
///
/// This project's own.
#[derive(Clone, Copy, Debug, PartialEq, Eq, Drop)]
pub struct Event {
    /// The millisecond, from 0.
    pub at: u64,
    /// What happens.
    pub what: What,
}

/// What happens in one run alone, of many that have other events in common.
///
/// This project's own.
#[derive(Debug, Drop)]
pub struct Case {
    /// What happens, in order of time.
    pub events: Rows<Event>,
}

/// What happens.
#[derive(Clone, Copy, Debug, PartialEq, Eq, Drop)]
pub enum What {
    /// The signal of a link, a line or a source fails.
    Down(Part),
    /// It is back.
    Up(Part),
    /// A line sends no messages any more.
    EsmcOff(LineId),
    /// It sends messages again.
    EsmcOn(LineId),
    /// A source, by its number, has this level from now on.
    SourceLevel(u32, Level),
    /// The operator locks an input out. After G.781, lockout.
    Lockout(InputId),
    /// The operator ends a lockout. After G.781, clear lockout.
    Unlock(InputId),
    /// The operator forces an input. After G.781, forced switch.
    Forced(InputId),
    /// The operator switches to an input. After G.781, manual switch.
    Manual(InputId),
    /// The operator ends the forced and the manual switch of an element, by its number. After G.781,
    /// clear.
    Clear(u32),
    /// The operator ends an input's wait-to-restore time. After G.781, clear wait-to-restore.
    ClearWtr(InputId),
}

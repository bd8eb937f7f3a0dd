//! What a simulator notes, and what it answers.

use sync_ql::Level;
use sync_ql::rules::{ClockState, Mode};
use sync_topo::InputId;

/// What an element shows from a millisecond on, where that is something else than before it.
///
/// Modes, levels and states are after G.781 and G.810; that they are compared from one millisecond
/// to the next is this project's own.
#[derive(Clone, Copy, Debug, PartialEq, Eq, Drop)]
pub struct Change {
    /// The millisecond.
    pub at: u64,
    /// The element, by its number.
    pub element: u32,
    /// How its input is chosen.
    pub mode: Mode,
    /// The input that it takes, or `None` where it takes none.
    pub input: Option<InputId>,
    /// Its level.
    pub level: Level,
    /// What its clock follows.
    pub state: ClockState,
}

/// What a simulator watches. This project's own.
#[derive(Clone, Copy, Debug, PartialEq, Eq)]
pub enum Watch {
    /// Each element, for what it shows.
    Changes,
    /// Nothing: no change is noted.
    Nothing,
}

/// How far an advance came. This project's own.
#[derive(Clone, Copy, Debug, PartialEq, Eq)]
pub enum Reach {
    /// To its end.
    Until,
    /// To this millisecond, the last up to which all changes fit.
    Stopped(u64),
}

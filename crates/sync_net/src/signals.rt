//! What comes to lines and sources from outside, as told last.

use sync_ql::Level;

/// Whether a line is up, and whether its ESMC is on.
#[derive(Clone, Copy, Debug, PartialEq, Eq)]
pub struct LineSignal {
    pub up: bool,
    pub esmc: bool,
}

/// Whether a source is up, the level that was said of it last, and the level that it has: the one
/// said last while it is up, and while it is down the one that it had.
#[derive(Clone, Copy, Debug, PartialEq, Eq)]
pub struct SourceSignal {
    pub up: bool,
    pub said: Level,
    pub level: Level,
}

// What one line of a file says.

use sync_ql::Level;
use sync_topo::{LineId, What};

/// What comes to an element or happens there. This project's own.
#[derive(Clone, Copy, Debug, PartialEq, Eq, Drop)]
pub enum NodeWord {
    /// A frame comes on a line, with the level that its codes name, if they name one.
    Frame(LineId, Option<Level>),
    /// This happens.
    Happens(What),
}

/// A row of a file: what comes or happens, and the millisecond in which it does. This project's own.
#[derive(Clone, Copy, Debug, PartialEq, Eq, Drop)]
pub struct NodeRow {
    /// The millisecond, at most 86,400,000.
    pub at: u64,
    /// What comes or happens.
    pub word: NodeWord,
}

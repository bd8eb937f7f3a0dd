//! What a replay gives.

use sync_text::Text;

/// Where the text of an element's frames ends.
///
/// This project's own.
#[derive(Clone, Copy, Debug, PartialEq, Eq)]
pub enum NodeEnd {
    /// At the millisecond that was asked for.
    Until,
    /// At this one, since there would be more rows than the plan may have.
    Stopped(u64),
}

/// The frames that an element sends, a row for each, and where they end.
///
/// This project's own.
#[derive(Debug, Drop)]
pub struct Replayed {
    /// The rows `t,LINE,HEX`.
    pub text: Text,
    /// Where they end.
    pub end: NodeEnd,
}

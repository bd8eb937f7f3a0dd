// Whom a failure cuts off.

use reach_rules::Failure;

/// A failure after which some element is in reach of a clock and not served.
///
/// This project's own.
#[derive(Debug, Drop)]
pub struct Gap {
    /// The failure.
    pub failure: Failure,
    /// How many such elements there are, at least 1.
    pub elements: u32,
    /// The first of them, by its number.
    pub first: u32,
}

// What may fail in a network.

use crate::group::Group;

/// What one failure takes away: nothing; a link; all links of a bundle, which goes by its first
/// link; a source; an element with all its links and sources; or all parts of a group.
///
/// Each part goes by its number in the plan. A plan has failures of every kind but groups, which are
/// told beside it. This project's own.
#[derive(Debug, Drop)]
pub enum Failure {
    /// Nothing.
    Nothing,
    /// A link.
    Link(u32),
    /// All links of a bundle, by its first link.
    Bundle(u32),
    /// A source.
    Source(u32),
    /// An element, with all its links and all its sources.
    Element(u32),
    /// All parts of a group.
    Group(Group),
}

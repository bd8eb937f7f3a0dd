// What fails together.

use sync_text::{Rows, Text};

/// Parts that fail together, as the fibres of one duct or the antennas of one roof.
///
/// Each part goes by its number in the plan, and an element goes with all its links and all its
/// sources. The name plays no part in the laws. This project's own.
#[derive(Debug, Drop)]
pub struct Group {
    /// The name of the group.
    pub name: Text,
    /// Its links.
    pub links: Rows<u32>,
    /// Its sources.
    pub sources: Rows<u32>,
    /// Its elements.
    pub elements: Rows<u32>,
}

use sync_ql::Level;
use sync_text::Text;

/// A timing source at an element of a plan, as a station clock.
///
/// This project's own.
#[derive(Debug, Drop)]
pub struct Source {
    /// 1 to 32 of `A-Z a-z 0-9 _ -`, and no other source's and no link's.
    pub name: Text,
    /// The number of the element that it brings timing to.
    pub at: u32,
    /// The level that it has at first: a level of the plan's option.
    pub level: Level,
    /// The priority that the element gives it: 1 is the highest, 255 the lowest, and 0 is not
    /// nominated. After G.781, priority.
    pub priority: u8,
}

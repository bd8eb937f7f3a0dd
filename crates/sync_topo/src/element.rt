use sync_ql::Level;
use sync_text::Text;

/// A network element of a plan.
#[derive(Debug, Drop)]
pub struct Element {
    /// 1 to 32 of `A-Z a-z 0-9 _ -`, and no other element's.
    pub name: Text,
    /// The level of the element's own clock: a level of the plan's option, and not do-not-use.
    pub own: Level,
    /// The worst level that the element takes, if it has one: a level of the plan's option, and not
    /// do-not-use.
    ///
    /// This project's own.
    pub floor: Option<Level>,
    /// The hold-off time, 300 to 1,800 milliseconds. After G.781, hold-off time.
    pub holdoff: u32,
    /// The wait-to-restore time in milliseconds: 0 to 12 whole minutes. After G.781,
    /// wait-to-restore time.
    pub wtr: u32,
}

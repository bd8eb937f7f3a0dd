// Why a text gives no groups.

ghost use Rattle.std.specs.Prelude.{◌≡◌};
ghost use Rattle.group_file.specs.Refusal.{numbers_of};

use thiserror::Error;

/// The first rule that a text of groups breaks. Rows count from 1 after the header.
///
/// This project's own.
#[derive(Clone, Copy, Debug, PartialEq, Eq, Error)]
pub enum GroupErr {
    /// The first record isn't `group,kind,part`, or there is none.
    #[error("the first record isn't group,kind,part")]
    Header,
    /// The row hasn't three fields.
    #[error("row {0}: not three fields")]
    Fields(u64),
    /// The first field is no name.
    #[error("row {0}: no name of a group")]
    Name(u64),
    /// The group stood before, and the row before is of another one.
    #[error("row {0}: apart from the other rows of its group")]
    Apart(u64),
    /// The second field is none of the words `link`, `source` and `element`.
    #[error("row {0}: no kind of a part")]
    Kind(u64),
    /// The third field names nothing of the kind, or what an earlier row of the group has.
    #[error("row {0}: not a part of this kind, or one that the group has")]
    Part(u64),
    /// There are more rows than the plan may have: 100,000, or 5,000,000 where it is large.
    #[error("more rows than the plan may have")]
    Limit,
}

impl GroupErr {
    /// The numbers by which the refusal is printed: its own, which is that of events and cases for what
    /// is the same, and 53 for the kind, and then the row that is refused. `None` where it is none.
    ///
    /// This project's own.
    pub fn numbers(self) -> (u8, Option<u64>)
        ensures { result ≡ numbers_of self }
    {
        match self {
            GroupErr::Header => (26, None),
            GroupErr::Fields(row) => (27, Some(row)),
            GroupErr::Part(row) => (31, Some(row)),
            GroupErr::Limit => (33, None),
            GroupErr::Name(row) => (51, Some(row)),
            GroupErr::Apart(row) => (52, Some(row)),
            GroupErr::Kind(row) => (53, Some(row)),
        }
    }
}

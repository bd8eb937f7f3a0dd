// Why a text gives no events.

ghost use Rattle.std.specs.Prelude.{◌≡◌};
ghost use Rattle.event_file.specs.Refusal.{numbers_of};

use thiserror::Error;

/// The first rule that a text of events, or of cases, breaks. Rows count from 1 after the header.
///
/// This project's own.
#[derive(Clone, Copy, Debug, PartialEq, Eq, Error)]
pub enum EventErr {
    /// The first record isn't `at,what,target,value`, which begins with `case` for cases; or there is
    /// none.
    #[error("the first record isn't the header")]
    Header,
    /// The row hasn't as many fields as the header.
    #[error("row {0}: not as many fields as the header")]
    Fields(u64),
    /// The field for the time is no number, or one above 86,400,000.
    #[error("row {0}: no millisecond up to 86400000")]
    Time(u64),
    /// The row's time is before that of the row before, which for cases is one of the same case.
    #[error("row {0}: before the row before it")]
    Order(u64),
    /// The field for what happens is no word of the format.
    #[error("row {0}: no word for what happens")]
    What(u64),
    /// The field for the target is not the name of something that the word is said of.
    #[error("row {0}: not a target of this word")]
    Target(u64),
    /// The field for the value isn't empty; or, for `level`, it is no level of the plan's option.
    #[error("row {0}: not a value of this word")]
    Value(u64),
    /// There are more rows than the plan may have: 100,000, or 5,000,000 where it is large.
    #[error("more rows than the plan may have")]
    Limit,
    /// The field for the case is no name; or it is empty, as it is in rows that are common to all
    /// cases, after a row of a case.
    #[error("row {0}: no name of a case")]
    Name(u64),
    /// The case stood before, and the row before is of another one.
    #[error("row {0}: apart from the other rows of its case")]
    Apart(u64),
}

impl EventErr {
    /// The numbers by which the refusal is printed: its own, from 26 to 33, and 51 and 52 for cases
    /// alone, and then the row that is refused. `None` where it is none.
    ///
    /// This project's own.
    pub fn numbers(self) -> (u8, Option<u64>)
        ensures { result ≡ numbers_of self }
    {
        match self {
            EventErr::Header => (26, None),
            EventErr::Fields(row) => (27, Some(row)),
            EventErr::Time(row) => (28, Some(row)),
            EventErr::Order(row) => (29, Some(row)),
            EventErr::What(row) => (30, Some(row)),
            EventErr::Target(row) => (31, Some(row)),
            EventErr::Value(row) => (32, Some(row)),
            EventErr::Limit => (33, None),
            EventErr::Name(row) => (51, Some(row)),
            EventErr::Apart(row) => (52, Some(row)),
        }
    }
}

// Why a file gives no rows.

ghost use Rattle.std.specs.Prelude.{◌≡◌};
ghost use Rattle.node_file.specs.Refusal.{numbers_of};

use esmc_frame::FrameErr;
use thiserror::Error;

/// The first rule for a file of one element that its bytes break. Lines count from 1.
///
/// This project's own.
#[derive(Clone, Copy, Debug, PartialEq, Eq, Error)]
pub enum NodeErr {
    /// The line hasn't four fields, or has more than 4,096 bytes before its line feed.
    #[error("line {0}: not AT,WORD,TARGET,VALUE")]
    Fields(u64),
    /// The first field is no number, or one above 86,400,000.
    #[error("line {0}: no millisecond up to 86400000")]
    Time(u64),
    /// The line's time is before that of the last line that isn't empty.
    #[error("line {0}: before the line before it")]
    Order(u64),
    /// The second field is no word of the format.
    #[error("line {0}: no word for what comes or happens")]
    What(u64),
    /// The third field is not the name of something at the element that the word is said of.
    #[error("line {0}: not a target of this word at this element")]
    Target(u64),
    /// The fourth field is not a value of the word: no hexadecimal digits, no level, or not empty.
    #[error("line {0}: not a value of this word")]
    Value(u64),
    /// The octets of the fourth field are no ESMC frame.
    #[error("line {0}: {1}")]
    Frame(u64, FrameErr),
}

impl NodeErr {
    /// The numbers by which the refusal is printed: its own, from 43 to 49, then the line that is
    /// refused, and last that of what is wrong with a frame. `None` where that is none.
    ///
    /// This project's own.
    pub fn numbers(self) -> (u8, u64, Option<u8>)
        ensures { result ≡ numbers_of self }
    {
        match self {
            NodeErr::Fields(line) => (43, line, None),
            NodeErr::Time(line) => (44, line, None),
            NodeErr::Order(line) => (45, line, None),
            NodeErr::What(line) => (46, line, None),
            NodeErr::Target(line) => (47, line, None),
            NodeErr::Value(line) => (48, line, None),
            NodeErr::Frame(line, error) => (49, line, Some(error.number())),
        }
    }
}

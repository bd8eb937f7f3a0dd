//! Why lines give no text.

ghost use Rattle.std.specs.Prelude.{◌≡◌};
ghost use Rattle.capture_text.specs.Numbers.{numbers_of};

use esmc_frame::FrameErr;
use thiserror::Error;

/// The first line that is wrong, counted from 1 with the empty ones, and how.
///
/// This project's own.
#[derive(Clone, Copy, Debug, PartialEq, Eq, Error)]
pub enum CaptureErr {
    /// The line isn't an even number of hexadecimal digits.
    #[error("line {0}: not an even number of hexadecimal digits")]
    Hex(u64),
    /// The octets of the line are no frame.
    #[error("line {0}: {1}")]
    Frame(u64, FrameErr),
    /// The line is no row.
    #[error("line {0}: no row of three or seven fields")]
    Row(u64),
}

impl CaptureErr {
    /// The numbers by which the refusal is printed: its own, from 12 to 14, then the line that is
    /// refused, and last that of what is wrong with a frame. `None` where that is none.
    ///
    /// This project's own.
    pub fn numbers(self) -> (u8, u64, Option<u8>)
        ensures { result ≡ numbers_of self }
    {
        match self {
            CaptureErr::Hex(line) => (12, line, None),
            CaptureErr::Frame(line, error) => (13, line, Some(error.number())),
            CaptureErr::Row(line) => (14, line, None),
        }
    }
}

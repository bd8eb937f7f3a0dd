//! Captured frames as text: each frame a row that people read, each row a frame to send.
//!
//! [`decode_lines`] gives the rows of frames that stand as hexadecimal digits, one a line, and
//! [`encode_rows`] the frames of rows. Both answer the whole text or the first line that is wrong,
//! a [`CaptureErr`]. [`put_row`] and [`read_row`] are the same for one row. [`Lines`] takes lines
//! off one by one, and [`cut_at`] fields.
//!
//! Contracts see texts as lists of bytes: `lines_of` (the lines of some bytes), `fields_of` (the
//! fields of a line), `row_of` (the row of what a frame carries), `as_named` (what such a row is
//! read as), `IsRow` (a line is a row of this value), `decoded_text` and `encoded_text`
//! (the whole text, or the first refusal). [`Lines`] is seen as the lines that are left and the
//! number of the last that was taken.
//!
//! Only tested: the texts by which an error is printed, and that memory is found.
#![tactic(auto)]

mod capture;
mod cutting;
mod error;
mod line;
mod lines;
mod plain;
mod reading;
mod row;

pub use capture::{decode_lines, encode_rows};
pub use cutting::cut_at;
pub use error::CaptureErr;
pub use lines::Lines;
pub use reading::read_row;
pub use row::put_row;

//! Files that say what one network element received: captured frames, and what was told of its lines,
//! sources and switches, as lines of four comma-separated fields.
//!
//! A [`NodeLines`] takes the bytes of such a file in pieces of any size, and gives the rows of the lines
//! that have ended, or the first rule that one breaks, a [`NodeErr`]. How the bytes are cut into pieces
//! doesn't matter. Contracts see `rows_of` (the rows of a file, or its first refusal), `rows_so_far` (the
//! same of a file that may go on) and `row_of_line` (what one line says).
//!
//! Only tested: the texts by which an error is printed, and that memory is found.
#![tactic(auto)]

mod error;
mod lines;
mod reading;
mod row;
mod topic;

pub use error::NodeErr;
pub use lines::NodeLines;
pub use row::{NodeRow, NodeWord};

//! Group files: what fails together, as rows of comma-separated fields that people write in a
//! spreadsheet.
//!
//! [`read_groups`] gives the groups of some bytes over a plan, or the first rule that they break, a
//! [`GroupErr`]. Contracts see `groups_of` (the groups, or the first refusal), `part_in` (the part that a
//! row names) and `refusal_at` (the rule that the row at a place breaks). The rows of a group stand
//! together, as those of a case do in a case file. Rows are read one after another, and what is kept is
//! their parts alone.
//!
//! Only tested: the texts by which an error is printed, that memory is found, and that whole files
//! from outside give what one expects of `csv`.
#![tactic(auto)]

mod error;
mod kind;
mod parts;
mod progress;
mod reading;

pub use error::GroupErr;
pub use kind::Kind;
pub use reading::read_groups;

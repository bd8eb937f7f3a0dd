//! Event files: the faults and operator commands that a simulation is given, as rows of
//! comma-separated fields that people write in a spreadsheet; and case files, of events of many runs.
//!
//! [`read_events`] gives the events of some bytes over a plan, or the first rule that they break, an
//! [`EventErr`]. Contracts see `events_of` (the events, or the first refusal), `event_in` (the event
//! of a row) and `refusal_at` (the rule that the row at a place breaks). [`read_cases`] gives [`Cases`],
//! which have a name and events each, and events in common; contracts see `cases_of`, `rows_of` (the
//! rows of a case, as rows of an event file) and `case_refusal_at`. Rows are read one after another,
//! and what is kept is their events and the names of cases alone. [`Word`] and [`WordTarget`] are the words
//! of a row, for other files that have the same.
//!
//! Only tested: the texts by which an error is printed, that memory is found, and that whole files
//! from outside give what one expects of `csv`.
#![tactic(auto)]

mod case_file;
mod error;
mod progress;
mod reading;
mod row;
mod word;

pub use case_file::{Cases, read_cases};
pub use error::EventErr;
pub use reading::read_events;
pub use row::time_of;
pub use word::{Word, WordTarget};

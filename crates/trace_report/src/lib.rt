//! The report of a run, as text.
//!
//! [`report`] writes what a simulator has noted and how its network stands: all changes, each a row,
//! the conditions of all inputs, whence each element has its timing, which loops stand, and whether
//! the network is settled. Its text is one of `IsReportText`, over the rules' history of the plan and
//! all events, and [`one_report_law`] says that there is one. [`put_change`] and [`put_settled`]
//! write a row and the last line alone, and [`put_condition`] an input in a condition;
//! [`passed_until`] and [`later`] tell conditions after an element's last step. This project's own.
#![tactic(auto)]

mod changes;
mod conditions;
mod inputs;
mod last_parts;
mod laws;
mod words;
mod writing;

pub use changes::put_change;
pub use conditions::{later, passed_until};
pub use inputs::put_condition;
pub use last_parts::put_settled;
pub use laws::one_report_law;
pub use writing::report;

//! The program as one call: [`run`] takes the words of the command line, a folder and a sink, and
//! gives the exit status.
//!
//! `IsAnswer` says which status and text the words have over which files; `Delivers` that it was
//! written, and `IsCut` what a write fault leaves. Which words are a form is `form_of`. That there
//! is one answer, to all words but `protect`, is [`one_answer_law`], and that what `rank` writes is
//! accepted [`planned_is_accepted_law`]. That `protected` with no group answers as without is
//! [`no_groups_law`]. No clause says that memory is found; docs/verify/promises.md tells what shows it.
#![tactic(auto)]

mod captures;
mod check;
mod form;
mod found;
mod input;
mod ladder;
mod laws;
mod node;
mod plan_input;
mod plans;
mod program;
mod protecting;
mod reply;
mod sim;
mod status;
mod studying;
mod trial;
mod works;
mod written;

pub use laws::{no_groups_law, one_answer_law, planned_is_accepted_law};
pub use program::run;
pub use status::Status;

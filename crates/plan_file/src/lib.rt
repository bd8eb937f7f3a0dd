//! Plan files: the plan of a TOML document.
//!
//! [`read_plan`] gives the plan of a file's bytes. Which plan that is, or at which place the file is
//! first refused, is `plan_of_size`: from the document that `toml` reads to rows, and from rows to the
//! plan that sync_topo gives them. The rows of a plain text come from its lines, with no document between
//! (plan_lines), and of any other from its document (plan_rows). [`write_plan`] gives a text of a plan,
//! one that is read as that plan (`IsPlanText`).
//!
//! That whole files from outside give the plans that one expects is tested.
#![tactic(auto)]

mod reading;
mod writing;

pub use plan_rows::PlanFileErr;
pub use reading::read_plan;
pub use writing::{put_element, put_link, put_option, put_source, write_plan};

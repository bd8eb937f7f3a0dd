//! Networks of elements that choose by priority alone, where nothing tells an element not to take back
//! its own timing.
//!
//! Quality levels keep two elements from taking timing from each other for long; without them what an
//! element takes may go back over the very link from which it came, and there a timing loop stands for
//! ever. [`prio_check`] tests that ranks rise over every hop, returns included: then no loop can form,
//! whatever happens. [`prio_plan`] gives the least such ranks, or a loop that forced switches make,
//! [`write_forced`] the event file of these switches, and [`prio_sim`] the report of a run.
//!
//! An element that chooses by priority alone hears nothing of others: it is told whether its inputs are
//! up, and its commands. Which input is taken is the choice of one element (`sync_ql`), over inputs that
//! all have one level. [`hop_any`] is a hop with returns, and [`one_report_law`] says that there is one
//! report.
//!
//! After ITU-T G.781, selection by priority, external commands, hold-off and wait-to-restore times.
//!
//! The tests are worked plans and runs.
#![tactic(auto)]

mod checking;
mod forced;
mod laws;
mod loops;
mod planning;
mod rows;
mod running;
mod shown;
mod simulating;
mod starting;
mod stepping;

pub use checking::{hop_any, prio_check};
pub use forced::write_forced;
pub use laws::one_report_law;
pub use planning::{PrioRanked, prio_plan};
pub use simulating::prio_sim;

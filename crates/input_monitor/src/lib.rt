//! Whether an input is good, in hold-off, failed or restoring, and when that ends.
//!
//! A [`Monitor`] watches one input. It is told only when something happens, and keeps no list of
//! the past: the condition at the last step, and when that was. Contracts see it as a record
//! (`Monitored`) and say for which past it stands (`StandsFor`): each step makes that past longer,
//! and each answer is what the rules say of it. Nothing takes memory.
//!
//! After ITU-T G.781, hold-off time and wait-to-restore time. The exact milliseconds are this
//! project's own. The tests go through histories whose conditions and times are written by hand.
#![tactic(auto)]

mod monitor;

pub use monitor::Monitor;
pub use sync_ql::rules::Cond;

//! The rules of a network over time, and the laws that follow from them.
//!
//! The rules are definitions in `specs/`, over a plan and a list of events: what comes from outside
//! (`Signals`), what each line carries and what each element takes and gives (`History`), closed walks,
//! facing pairs and traces (`Walks`), settled milliseconds (`Settled`), plans in which no timing loop
//! can form (`Safety`), in which milliseconds something happens and where (`Activity`), from when on a
//! network is settled (`Settling`), and from when on where it has only lost parts (`Losing`). Those of
//! one line and one element are `sync_ql`'s, over their pasts.
//!
//! The laws are the contracts of functions that do nothing: [`closed_walk_law`], [`walk_back_law`],
//! [`trace_law`] and [`taken_law`] over what is taken in one millisecond; [`history_law`], [`order_law`]
//! and [`heard_law`] on the one history that obeys the rules; [`facing_pair_law`], [`rising_law`],
//! [`settled_law`] and [`event_law`] on timing loops and settled milliseconds. They hold no simulator:
//! the crates that run a network, and the test of ranks, cite them.
//!
//! After ITU-T G.781, selection, external commands and do not use, and ITU-T G.8264, ESMC messages;
//! whole milliseconds, events, walks and settled milliseconds are this project's own.
#![tactic(auto)]

mod history;
mod timing;
mod walks;

pub use history::{heard_law, history_law, order_law};
pub use timing::{event_law, facing_pair_law, rising_law, settled_law};
pub use walks::{closed_walk_law, taken_law, trace_law, walk_back_law};

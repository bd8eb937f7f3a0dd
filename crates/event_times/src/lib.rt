//! When events come: the milliseconds in which something happens, each with its events, and the
//! events up to a millisecond.
//!
//! A run in time goes from one such millisecond to the next, and passes over the others
//! ([`Moments`]). It is cut at its end by [`events_until`]. Contracts see lists of
//! events of a plan by the milliseconds in which these stand (`EventTimes`): events that stand within
//! two milliseconds (`AreWithin`), and those that, of all events, are told up to one (`AreTold`) or
//! stand at one (`AreHere`).
//!
//! This project's own. Runs are tested above, where they are.
#![tactic(auto)]

mod events;
mod moments;

pub use events::events_until;
pub use moments::Moments;

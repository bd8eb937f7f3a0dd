//! The network: elements and lines together, step by step.
//!
//! A [`Net`] is made of a plan, and told the events of one millisecond after another; between two
//! steps nothing happens. Whatever the plan and the events are, it stands for them after each step,
//! and up to but not at its due time: each element gives the selection, level, mode, state and
//! conditions of the rules, and each nominated line the level that is heard on it.
//!
//! | who asks | what |
//! |---|---|
//! | the one who makes a run | [`Net::new`], [`Net::step`], [`Net::due`] |
//! | who reads the state | [`Net::element`], [`Net::line`], [`Net::evaluated`], [`Net::called`] |
//! | who goes on from one network in several ways | [`Net::share`], [`Net::try_clone`], [`Net::return_to`] |
//! | who proves something of a run | [`elements_law`], [`later_events_law`], [`gap_law`] |
//!
//! A step costs by what is active in it: it calls only the elements that an event touches, into
//! which another level is heard, or that are due, and only the lines that an event switches, that
//! are due, or whose sender makes a step. In a millisecond first the events come in, then the
//! messages arrive, then the elements evaluate, and then the lines send.
#![tactic(auto)]

mod calls;
mod copying;
mod evaluating;
mod events;
mod hearing;
mod laws;
mod marking;
mod net;
mod outside;
mod parts;
mod returning;
mod sending;
mod shared_element;
mod shared_line;
mod signals;
mod source_levels;
mod starting;
mod stepping;

pub use laws::{elements_law, gap_law, later_events_law};
pub use net::Net;
pub use source_levels::named_source;

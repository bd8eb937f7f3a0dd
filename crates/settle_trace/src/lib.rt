//! Whether a network is settled, whence its elements have their timing, and which loops stand.
//!
//! | who asks | what |
//! |---|---|
//! | whether anything would still change | [`settled`] |
//! | what an element takes | [`taken_input`], and all elements [`taken_inputs`] |
//! | whence an element has its timing | [`trace`], and of all elements [`traces`] |
//! | which loops stand | [`loops`] |
//!
//! After ITU-T G.781 and G.803, that timing must not go round; settled milliseconds, traces and
//! closed walks are this project's own.
#![tactic(auto)]

mod lines;
mod settling;
mod taken;
mod tracing;

pub use closed_walks::{End, Ending, Traced, Walk};
pub use settling::settled;
pub use taken::{taken_input, taken_inputs};
pub use tracing::{loops, trace, traces};

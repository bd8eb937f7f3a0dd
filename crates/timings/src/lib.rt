//! Whence the elements of a plan have their timing, counted, by what each takes in one millisecond.
//!
//! [`Timings`] tells it of one millisecond after another in memory that serves again, and knows no
//! network: how many elements have no timing from a source, the first of these, and the longest trace that
//! ends (`IsTiming`). It goes along an order in which most elements come behind those that they take their
//! timing from (`ends`), and follows each trace where that doesn't tell it.
//!
//! This project's own. The tests are those of the crates above.
#![tactic(auto)]

mod counted;
mod ends;
mod finding;

pub use counted::Timing;
pub use finding::Timings;

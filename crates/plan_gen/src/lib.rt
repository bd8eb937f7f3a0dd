//! Plans to try things on: the ladder of 2 to 100,000 elements.
//!
//! [`generate`] gives the ladder, and [`write_ladder`] a text of it. Which plan that is, `ladder` says by its
//! elements, its links and its sources.
//!
//! This crate has no tests; sync_top tests that memory is found, and that a written ladder is read
//! back.
#![tactic(auto)]

mod ladder;
mod rows;
mod text;

pub use ladder::generate;
pub use text::write_ladder;

//! The texts of what is found of plans: rows of hop counts, of chains and of failures, lines on lines,
//! and bounds.
//!
//! Contracts see each as a list of bytes, by definitions of the same names: [`hops_text`],
//! [`chains_text`], [`gaps_text`], [`lines_text`] with [`cycle_text`] and [`falls_text`], and
//! [`agreed_text`]. A new column of one of these reports is made here.
#![tactic(auto)]

mod bounds;
mod chains;
mod gaps;
mod hops;
mod lines;

pub use bounds::agreed_text;
pub use chains::chains_text;
pub use gaps::gaps_text;
pub use hops::hops_text;
pub use lines::{cycle_text, falls_text, line_text, lines_text};

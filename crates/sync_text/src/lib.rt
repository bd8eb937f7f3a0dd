//! Texts and lists, numbers, and counts of steps: what every crate above stands on.
//!
//! - [`Text`] and [`Rows`] grow at their end; contracts see each as a list. When out of memory
//!   they answer [`NoMemory`], and stay as they were.
//! - [`read_number`] reads the one form of number that all texts of the program have (`number_of`).
//! - [`Steps`] counts the steps of a work for contracts alone, at no cost.
#![tactic(auto)]

mod crossing;
mod errors;
mod lists;
mod numbers;
mod short;
mod steps;

pub use errors::{NoAnswer, NoMemory};
pub use lists::{Rows, Text};
pub use numbers::read_number;
pub use steps::Steps;

//! Why each element takes what it takes, in one millisecond: as text.
//!
//! [`inspect`] runs a network to a millisecond and writes what it finds there, in three parts: each
//! command with whether it was taken or rejected, each element with what it chose, and each input
//! with what it gives and why it is taken or isn't (an [`InputVerdict`]). Its text is one function of the
//! plan, all events and the millisecond (`inspection`), by the rules' history, so there is one.
//! [`eligible_law`] says that an input may be taken exactly where its verdict is that it is taken
//! or in reserve.
//!
//! After ITU-T G.781, external commands, signal fail, quality level and selection; the order of the
//! verdicts and the text are this project's own.
#![tactic(auto)]

mod asked;
mod commands;
mod elements;
mod inputs;
mod inspecting;
mod laws;
mod tables;
mod verdicts;

pub use inspecting::inspect;
pub use laws::eligible_law;
pub use verdicts::InputVerdict;

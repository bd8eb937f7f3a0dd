//! Failures: what becomes of a network in some cases, and where one link alone fails, for each link.
//!
//! [`study`] works cases in chunks that run at once where there are processors, and [`study_text`]
//! writes its rows as a table. [`sweep`] works the failure of each link as a case, and [`sweep_text`]
//! writes its rows. Up to the first event that a case has for itself the run of every case is the same:
//! it is made once. In each chunk one network goes on from there, which copies only what it calls; its
//! cases run on it one after another, and it goes back after each (`branch`). The row of a case is
//! `IsStudyRow`, and that of a link `IsSweepRow`, whichever chunk it is worked in; that there is one
//! such table is [`one_study_law`] and [`one_sweep_law`]. [`Gate`] lets a test see that chunks run at
//! once.
//!
//! This project's own.
#![tactic(auto)]

mod branch;
mod cases;
mod chunks;
mod common;
mod counted_levels;
mod counted_states;
mod counting;
mod crossing;
mod gate;
mod laws;
mod on_way;
mod outcomes;
mod row;
mod running;
mod shown;
mod spells;
mod study_table;
mod studying;
mod sweeping;
mod table;
mod timed;
mod timer;
mod touched;
mod working;

pub use gate::{FreeGate, Gate};
pub use laws::{one_study_law, one_sweep_law};
pub use on_way::OnWay;
pub use outcomes::Outcome;
pub use row::SweepRow;
pub use study_table::study_text;
pub use studying::{StudyRow, study};
pub use sweeping::sweep;
pub use table::sweep_text;
pub use timings::Timing;

//! Quality levels and the rules of one element: which level a code or a name stands for, which of
//! two levels is better, when an input is failed, and which input an element takes.
//!
//! A [`Level`] is always a row of its option's table, so no function here has to refuse one.
//! Contracts see each option's table as a list of rows, best first (`levels_of`), and read what is
//! said of a level off its row (`place_of`, `code_of`, `enhanced_of`, `name_of`). Nothing takes memory.
//!
//! The rules of one element over time are definitions here too, for the crates that simulate it:
//! what holds at a millisecond is read off the list of the milliseconds until then, the newest
//! first (`failed_at`, `condition_at`, `switches_at`, `selection_at`, `clock_level_at`,
//! `sent_back_at`, `mode_at`, `state_at`), and a millisecond by what is told in it (`moment_after`).
//! The module [`rules`] has the types in which they ask and answer, [`limits`] the ranges of times and
//! inputs, and [`laws`] what follows.
//!
//! So are the rules of one line: what it says, which messages go out, what arrives and what is heard
//! (`said`, `is_sent`, `came`, `heard_at`).
//!
//! After ITU-T G.781, quality levels and SSM codes of network options I and II, hold-off and
//! wait-to-restore times, external commands and selection; the idea of enhanced codes after ITU-T
//! G.8264. The place of QL-PROV, the enhanced levels, their places and their codes are this project's
//! own. That the table has these values is tested.
#![tactic(auto)]

mod crossing;
pub mod laws;
mod levels;
pub mod limits;
mod rows;
pub mod rules;
mod table;

pub use levels::{Level, NetOption};
pub use rows::NOT_ENHANCED;
pub use table::{
    better, code_of, do_not_use, enhanced_of, is_dnu, is_same_heard, is_same_level, level_of_code,
    level_of_codes, level_of_name, name_of,
};

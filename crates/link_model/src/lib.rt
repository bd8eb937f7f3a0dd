//! One delayed line: what it carries from one element to the next, and what is heard at its end.
//!
//! A [`Line`] is told what it says, and whether it is up and its ESMC is on, a millisecond at a
//! time and only where something changes or is due. It keeps the word that arrived last and the
//! words on their way; the messages that repeat a word each second are computed, and not kept.
//! Contracts see it as a record (`LineState`) and say for which past it stands (`StandsFor`):
//! each call makes that past longer, and each answer is what the rules say of it. Only
//! [`Line::try_clone`] and [`Line::say`] take memory, where more than two words are on their way.
//! These are at most one for each millisecond of the delay (`few` of [`Line::on_way`]); within `say`
//! there is for a moment room for one more.
//!
//! After ITU-T G.8264: event messages, information messages each second, and a level that is lost
//! after five seconds. Whole milliseconds and one delay for each line are this project's own.
#![tactic(auto)]

mod laws;
mod line;
mod word;
mod words;

pub use laws::{calls_law, news_law};
pub use line::Line;
pub use word::Word;

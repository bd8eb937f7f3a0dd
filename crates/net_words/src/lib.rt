//! What the elements of a plan are told, and the elements that were told nothing.
//!
//! [`new_elements`] makes the elements of a plan by what they choose by ([`Chooses`]): by level, or by
//! priority alone. [`Tellings`] keeps what each is told in a millisecond and which are told something;
//! [`tell_events`] tells the elements of inputs what events say of these, in the words of one element
//! (`sync_ql`), and [`tell_input`] one [`Saying`] of one input. [`input_at`] is the input of the plan
//! at a place of an element, [`taken_of`] the one that it takes, and [`step_alone`] a step of it that nobody counts.
//!
//! A network, a run by priority alone and the replay of one element stand on it.
#![tactic(auto)]

mod elements;
mod event_words;
mod input_words;
mod places;
mod taken;
mod tellings;

pub use elements::{Chooses, new_element, new_elements};
pub use event_words::{tell_events, tell_input};
pub use input_words::{Saying, said_as};
pub use places::{InputPlace, input_place};
pub use taken::{input_at, step_alone, taken_of};
pub use tellings::{Tellings, new_tellings};

//! What an element shows, compared and as words: how its input is chosen, which it takes, and what its
//! clock follows.
//!
//! Contracts say of two modes, states or taken inputs that they are the same (`Sameness`), and which text
//! stands for them in the rows of changes (`Words`): [`put_choice`] writes what an element chose,
//! [`put_taken`] an input or none, and [`state_column`] is a state at the end of a row. The crates that
//! run elements, and those that report on them, share these.
//!
//! After ITU-T G.781, selection modes and clock states; the words are this project's own. They are tested
//! where reports are.
#![tactic(auto)]

mod sameness;
mod words;

pub use sameness::{is_same_mode, is_same_state, is_same_taken};
pub use words::{put_choice, put_taken, state_column};

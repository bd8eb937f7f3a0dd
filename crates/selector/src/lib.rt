//! Which of an element's inputs is taken.
//!
//! [`choose`] looks at one [`Candidate`] for each input, at the operator's forced or manual switch,
//! and at the input taken so far. Contracts say which input that is by `choice`, and in facts: the
//! one taken may be taken, and no input that may be taken beats it (`IsBestChoice`). It is one pass
//! over at most 64 inputs, and takes no memory. A [`Table`] keeps the candidates, four of them in
//! place; contracts see it as their list.
//!
//! After ITU-T G.781, selection by quality level and priority. That the one taken so far stays on a
//! tie is of the standard; that the least place is taken else is this project's own. The tests go
//! through ties, switches and levels, with choices written by hand.
#![tactic(auto)]

mod best;
mod choice;
mod table;

pub use choice::{Choice, choose};
pub use sync_ql::rules::Candidate;
pub use table::Table;

//! Whence elements have their timing, and which closed walks stand, by what each takes in one
//! millisecond.
//!
//! | who asks | what |
//! |---|---|
//! | whence an element has its timing | [`follow`] |
//! | how the traces of all elements end | [`endings_of`], and again and again [`find_endings`] |
//! | which closed walks stand | [`walks_of`], and as text [`put_walks`] |
//!
//! Each is told what the elements of a plan take, as a list by the number of the element
//! (`Taking`), and knows no network: those that run one, by whatever rules, share it. Contracts say
//! of a trace that it is one of net_rules' (`Traces`), and of the closed walks that they are all,
//! each once (`Loops`); their rows are `WalkText`'s.
//!
//! After ITU-T G.781 and G.803, that timing must not go round; traces and closed walks are this
//! project's own. The tests are those of the crates above.
#![tactic(auto)]

mod endings;
mod following;
mod listing;
mod traced;
mod walk_text;

pub use endings::{endings_of, find_endings};
pub use following::{Followed, Next, follow, next_of, no_marks};
pub use listing::walks_of;
pub use traced::{End, Ending, Traced, Walk};
pub use walk_text::put_walks;

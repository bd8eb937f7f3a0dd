//! The rules of one element that is replayed on what it received, and the laws that follow from them.
//!
//! The rules are definitions in `specs/`, over a plan, one of its elements and the rows of a file: what
//! is heard, what the element takes and gives and when it sends (`Replay`), and its frames as text
//! (`NodeText`). What a network brings to one element stands in `FromNetwork`, the same as rows in
//! `Brought`, and the text of the frames that the element sends there in `SentFrames`. The rules of the
//! network are `net_rules`'s.
//!
//! The laws are the contracts of functions that do nothing: [`replay_law`], that an element does over the
//! rows of its network what it does there; [`text_law`], that the text of its frames is that of the
//! network; and [`file_law`], that there is such a file for each element, which the format admits.
//!
//! This project's own; levels, messages and selection are after ITU-T G.781 and G.8264.
#![tactic(auto)]

mod law;

pub use law::{file_law, replay_law, text_law};

//! One network element, replayed on what it received: the frames that the rules have it send.
//!
//! A [`Node`] is made of a plan and one of its elements, and is fed the bytes of a file of its past in
//! pieces; a [`Replay`] takes the rows of such a file, one after another: the frames that came on lines
//! into it, and what happened to its lines, its sources and its switches. What is heard is by the frames
//! alone, each for five seconds; all else is by the rules of a network's element. Either gives a text with
//! a row for each frame that the element sends; [`replay`] does so for a whole file.
//!
//! | contracts speak of | in specs/ |
//! |---|---|
//! | the element by the rules, over rows, and its frames as text | node_rules' `Replay`, `NodeText` |
//! | the text of some rows, and where it stops | `Replayed` ([`one_text_law`], [`until_law`]) |
//! | the text of some bytes | `Sent` |
//! | a replay, and the rows for which it stands | `ReplayState` (`StandsFor`) |
//! | a node, and the bytes that it was fed | `NodeState` (`WasFed`) |
//!
//! It keeps no list of the rows. Milliseconds in which nothing comes, nothing is due, no level is lost
//! and no second begins are passed over; in any other the element is told of all its inputs. The frames
//! are after ITU-T G.8264, the rules after G.781; rows and texts are this project's own.
#![tactic(auto)]

mod frames;
mod inputs;
mod last_rows;
mod laws;
mod lines_out;
mod node;
mod parts;
mod replayed;
mod replaying;
mod running;
mod shown;
mod starting;
mod told;

pub use laws::{one_text_law, until_law};
pub use node::{Node, replay};
pub use replayed::{NodeEnd, Replayed};
pub use replaying::Replay;

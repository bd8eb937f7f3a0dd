//! ESMC frames (ITU-T G.8264): octets read to the value that they carry, and a value written to
//! octets.
//!
//! A frame carries a [`Pdu`]: who sends it, whether it is an event message, the four-bit SSM code,
//! and an extended QL TLV if it has one ([`Extended`]). [`decode`] refuses with the first part that
//! is wrong, a [`FrameErr`]; [`encode`] writes the one frame of 60 octets, which `decode` reads
//! back. No call takes memory.
//!
//! Contracts see a frame as the list of its octets: `Spells` (the octets carry this value),
//! `first_wrong` (the first part that is wrong), `reading_of` (what a reader answers) and
//! `written_frame` (what a writer sends).
//!
//! Only tested: the texts by which an error is printed.
#![tactic(auto)]

mod error;
mod frame;
mod parts;

pub use error::FrameErr;
pub use frame::{Extended, Pdu, decode, encode};
pub use parts::{FRAME, GREATEST_FRAME};

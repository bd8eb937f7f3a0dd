//! Classic pcap captures of ESMC frames, read and written without another program in between.
//!
//! [`read_pcap`] gives the packets of a capture, each a [`Packet`] with its time and its place, or
//! the first thing that is wrong, a [`PcapErr`]. [`put_head`] and [`put_packet`] write a capture.
//! [`decode_pcap`] gives the rows of the ESMC frames in a capture, and [`encode_pcap`] the capture
//! of rows. Packets are never copied: their places and lengths are kept.
//!
//! Contracts see bytes as lists: `packets_of` (the packets of a capture, or the first refusal),
//! `octets_of` (the octets of a packet), `IsLittleCapture` (a little-endian capture of these
//! packets), `written_head` and `written_record` (what a writer puts), `decoded_pcap` and
//! `encoded_pcap` (the whole text, or the first refusal).
//!
//! Only tested: the texts by which an error is printed, and that memory is found.
#![tactic(auto)]

mod decoding;
mod encoding;
mod error;
mod reading;
mod writing;

pub use decoding::decode_pcap;
pub use encoding::encode_pcap;
pub use error::PcapErr;
pub use reading::{Packet, read_pcap};
pub use writing::{put_head, put_packet};

//! Why bytes are no capture.

ghost use Rattle.std.specs.Prelude.{◌≡◌};
ghost use Rattle.pcap_file.specs.Refusal.{numbers_of};

use thiserror::Error;

/// The first thing that is wrong with the bytes of a capture.
///
/// This project's own.
#[derive(Clone, Copy, Debug, PartialEq, Eq, Error)]
pub enum PcapErr {
    /// There are fewer than 24 octets, or the first eight begin no classic pcap file of version
    /// 2.4.
    #[error("no header of a classic pcap file")]
    Header,
    /// The link type isn't 1, that of Ethernet.
    #[error("the link type isn't 1, Ethernet")]
    Link,
    /// The record isn't whole. Records count from 1.
    #[error("record {0} isn't whole")]
    Record(u64),
}

impl PcapErr {
    /// The numbers by which the refusal is printed: its own, from 40 to 42, and then the record that is
    /// refused. `None` where it is none.
    ///
    /// This project's own.
    pub fn numbers(self) -> (u8, Option<u64>)
        ensures { result ≡ numbers_of self }
    {
        match self {
            PcapErr::Header => (40, None),
            PcapErr::Link => (41, None),
            PcapErr::Record(number) => (42, Some(number)),
        }
    }
}

//! Why octets are no ESMC frame.

ghost use Rattle.std.specs.Prelude.{◌≡◌};
ghost use Rattle.esmc_frame.specs.Numbers.{number_of};

use thiserror::Error;

/// The first part of a frame that isn't as it has to be, in the order of the parts.
///
/// After G.8264, ESMC PDU format.
#[derive(Clone, Copy, Debug, PartialEq, Eq, Error)]
pub enum FrameErr {
    /// The frame has fewer than 60 octets or more than 1514.
    #[error("a frame has 60 to 1514 octets")]
    Length,
    /// The destination isn't the slow protocols' multicast address.
    #[error("the destination isn't 01-80-c2-00-00-02")]
    Destination,
    /// The Ethertype isn't that of the slow protocols.
    #[error("the Ethertype isn't 8809")]
    Ethertype,
    /// The slow protocol subtype isn't that of the organization specific slow protocol.
    #[error("the slow protocol subtype isn't 0a")]
    Subtype,
    /// The organization isn't the ITU.
    #[error("the OUI isn't 00-19-a7, the ITU's")]
    Oui,
    /// The ITU subtype isn't that of the ESMC.
    #[error("the ITU subtype isn't 0001, the ESMC's")]
    ItuSubtype,
    /// The version isn't 1.
    #[error("the version isn't 1")]
    Version,
    /// The first TLV isn't a QL TLV of 4 octets.
    #[error("the first TLV isn't a QL TLV of 4 octets")]
    Tlv,
}

impl FrameErr {
    /// The number by which the refusal is printed, from 4 to 11.
    ///
    /// This project's own.
    pub fn number(self) -> u8
        ensures { result ≡ number_of self }
    {
        match self {
            FrameErr::Length => 4,
            FrameErr::Destination => 5,
            FrameErr::Ethertype => 6,
            FrameErr::Subtype => 7,
            FrameErr::Oui => 8,
            FrameErr::ItuSubtype => 9,
            FrameErr::Version => 10,
            FrameErr::Tlv => 11,
        }
    }
}

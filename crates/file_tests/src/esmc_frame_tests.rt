//! The texts of refusals, which no form prints.

use esmc_frame::FrameErr;
use std::test::Fail;
use test_makers::is_printed_as;

#[test]
fn frame_refusals_are_printed(rt: HostRuntime) -> Result<(), Fail> {
    for (error, text) in [
        (FrameErr::Length, "a frame has 60 to 1514 octets"),
        (
            FrameErr::Destination,
            "the destination isn't 01-80-c2-00-00-02",
        ),
        (FrameErr::Ethertype, "the Ethertype isn't 8809"),
        (FrameErr::Subtype, "the slow protocol subtype isn't 0a"),
        (FrameErr::Oui, "the OUI isn't 00-19-a7, the ITU's"),
        (
            FrameErr::ItuSubtype,
            "the ITU subtype isn't 0001, the ESMC's",
        ),
        (FrameErr::Version, "the version isn't 1"),
        (FrameErr::Tlv, "the first TLV isn't a QL TLV of 4 octets"),
    ] {
        assert!(rt; is_printed_as(rt.alloc(), error, text)?);
    }
    Ok(())
}

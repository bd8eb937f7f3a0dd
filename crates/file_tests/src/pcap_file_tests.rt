//! Packets of any length, the longest and an empty one.

use pcap_file::{Packet, PcapErr, put_head, put_packet, read_pcap};
use std::test::Fail;
use sync_text::Text;
use test_makers::is_printed_as;

#[test]
fn packets_of_any_length_come_back(rt: HostRuntime) -> Result<(), Fail> {
    let alloc = rt.alloc();
    let longest = [7; 65_535];
    let mut capture = Text::new(alloc);
    put_head(&mut capture)?;
    put_packet(&mut capture, 3, 1_000_000, &longest)?;
    put_packet(&mut capture, 4, 0, &[])?;
    match read_pcap(alloc, capture.bytes()) {
        Ok(packets) => {
            let expected = [
                Packet {
                    sec: 3,
                    usec: 1_000_000,
                    start: 40,
                    len: 65_535,
                    original: 65_535,
                },
                Packet {
                    sec: 4,
                    usec: 0,
                    start: 65_591,
                    len: 0,
                    original: 0,
                },
            ];
            assert!(rt; packets.as_slice() == expected.as_slice());
        }
        Err(_) => assert!(rt; false),
    }
    Ok(())
}

#[test]
fn capture_refusals_are_printed(rt: HostRuntime) -> Result<(), Fail> {
    for (error, text) in [
        (PcapErr::Header, "no header of a classic pcap file"),
        (PcapErr::Link, "the link type isn't 1, Ethernet"),
        (PcapErr::Record(7), "record 7 isn't whole"),
    ] {
        assert!(rt; is_printed_as(rt.alloc(), error, text)?);
    }
    Ok(())
}

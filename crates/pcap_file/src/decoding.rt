//! The rows of the frames in a capture.

ghost use Rattle.std.specs.Prelude.{◌≡◌, ◌+◌, ◌≤◌, ◌<◌, ◌++◌, length, OnOk, IfOk};
ghost use Rattle.std.specs.List.{All};
ghost use Rattle.esmc_frame.specs.Reading.{reading_of};
ghost use Rattle.pcap_file.specs.Timed.{row_of_reading, text_of_packets, decoded_pcap};
ghost use Rattle.pcap_file.specs.private.Steps.{passed_of};
ghost use Rattle.sync_text.specs.Gives.{Gives};

use crate::error::PcapErr;
use crate::reading::{Packet, read_pcap};
use capture_text::put_row;
use esmc_frame::{Pdu, decode};
use std::alloc::Global;
use sync_ql::NetOption;
use sync_text::{NoAnswer, NoMemory, Text};

/// The rows of the ESMC frames in a capture, in their order: `SEC,USEC,` and the row of the frame.
///
/// A packet that is no such frame is passed over; the last line is `passed,N`, with how many are.
/// Refusals as in `read_pcap`. This project's own; frames after G.8264, ESMC PDU format.
#[tactic(auto, unfolding(crate::specs::Timed::decoded_pcap))]
pub fn decode_pcap(
    alloc: Global,
    bytes: &[u8],
    option: NetOption,
) -> Result<Text, NoAnswer<PcapErr>>
    ensures exact { Gives result (decoded_pcap option bytes.now) }
{
    let packets = match read_pcap(alloc, bytes) {
        Ok(packets) => packets,
        Err(error) => return Err(error),
    };
    let text = text_of(alloc, bytes, packets.as_slice(), option)?;
    Ok(text)
}

/// The rows of the packets that are frames, and how many are none.
fn text_of(
    alloc: Global,
    bytes: &[u8],
    packets: &[Packet],
    option: NetOption,
) -> Result<Text, NoMemory>
    requires { All (λ packet. packet.start + packet.len ≤ length bytes.now) packets.now }
    ensures { IfOk result (λ text. text ≡ text_of_packets option bytes.now packets.now) }
{
    let mut text = Text::new(alloc);
    let mut passed = 0;
    for packet in packets {
        let octets = &bytes[packet.start..packet.start + packet.len];
        passed += put_row_of(&mut text, octets, packet, option)?;
    }
    text.put(b"passed,")?;
    text.put_number(passed)?;
    text.put(b"\n")?;
    Ok(text)
}

/// Puts the row of a packet with these octets, if it is a frame. Gives how many packets are passed
/// over.
fn put_row_of(
    text: &mut Text,
    octets: &[u8],
    packet: &Packet,
    option: NetOption,
) -> Result<u64, NoMemory>
    ensures row { OnOk result (text.new ≡ text.old ++
        row_of_reading option packet.now.sec packet.now.usec (reading_of octets.now)) }
    ensures passed { IfOk result (λ passed. passed ≡ passed_of octets.now) }
    ensures one { IfOk result (λ passed. passed ≤ 1) }
{
    match decode(octets) {
        Ok(pdu) => {
            put_timed_row(text, packet, &pdu, option)?;
            Ok(0)
        }
        Err(_) => Ok(1),
    }
}

/// Puts the row of a frame with its time, and a line feed.
fn put_timed_row(
    text: &mut Text,
    packet: &Packet,
    pdu: &Pdu,
    option: NetOption,
) -> Result<(), NoMemory>
    requires { pdu.now.code < 16 }
    ensures { OnOk result (text.new ≡ text.old ++
        row_of_reading option packet.now.sec packet.now.usec (Ok pdu.now)) }
{
    text.put_number(packet.sec as u64)?;
    text.put(b",")?;
    text.put_number(packet.usec as u64)?;
    text.put(b",")?;
    put_row(text, pdu, option)?;
    text.put(b"\n")
}

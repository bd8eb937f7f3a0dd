//! The packets of a capture.

ghost use Rattle.std.specs.Prelude.{◌≡◌, ◌+◌, ◌≤◌, ◌<◌, ◌^◌, length, drop, IfOk, IfSome};
ghost use Rattle.std.specs.List.{All};
ghost use Rattle.pcap_file.specs.declared.reading.Packet.{Packet};
ghost use Rattle.pcap_file.specs.Pcap.{number_at, order_of, packets_from, packets_of};
ghost use Rattle.pcap_file.specs.private.Pcap.{first_packet};
ghost use Rattle.sync_text.specs.Gives.{Gives};

use crate::error::PcapErr;
use std::alloc::Global;
use sync_text::{NoAnswer, Rows};

/// The octets of a file header.
const HEAD: usize = 24;
/// The octets of a record before its packet.
const RECORD_HEAD: usize = 16;
/// Where the link type stands in a file header.
const LINK_AT: usize = 20;
/// The link type of Ethernet.
const ETHERNET: u32 = 1;

/// A packet of a capture: when it was captured, and where it stands.
///
/// After the file format of libpcap, packet record.
#[derive(Clone, Copy, Debug, PartialEq, Eq)]
pub struct Packet {
    /// The seconds of its time.
    pub sec: u32,
    /// The microseconds of its time; any number may stand there.
    pub usec: u32,
    /// The place of its first octet in the bytes, counted from 0.
    pub start: usize,
    /// How many octets were captured.
    pub len: usize,
    /// How many octets it had; any number may stand there.
    pub original: u32,
}

/// The order of the octets of a capture's numbers.
#[derive(Clone, Copy)]
pub(crate) enum ByteOrder {
    /// The highest first.
    Big,
    /// The lowest first.
    Little,
}

/// The packets of a capture, in the order of their records.
///
/// A capture is a file header of 24 octets, of version 2.4 and in either order of octets, and
/// records back to back to the end. `Header` exactly where the bytes don't begin so, else `Link`
/// exactly where the link type isn't Ethernet's, else `Record` with the first record that isn't
/// whole.
/// After the file format of libpcap.
pub fn read_pcap(alloc: Global, bytes: &[u8]) -> Result<Rows<Packet>, NoAnswer<PcapErr>>
    ensures exact { Gives result (packets_of bytes.now) }

    // All octets of the packets are there.
    ensures within { IfOk result (All (λ packet. packet.start + packet.len ≤ length bytes.now)) }
{
    let Some(order) = order_of(bytes) else {
        return Err(NoAnswer::Refused(PcapErr::Header));
    };
    if number_at(bytes, LINK_AT, order) != ETHERNET {
        return Err(NoAnswer::Refused(PcapErr::Link));
    }
    read_records(alloc, bytes, order)
}

/// The order of the numbers, if the bytes begin with a file header.
fn order_of(bytes: &[u8]) -> Option<ByteOrder>
    ensures order { result ≡ order_of bytes.now }
    ensures head { IfSome result (λ order. HEAD ≤ length bytes.now) }
{
    if bytes.len() < HEAD {
        return None;
    }
    let first = &bytes[..8];
    if first == [0xd4, 0xc3, 0xb2, 0xa1, 2, 0, 4, 0].as_slice() {
        return Some(ByteOrder::Little);
    }
    if first == [0xa1, 0xb2, 0xc3, 0xd4, 0, 2, 0, 4].as_slice() {
        return Some(ByteOrder::Big);
    }
    None
}

/// The number of the four octets at a place.
#[tactic(auto, unfolding(crate::specs::Pcap::number_at))]
fn number_at(octets: &[u8], at: usize, order: ByteOrder) -> u32
    requires { at + 4 ≤ length octets.now }
    ensures { result ≡ number_at order octets.now at }
{
    let four = [octets[at], octets[at + 1], octets[at + 2], octets[at + 3]];
    match order {
        ByteOrder::Big => u32::from_be_bytes(four),
        ByteOrder::Little => u32::from_le_bytes(four),
    }
}

/// The packets of all records.
fn read_records(
    alloc: Global,
    bytes: &[u8],
    order: ByteOrder,
) -> Result<Rows<Packet>, NoAnswer<PcapErr>>
    requires { HEAD ≤ length bytes.now }
    ensures exact { Gives result (packets_from order 1 HEAD 0 (drop HEAD bytes.now)) }
    ensures within { IfOk result (All (λ packet. packet.start + packet.len ≤ length bytes.now)) }
{
    let mut packets = Rows::new(alloc);
    let mut place = HEAD;
    let mut number: u64 = 0;
    while place < bytes.len() {
        number += 1;
        let left = bytes.split_at(place).1;
        let Some(packet) = packet_of(left, place, order) else {
            return Err(NoAnswer::Refused(PcapErr::Record(number)));
        };
        packets.push(packet)?;
        place = packet.start + packet.len;
    }
    Ok(packets)
}

/// The packet of the record that stands first in the octets, the first of which has this place.
#[tactic(auto, unfolding(crate::specs::private::Pcap::first_packet))]
fn packet_of(octets: &[u8], place: usize, order: ByteOrder) -> Option<Packet>
    requires { place + length octets.now < 2 ^ 64 }
    ensures packet { result ≡ first_packet order place octets.now }
    ensures behind { IfSome result (λ packet. packet.start ≡ place + RECORD_HEAD) }
    ensures within { IfSome result (λ packet. packet.start + packet.len ≤ place + length octets.now) }
{
    if octets.len() < RECORD_HEAD {
        return None;
    }
    let len = number_at(octets, 8, order) as usize;
    if octets.len() - RECORD_HEAD < len {
        return None;
    }
    Some(Packet {
        sec: number_at(octets, 0, order),
        usec: number_at(octets, 4, order),
        start: place + RECORD_HEAD,
        len,
        original: number_at(octets, 12, order),
    })
}

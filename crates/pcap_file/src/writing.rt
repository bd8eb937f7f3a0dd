//! A capture as it is written.

ghost use Rattle.std.specs.Prelude.{ℕ, ◌≡◌, ◌+◌, ◌≤◌, ◌<◌, ◌^◌, ◌++◌, [], ◌∷◌, List, length, take, OnOk, OnErr};
ghost use Rattle.std.specs.Int.{to_le_bytes};
ghost use Rattle.pcap_file.specs.declared.reading.Packet.{Packet};
ghost use Rattle.pcap_file.specs.Pcap.{octets_of};
ghost use Rattle.pcap_file.specs.Written.{written_head, record_head, written_record, written_packet, IsLittleCapture};

use esmc_frame::GREATEST_FRAME;
use sync_text::{NoMemory, Text};

/// The most octets of a frame in a capture that is written.
const LONGEST: usize = 65_535;
/// The octets of a record before its frame.
const RECORD_HEAD: usize = 16;
/// Room for a record of a frame that is no longer than those of Ethernet, and of any.
const SHORT_ROOM: usize = RECORD_HEAD + GREATEST_FRAME;

const ROOM: usize = RECORD_HEAD + LONGEST;

/// Puts the header of a capture at the end: little-endian numbers, version 2.4, Ethernet.
///
/// A refused put leaves the text as it was.
/// After the file format of libpcap.
pub fn put_head(out: &mut Text) -> Result<(), NoMemory>
    ensures ok { OnOk result (out.new ≡ out.old ++ written_head) }
    ensures err { OnErr result (out.new ≡ out.old) }

    // The header alone is a capture without packets.
    ensures capture { IsLittleCapture written_head [] }
{
    out.put(&[
        0xd4, 0xc3, 0xb2, 0xa1, 2, 0, 4, 0, 0, 0, 0, 0, 0, 0, 0, 0, 0xff, 0xff, 0, 0, 1, 0, 0, 0,
    ])
}

/// Puts the record of a frame at the end, with its time: seconds and microseconds.
///
/// Both lengths of the record are the frame's. A refused put leaves the text as it was.
/// After the file format of libpcap.
pub fn put_packet(out: &mut Text, sec: u32, usec: u32, frame: &[u8]) -> Result<(), NoMemory>
    requires { length frame.now ≤ LONGEST }
    ensures ok { OnOk result (out.new ≡ out.old ++ written_record sec usec frame.now) }
    ensures err { OnErr result (out.new ≡ out.old) }

    // A little-endian capture becomes that capture with this packet at its end, whose octets are the frame.
    ensures added { (packets : List Packet) → IsLittleCapture out.old packets →
        OnOk result (IsLittleCapture out.new (packets ++ written_packet sec usec out.old frame.now ∷ [])) }
    ensures frame { OnOk result (octets_of out.new (written_packet sec usec out.old frame.now) ≡ frame.now) }
{
    let head = head_of(sec, usec, frame.len() as u32);
    put_made(out, &head, frame)
}

/// Puts a record at the end, which is made in as little room as it needs.
fn put_made(out: &mut Text, head: &[u8; 16], frame: &[u8]) -> Result<(), NoMemory>
    requires { length frame.now ≤ LONGEST }
    ensures ok { OnOk result (out.new ≡ out.old ++ (head.now ++ frame.now)) }
    ensures err { OnErr result (out.new ≡ out.old) }
{
    if frame.len() <= GREATEST_FRAME {
        put_short(out, head, frame)
    } else {
        put_long(out, head, frame)
    }
}

/// What stands before a frame of this length.
fn head_of(sec: u32, usec: u32, len: u32) -> [u8; 16]
    ensures { result ≡ record_head sec usec len }
{
    let mut head = [0; 16];
    put_at(&mut head, 0, &sec.to_le_bytes());
    put_at(&mut head, 4, &usec.to_le_bytes());
    put_at(&mut head, 8, &len.to_le_bytes());
    put_at(&mut head, 12, &len.to_le_bytes());
    head
}

/// Puts octets from the first one on, behind what was put so far.
fn put_at(room: &mut [u8], first: usize, octets: &[u8])
    requires { first + length octets.now ≤ length room.old }
    ensures { take (first + length octets.now) room.new ≡ take first room.old ++ octets.now }
{
    room[first..first + octets.len()].copy_from_slice(octets);
}

fn put_short(out: &mut Text, head: &[u8; 16], frame: &[u8]) -> Result<(), NoMemory>
    requires { length frame.now ≤ GREATEST_FRAME }
    ensures ok { OnOk result (out.new ≡ out.old ++ (head.now ++ frame.now)) }
    ensures err { OnErr result (out.new ≡ out.old) }
{
    put_record(out, &mut [0; SHORT_ROOM], head, frame)
}

fn put_long(out: &mut Text, head: &[u8; 16], frame: &[u8]) -> Result<(), NoMemory>
    requires { length frame.now ≤ LONGEST }
    ensures ok { OnOk result (out.new ≡ out.old ++ (head.now ++ frame.now)) }
    ensures err { OnErr result (out.new ≡ out.old) }
{
    put_record(out, &mut [0; ROOM], head, frame)
}

/// Puts a record at the end, which is made in the room.
fn put_record(
    out: &mut Text,
    room: &mut [u8],
    head: &[u8; 16],
    frame: &[u8],
) -> Result<(), NoMemory>
    requires { RECORD_HEAD + length frame.now ≤ length room.old }
    ensures ok { OnOk result (out.new ≡ out.old ++ (head.now ++ frame.now)) }
    ensures err { OnErr result (out.new ≡ out.old) }
{
    put_at(room, 0, head);
    put_at(room, RECORD_HEAD, frame);
    out.put(&room[..RECORD_HEAD + frame.len()])
}

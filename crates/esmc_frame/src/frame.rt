//! What a frame carries, read from octets and written to octets.

ghost use Rattle.std.specs.Prelude.{◌≡◌, ◌<◌, ◌≤◌, ◌↔◌, ◌++◌, length, take, Some, Ok, Err, IfOk, IfSome};
ghost use Rattle.esmc_frame.specs.declared.error.FrameErr.{FrameErr};
ghost use Rattle.esmc_frame.specs.declared.frame.Pdu.{Pdu};
ghost use Rattle.esmc_frame.specs.Frame.{Spells, written_frame, written_extended, version_and_flag};
ghost use Rattle.esmc_frame.specs.Reading.{first_wrong, reading_of, extended_of};

use crate::error::FrameErr;
use crate::parts::{
    CLOCK_AT, CODE_AT, CODE_BITS, DESTINATION, EECS_AT, EEECS_AT, ENHANCED_CODE_AT, ETHERTYPE,
    EVENT_FLAG, EXTENDED_TLV, FLAGS_AT, FRAME, GREATEST_FRAME, ITU_SUBTYPE, OUI, PADDING, QL_TLV,
    RESERVED, SHORT_PADDING, SOURCE_AT, SUBTYPE, VERSION, VERSION_AND_FLAG_AT, put_at,
};

/// What an ESMC frame carries.
///
/// After G.8264, ESMC PDU format.
#[derive(Clone, Copy, Debug, PartialEq, Eq)]
pub struct Pdu {
    /// The address of the port that sends the frame.
    pub source: [u8; 6],
    /// Whether this is an event message and no information message.
    pub event: bool,
    /// The SSM code, from 0 to 15; an option's table of levels need not have it.
    pub code: u8,
    /// What the extended QL TLV says, if there is one.
    pub extended: Option<Extended>,
}

/// What an extended QL TLV says. All values may stand in each field.
///
/// The idea of an extended TLV is after G.8264; its layout and the meaning of its fields are this
/// project's own.
#[derive(Clone, Copy, Debug, PartialEq, Eq)]
pub struct Extended {
    /// The enhanced code, which names a level beside the SSM code.
    pub code: u8,
    /// The identity of the clock that the level comes from.
    pub clock: [u8; 8],
    /// Flags.
    pub flags: u8,
    /// How many enhanced EECs are cascaded.
    pub eeecs: u8,
    /// How many EECs are cascaded.
    pub eecs: u8,
}

/// What a frame carries, given without its frame check sequence.
///
/// The error names the first part that is wrong. Source, event flag and SSM code may be anything.
/// There is an extended QL TLV exactly where its type and length stand behind the QL TLV, and then
/// its fields may be anything. Reserved bits and octets, the high bits of the code's octet, and all
/// else that stands behind the QL TLV aren't looked at.
/// After G.8264, ESMC PDU format.
pub fn decode(frame: &[u8]) -> Result<Pdu, FrameErr>
    ensures spelled { (pdu : Pdu) → (result ≡ Ok pdu) ↔ Spells frame.now pdu }
    ensures refused { (error : FrameErr) →
        (result ≡ Err error) ↔ (first_wrong frame.now ≡ Some error) }
    ensures exact { result ≡ reading_of frame.now }
    ensures code { IfOk result (λ pdu. pdu.code < 16) }

    // No octets spell two values.
    ensures one_value { (p q : Pdu) → Spells frame.now p → Spells frame.now q → p ≡ q }
{
    if !(FRAME..=GREATEST_FRAME).contains(&frame.len()) {
        return Err(FrameErr::Length);
    }
    if !DESTINATION.is_in(frame) {
        return Err(FrameErr::Destination);
    }
    if !ETHERTYPE.is_in(frame) {
        return Err(FrameErr::Ethertype);
    }
    if !SUBTYPE.is_in(frame) {
        return Err(FrameErr::Subtype);
    }
    if !OUI.is_in(frame) {
        return Err(FrameErr::Oui);
    }
    if !ITU_SUBTYPE.is_in(frame) {
        return Err(FrameErr::ItuSubtype);
    }
    if frame[VERSION_AND_FLAG_AT] >> 4 != VERSION {
        return Err(FrameErr::Version);
    }
    if !QL_TLV.is_in(frame) {
        return Err(FrameErr::Tlv);
    }
    let mut source = [0; 6];
    source.copy_from_slice(&frame[SOURCE_AT..SOURCE_AT + 6]);
    Ok(Pdu {
        source,
        event: frame[VERSION_AND_FLAG_AT] & EVENT_FLAG != 0,
        code: frame[CODE_AT] & CODE_BITS,
        extended: extended_in(frame),
    })
}

/// The extended QL TLV of a frame, if it has one.
fn extended_in(frame: &[u8]) -> Option<Extended>
    requires { FRAME ≤ length frame.now }
    ensures { result ≡ extended_of frame.now }
{
    if !EXTENDED_TLV.is_in(frame) {
        return None;
    }
    let mut clock = [0; 8];
    clock.copy_from_slice(&frame[CLOCK_AT..CLOCK_AT + 8]);
    Some(Extended {
        code: frame[ENHANCED_CODE_AT],
        clock,
        flags: frame[FLAGS_AT],
        eeecs: frame[EEECS_AT],
        eecs: frame[EECS_AT],
    })
}

/// Writes the one frame of 60 octets that carries a value, without a frame check sequence.
///
/// Reserved bits and octets and the padding are zero. An extended QL TLV stands behind the QL TLV.
/// After G.8264, ESMC PDU format; the layout of the extended QL TLV is this project's own.
pub fn encode(pdu: &Pdu, out: &mut [u8; FRAME])
    requires { pdu.now.code < 16 }
    ensures written { out.new ≡ written_frame pdu.now }
    ensures spelled { Spells out.new pdu.now }

    // What `decode` answers of the frame is the value.
    ensures read_back { reading_of out.new ≡ Ok pdu.now }
{
    DESTINATION.put(out);
    put_at(out, SOURCE_AT, &pdu.source);
    ETHERTYPE.put(out);
    SUBTYPE.put(out);
    OUI.put(out);
    ITU_SUBTYPE.put(out);
    put_at(out, VERSION_AND_FLAG_AT, &[version_and_flag(pdu.event)]);
    RESERVED.put(out);
    QL_TLV.put(out);
    put_at(out, CODE_AT, &[pdu.code]);
    put_extended(out, &pdu.extended);
}

/// Writes the extended QL TLV, if there is one, and padding, behind the QL TLV.
fn put_extended(out: &mut [u8; FRAME], extended: &Option<Extended>)
    ensures put { take FRAME out.new ≡ take 28 out.old ++ written_extended extended.now }
    ensures clock { IfSome extended.now (λ extended. length extended.clock ≡ 8) }
{
    match extended {
        Some(extended) => put_tlv(out, extended),
        None => PADDING.put(out),
    }
}

/// Writes the extended QL TLV and padding, behind the QL TLV.
fn put_tlv(out: &mut [u8; FRAME], extended: &Extended)
    ensures put { take FRAME out.new ≡ take 28 out.old ++ written_extended (Some extended.now) }
    ensures clock { length extended.now.clock ≡ 8 }
{
    EXTENDED_TLV.put(out);
    put_at(out, ENHANCED_CODE_AT, &[extended.code]);
    put_at(out, CLOCK_AT, &extended.clock);
    put_at(
        out,
        FLAGS_AT,
        &[extended.flags, extended.eeecs, extended.eecs],
    );
    SHORT_PADDING.put(out);
}

/// The octet of version and event flag.
fn version_and_flag(event: bool) -> u8
    ensures { result ≡ version_and_flag event }
{
    if event {
        VERSION << 4 | EVENT_FLAG
    } else {
        VERSION << 4
    }
}

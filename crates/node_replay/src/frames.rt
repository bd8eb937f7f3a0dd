//! The frames that go out in a millisecond.

ghost use Rattle.std.specs.Prelude.{◌≡◌, ◌++◌, ◌∷◌, [], ◌<◌, All, OnOk, IfOk, map};
ghost use Rattle.std.specs.List.{filter_map, cons_option, concat};
ghost use Rattle.hex.specs.Hex.{encode_lower};
ghost use Rattle.sync_topo.specs.Lines.{line_count};
ghost use Rattle.esmc_frame.specs.Frame.{written_frame};
ghost use Rattle.node_rules.specs.NodeText.{address_of, extended_for, carried};
ghost use Rattle.node_replay.specs.private.Keeping.{frame_of, sent_row};

use crate::lines_out::LineOut;
use esmc_frame::{Extended, FRAME, Pdu, encode};
use std::alloc::Global;
use sync_ql::limits::SECOND;
use sync_ql::{Level, NOT_ENHANCED, code_of, enhanced_of, is_same_heard};
use sync_text::{NoMemory, Rows, Text};
use sync_topo::{InputId, LineId, Plan};

/// A frame that goes out on a line.
#[derive(Clone, Copy, Debug, Drop)]
pub(crate) struct Sent {
    pub(crate) line: LineId,
    pub(crate) level: Level,
    /// Whether it is an event message.
    pub(crate) event: bool,
}

/// The frame that goes out on a line in a millisecond, if one does: with news, and each second.
#[tactic(auto, unfolding(crate::specs::private::Keeping::frame_of))]
pub(crate) fn frame_of(now: u64, out: LineOut) -> Option<Sent>
    ensures { result ≡ frame_of now out }
{
    let level = out.said?;
    let news = !is_same_heard(out.said, out.was);
    if !news && now % SECOND != 0 {
        return None;
    }
    Some(Sent {
        line: out.line,
        level,
        event: news && 0 < now,
    })
}

/// The frames that go out in a millisecond, in order of lines.
pub(crate) fn frames_of(
    alloc: Global,
    lines_out: &[LineOut],
    now: u64,
) -> Result<Rows<Sent>, NoMemory>
    ensures { IfOk result (λ frames. frames ≡ filter_map (frame_of now) lines_out.now) }
{
    let mut frames = Rows::new(alloc);
    for out in lines_out {
        push_some(&mut frames, frame_of(now, *out))?;
    }
    Ok(frames)
}

fn push_some(frames: &mut Rows<Sent>, frame: Option<Sent>) -> Result<(), NoMemory>
    ensures { OnOk result (frames.new ≡ frames.old ++ cons_option frame []) }
{
    match frame {
        Some(frame) => frames.push(frame),
        None => Ok(()),
    }
}

/// Puts the rows of frames.
pub(crate) fn put_frames(
    alloc: Global,
    text: &mut Text,
    plan: &Plan,
    element: u32,
    now: u64,
    frames: &[Sent],
) -> Result<(), NoMemory>
    requires lines { All (λ sent. sent.line.0 < line_count plan.now) frames.now }
    ensures { OnOk result (text.new ≡ text.old ++ concat (map (sent_row plan.now element now) frames.now)) }
{
    for frame in frames {
        put_frame(alloc, text, plan, element, now, *frame)?;
    }
    Ok(())
}

/// Puts the row of a frame.
fn put_frame(
    alloc: Global,
    text: &mut Text,
    plan: &Plan,
    element: u32,
    now: u64,
    frame: Sent,
) -> Result<(), NoMemory>
    requires line { frame.line.0 < line_count plan.now }
    ensures { OnOk result (text.new ≡ text.old ++ sent_row plan.now element now frame) }
{
    text.put_number(now)?;
    text.put(b",")?;
    plan.put_input_name(alloc, text, InputId::Line(frame.line))?;
    text.put(b",")?;
    text.put(&frame_digits(element, frame))?;
    text.put(b"\n")
}

/// The digits of a frame of an element.
fn frame_digits(element: u32, frame: Sent) -> [u8; 120]
    ensures { result ≡ encode_lower (written_frame (carried element frame.level frame.event)) }
{
    digits_of(&carried(element, frame))
}

/// What a frame of an element carries.
fn carried(element: u32, frame: Sent) -> Pdu
    ensures pdu { result ≡ carried element frame.level frame.event }
    ensures code { result.code < 16 }
{
    Pdu {
        source: address_of(element),
        event: frame.event,
        code: code_of(frame.level),
        extended: extended_for(frame.level),
    }
}

/// The source address of an element's frames.
fn address_of(element: u32) -> [u8; 6]
    ensures { result ≡ address_of element }
{
    [
        2,
        0,
        (element / 0x100_0000 % 256) as u8,
        (element / 0x1_0000 % 256) as u8,
        (element / 0x100 % 256) as u8,
        (element % 256) as u8,
    ]
}

/// An extended QL TLV for a level with an enhanced code of its own.
fn extended_for(level: Level) -> Option<Extended>
    ensures { result ≡ extended_for level }
{
    let code = enhanced_of(level);
    if code == NOT_ENHANCED {
        return None;
    }
    Some(Extended {
        code,
        clock: [0; 8],
        flags: 0,
        eeecs: 0,
        eecs: 0,
    })
}

/// The digits of the octets of a frame.
fn digits_of(pdu: &Pdu) -> [u8; 120]
    requires { pdu.now.code < 16 }
    ensures { result ≡ encode_lower (written_frame pdu.now) }
{
    let mut frame = [0; FRAME];
    encode(pdu, &mut frame);
    let mut digits = [0; 120];
    hex::encode_to_slice(frame.as_slice(), &mut digits).unwrap();
    digits
}

//! The capture of rows with times.

ghost use Rattle.std.specs.Prelude.{◌≡◌, ◌<◌, ◌++◌, List, [], IfOk, OnOk, IfSome};
ghost use Rattle.std.specs.List.{cons_option};
ghost use Rattle.sync_text.specs.Gives.{Gives};
ghost use Rattle.capture_text.specs.private.Steps.{GivesThat, with_front};
ghost use Rattle.pcap_file.specs.declared.encoding.Timed.{Timed};
ghost use Rattle.pcap_file.specs.Timed.{word_of, timed_of, record_of_line, encoded_pcap};
ghost use Rattle.pcap_file.specs.CaptureOf.{timed_rows, IsCaptureOf};
ghost use Rattle.pcap_file.specs.private.WrittenSoFar.{IsWrittenSoFar};

use crate::writing::{put_head, put_packet};
use capture_text::{CaptureErr, Lines, cut_at, read_row};
use esmc_frame::{FRAME, Pdu, encode};
use std::alloc::Global;
use sync_ql::NetOption;
use sync_text::{NoAnswer, Text, read_number};

/// What a row with a time says.
#[derive(Clone, Copy)]
pub(crate) struct Timed {
    pub(crate) sec: u32,
    pub(crate) usec: u32,
    pub(crate) pdu: Pdu,
}

/// The capture of the frames of rows, each with its time: `SEC,USEC,` and a row of a frame.
///
/// Seconds and microseconds are numbers up to 4,294,967,295. Lines are cut as in `encode_rows`,
/// with empty ones passed over. `Row` names the first line that is no such row; no other line is
/// refused.
/// This project's own; the capture after the file format of libpcap.
pub fn encode_pcap(
    alloc: Global,
    bytes: &[u8],
    option: NetOption,
) -> Result<Text, NoAnswer<CaptureErr>>
    ensures exact { Gives result (encoded_pcap option bytes.now) }

    // It is a capture of just the frames of the rows, in their order, with their times.
    ensures capture { IfOk result (IsCaptureOf (timed_rows option bytes.now)) }
{
    let mut text = Text::new(alloc);
    put_head(&mut text)?;
    let mut lines = Lines::of(bytes);
    while let Some((number, line)) = lines.next_line() {
        put_record_of(&mut text, number, line, option)?;
    }
    Ok(text)
}

/// Puts the record of the frame of the row on a line.
fn put_record_of(
    text: &mut Text,
    number: u64,
    line: &[u8],
    option: NetOption,
) -> Result<(), NoAnswer<CaptureErr>>
    ensures put { GivesThat result text.new (with_front text.old (record_of_line option number line.now)) }
    ensures captured { (rows : List Timed) → IsWrittenSoFar rows text.old →
        OnOk result (IsWrittenSoFar (rows ++ cons_option (timed_of option line.now) []) text.new) }
{
    if line.is_empty() {
        return Ok(());
    }
    let Some(timed) = timed_of(line, option) else {
        return Err(NoAnswer::Refused(CaptureErr::Row(number)));
    };
    let mut frame = [0; FRAME];
    encode(&timed.pdu, &mut frame);
    put_packet(text, timed.sec, timed.usec, &frame)?;
    Ok(())
}

/// What a line says that is a row with a time.
#[tactic(auto, unfolding(crate::specs::Timed::timed_by, capture_text::specs::Reading::said_by))]
fn timed_of(line: &[u8], option: NetOption) -> Option<Timed>
    ensures exact { result ≡ timed_of option line.now }
    ensures code { IfSome result (λ timed. timed.pdu.code < 16) }
{
    let (sec, rest) = cut_at(line, b',');
    let (usec, rest) = cut_at(rest?, b',');
    let row = rest?;
    let sec = word_of(sec)?;
    let usec = word_of(usec)?;
    let pdu = read_row(row, option)?;
    Some(Timed { sec, usec, pdu })
}

/// A number up to 4,294,967,295.
fn word_of(text: &[u8]) -> Option<u32>
    ensures { result ≡ word_of text.now }
{
    let number = read_number(text)?;
    if number <= u32::MAX as u64 {
        Some(number as u32)
    } else {
        None
    }
}

//! Whole texts: frames to rows, and rows to frames.

ghost use Rattle.std.specs.Prelude.{◌≡◌, ◌<◌, ◌++◌, length, option_map, IfOk, OnOk};
ghost use Rattle.std.specs.Result.{result_ok};
ghost use Rattle.hex.specs.Hex.{decode_of, encode_lower};
ghost use Rattle.esmc_frame.specs.Frame.{written_frame};
ghost use Rattle.capture_text.specs.Capture.{row_of_line, frame_of_line, decoded_text, encoded_text, rows_in_form, carried_at, as_line};
ghost use Rattle.sync_text.specs.Gives.{Gives};
ghost use Rattle.capture_text.specs.private.Steps.{GivesThat, with_front};

use crate::error::CaptureErr;
use crate::line::{LONGEST, Line};
use crate::lines::Lines;
use crate::plain::Plain;
use crate::reading::read_row;
use crate::row::row_for;
use esmc_frame::{FRAME, Pdu, decode, encode};
use hex::FromHexError;
use std::alloc::Global;
use sync_ql::NetOption;
use sync_text::{NoAnswer, NoMemory, Text};

/// The rows of captured frames, each with a line feed.
///
/// A line is a frame without its frame check sequence, as hexadecimal digits of either case. Lines
/// end at line feeds, which the last needs not; one carriage return at a line's end is dropped; an
/// empty line is passed over, and counted. `Hex` where `hex` decodes no octets from the first line
/// that is refused, `Frame` where these are no frame, with the first part that is wrong.
/// This project's own; frames after G.8264, ESMC PDU format.
pub fn decode_lines(
    alloc: Global,
    bytes: &[u8],
    option: NetOption,
) -> Result<Text, NoAnswer<CaptureErr>>
    ensures exact { Gives result (decoded_text option bytes.now) }
{
    let mut text = Text::new(alloc);
    let mut lines = Lines::of(bytes);
    while let Some((number, line)) = lines.next_line() {
        put_row_of(alloc, &mut text, number, line, option)?;
    }
    Ok(text)
}

/// The frames of rows, each as 120 lower case digits with a line feed.
///
/// Lines are cut as in `decode_lines`, and each is a row as `put_row` writes it; the digits of its
/// source may be of either case. `Row` names the first line that is no row.
/// This project's own; frames after G.8264, ESMC PDU format.
pub fn encode_rows(
    alloc: Global,
    bytes: &[u8],
    option: NetOption,
) -> Result<Text, NoAnswer<CaptureErr>>
    ensures exact { Gives result (encoded_text option bytes.now) }

    // The frames are decoded to the rows, in the form in which `put_row` writes them.
    ensures decoded { IfOk result (λ text. decoded_text option text ≡ rows_in_form option bytes.now) }
{
    let mut text = Text::new(alloc);
    let mut lines = Lines::of(bytes);
    while let Some((number, line)) = lines.next_line() {
        put_frame_of(&mut text, number, line, option)?;
    }
    Ok(text)
}

/// Puts the row of the frame on a line, with a line feed.
fn put_row_of(
    alloc: Global,
    text: &mut Text,
    number: u64,
    line: &[u8],
    option: NetOption,
) -> Result<(), NoAnswer<CaptureErr>>
    ensures { GivesThat result text.new (with_front text.old (row_of_line option number line.now)) }
{
    if line.is_empty() {
        return Ok(());
    }
    if let Some(plain) = Plain::of_frame(line) {
        put_line(text, plain.row(option))?;
        return Ok(());
    }
    let pdu = value_of(alloc, number, line)?;
    put_line(text, row_for(&pdu, option))?;
    Ok(())
}

/// What the frame on a line carries.
fn value_of(alloc: Global, number: u64, line: &[u8]) -> Result<Pdu, NoAnswer<CaptureErr>>
    ensures value { Gives result (carried_at number line.now) }
    ensures code { IfOk result (λ pdu. pdu.code < 16) }
{
    let Some(octets) = octets_of(alloc, line)? else {
        return Err(NoAnswer::Refused(CaptureErr::Hex(number)));
    };
    match decode(octets.as_slice()) {
        Ok(pdu) => Ok(pdu),
        Err(error) => Err(NoAnswer::Refused(CaptureErr::Frame(number, error))),
    }
}

/// The octets that a line gives as digits, if it gives octets.
fn octets_of(alloc: Global, line: &[u8]) -> Result<Option<Vec<u8>>, NoMemory>
    ensures { IfOk result (λ octets. option_map (λ list. list.items) octets ≡ result_ok (decode_of line.now)) }
{
    match hex::decode(alloc, line) {
        Ok(octets) => Ok(Some(octets)),
        Err(FromHexError::OutOfMemory) => Err(NoMemory),
        Err(_) => Ok(None),
    }
}

/// Puts a line, with a line feed.
fn put_line(text: &mut Text, mut line: Line) -> Result<(), NoMemory>
    requires { length line < LONGEST }
    ensures { OnOk result (text.new ≡ text.old ++ as_line line) }
{
    line.put(b"\n");
    text.put(line.bytes())
}

/// Puts the frame of the row on a line, with a line feed.
fn put_frame_of(
    text: &mut Text,
    number: u64,
    line: &[u8],
    option: NetOption,
) -> Result<(), NoAnswer<CaptureErr>>
    ensures { GivesThat result text.new (with_front text.old (frame_of_line option number line.now)) }
{
    if line.is_empty() {
        return Ok(());
    }
    if let Some(plain) = Plain::of_row(line, option) {
        put_line(text, plain.frame())?;
        return Ok(());
    }
    let Some(pdu) = read_row(line, option) else {
        return Err(NoAnswer::Refused(CaptureErr::Row(number)));
    };
    put_line(text, frame_for(&pdu))?;
    Ok(())
}

/// The digits of the frame that carries a value.
fn frame_for(pdu: &Pdu) -> Line
    requires { pdu.now.code < 16 }
    ensures digits { result ≡ encode_lower (written_frame pdu.now) }
    ensures short { length result < LONGEST }
{
    let mut frame = [0; FRAME];
    encode(pdu, &mut frame);
    let mut line = Line::new();
    line.put_digits(&frame);
    line
}

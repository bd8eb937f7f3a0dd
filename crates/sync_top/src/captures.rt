// What is found of captured frames, of captures and of rows.

ghost use Rattle.std.specs.Prelude.{ℕ, List, Result, IfOk};
ghost use Rattle.sync_text.specs.Gives.{Gives};
ghost use Rattle.capture_text.specs.declared.error.CaptureErr as frames;
ghost use Rattle.pcap_file.specs.declared.error.PcapErr as packets;
ghost use Rattle.sync_top.specs.Answer.{FramesAnswer};
ghost use Rattle.sync_top.specs.Forms.Captures.{IsCaptured, IsCapture};
ghost use Rattle.sync_top.specs.private.Work.{ends_in};

use crate::form::FramesForm;
use crate::found::{Finding, Found, done};
use crate::reply::numbered_refusal;
use capture_text::{CaptureErr, decode_lines, encode_rows};
use pcap_file::{PcapErr, decode_pcap, encode_pcap};
use std::alloc::Global;
use sync_ql::NetOption;
use sync_text::{NoAnswer, NoMemory, Text};

/// What is found of the bytes of captured frames or of rows.
pub(crate) fn frames_found(
    alloc: Global,
    what: FramesForm,
    option: NetOption,
    bytes: &[u8],
) -> Result<Found, NoMemory>
    ensures { IfOk result (λ found. FramesAnswer what option bytes.now (ends_in found.finding) found.text) }
{
    match what {
        FramesForm::Decode => captured(alloc, decode_lines(alloc, bytes, option)),
        FramesForm::Encode => captured(alloc, encode_rows(alloc, bytes, option)),
        FramesForm::PcapDecode => captured_packets(alloc, decode_pcap(alloc, bytes, option)),
        FramesForm::PcapEncode => captured(alloc, encode_pcap(alloc, bytes, option)),
    }
}

/// What is found of captured frames or rows: the text that they gave, or the line on the first that
/// is refused.
fn captured(alloc: Global, made: Result<Text, NoAnswer<CaptureErr>>) -> Result<Found, NoMemory>
    ensures { (whole : Result (List ℕ) frames.CaptureErr) → Gives made whole
        → IfOk result (λ found. IsCaptured whole (ends_in found.finding) found.text) }
{
    match made {
        Ok(text) => Ok(done(text)),
        Err(NoAnswer::NoMemory) => Err(NoMemory),
        Err(NoAnswer::Refused(refused)) => {
            let (number, line, error) = refused.numbers();
            Ok(Found {
                finding: Finding::BadFrames,
                text: numbered_refusal(alloc, b"bad frames ", number, Some(line), error)?,
            })
        }
    }
}

/// What is found of a capture: the rows that it gave, or the line on the first thing that is wrong
/// with it.
fn captured_packets(alloc: Global, made: Result<Text, NoAnswer<PcapErr>>) -> Result<Found, NoMemory>
    ensures { (whole : Result (List ℕ) packets.PcapErr) → Gives made whole
        → IfOk result (λ found. IsCapture whole (ends_in found.finding) found.text) }
{
    match made {
        Ok(text) => Ok(done(text)),
        Err(NoAnswer::NoMemory) => Err(NoMemory),
        Err(NoAnswer::Refused(refused)) => {
            let (number, record) = refused.numbers();
            Ok(Found {
                finding: Finding::BadFrames,
                text: numbered_refusal(alloc, b"bad capture ", number, record, None)?,
            })
        }
    }
}

//! Frames without an extended QL TLV, in the digits in which they are most often captured.
//!
//! Such a line differs from others by the source, the event flag and the code alone, and its row has
//! the source's digits as they stand. So it goes to its row, and the row to it, without octets.

ghost use Rattle.std.specs.Prelude.{◌≡◌, ◌<◌, ℕ, length, Some, IfSome, Ok};
ghost use Rattle.std.specs.List.{list_all};
ghost use Rattle.hex.specs.Hex.{encode_lower};
ghost use Rattle.esmc_frame.specs.Frame.{written_frame};
ghost use Rattle.capture_text.specs.Capture.{carried_at};
ghost use Rattle.capture_text.specs.Row.{row_of};
ghost use Rattle.capture_text.specs.Reading.{pdu_of};
ghost use Rattle.capture_text.specs.private.Plain.{is_lower_digit, flag_digits, IsSource, plain_pdu};

use crate::line::{LONGEST, Line};
use crate::reading::{SOURCE_DIGITS, codes_of_text, kind_and_rest};
use crate::row::kind_part;
use esmc_frame::FRAME;
use std::marker::Model;
use sync_ql::{NOT_ENHANCED, NetOption};

/// The lower case digits.
const DIGITS: &[u8; 16] = b"0123456789abcdef";

/// What a frame carries that has no extended QL TLV, with the digits of its source.
///
/// Contracts see what the frame carries.
#[derive(Drop)]
pub(crate) struct Plain<'a> {
    /// Lower case digits.
    source: &'a [u8; SOURCE_DIGITS],
    event: bool,
    code: u8,
}

impl<'a> Model for Plain<'a> {
    ghost use Rattle.std.specs.Prelude.{◌<◌};
    ghost use Rattle.esmc_frame.specs.declared.frame.Pdu.{Pdu};
    ghost use Rattle.capture_text.specs.private.Plain.{IsSource, plain_pdu};

    ghost Value = { Pdu };

    ghost view = { λ plain. plain_pdu plain.source.now plain.event plain.code };

    ghost invariant = { λ plain. IsSource plain.source.now × (plain.code < 16) };
}

impl<'a> Plain<'a> {
    /// What the frame on a line carries, if the line is as this frame is written.
    pub(crate) fn of_frame(line: &'a [u8]) -> Option<Plain<'a>>
        ensures { IfSome result (λ pdu. (number : ℕ) → carried_at number line.now ≡ Ok pdu) }
    {
        if line.len() != 2 * FRAME {
            return None;
        }
        let source = line[12..24].first_chunk()?;
        let code = char::from(line[55]).to_digit(16)?;
        let plain = Plain::of(source, line[41] == b'8', code as u8)?;
        if plain.frame().bytes() == line {
            Some(plain)
        } else {
            None
        }
    }

    /// What a row of three fields says, if its digits are in lower case.
    pub(crate) fn of_row(row: &'a [u8], option: NetOption) -> Option<Plain<'a>>
        ensures { IfSome result (λ pdu. pdu_of option row.now ≡ Some pdu) }
    {
        let (source, rest) = row.split_first_chunk()?;
        let (event, level) = kind_and_rest(rest)?;
        let both = codes_of_text(option, level)?;
        if both.enhanced != NOT_ENHANCED {
            return None;
        }
        Plain::of(source, event, both.code)
    }

    #[tactic(auto, using(crate::proofs::PlainLemmas::is_source))]
    fn of(source: &'a [u8; SOURCE_DIGITS], event: bool, code: u8) -> Option<Plain<'a>>
        requires { code < 16 }
        ensures { IfSome result (λ pdu. IsSource source.now × (pdu ≡ plain_pdu source.now event code)) }
    {
        if are_lower_digits(source) {
            Some(Plain {
                source,
                event,
                code,
            })
        } else {
            None
        }
    }

    /// The digits of the frame.
    pub(crate) fn frame(&self) -> Line
        ensures digits { result ≡ encode_lower (written_frame self.now) }
        ensures carried { (number : ℕ) → carried_at number result ≡ Ok self.now }
        ensures short { length result < LONGEST }
    {
        let source = self.source;
        let mut line = Line::new();
        line.put(b"0180c2000002");
        line.put(source);
        line.put(b"88090a0019a70001");
        line.put(flag_digits(self.event));
        line.put(b"000000010004");
        line.put(&[b'0', DIGITS[self.code as usize]]);
        line.put(&[b'0'; 64]);
        line
    }

    /// The row.
    pub(crate) fn row(&self, option: NetOption) -> Line
        ensures row { result ≡ row_of option self.now }
        ensures short { length result < LONGEST }
    {
        let source = self.source;
        let mut line = Line::new();
        line.put(source);
        line.put(kind_part(self.event));
        line.put_level(self.code, None, option);
        line
    }
}

/// The digits of the octet of version and event flag.
fn flag_digits(event: bool) -> &'static [u8; 2]
    ensures { result.now ≡ flag_digits event }
{
    if event { b"18" } else { b"10" }
}

fn are_lower_digits(bytes: &[u8]) -> bool
    ensures { result ≡ list_all is_lower_digit bytes.now }
{
    bytes.iter().all(|byte| is_lower_digit(*byte))
}

fn is_lower_digit(byte: u8) -> bool
    ensures { result ≡ is_lower_digit byte }
{
    matches!(byte, b'0'..=b'9' | b'a'..=b'f')
}

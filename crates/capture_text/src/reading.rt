//! One row, as it is read.

ghost use Rattle.std.specs.Prelude.{ℕ, ◌≡◌, ◌<◌, ◌↔◌, [], ◌∷◌, ◌++◌, codes, Some, IfSome, option_map, None};
ghost use Rattle.std.specs.Fmt.{decimal};
ghost use Rattle.sync_ql.specs.Level.{level_of_name};
ghost use Rattle.esmc_frame.specs.declared.frame.Pdu.{Pdu};
ghost use Rattle.capture_text.specs.Lines.{parts_left};
ghost use Rattle.capture_text.specs.private.Steps.{kind_and_rest};
ghost use Rattle.capture_text.specs.Reading.{IsRow, pdu_of, codes_of_text, code_of_number, count_of, tlv_of, behind_of, fields_of};

use crate::cutting::cut_at;
use esmc_frame::{Extended, Pdu};
use hex::FromHex;
use sync_ql::{NOT_ENHANCED, NetOption, code_of, enhanced_of, level_of_code, level_of_name};
use sync_text::read_number;

/// How many digits a source has.
pub(crate) const SOURCE_DIGITS: usize = 12;

/// The four-bit code and the enhanced code that the text of a level stands for.
#[derive(Clone, Copy)]
pub(crate) struct Codes {
    pub(crate) code: u8,
    pub(crate) enhanced: u8,
}

/// What a line says that is a row, as `put_row` writes it.
///
/// A row of three fields has a level whose enhanced code is ff, or `code-N`, and says no extended
/// QL TLV; a row of seven fields has any level, or `code-N`, and says one whose enhanced code is
/// that of the level, or ff. Hexadecimal digits may be of either case, and counts are numbers up to
/// 255. `code-N` is taken exactly for a code from 0 to 15 that the option's table hasn't. `None`
/// exactly where the line is no row.
/// This project's own.
#[tactic(auto, using(crate::proofs::StepLemmas::pdu_by_steps, crate::proofs::ReadingLemmas::read_is_row))]
pub fn read_row(line: &[u8], option: NetOption) -> Option<Pdu>
    ensures row { (pdu : Pdu) → (result ≡ Some pdu) ↔ IsRow option line.now pdu }
    ensures exact { result ≡ pdu_of option line.now }
    ensures code { IfSome result (λ pdu. pdu.code < 16) }
{
    let (source, rest) = line.split_at_checked(SOURCE_DIGITS)?;
    let source = <[u8; 6] as FromHex>::from_hex(source).ok()?;
    let (event, rest) = kind_and_rest(rest)?;
    let (level, behind) = cut_at(rest, b',');
    let both = codes_of_text(option, level)?;
    let extended = behind_of(both.enhanced, behind)?;
    Some(Pdu {
        source,
        event,
        code: both.code,
        extended,
    })
}

/// Whether the kind between the first two commas is that of an event message, and what stands
/// behind them.
pub(crate) fn kind_and_rest(text: &[u8]) -> Option<(bool, &[u8])>
    ensures { option_map (λ kind. (kind.0, kind.1.now)) result ≡ kind_and_rest text.now }
{
    if let Some(rest) = text.strip_prefix(b",info,") {
        return Some((false, rest));
    }
    let rest = text.strip_prefix(b",event,")?;
    Some((true, rest))
}

/// What stands behind the level: nothing, where it has no enhanced code, or an extended QL TLV.
#[tactic(auto, using(crate::proofs::ReadingLemmas::behind_is_tlv))]
fn behind_of(enhanced: u8, behind: Option<&[u8]>) -> Option<Option<Extended>>
    ensures { result ≡ behind_of enhanced (parts_left 44 behind.entry) }
{
    match behind {
        Some(fields) => tlv_of(enhanced, fields).map(Some),
        None if enhanced == NOT_ENHANCED => Some(None),
        None => None,
    }
}

/// What the four fields of an extended QL TLV say.
#[tactic(auto, unfolding(crate::specs::Reading::tlv_of))]
fn tlv_of(enhanced: u8, fields: &[u8]) -> Option<Extended>
    ensures { result ≡ tlv_of enhanced (fields_of fields.now) }
{
    let (clock, rest) = cut_at(fields, b',');
    let (flags, rest) = cut_at(rest?, b',');
    let (eeecs, rest) = cut_at(rest?, b',');
    let (eecs, rest) = cut_at(rest?, b',');
    match rest {
        Some(_) => None,
        None => tlv_with(enhanced, clock, flags, eeecs, eecs),
    }
}

#[tactic(auto, unfolding(crate::specs::Reading::tlv_of))]
fn tlv_with(enhanced: u8, clock: &[u8], flags: &[u8], eeecs: &[u8], eecs: &[u8]) -> Option<Extended>
    ensures { result ≡ tlv_of enhanced (clock.now ∷ flags.now ∷ eeecs.now ∷ eecs.now ∷ []) }
{
    let clock = <[u8; 8] as FromHex>::from_hex(clock).ok()?;
    let flags = <[u8; 1] as FromHex>::from_hex(flags).ok()?;
    let eeecs = count_of(eeecs)?;
    let eecs = count_of(eecs)?;
    Some(Extended {
        code: enhanced,
        clock,
        flags: flags[0],
        eeecs,
        eecs,
    })
}

/// A number up to 255.
fn count_of(text: &[u8]) -> Option<u8>
    ensures { result ≡ count_of text.now }
{
    let number = read_number(text)?;
    if number < 256 {
        Some(number as u8)
    } else {
        None
    }
}

/// The codes that the text of a level stands for: a level's name, or `code-N`.
pub(crate) fn codes_of_text(option: NetOption, text: &[u8]) -> Option<Codes>
    ensures codes { result ≡ codes_of_text option text.now }
    ensures four_bits { IfSome result (λ both. both.code < 16) }
{
    match level_of_name(option, text) {
        Some(level) => Some(Codes {
            code: code_of(level),
            enhanced: enhanced_of(level),
        }),
        None => Some(Codes {
            code: code_of_number(option, text)?,
            enhanced: NOT_ENHANCED,
        }),
    }
}

/// The code of four bits whose number this is and which no level has.
fn code_of_number(option: NetOption, text: &[u8]) -> Option<u8>
    ensures code { result ≡ code_of_number option text.now }
    ensures four_bits { IfSome result (λ code. code < 16) }
{
    let code = numbered_code(text)?;
    match level_of_code(option, code) {
        Some(_) => None,
        None => Some(code),
    }
}

/// N of `code-N`, from 0 to 15.
fn numbered_code(text: &[u8]) -> Option<u8>
    ensures text { IfSome result (λ code. (code < 16) × (text.now ≡ codes "code-" ++ decimal code)) }
    ensures found { (n : ℕ) → n < 16 → text.now ≡ codes "code-" ++ decimal n → result ≡ Some n }
{
    let number = read_number(text.strip_prefix(b"code-")?)?;
    if number < 16 {
        Some(number as u8)
    } else {
        None
    }
}

//! One row, as it is written.

ghost use Rattle.std.specs.Prelude.{◌≡◌, ◌<◌, ◌≤◌, ◌+◌, ◌↔◌, [], ◌∷◌, ◌++◌, codes, length, Some, OnOk, OnErr, IfSome};
ghost use Rattle.std.specs.Fmt.{decimal};
ghost use Rattle.capture_text.specs.Row.{kind_text, level_text, enhanced_in, row_of};
ghost use Rattle.capture_text.specs.Reading.{pdu_of, as_named, HasNamedCode};
ghost use Rattle.capture_text.specs.private.Steps.{AreOctets, behind_text};

use crate::line::{LONGEST, Line};
use esmc_frame::{Extended, Pdu};
use sync_ql::{NetOption, level_of_codes, name_of};
use sync_text::{NoMemory, Text};

/// Puts the row of what a frame carries at the end, without a line feed: `SOURCE,KIND,LEVEL`, and
/// `SOURCE,KIND,LEVEL,CLOCK,FLAGS,EEECS,EECS` where it has an extended QL TLV.
///
/// SOURCE is twelve lower case digits, KIND `info` or `event`, LEVEL the name of the level that the
/// codes name, and `code-N` where they name none; CLOCK is sixteen and FLAGS two lower case digits,
/// and the counts are numbers. A refused put leaves the text as it was.
/// This project's own; the level's name after G.781.
pub fn put_row(out: &mut Text, pdu: &Pdu, option: NetOption) -> Result<(), NoMemory>
    requires { pdu.now.code < 16 }
    ensures ok { OnOk result (out.new ≡ out.old ++ row_of option pdu.now) }
    ensures err { OnErr result (out.new ≡ out.old) }

    // What `read_row` answers of the row is the value, but for an enhanced code that isn't the one
    // of the level which is named, or ff where none is.
    ensures read_back { pdu_of option (row_of option pdu.now) ≡ Some (as_named option pdu.now) }
    ensures same { (as_named option pdu.now ≡ pdu.now) ↔ HasNamedCode option pdu.now }
{
    let row = row_for(pdu, option);
    out.put(row.bytes())
}

/// The row of what a frame carries.
pub(crate) fn row_for(pdu: &Pdu, option: NetOption) -> Line
    requires { pdu.now.code < 16 }
    ensures row { result ≡ row_of option pdu.now }
    ensures short { length result < LONGEST }
    ensures read_back { pdu_of option (row_of option pdu.now) ≡ Some (as_named option pdu.now) }
{
    let mut row = Line::new();
    row.put_digits(&pdu.source);
    row.put(kind_part(pdu.event));
    row.put_level(pdu.code, enhanced_in(&pdu.extended), option);
    row.put_behind(&pdu.extended);
    row
}

/// The kind between its commas.
pub(crate) fn kind_part(event: bool) -> &'static [u8]
    ensures part { result.now ≡ codes "," ++ kind_text event ++ codes "," }
    ensures short { length result.now ≤ 7 }
{
    if event { b",event," } else { b",info," }
}

/// The enhanced code of an extended QL TLV, if there is one.
fn enhanced_in(extended: &Option<Extended>) -> Option<u8>
    ensures { result ≡ enhanced_in extended.now }
{
    match extended {
        Some(extended) => Some(extended.code),
        None => None,
    }
}

impl Line {
    #[tactic(auto, using(crate::proofs::RowLemmas::length_name))]
    pub(crate) fn put_level(&mut self, code: u8, enhanced: Option<u8>, option: NetOption)
        requires room { length self.old + 8 ≤ LONGEST }
        requires code { code < 16 }
        ensures put { self.new ≡ self.old ++ level_text option code enhanced }
        ensures len { length self.new ≤ length self.old + 8 }
    {
        match level_of_codes(option, code, enhanced) {
            Some(level) => self.put(name_of(level).as_bytes()),
            None => self.put_code(code),
        }
    }

    #[tactic(auto, using(std::proofs::Common::append_assoc))]
    fn put_code(&mut self, code: u8)
        requires room { length self.old + 8 ≤ LONGEST }
        requires code { code < 16 }
        ensures put { self.new ≡ self.old ++ (codes "code-" ++ decimal code) }
        ensures len { length self.new ≤ length self.old + 8 }
    {
        self.put(b"code-");
        self.put_number(code);
    }

    #[tactic(auto, using(crate::proofs::RowLemmas::one_digit, crate::proofs::RowLemmas::two_digits, crate::proofs::RowLemmas::three_digits))]
    fn put_number(&mut self, number: u8)
        requires { length self.old + 3 ≤ LONGEST }
        ensures put { self.new ≡ self.old ++ decimal number }
        ensures len { length self.new ≤ length self.old + 3 }
    {
        if number < 10 {
            self.put(&[b'0' + number]);
        } else if number < 100 {
            self.put(&[b'0' + number / 10, b'0' + number % 10]);
        } else {
            self.put(&[
                b'0' + number / 100,
                b'0' + number / 10 % 10,
                b'0' + number % 10,
            ]);
        }
    }

    /// Puts the fields behind the level, if there are any, each with a comma before it.
    fn put_behind(&mut self, extended: &Option<Extended>)
        requires { length self.old + 28 ≤ LONGEST }
        ensures put { self.new ≡ self.old ++ behind_text extended.now }
        ensures len { length self.new ≤ length self.old + 28 }
        ensures octets { IfSome extended.now AreOctets }
    {
        if let Some(extended) = extended {
            self.put_tlv(extended);
        }
    }

    fn put_tlv(&mut self, extended: &Extended)
        requires { length self.old + 28 ≤ LONGEST }
        ensures put { self.new ≡ self.old ++ behind_text (Some extended.now) }
        ensures len { length self.new ≤ length self.old + 28 }
        ensures octets { AreOctets extended.now }
    {
        self.put(b",");
        self.put_digits(&extended.clock);
        self.put(b",");
        self.put_digits(&[extended.flags]);
        self.put(b",");
        self.put_number(extended.eeecs);
        self.put(b",");
        self.put_number(extended.eecs);
    }
}

// The text of a certificate.

ghost use Rattle.std.specs.Prelude.{◌≡◌, ◌++◌, ◌<◌, ◌≤◌, ◌^◌, length, Ok, IfOk, OnOk, IfSome};
ghost use Rattle.sync_topo.specs.Lines.{line_count};
ghost use Rattle.rank_cert.specs.Ranks.{IsRanked, RanksNoOther, rank_at};
ghost use Rattle.rank_cert.specs.CertificateText.{certificate_text, certificate_of, certificate_size, row_text};
ghost use Rattle.rank_cert.specs.private.Written.{line_text};

use crate::cert::Cert;
use std::alloc::Global;
use sync_text::{NoMemory, Text};
use sync_topo::{InputId, LineId, Plan};

/// The text of a certificate: the header `line,rank`, and a row for each nominated line, in order
/// of line number.
///
/// It is read back as the same certificate, and has at most 10 bytes and 174 for each link. This
/// project's own.
pub fn write_cert(alloc: Global, plan: &Plan, cert: &Cert) -> Result<Text, NoMemory>
    requires ranked { IsRanked plan.now cert.now }
    requires no_other { RanksNoOther plan.now cert.now }
    ensures text { IfOk result (λ text. text ≡ certificate_text plan.now cert.now) }
    ensures read_back { IfOk result (λ text. certificate_of plan.now text ≡ Ok cert.now) }
    ensures short { IfOk result (λ text. length text ≤ certificate_size plan.now) }
{
    let mut text = Text::new(alloc);
    text.put(b"line,rank\n")?;
    for number in 0..plan.lines() {
        put_line(alloc, &mut text, plan, cert, LineId(number))?;
    }
    Ok(text)
}

/// Puts the row of a line at the end of the text, if the line has a rank.
fn put_line(
    alloc: Global,
    text: &mut Text,
    plan: &Plan,
    cert: &Cert,
    line: LineId,
) -> Result<(), NoMemory>
    requires counted { length cert.now ≡ line_count plan.now }
    requires within { line.0 < line_count plan.now }
    ensures put { OnOk result (text.new ≡ text.old ++ line_text plan.now cert.now line.0) }
    ensures fits { OnOk result (IfSome (rank_at cert.now line.0) (λ rank. rank < 2 ^ 64)) }
{
    match cert.rank(line) {
        Some(rank) => put_row(alloc, text, plan, line, rank),
        None => Ok(()),
    }
}

/// Puts the row of a line and its rank at the end of the text.
fn put_row(
    alloc: Global,
    text: &mut Text,
    plan: &Plan,
    line: LineId,
    rank: u64,
) -> Result<(), NoMemory>
    requires { line.0 < line_count plan.now }
    ensures put { OnOk result (text.new ≡ text.old ++ row_text plan.now line.0 rank) }
    ensures fits { rank < 2 ^ 64 }
{
    plan.put_input_name(alloc, text, InputId::Line(line))?;
    text.put(b",")?;
    text.put_number(rank)?;
    text.put(b"\n")
}

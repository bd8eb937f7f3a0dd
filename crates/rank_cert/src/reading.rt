// The certificate of a text.

ghost use Rattle.std.specs.Prelude.{◌≡◌, ◌≢◌, ◌<◌, ◌^◌, ◌&&◌, [], false, length, is_none, option_map, None, Some, Ok, Err, IfOk, IfErr, IfSome, OnOk};
ghost use Rattle.csv_records.specs.FirstRefusal.{first_refusal};
ghost use Rattle.sync_topo.specs.Lines.{line_count, is_nominated};
ghost use Rattle.rank_cert.specs.Ranks.{Ranks, IsRanked, RanksNoOther, rank_at};
ghost use Rattle.rank_cert.specs.Rows.{rank_in_row, line_in_row};
ghost use Rattle.rank_cert.specs.CertificateText.{certificate_of, certificate_of_records, refusal_at, first_without, is_header, unless};
ghost use Rattle.csv_records.specs.Records.{records_of};
ghost use Rattle.rank_cert.specs.Rules.{IsFirstBroken, NamesLine, IsCertificateOf};
ghost use Rattle.rank_cert.specs.private.RowsTaken.{refusal_after, AreRanksAfter, AreRanksBy};
ghost use Rattle.sync_text.specs.Gives.{Gives, IfRefused, Refuses};

use crate::cert::Cert;
use crate::error::CertErr;
use csv_records::{Record, Records};
use std::alloc::Global;
use sync_text::{NoAnswer, read_number};
use sync_topo::{InputId, LineId, Plan};

/// The certificate of a text: a rank for each nominated line of the plan, and for no other line.
///
/// The records are comma-separated fields. The first is `line,rank`; each row after it has the name
/// of a nominated line and a rank from 0 to 2^64 - 1, in any order of lines. The refusal is the
/// first broken rule: `Header`, then for each row in order `Row`, `Line` or `Twice`, and after all
/// rows `Missing` for the lowest-numbered nominated line without a row. This project's own.
pub fn read_cert(alloc: Global, plan: &Plan, bytes: &[u8]) -> Result<Cert, NoAnswer<CertErr>>
    ensures exact { Gives result (certificate_of plan.now bytes.now) }
    ensures ranked { IfOk result (IsRanked plan.now) }
    ensures no_other { IfOk result (RanksNoOther plan.now) }

    // A refusal comes exactly where its rule is the first that is broken, unless out of memory.
    ensures refused { IfRefused result (IsFirstBroken plan.now (records_of bytes.now)) }
    ensures refuses { (e : CertErr) → IsFirstBroken plan.now (records_of bytes.now) e → Gives result (Err e) }
    ensures named { IfRefused result (NamesLine plan.now) }

    // Where no rule is broken, each nominated line has the rank of its row.
    ensures accepted { IfOk result (IsCertificateOf plan.now (records_of bytes.now)) }
    ensures accepts { (ranks : Ranks) → IsCertificateOf plan.now (records_of bytes.now) ranks → Gives result (Ok ranks) }
{
    let mut records = Records::of(alloc, bytes);
    cert_of(alloc, plan, &mut records)
}

/// The certificate of the records that are left.
#[tactic(auto, unfolding(crate::specs::CertificateText::certificate_of_records))]
fn cert_of(alloc: Global, plan: &Plan, records: &mut Records<'_>) -> Result<Cert, NoAnswer<CertErr>>
    requires fresh { records.old.spent ≡ false }
    requires few { length records.old.left < 2 ^ 64 }
    ensures exact { Gives result (certificate_of_records plan.now records.old.left) }
    ensures ranked { IfOk result (IsRanked plan.now) }
    ensures no_other { IfOk result (RanksNoOther plan.now) }
{
    if !records.advance()? || !is_header(records.taken()) {
        return Err(NoAnswer::Refused(CertErr::Header));
    }
    let mut cert = Cert::new(alloc, plan)?;
    match take_rows(&mut cert, plan, records) {
        Ok(()) => {}
        Err(error) => return Err(error),
    }
    match first_without(&cert, plan) {
        Some(line) => Err(NoAnswer::Refused(CertErr::Missing(line))),
        None => Ok(cert),
    }
}

/// The record is the header `line,rank`.
fn is_header(first: &Record) -> bool
    ensures { result ≡ is_header first.now }
{
    match first.pair() {
        Some((line, rank)) => line == b"line".as_slice() && rank == b"rank".as_slice(),
        None => false,
    }
}

/// Takes the ranks of all rows that are left.
fn take_rows(
    cert: &mut Cert,
    plan: &Plan,
    records: &mut Records<'_>,
) -> Result<(), NoAnswer<CertErr>>
    requires begun { AreRanksBy plan.now [] cert.old }
    requires fresh { records.old.spent ≡ false }
    requires few { length records.old.left < 2 ^ 64 }
    ensures sound { let rows = records.old.left in
        OnOk result (first_refusal (refusal_at plan.now rows) (length rows) ≡ None) }
    ensures taken { OnOk result (AreRanksBy plan.now records.old.left cert.new) }
    ensures refused { let rows = records.old.left in
        IfErr result (λ e. Refuses e (unless (first_refusal (refusal_at plan.now rows) (length rows)))) }
{
    let mut number = 0;
    while records.advance()? {
        number += 1;
        match take_row(cert, plan, records.taken(), number) {
            Ok(()) => {}
            Err(refused) => return Err(NoAnswer::Refused(refused)),
        }
    }
    Ok(())
}

/// Takes the rank of a row of this number, counted from 1.
#[tactic(auto, unfolding(crate::specs::private::RowsTaken::refusal_after))]
fn take_row(cert: &mut Cert, plan: &Plan, row: &Record, number: u64) -> Result<(), CertErr>
    requires { length cert.old ≡ line_count plan.now }
    ensures sound { OnOk result (refusal_after plan.now cert.old number row.now ≡ None) }
    ensures taken { OnOk result (AreRanksAfter plan.now cert.old row.now cert.new) }
    ensures refused { IfErr result (λ e. refusal_after plan.now cert.old number row.now ≡ Some e) }
{
    let Some(rank) = rank_in_row(row) else {
        return Err(CertErr::Row(number));
    };
    let Some(line) = line_in_row(plan, row) else {
        return Err(CertErr::Line(number));
    };
    if cert.rank(line).is_some() {
        return Err(CertErr::Twice(number));
    }
    cert.set(line, Some(rank));
    Ok(())
}

/// The rank of a row.
fn rank_in_row(row: &Record) -> Option<u64>
    ensures { result ≡ rank_in_row row.now }
{
    let (_, rank) = row.pair()?;
    read_number(rank)
}

/// The nominated line of a row.
fn line_in_row(plan: &Plan, row: &Record) -> Option<LineId>
    ensures line { option_map (λ line. line.0) result ≡ line_in_row plan.now row.now }
    ensures within { IfSome result (λ line. line.0 < line_count plan.now) }
{
    let (name, _) = row.pair()?;
    let line = plan.line_of_name(name)?;
    if plan.nominated(InputId::Line(line)) {
        Some(line)
    } else {
        None
    }
}

/// The lowest-numbered nominated line without a rank.
fn first_without(cert: &Cert, plan: &Plan) -> Option<LineId>
    requires { length cert.now ≡ line_count plan.now }
    ensures { option_map (λ line. line.0) result ≡ first_without plan.now cert.now }
{
    for number in 0..plan.lines() {
        let line = LineId(number);
        if lacks_rank(cert, plan, line) {
            return Some(line);
        }
    }
    None
}

/// The line is nominated and has no rank.
fn lacks_rank(cert: &Cert, plan: &Plan, line: LineId) -> bool
    requires counted { length cert.now ≡ line_count plan.now }
    requires within { line.0 < line_count plan.now }
    ensures { result ≡ (is_nominated plan.now line.0 && is_none (rank_at cert.now line.0)) }
{
    plan.nominated(InputId::Line(line)) && cert.rank(line).is_none()
}

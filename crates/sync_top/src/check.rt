ghost use Rattle.std.specs.Prelude.{◌≡◌, ◌++◌, IfOk, OnOk};
ghost use Rattle.sync_topo.specs.Hops.{hops_by};
ghost use Rattle.plan_texts.specs.Lines.{text_line};
ghost use Rattle.sync_top.specs.Forms.Check.{certificate_refusal, certificate_place, IsVerdictOver};
ghost use Rattle.sync_top.specs.Answer.{IsRanksReply};
ghost use Rattle.rank_cert.specs.Ranks.{IsRanked};
ghost use Rattle.rank_cert.specs.Rules.{NamesLine};
ghost use Rattle.sync_top.specs.private.Work.{ends_in};

use crate::form::RanksForm;
use crate::found::{Finding, Found, done, refuted};
use crate::reply::{put_number, refusal};
use plan_texts::{falls_text, line_text};
use rank_cert::{Cert, CertErr, Verdict, check_with, read_cert};
use std::alloc::Global;
use sync_text::{NoAnswer, NoMemory, Text};
use sync_topo::{InputId, Plan, ReturnRule};

/// The line on a certificate that is refused.
fn refusal_text(alloc: Global, plan: &Plan, refused: CertErr) -> Result<Text, NoMemory>
    requires line { NamesLine plan.now refused }
    ensures { IfOk result (λ text. text ≡ text_line (certificate_refusal plan.now refused)) }
{
    let mut text = refusal(alloc, b"bad certificate ", refused.number())?;
    put_place(alloc, &mut text, plan, refused)?;
    text.put(b"\n")?;
    Ok(text)
}

/// Puts the row of a certificate that is refused, or the line that it has no row for.
fn put_place(alloc: Global, text: &mut Text, plan: &Plan, refused: CertErr) -> Result<(), NoMemory>
    requires { NamesLine plan.now refused }
    ensures { OnOk result (text.new ≡ text.old ++ certificate_place plan.now refused) }
{
    match refused {
        CertErr::Header => Ok(()),
        CertErr::Row(row) | CertErr::Line(row) | CertErr::Twice(row) => put_number(text, row),
        CertErr::Missing(line) => {
            text.put(b" ")?;
            plan.put_input_name(alloc, text, InputId::Line(line))
        }
    }
}

/// What is found of the bytes of a certificate: whether its ranks rise, or the line on why it is
/// refused.
pub(crate) fn ranks_found(
    alloc: Global,
    what: RanksForm,
    plan: &Plan,
    bytes: &[u8],
) -> Result<Found, NoMemory>
    ensures { IfOk result (λ found. IsRanksReply what plan.now bytes.now (ends_in found.finding) found.text) }
{
    match read_cert(alloc, plan, bytes) {
        Ok(cert) => match what {
            RanksForm::Check => judged(alloc, ReturnRule::Barred, plan, &cert),
            RanksForm::PrioCheck => judged(alloc, ReturnRule::Allowed, plan, &cert),
        },
        Err(NoAnswer::NoMemory) => Err(NoMemory),
        Err(NoAnswer::Refused(refused)) => Ok(Found {
            finding: Finding::BadCert,
            text: refusal_text(alloc, plan, refused)?,
        }),
    }
}

/// What is found of the ranks of a certificate, where timing may return over its link or bundle, or
/// mayn't.
fn judged(alloc: Global, returns: ReturnRule, plan: &Plan, cert: &Cert) -> Result<Found, NoMemory>
    requires { IsRanked plan.now cert.now }
    ensures { IfOk result (λ found. IsVerdictOver (hops_by returns plan.now) plan.now cert.now
        (ends_in found.finding) found.text) }
{
    match check_with(returns, plan, cert) {
        Verdict::Rising => Ok(done(line_text(alloc, b"accepted")?)),
        Verdict::Falls(from, to) => Ok(refuted(falls_text(alloc, plan, from, to)?)),
    }
}

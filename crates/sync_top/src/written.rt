// The texts of plans, certificates and forced switches, none of which is too long for a file that goes
// with its plan.

ghost use Rattle.std.specs.Prelude.{◌≡◌, ◌≤◌, ◌<◌, length, map, Ok, IfOk};
ghost use Rattle.std.specs.List.{All};
ghost use Rattle.sync_topo.specs.Lines.{line_count, receiver_of};
ghost use Rattle.sync_topo.specs.Sizes.{size_of};
ghost use Rattle.net_rules.specs.Walks.{AreApart};
ghost use Rattle.event_file.specs.EventText.{events_of};
ghost use Rattle.plan_file.specs.IsPlanText.{IsPlanText};
ghost use Rattle.plan_file.specs.Spelling.{plan_text as text_of_plan};
ghost use Rattle.prio_mode.specs.ForcedLoop.{forced_on};
ghost use Rattle.prio_mode.specs.ForcedText.{forced_text as text_of_forced};
ghost use Rattle.rank_cert.specs.Ranks.{IsRanked, RanksNoOther};
ghost use Rattle.rank_cert.specs.CertificateText.{certificate_of, certificate_text as text_of_ranks};
ghost use Rattle.sync_top.specs.Reading.{file_limit};

use plan_file::write_plan;
use prio_mode::write_forced;
use rank_cert::{Cert, write_cert};
use std::alloc::Global;
use sync_text::{NoMemory, Text};
use sync_topo::{LineId, Plan};

/// The text of a plan.
pub(crate) fn plan_text(alloc: Global, plan: &Plan) -> Result<Text, NoMemory>
    ensures text { IfOk result (IsPlanText plan.now) }
    ensures spelled { IfOk result (λ text. text ≡ text_of_plan plan.now) }
    ensures fits { IfOk result (λ text. length text ≤ file_limit (size_of plan.now)) }
{
    // Every plan keeps the rules.
    let _lines = plan.lines();
    write_plan(alloc, plan)
}

/// The text of a certificate.
pub(crate) fn ranks_text(alloc: Global, plan: &Plan, cert: &Cert) -> Result<Text, NoMemory>
    requires ranked { IsRanked plan.now cert.now }
    requires no_other { RanksNoOther plan.now cert.now }
    ensures text { IfOk result (λ text. text ≡ text_of_ranks plan.now cert.now) }
    ensures read_back { IfOk result (λ text. certificate_of plan.now text ≡ Ok cert.now) }
    ensures fits { IfOk result (λ text. length text ≤ file_limit (size_of plan.now)) }
{
    // Every plan keeps the rules.
    let _lines = plan.lines();
    write_cert(alloc, plan, cert)
}

/// The event file of forced switches to some lines at 0, in their order.
pub(crate) fn forced_text(alloc: Global, plan: &Plan, lines: &[LineId]) -> Result<Text, NoMemory>
    requires within { All (λ line. line < line_count plan.now) (map (λ line. line.0) lines.now) }
    requires apart { AreApart (map (receiver_of plan.now) (map (λ line. line.0) lines.now)) }
    ensures text { IfOk result (λ text. text ≡ text_of_forced plan.now (map (λ line. line.0) lines.now)) }
    ensures read_back { IfOk result (λ text. events_of plan.now text
        ≡ Ok (forced_on (map (λ line. line.0) lines.now))) }
    ensures fits { IfOk result (λ text. length text ≤ file_limit (size_of plan.now)) }
{
    // Every plan keeps the rules.
    let _lines = plan.lines();
    write_forced(alloc, plan, lines)
}

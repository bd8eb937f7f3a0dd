// From the bytes of a file to its plan.

ghost use Rattle.std.specs.Prelude.{◌≡◌, None, Ok, Err, IfOk};
ghost use Rattle.toml.specs.View.{table_view};
ghost use Rattle.sync_topo.specs.declared.error.PlanErr.{PlanErr};
ghost use Rattle.sync_topo.specs.declared.place.Place.{Place};
ghost use Rattle.sync_topo.specs.WellFormed.{IsWellFormed};
ghost use Rattle.plan_rows.specs.declared.error.PlanFileErr.TheVariants as refusal;
ghost use Rattle.toml.specs.Data.{Members};
ghost use Rattle.plan_rows.specs.declared.version.Version.TheVariants.{One, Two};
ghost use Rattle.plan_rows.specs.Rows.{NamesNoBundle, rows_in};
ghost use Rattle.sync_text.specs.Chain.{found};
ghost use Rattle.plan_rows.specs.Rules.{IsFirstBroken};
ghost use Rattle.plan_file.specs.PlanText.{document_of, rows_in_file, plan_of_size, OfDocument, GivesRows};
ghost use Rattle.sync_text.specs.Gives.{Gives};
ghost use Rattle.plan_rows.specs.Gives.{RefusesWhere};
ghost use Rattle.plan_rows.specs.private.Gives.{GivesBy};

use plan_lines::{Stop, plain_rows};
use plan_rows::{PlanFileErr, rows_of};
use std::alloc::Global;
use sync_text::NoAnswer;
use sync_topo::{Plan, PlanRows, Size};
use toml::Table;

/// The plan of a file, which may be of no more than a size.
///
/// A refusal tells the first rule that is broken, with its place. First `Syntax`, where the bytes are
/// no TOML document in UTF-8. Then each table in order, the head, the elements, the links and the
/// sources: `Key` where it has an unknown key or lacks one that it must have, and otherwise `Kind`
/// where it is no table or a value is not of its key's kind. Then `Plan`, the refusal of the rows in
/// that size. After TOML 1.1; the keys are this project's own.
pub fn read_plan(alloc: Global, bytes: &[u8], size: Size) -> Result<Plan, NoAnswer<PlanFileErr>>
    ensures exact { Gives result (plan_of_size size bytes.now) }
    ensures well_formed { IfOk result (λ plan. IsWellFormed plan) }

    // A plan comes only where no table breaks a rule, and it is the plan of the rows.
    ensures ok { IfOk result (λ plan. GivesRows size bytes.now (Ok plan)) }

    // Unless out of memory, a table is refused exactly where it breaks that rule and no table before
    // it breaks one, and the rows are refused exactly where no table breaks a rule.
    ensures syntax { RefusesWhere result refusal.Syntax (document_of bytes.now ≡ None) }
    ensures key { (place : Place) → RefusesWhere result (refusal.Key place)
        (OfDocument bytes.now (λ document. IsFirstBroken document place (refusal.Key place))) }
    ensures kind { (place : Place) → RefusesWhere result (refusal.Kind place)
        (OfDocument bytes.now (λ document. IsFirstBroken document place (refusal.Kind place))) }
    ensures rows { (error : PlanErr) → RefusesWhere result (refusal.Plan error) (GivesRows size bytes.now (Err error)) }

    // A document that names no bundle says the same in both versions.
    ensures versions { (document : Members) → NamesNoBundle document
        → rows_in Two document ≡ rows_in One document }
{
    plan_in(alloc, bytes, size)
}

/// The plan of a file, step by step.
#[tactic(auto, unfolding(crate::specs::PlanText::plan_of_size))]
fn plan_in(alloc: Global, bytes: &[u8], size: Size) -> Result<Plan, NoAnswer<PlanFileErr>>
    ensures exact { Gives result (plan_of_size size bytes.now) }
    ensures well_formed { IfOk result (λ plan. IsWellFormed plan) }
{
    let rows = rows_in(alloc, bytes)?;
    match Plan::sized(alloc, size, rows) {
        Ok(plan) => Ok(plan),
        Err(NoAnswer::NoMemory) => Err(NoAnswer::NoMemory),
        Err(NoAnswer::Refused(refused)) => Err(NoAnswer::Refused(PlanFileErr::Plan(refused))),
    }
}

/// The rows that a file says: those of its lines where they are plain, and else those of its document,
/// which tells what is refused, and where.
fn rows_in(alloc: Global, bytes: &[u8]) -> Result<PlanRows, NoAnswer<PlanFileErr>>
    ensures { Gives result (rows_in_file bytes.now) }
{
    match rows_of_lines(alloc, bytes) {
        Ok(rows) => Ok(rows),
        Err(Stop::NoMemory) => Err(NoAnswer::NoMemory),
        Err(Stop::NotPlain) => rows_by_document(alloc, bytes),
    }
}

/// The rows of plain lines.
fn rows_of_lines(alloc: Global, bytes: &[u8]) -> Result<PlanRows, Stop>
    ensures { IfOk result (λ rows. rows_in_file bytes.now ≡ Ok rows) }
{
    match std::str::from_utf8(bytes) {
        Ok(text) => plain_rows(alloc, text),
        Err(_) => Err(Stop::NotPlain),
    }
}

/// The rows of a document, which is used up before a plan is made of them.
fn rows_by_document(alloc: Global, bytes: &[u8]) -> Result<PlanRows, NoAnswer<PlanFileErr>>
    ensures { Gives result (rows_in_file bytes.now) }
{
    let document = document_of(alloc, bytes)?;
    rows_of(alloc, document)
}

/// The TOML document that the bytes are.
fn document_of(alloc: Global, bytes: &[u8]) -> Result<Table, NoAnswer<PlanFileErr>>
    ensures { GivesBy table_view result (found (document_of bytes.now) refusal.Syntax) }
{
    match toml::table_from_slice(alloc, bytes) {
        Ok(document) => Ok(document),
        Err(error) => {
            if error.is_memory() {
                Err(NoAnswer::NoMemory)
            } else {
                Err(NoAnswer::Refused(PlanFileErr::Syntax))
            }
        }
    }
}

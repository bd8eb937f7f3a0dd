ghost use Rattle.std.specs.Prelude.{◌≡◌, ◌++◌, IfOk, OnOk, codes};
ghost use Rattle.sync_edge.specs.Contents.{KeepsFolder};
ghost use Rattle.plan_texts.specs.Lines.{text_line};
ghost use Rattle.sync_top.specs.Reading.{place_text, plan_and_file, plan_in, plan_place, plan_refusal, rows_refusal, section_name, two_files};
ghost use Rattle.sync_top.specs.Answer.{outside_of};
ghost use Rattle.sync_top.specs.private.FormSeen.{named};
ghost use Rattle.sync_top.specs.private.Work.{Gets, HasRead};

use crate::form::PlanName;
use crate::input::file;
use crate::reply::{Reply, Stop, put_number, refusal};
use crate::status::Status;
use plan_file::{PlanFileErr, read_plan};
use std::alloc::Global;
use sync_edge::Folder;
use sync_text::{NoAnswer, NoMemory, Text};
use sync_topo::{Place, Plan, PlanErr, Section};

/// The plan of a file, which may be of no more than the size that the words allow.
pub(crate) fn plan_in<F: Folder>(
    alloc: Global,
    folder: &mut F,
    plan: PlanName<'_>,
) -> Result<Plan, Stop>
    ensures gets { Gets (λ plan. plan) (outside_of F.contents F.steady F.faults folder.old folder.new)
        (F.tries folder.old) (F.tries folder.new) result (plan_in (named plan.entry)) }
    ensures keeps { KeepsFolder F.contents F.steady F.faults folder.old folder.new }
{
    let bytes = file(alloc, folder, plan.size, plan.name)?;
    match read_plan(alloc, bytes.bytes(), plan.size) {
        Ok(plan) => Ok(plan),
        Err(NoAnswer::NoMemory) => Err(Stop::NoMemory),
        Err(NoAnswer::Refused(refused)) => Err(Stop::Ended(Reply {
            status: Status::BadPlan,
            text: refusal_text(alloc, refused)?,
        })),
    }
}

/// The plan of a file and the bytes of another, which may be as long as the plan's size says, in this
/// order.
pub(crate) fn plan_and_file<F: Folder>(
    alloc: Global,
    folder: &mut F,
    plan: PlanName<'_>,
    name: &str,
) -> Result<(Plan, Text), Stop>
    ensures read { HasRead (two_files (plan_in (named plan.entry)) (plan_and_file (named plan.entry) name.now))
        (λ read. (read.0, read.1)) (outside_of F.contents F.steady F.faults folder.old folder.new) (F.tries folder.old) (F.tries folder.new) result }
    ensures keeps { KeepsFolder F.contents F.steady F.faults folder.old folder.new }
{
    let plan = plan_in(alloc, folder, plan)?;
    match file(alloc, folder, plan.size(), name) {
        Ok(bytes) => Ok((plan, bytes)),
        Err(stop) => Err(stop),
    }
}

/// The line on a plan that is refused.
fn refusal_text(alloc: Global, refused: PlanFileErr) -> Result<Text, NoMemory>
    ensures { IfOk result (λ text. text ≡ text_line (plan_refusal refused)) }
{
    let mut text = refusal(alloc, b"bad plan ", refused.number())?;
    put_where(&mut text, refused)?;
    text.put(b"\n")?;
    Ok(text)
}

/// Puts where a plan is refused, and for its rows the number of the rule that they break before.
fn put_where(text: &mut Text, refused: PlanFileErr) -> Result<(), NoMemory>
    ensures { OnOk result (text.new ≡ text.old ++ plan_place refused) }
{
    match refused {
        PlanFileErr::Syntax => Ok(()),
        PlanFileErr::Key(place) | PlanFileErr::Kind(place) => put_place(text, place),
        PlanFileErr::Plan(error) => put_rows_refusal(text, error),
    }
}

/// Puts the number of the rule that a plan's rows break, and the row that breaks it.
fn put_rows_refusal(text: &mut Text, error: PlanErr) -> Result<(), NoMemory>
    ensures { OnOk result (text.new ≡ text.old ++ rows_refusal error) }
{
    put_number(text, u64::from(error.number()))?;
    put_place(text, error.place())
}

/// Puts a place behind a space: its section and its row.
fn put_place(text: &mut Text, place: Place) -> Result<(), NoMemory>
    ensures { OnOk result (text.new ≡ text.old ++ codes " " ++ place_text place) }
{
    text.put(b" ")?;
    text.put(section_name(place.section).as_bytes())?;
    put_number(text, place.row)
}

/// A section by its name.
fn section_name(section: Section) -> &'static str
    ensures { result.now ≡ section_name section }
{
    match section {
        Section::Head => "head",
        Section::Elements => "element",
        Section::Links => "link",
        Section::Sources => "source",
    }
}

// The work of the forms: what they read, and the reply with what is found of that.

ghost use Rattle.std.specs.Prelude.{◌≡◌, ◌≤◌, ℕ, Some, None, IfOk};
ghost use Rattle.sync_edge.specs.Contents.{KeepsFolder};
ghost use Rattle.sync_top.specs.Form.{on_plan, on_file, on_frames, on_ladder, node};
ghost use Rattle.sync_top.specs.private.FormSeen.{named, IsFileTimed, IsTimed};
ghost use Rattle.sync_top.specs.Answer.{outside_of, FileAnswer, Outside};
ghost use Rattle.sync_top.specs.private.Work.{ends_in, Works};

use crate::captures::frames_found;
use crate::check::ranks_found;
use crate::form::{FileForm, FramesForm, LadderForm, PlanForm, PlanName};
use crate::found::{Found, replied};
use crate::input::file;
use crate::ladder::ladder_found;
use crate::node::{node_bytes, replayed};
use crate::plan_input::{plan_and_file, plan_in};
use crate::plans::plan_found;
use crate::protecting::groups_found;
use crate::reply::{Reply, Stop};
use crate::sim::events_found;
use crate::status::Status;
use crate::studying::cases_found;
use plan_texts::line_text;
use std::alloc::Global;
use std::thread::Threads;
use sync_edge::Folder;
use sync_ql::NetOption;
use sync_ql::limits::LAST_MILLISECOND;
use sync_sweep::Gate;
use sync_text::NoMemory;
use sync_topo::{MOST_ELEMENTS, Plan, Size};

/// The work of a form on a plan.
pub(crate) fn on_plan<R: Threads + Sync, F: Folder, G: Gate + Sync>(
    rt: &R,
    alloc: Global,
    folder: &mut F,
    what: PlanForm,
    plan: PlanName<'_>,
    gate: &G,
) -> Result<Reply, Stop>
    requires timed { IsTimed what }
    ensures works { Works (Some (on_plan what (named plan.entry)))
        (outside_of F.contents F.steady F.faults folder.old folder.new) (F.tries folder.old) (F.tries folder.new) result }
    ensures keeps { KeepsFolder F.contents F.steady F.faults folder.old folder.new }
{
    match plan_in(alloc, folder, plan) {
        Ok(plan) => replied(plan_found(rt, alloc, what, &plan, gate)),
        Err(stop) => Err(stop),
    }
}

/// The work of a form on a plan and a file.
pub(crate) fn on_file<R: Threads + Sync, F: Folder, G: Gate + Sync>(
    rt: &R,
    alloc: Global,
    folder: &mut F,
    what: FileForm,
    plan: PlanName<'_>,
    name: &str,
    gate: &G,
) -> Result<Reply, Stop>
    requires timed { IsFileTimed what }
    ensures works { Works (Some (on_file what (named plan.entry) name.now))
        (outside_of F.contents F.steady F.faults folder.old folder.new) (F.tries folder.old) (F.tries folder.new) result }
    ensures keeps { KeepsFolder F.contents F.steady F.faults folder.old folder.new }
{
    match plan_and_file(alloc, folder, plan, name) {
        Ok((plan, bytes)) => replied(file_found(rt, alloc, what, &plan, bytes.bytes(), gate)),
        Err(stop) => Err(stop),
    }
}

/// What is found of the bytes of a file that goes with a plan.
fn file_found<R: Threads + Sync, G: Gate + Sync>(
    rt: &R,
    alloc: Global,
    what: FileForm,
    plan: &Plan,
    bytes: &[u8],
    gate: &G,
) -> Result<Found, NoMemory>
    requires timed { IsFileTimed what }
    ensures { IfOk result (λ found. FileAnswer what plan.now bytes.now (ends_in found.finding) found.text) }
{
    match what {
        FileForm::Ranks(what) => ranks_found(alloc, what, plan, bytes),
        FileForm::Groups => groups_found(alloc, plan, bytes),
        FileForm::Events(what, until) => events_found(alloc, what, plan, bytes, until),
        FileForm::Study(until) => cases_found(rt, alloc, plan, bytes, until, gate),
    }
}

/// The work of a form on captured frames or rows.
pub(crate) fn on_frames<F: Folder>(
    alloc: Global,
    folder: &mut F,
    what: FramesForm,
    option: NetOption,
    name: &str,
) -> Result<Reply, Stop>
    ensures works { Works (Some (on_frames what option name.now))
        (outside_of F.contents F.steady F.faults folder.old folder.new) (F.tries folder.old) (F.tries folder.new) result }
    ensures keeps { KeepsFolder F.contents F.steady F.faults folder.old folder.new }
{
    match file(alloc, folder, Size::Standard, name) {
        Ok(bytes) => replied(frames_found(alloc, what, option, bytes.bytes())),
        Err(stop) => Err(stop),
    }
}

/// The work of `node`.
pub(crate) fn node<F: Folder>(
    alloc: Global,
    folder: &mut F,
    plan: PlanName<'_>,
    element: &str,
    name: &str,
    until: u64,
) -> Result<Reply, Stop>
    requires in_range { until ≤ LAST_MILLISECOND }
    ensures works { Works (Some (node (named plan.entry) element.now name.now until))
        (outside_of F.contents F.steady F.faults folder.old folder.new) (F.tries folder.old) (F.tries folder.new) result }
    ensures keeps { KeepsFolder F.contents F.steady F.faults folder.old folder.new }
{
    match node_bytes(alloc, folder, plan, element, name) {
        Ok((plan, element, bytes)) => {
            replied(replayed(alloc, &plan, element, bytes.bytes(), until))
        }
        Err(stop) => Err(stop),
    }
}

/// The work of a form on a ladder. It reads no file.
pub(crate) fn on_ladder(alloc: Global, what: LadderForm, elements: u32) -> Result<Reply, Stop>
    requires least { 2 ≤ elements }
    requires greatest { elements ≤ MOST_ELEMENTS }
    ensures works { (outside : Outside) → (tried : ℕ) → outside.now ≡ outside.before
        → Works (Some (on_ladder what elements)) outside tried tried result }
{
    replied(ladder_found(alloc, what, elements))
}

/// The answer to words that are no form.
pub(crate) fn no_form(alloc: Global) -> Result<Reply, Stop>
    ensures works { (outside : Outside) → (tried : ℕ) → outside.now ≡ outside.before
        → Works None outside tried tried result }
{
    match line_text(alloc, b"usage") {
        Ok(text) => Ok(Reply {
            status: Status::Usage,
            text,
        }),
        Err(_) => Err(Stop::NoMemory),
    }
}

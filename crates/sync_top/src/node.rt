ghost use Rattle.std.specs.Prelude.{◌≢◌, ◌<◌, ◌≤◌, ℕ, List, Some, IfOk, IsErr, length};
ghost use Rattle.sync_edge.specs.Contents.{KeepsFolder};
ghost use Rattle.sync_top.specs.Reading.{two_files};
ghost use Rattle.sync_topo.specs.Topology.{Topology};
ghost use Rattle.node_replay.specs.Sent.{IsSentText};
ghost use Rattle.sync_top.specs.Forms.Node.{element_in, element_of_plan, received_in, node_bytes, IsNodeReply};
ghost use Rattle.sync_top.specs.Answer.{outside_of};
ghost use Rattle.sync_top.specs.private.FormSeen.{named};
ghost use Rattle.sync_top.specs.private.Work.{Gets, HasRead, ends_in, stopped_in};

use crate::form::PlanName;
use crate::found::{Finding, Found, done};
use crate::input::file;
use crate::plan_input::plan_in;
use crate::reply::{Reply, Stop, numbered_refusal};
use crate::status::Status;
use node_replay::{NodeEnd, Replayed, replay};
use std::alloc::Global;
use sync_edge::Folder;
use sync_ql::limits::LAST_MILLISECOND;
use sync_text::{NoAnswer, NoMemory, Text};
use sync_topo::Plan;

/// The number by which it is printed that no element of the plan has the name that was given, behind
/// those of a file's refusals. This project's own.
pub(crate) const UNKNOWN_ELEMENT: u8 = 50;

/// An element of a plan, and then the bytes of a file.
fn received_in<F: Folder>(
    alloc: Global,
    folder: &mut F,
    plan: &Plan,
    element: &str,
    name: &str,
) -> Result<(u32, Text), Stop>
    ensures gets { Gets (λ read. (read.0, read.1)) (outside_of F.contents F.steady F.faults folder.old folder.new)
        (F.tries folder.old) (F.tries folder.new) result (received_in plan.now element.now name.now) }
    ensures no_plan { stopped_in result ≢ Some Status.BadPlan }
    ensures keeps { KeepsFolder F.contents F.steady F.faults folder.old folder.new }
    ensures none { IsErr (element_in plan.now element.now) → F.tries folder.new ≤ F.tries folder.old }
    ensures within { IfOk result (λ read. read.0 < length plan.now.elements) }
{
    let Some(element) = plan.element_of_name(element.as_bytes()) else {
        return Err(Stop::Ended(Reply {
            status: Status::BadFrames,
            text: numbered_refusal(alloc, b"bad node ", UNKNOWN_ELEMENT, None, None)?,
        }));
    };
    let bytes = file(alloc, folder, plan.size(), name)?;
    Ok((element, bytes))
}

/// The plan, its element and the bytes of a file, in this order.
pub(crate) fn node_bytes<F: Folder>(
    alloc: Global,
    folder: &mut F,
    plan: PlanName<'_>,
    element: &str,
    name: &str,
) -> Result<(Plan, u32, Text), Stop>
    ensures read { HasRead (two_files (element_of_plan (named plan.entry) element.now) (node_bytes (named plan.entry) element.now name.now))
        (λ read. (read.0, read.1, read.2)) (outside_of F.contents F.steady F.faults folder.old folder.new) (F.tries folder.old) (F.tries folder.new) result }
    ensures keeps { KeepsFolder F.contents F.steady F.faults folder.old folder.new }
    ensures within { IfOk result (λ read. read.1 < length read.0.elements) }
{
    let plan = plan_in(alloc, folder, plan)?;
    let (element, bytes) = received_in(alloc, folder, &plan, element, name)?;
    Ok((plan, element, bytes))
}

/// What is found of an element of a plan and the bytes of its file: the frames that it sends.
pub(crate) fn replayed(
    alloc: Global,
    plan: &Plan,
    element: u32,
    bytes: &[u8],
    until: u64,
) -> Result<Found, NoMemory>
    requires within { element < length plan.now.elements }
    requires in_range { until ≤ LAST_MILLISECOND }
    ensures { IfOk result (λ found. IsNodeReply plan.now element bytes.now until (ends_in found.finding) found.text) }
{
    match replay(alloc, plan, element, bytes, until) {
        Ok(frames) => Ok(sent(frames)),
        Err(NoAnswer::NoMemory) => Err(NoMemory),
        Err(NoAnswer::Refused(refused)) => {
            let (number, line, error) = refused.numbers();
            Ok(Found {
                finding: Finding::BadFrames,
                text: numbered_refusal(alloc, b"bad node ", number, Some(line), error)?,
            })
        }
    }
}

/// What is found of the frames that were made.
fn sent(replayed: Replayed) -> Found
    ensures { (plan : Topology) → (element until : ℕ) → (bytes : List ℕ) →
        IsSentText plan element bytes until replayed → IsNodeReply plan element bytes until (ends_in result.finding) result.text }
{
    match replayed.end {
        NodeEnd::Until => done(replayed.text),
        NodeEnd::Stopped(_) => Found {
            finding: Finding::Stopped,
            text: replayed.text,
        },
    }
}

ghost use Rattle.std.specs.Prelude.{◌≡◌, ◌≢◌, ◌↔◌, ◌+◌, ◌≤◌, map, None, false, IfOk, IfSome, IsTrue};
ghost use Rattle.std.specs.String.{string_bytes};
ghost use Rattle.std.specs.Io.KnownBytes.{Appends};
ghost use Rattle.sync_edge.specs.Contents.{KeepsFolder};
ghost use Rattle.sync_edge.specs.Faults.{Rose};
ghost use Rattle.sync_top.specs.Status.{OnAnswer};
ghost use Rattle.sync_top.specs.Form.{form_of};
ghost use Rattle.sync_top.specs.Answer.{outside_of, file_count, reads_file, IsAnswer, MissesFile, PlanEndsReading, HasFiles, Delivers, IsCut, MayFault, fault_text};
ghost use Rattle.net_rules.specs.Safety.{IsLoopFree};
ghost use Rattle.sync_top.specs.LoopFree.{IsCheckedLoopFree};
ghost use Rattle.sync_top.specs.ChainBounds.{IsBoundedByChains};
ghost use Rattle.sync_top.specs.Protection.{IsHoldingOut};
ghost use Rattle.sync_top.specs.Agreement.{IsComingToRest};
ghost use Rattle.sync_top.specs.Survival.{Protects, IsSurvivor};
ghost use Rattle.sync_top.specs.Forms.Priority.{IsCheckedForPriority};
ghost use Rattle.sync_top.specs.private.Work.{EndsIn, Works};

use crate::form::{Form, form_of};
use crate::reply::{Reply, Stop};
use crate::status::Status;
use crate::works::{no_form, node, on_file, on_frames, on_ladder, on_plan};
use std::alloc::Global;
use std::thread::Threads;
use sync_edge::{Folder, Sink, write_all};
use sync_sweep::Gate;
use sync_text::NoMemory;

/// The work that the words ask for.
fn work<R: Threads + Sync, F: Folder, G: Gate + Sync>(
    rt: &R,
    alloc: Global,
    words: &[String],
    folder: &mut F,
    gate: &G,
) -> Result<Reply, Stop>
    ensures works { Works (form_of (map string_bytes words.now))
        (outside_of F.contents F.steady F.faults folder.old folder.new) (F.tries folder.old) (F.tries folder.new) result }
    ensures keeps { KeepsFolder F.contents F.steady F.faults folder.old folder.new }
    ensures no_call { reads_file (form_of (map string_bytes words.now)) ≡ false → folder.new ≡ folder.old }
{
    match form_of(words) {
        Some(Form::OnPlan(what, plan)) => on_plan(rt, alloc, folder, what, plan, gate),
        Some(Form::OnFile(what, plan, name)) => {
            on_file(rt, alloc, folder, what, plan, name, gate)
        }
        Some(Form::OnFrames(what, option, name)) => on_frames(alloc, folder, what, option, name),
        Some(
            Form::Node {
                plan,
                element,
                file,
                until,
            },
        ) => node(alloc, folder, plan, element, file, until),
        Some(Form::OnLadder(what, n)) => on_ladder(alloc, what, n),
        None => no_form(alloc),
    }
}

/// The reply to the words.
#[tactic(auto, unfolding(crate::specs::private::Work::Works))]
fn reply_to<R: Threads + Sync, F: Folder, G: Gate + Sync>(
    rt: &R,
    alloc: Global,
    words: &[String],
    folder: &mut F,
    gate: &G,
) -> Result<Reply, NoMemory>
    ensures ends { IfOk result (λ reply. EndsIn (IsAnswer (map string_bytes words.now)) (MissesFile (map string_bytes words.now))
        (outside_of F.contents F.steady F.faults folder.old folder.new) reply.status reply.text) }
    ensures usage { IfOk result (λ reply. (reply.status ≡ Status.Usage) ↔ (form_of (map string_bytes words.now) ≡ None)) }
    ensures keeps { KeepsFolder F.contents F.steady F.faults folder.old folder.new }
    ensures no_call { reads_file (form_of (map string_bytes words.now)) ≡ false → folder.new ≡ folder.old }
    ensures once { F.tries folder.new ≤ F.tries folder.old + file_count (form_of (map string_bytes words.now)) }
    ensures plan_alone { IfOk result (λ reply. reply.status ≡ Status.BadPlan → F.tries folder.new ≤ F.tries folder.old + 1) }
    ensures first_alone { IfSome (F.contents folder.old) (λ files. PlanEndsReading (form_of (map string_bytes words.now)) files
        → F.tries folder.new ≤ F.tries folder.old + 1) }
{
    match work(rt, alloc, words, folder, gate) {
        Ok(reply) => Ok(reply),
        Err(Stop::Ended(reply)) => Ok(reply),
        Err(Stop::NoMemory) => Err(NoMemory),
    }
}

/// Runs the program: does what the words ask for, writes the answer, and gives the exit status.
///
/// The words are those after the program's name.
///
/// | words | what is written |
/// |---|---|
/// | `check PLAN CERT` | whether the ranks of a certificate rise over each hop of a plan |
/// | `rank PLAN` | the least ranks as a certificate, or the first cycle |
/// | `chains PLAN` | the longest chains of timing into each element, or the first cycle |
/// | `protected PLAN` | which elements each single failure cuts off although another path exists |
/// | `protected PLAN GROUPS` | the same, for groups of parts that fail together as well |
/// | `protect PLAN` | the plan with priorities by which no failure cuts any element off so, or which elements failures cut off in the plan that was found |
/// | `agree PLAN` | whether priorities agree with the ways of timing, and for how long after the last event a network may then change; or the first circle of lines that clash |
/// | `hops PLAN` | the hop counts |
/// | `nominate PLAN` | the plan with priorities by fewest hops |
/// | `sweep PLAN AT UNTIL` | for each link what the network is at UNTIL where that link alone fails at AT |
/// | `study PLAN CASES UNTIL` | for each case what the network is at UNTIL where its events happen, and what they cost on the way there |
/// | `sim PLAN EVENTS UNTIL` | the report of the network from 0 to UNTIL with the faults and commands of an event list |
/// | `inspect PLAN EVENTS AT` | of each command up to AT whether it was taken, what each element chose, and of each input why it is taken or isn't |
/// | `prio-check`, `prio-rank`, `prio-sim` | by the same files, of a network whose elements choose by priority alone: the test of ranks, the least ranks or the event file of forced switches that make a loop, and the report of a run |
/// | `node PLAN ELEMENT FILE UNTIL` | the frames that an element sends up to UNTIL, by what it received |
/// | `decode OPTION FILE`, `encode OPTION FILE` | the rows of captured frames, and the frames of rows |
/// | `pcap-decode OPTION FILE`, `pcap-encode OPTION FILE` | the same for a classic pcap capture and rows with times |
/// | `gen N`, `trial N` | the ladder of N elements, 2 to 2,000, and what planner, test and simulator find of it |
///
/// UNTIL and the AT of `inspect` are milliseconds up to 86,400,000, and the AT of `sweep` is one up to
/// UNTIL.
///
/// A plan has at most 2,000 elements, 4,000 links and 2,000 sources. Before each of these words but
/// those for captured frames and rows may stand `large`: then a plan has at most 100,000 elements,
/// 200,000 links and 100,000 sources, its file at most 1 GiB in place of 8 MiB, and N goes to
/// 100,000. How long another file may be, and how many events, cases and rows of a report there may
/// be, goes by the plan that was read: a plan of standard size, in a file of at most 8 MiB, is
/// answered alike with the word and without it.
///
/// PLAN, CERT, EVENTS, CASES, GROUPS and FILE are nonempty names of files, and OPTION is `I` or `II`.
///
/// The whole text is made before its first byte is written, and it is written by one `write_all`.
/// So a report takes memory for all of its text: at 10,000,000 rows, the most of a large plan, some
/// 400 MB.
/// `sweep` and `study` work on threads of the runtime, and wait for these alone; each calls the gate, which
/// serves a test.
///
/// This project's own.
pub fn run<R: Threads + Sync, F: Folder, K: Sink, G: Gate + Sync>(
    rt: &R,
    alloc: Global,
    words: &[String],
    folder: &mut F,
    sink: &mut K,
    gate: &G,
) -> Status
    // Where the folder reports its contents, status and text are an answer to the words. Not said:
    // in how many calls the text is written; that parts of a sweep run at once.
    ensures answer { OnAnswer result (IfSome (F.contents folder.old)
        (Delivers (map string_bytes words.now) (K.written sink.old) (K.written sink.new) result)) }

    // Of `check`, and of the ladder of `trial`. No timing loop can form in the plan: under
    // every list of fault and command events, in every millisecond, each closed walk of
    // selected lines is a facing pair, two elements on one link or bundle. In a settled
    // millisecond there is no closed walk, and each element has the level of the source or own
    // clock at which its trace ends (`IsLoopFree`). Not said: that an element gets a clock;
    // that a network with a link nominated at both ends ever settles; how long anything takes.
    // How long a facing pair may stand is said by `facing_pair_law`.
    ensures accepted_is_loop_free { result ≡ Status.Done → IfSome (F.contents folder.old)
        (IsCheckedLoopFree (form_of (map string_bytes words.now))) }

    // Of `prio-check`. Among elements that choose by priority alone, no closed walk stands in
    // any millisecond of any list of events (`NeverLoops`).
    ensures accepted_never_loops { result ≡ Status.Done → IfSome (F.contents folder.old)
        (IsCheckedForPriority (form_of (map string_bytes words.now))) }

    // Of `chains`. In every millisecond of every list of events, a trace that ends at a source
    // or an own clock has at most as many lines, lines since the last filter, and filters as
    // its element's row says. Not said: that a run reaches the row; a row is the greatest over
    // all chains.
    ensures chains_are_bounds { result ≡ Status.Done → IfSome (F.contents folder.old)
        (IsBoundedByChains (form_of (map string_bytes words.now))) }

    // Of `protected`. The plan holds out. Take a failure of a link, a bundle, a source or an
    // element, or none. Take a list of events without commands, and a settled millisecond in
    // which every nominated input that the failure leaves is up and, if it is a line, has its
    // ESMC on. Let W be a level such that no remaining nominated source is worse than W and no
    // floor is better than W, and let each of these sources be better than do-not-use. Then each
    // element that is still in reach has a level no worse than W (`IsHoldingOut`). With groups
    // the same holds for each failure and for each group. Beyond that (`Withstands`), if the
    // plan has an agreed bound, it survives each failure and each group by that bound, under the
    // premises of `protected_plan_survives` and in its sense. If it has a bound after failures,
    // it survives them by that one: out of a settled millisecond, after which nothing comes up
    // and no line's ESMC goes off. Not said: without groups, that the network settles or that an
    // input is taken; anything about two failures at once, unless they are one group; which
    // input is taken. For groups, that the network is settled and at the best level where a
    // nominated line that still speaks joins two elements of the group.
    ensures protected_holds_out { result ≡ Status.Done → IfSome (F.contents folder.old)
        (IsHoldingOut (form_of (map string_bytes words.now))) }

    // Of `agree`. The plan has an agreed bound B. Take a list of events after which no element
    // is under a forced or manual switch in the millisecond of the last event. From B after
    // that event on, each element that a level better than every own clock reaches in the last
    // event's millisecond takes the same input, or none, at the same level. If that is every
    // element, each of these milliseconds is settled, and each element has exactly the best of
    // the levels that reach it. The same holds from F on (the bound after failures, F ≤ B), if
    // the list has no event that changes a source's level, some earlier millisecond was settled,
    // and since then nothing came up and no line's ESMC went off. Not said: that such an element
    // takes an input, unless that is every element; anything of elements that no such level
    // reaches.
    ensures agreed_comes_to_rest { result ≡ Status.Done → IfSome (F.contents folder.old)
        (IsComingToRest (form_of (map string_bytes words.now))) }

    // Of `protect`. What was written is the text of a plan in which no timing loop can form, as
    // for `check`.
    ensures protected_plan_is_loop_free { result ≡ Status.Done → IfSome (F.contents folder.old)
        (Protects IsLoopFree (form_of (map string_bytes words.now)) (K.written sink.old) (K.written sink.new)) }

    // Of `protect`. What was written is the text of a plan with an agreed bound B and a bound
    // after failures F. If each nominated source is better than every own clock, and no floor
    // is better than W, the worst of these sources, then for every failure: let only parts of
    // it go down and come up, the ESMC of its lines go off and on, and wait-to-restore be
    // cleared. From B after the last event on, each element in reach takes an input, the same
    // in every millisecond, at one level no worse than W. If everybody but the failed element
    // is in reach, the network is settled, and each element in reach has the best level that
    // reaches it. From F on the same holds out of a settled millisecond, after which nothing
    // came up and no line's ESMC went off. Not said: which plan is written, or that one is
    // found (where the search fails the status is Refuted); anything of two failures, of
    // commands, or of elements out of reach; anything before the bound, except what
    // `protected_plan_is_loop_free` says.
    ensures protected_plan_survives { result ≡ Status.Done → IfSome (F.contents folder.old)
        (Protects IsSurvivor (form_of (map string_bytes words.now)) (K.written sink.old) (K.written sink.new)) }

    // The answer is `usage` exactly where the words are no form, whatever any file says.
    ensures usage { OnAnswer result ((result ≡ Status.Usage) ↔ (form_of (map string_bytes words.now) ≡ None)) }

    // Words that name no file call the folder not at all.
    ensures no_call { reads_file (form_of (map string_bytes words.now)) ≡ false → folder.new ≡ folder.old }

    // No more starts of files are tried than the words name files, so that a pipe will do for
    // each.
    ensures once { F.tries folder.new ≤ F.tries folder.old + file_count (form_of (map string_bytes words.now)) }

    // After a refused plan no second file is started.
    ensures plan_alone { result ≡ Status.BadPlan → F.tries folder.new ≤ F.tries folder.old + 1 }

    // Nor is one where the first of two files ends the reading.
    ensures first_alone { IfSome (F.contents folder.old) (λ files. PlanEndsReading (form_of (map string_bytes words.now)) files
        → F.tries folder.new ≤ F.tries folder.old + 1) }

    // Where the run ends neither in a fault nor out of memory, no call of the folder failed.
    ensures calm { OnAnswer result (F.faults folder.new ≡ F.faults folder.old) }

    // A write failed only where a write fault is answered.
    ensures sink_calm { result ≢ Status.WriteFault → K.faults sink.new ≡ K.faults sink.old }

    // A read fault is answered only where the folder failed.
    ensures read_fault_only { result ≡ Status.ReadFault → Rose (F.faults folder.old) (F.faults folder.new) }

    // Then its line was written.
    ensures read_fault_written { result ≡ Status.ReadFault → Appends (K.written sink.old) (K.written sink.new) fault_text }

    // A steady folder that has every file gives no read fault.
    ensures sure { IsTrue (F.steady folder.old) → HasFiles (map string_bytes words.now) (F.contents folder.old)
        → result ≢ Status.ReadFault }

    // A write fault is answered only where the output failed.
    ensures write_fault_only { result ≡ Status.WriteFault → Rose (K.faults sink.old) (K.faults sink.new) }

    // Then a front of what was to be written was written.
    ensures cut { result ≡ Status.WriteFault → IfSome (F.contents folder.old)
        (IsCut (map string_bytes words.now) (K.written sink.old) (K.written sink.new)
        (MayFault (map string_bytes words.now) (outside_of F.contents F.steady F.faults folder.old folder.new))) }

    // Out of memory writes nothing.
    ensures no_memory { result ≡ Status.NoMemory → sink.new ≡ sink.old }

    // The folder's contents stay.
    ensures keeps { KeepsFolder F.contents F.steady F.faults folder.old folder.new }
{
    let Ok(reply) = reply_to(rt, alloc, words, folder, gate) else {
        return Status::NoMemory;
    };
    match write_all(sink, reply.text.bytes()) {
        Ok(()) => reply.status,
        Err(_) => Status::WriteFault,
    }
}

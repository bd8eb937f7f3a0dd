// What follows from the definition of an answer alone.

ghost use Rattle.std.specs.Prelude.{◌≡◌, ◌↔◌, ◌<◌, ℕ, List, [], ◌∷◌, length, codes, Some};
ghost use Rattle.std.specs.FinMap.{get};
ghost use Rattle.sync_edge.specs.Contents.{Contents};
ghost use Rattle.plan_texts.specs.Lines.{text_line};
ghost use Rattle.sync_top.specs.declared.status.Status.{Status};
ghost use Rattle.sync_top.specs.Answer.{HasOneAnswer, IsAnswer};
ghost use Rattle.sync_top.specs.Form.{form_of};
ghost use Rattle.sync_topo.specs.Topology.{Topology};
ghost use Rattle.sync_top.specs.Forms.Groups.{IsGroupsText};
ghost use Rattle.sync_top.specs.Forms.Protected.{IsProtectedText};

use sync_sweep::one_study_law;
use trace_report::one_report_law;

/// The law of the one answer: over given files some words have one status and one text. Words that
/// ask for `protect` may have more, since it isn't said which plan is found.
///
/// It does nothing: its contract is the law. This project's own.
pub fn one_answer_law()
    ensures status { (words : List (List ℕ)) → (files : Contents) → (status other : Status)
        → (text another : List ℕ) → HasOneAnswer (form_of words)
        → IsAnswer words files status text → IsAnswer words files other another
        → status ≡ other }
    ensures text { (words : List (List ℕ)) → (files : Contents) → (status other : Status)
        → (text another : List ℕ) → HasOneAnswer (form_of words)
        → IsAnswer words files status text → IsAnswer words files other another
        → text ≡ another }
{
    one_report_law();
    one_study_law();
}

/// The law that a plan without groups is answered alike with the file of groups and without it: the
/// answers to `protected` of a plan and no group are those to `protected` of the plan.
///
/// It does nothing: its contract is the law. This project's own.
pub fn no_groups_law()
    ensures alike { (plan : Topology) → (status : Status) → (text : List ℕ)
        → IsGroupsText plan [] status text ↔ IsProtectedText plan status text }
{}

/// The law that the test of ranks accepts what the planner wrote: where `rank` of a plan was done,
/// `check` of the plan and of a file of nonempty name that holds what was written is done too, and so
/// it is with `large` before both.
///
/// It does nothing: its contract is the law. This project's own.
pub fn planned_is_accepted_law()
    ensures standard { (plan certificate text : List ℕ) → (files : Contents)
        → IsAnswer (codes "rank" ∷ plan ∷ []) files Status.Done text
        → 0 < length certificate → get files certificate ≡ Some text
        → IsAnswer (codes "check" ∷ plan ∷ certificate ∷ []) files Status.Done
        (text_line (codes "accepted")) }
    ensures large { (plan certificate text : List ℕ) → (files : Contents)
        → IsAnswer (codes "large" ∷ codes "rank" ∷ plan ∷ []) files Status.Done text
        → 0 < length certificate → get files certificate ≡ Some text
        → IsAnswer (codes "large" ∷ codes "check" ∷ plan ∷ certificate ∷ []) files Status.Done
        (text_line (codes "accepted")) }
{}

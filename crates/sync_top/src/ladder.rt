ghost use Rattle.std.specs.Prelude.{◌≡◌, ◌≤◌, length, IfOk};
ghost use Rattle.plan_file.specs.IsPlanText.{IsPlanText};
ghost use Rattle.plan_file.specs.Spelling.{plan_text};
ghost use Rattle.plan_gen.specs.Ladder.{ladder};
ghost use Rattle.sync_topo.specs.Sizes.{size_of};
ghost use Rattle.sync_top.specs.Answer.{LadderAnswer};
ghost use Rattle.sync_top.specs.Reading.{file_limit};
ghost use Rattle.sync_top.specs.private.Work.{ends_in};

use crate::form::LadderForm;
use crate::found::{Found, done};
use crate::trial::trial_text;
use plan_gen::write_ladder;
use std::alloc::Global;
use sync_text::{NoMemory, Text};
use sync_topo::MOST_ELEMENTS;

/// What is found of the ladder of `n` elements.
pub(crate) fn ladder_found(
    alloc: Global,
    what: LadderForm,
    elements: u32,
) -> Result<Found, NoMemory>
    requires least { 2 ≤ elements }
    requires greatest { elements ≤ MOST_ELEMENTS }
    ensures { IfOk result (λ found. LadderAnswer what elements (ends_in found.finding) found.text) }
{
    match what {
        LadderForm::Gen => Ok(done(ladder_text(alloc, elements)?)),
        LadderForm::Trial => Ok(done(trial_text(alloc, elements)?)),
    }
}

/// The text of the ladder of so many elements. It reads no file.
fn ladder_text(alloc: Global, elements: u32) -> Result<Text, NoMemory>
    requires least { 2 ≤ elements }
    requires greatest { elements ≤ MOST_ELEMENTS }
    ensures text { IfOk result (IsPlanText (ladder elements)) }
    ensures spelled { IfOk result (λ text. text ≡ plan_text (ladder elements)) }
    ensures fits { IfOk result (λ text. length text ≤ file_limit (size_of (ladder elements))) }
{
    write_ladder(alloc, elements)
}

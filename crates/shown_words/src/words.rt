//! The words for what an element shows.

ghost use Rattle.std.specs.Prelude.{◌≡◌, ◌++◌, ◌<◌, codes, length, IfSome, OnOk};
ghost use Rattle.sync_topo.specs.Lines.{IsInput};
ghost use Rattle.shown_words.specs.Words.{mode_word, state_word, taken_name, choice_text};

use std::alloc::Global;
use sync_ql::rules::{ClockState, Mode};
use sync_text::{NoMemory, Text};
use sync_topo::{InputId, Plan};

/// How an element chooses, as a column between two others: a word between commas.
fn mode_column(mode: Mode) -> &'static [u8]
    ensures { result.now ≡ codes "," ++ mode_word mode ++ codes "," }
{
    match mode {
        Mode::Auto => b",auto,",
        Mode::Forced => b",forced,",
        Mode::Manual => b",manual,",
    }
}

/// What an element's clock follows, as the last column of a row: a word behind a comma, and the row's
/// end.
///
/// This project's own; the terms are those of G.781.
pub fn state_column(state: ClockState) -> &'static [u8]
    ensures { result.now ≡ codes "," ++ state_word state ++ codes "\n" }
{
    match state {
        ClockState::FreeRun => b",freerun\n",
        ClockState::Locked => b",locked\n",
        ClockState::Holdover => b",holdover\n",
    }
}

/// Puts what an element of a plan chose: its name, its mode, and the name of the input that it takes, or
/// that it takes none.
///
/// `NoMemory` comes only when out of memory; a part may then stand at the end, so the text isn't used
/// again. This project's own.
pub fn put_choice(
    alloc: Global,
    text: &mut Text,
    plan: &Plan,
    element: u32,
    mode: Mode,
    taken: Option<InputId>,
) -> Result<(), NoMemory>
    requires element { element < length plan.now.elements }
    requires taken { IfSome taken (IsInput plan.now) }
    ensures put { OnOk result (text.new ≡ text.old ++ choice_text plan.now element mode taken) }
{
    text.put(plan.element(element).name.bytes())?;
    text.put(mode_column(mode))?;
    put_taken(alloc, text, plan, taken)
}

/// Puts the name of an input of a plan, as one that is taken, or that there is none.
///
/// `NoMemory` comes only when out of memory; the text isn't used again then. This project's own.
pub fn put_taken(
    alloc: Global,
    text: &mut Text,
    plan: &Plan,
    taken: Option<InputId>,
) -> Result<(), NoMemory>
    requires within { IfSome taken (IsInput plan.now) }
    ensures put { OnOk result (text.new ≡ text.old ++ taken_name plan.now taken) }
{
    match taken {
        Some(input) => plan.put_input_name(alloc, text, input),
        None => text.put(b"none"),
    }
}

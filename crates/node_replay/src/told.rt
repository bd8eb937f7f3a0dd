//! What the element is told in a millisecond.

ghost use Rattle.std.specs.Prelude.{◌≡◌, ◌++◌, ◌∷◌, [], ◌≤◌, ◌<◌, length, OnOk};
ghost use Rattle.std.specs.List.{filter_map};
ghost use Rattle.sync_topo.specs.Lines.{is_same_input};
ghost use Rattle.node_replay.specs.private.Telling.{place_in, word_of, row_word, told_from, all_told};

use crate::inputs::InputNow;
use node_file::{NodeRow, NodeWord};
use sync_ql::limits::MOST_INPUTS;
use sync_ql::rules::{Cmd, InputEvent};
use sync_text::{NoMemory, Rows};
use sync_topo::{InputId, What, is_same_input};

/// Tells the element the commands of a millisecond, whose wait-to-restore times are cleared, and of
/// each input whether it is up and which level it has.
pub(crate) fn tell_all(
    told: &mut Rows<InputEvent>,
    ids: &[InputId],
    element: u32,
    here: &[NodeRow],
    inputs: &[InputNow],
) -> Result<(), NoMemory>
    requires ids { length ids.now ≤ MOST_INPUTS }
    requires few { length inputs.now ≤ MOST_INPUTS }
    ensures { OnOk result (told.new ≡ all_told ids.now element here.now inputs.now) }
{
    told.clear();
    tell_rows(told, ids, element, here)?;
    tell_inputs(told, inputs)?;
    Ok(())
}

fn tell_rows(
    told: &mut Rows<InputEvent>,
    ids: &[InputId],
    element: u32,
    here: &[NodeRow],
) -> Result<(), NoMemory>
    requires ids { length ids.now ≤ MOST_INPUTS }
    ensures { OnOk result (told.new ≡ told.old ++ filter_map (row_word ids.now element) here.now) }
{
    for row in here {
        tell_row(told, ids, element, *row)?;
    }
    Ok(())
}

fn tell_row(
    told: &mut Rows<InputEvent>,
    ids: &[InputId],
    element: u32,
    row: NodeRow,
) -> Result<(), NoMemory>
    requires ids { length ids.now ≤ MOST_INPUTS }
    ensures { OnOk result (told.new ≡ told.old ++ filter_map (row_word ids.now element) (row ∷ [])) }
{
    match row_word(ids, element, row) {
        Some(event) => told.push(event),
        None => Ok(()),
    }
}

/// What a row tells the element at once.
fn row_word(ids: &[InputId], element: u32, row: NodeRow) -> Option<InputEvent>
    requires ids { length ids.now ≤ MOST_INPUTS }
    ensures { result ≡ row_word ids.now element row }
{
    match row.word {
        NodeWord::Happens(what) => word_of(ids, element, what),
        NodeWord::Frame(_, _) => None,
    }
}

fn word_of(ids: &[InputId], element: u32, what: What) -> Option<InputEvent>
    requires ids { length ids.now ≤ MOST_INPUTS }
    ensures { result ≡ word_of ids.now element what }
{
    match what {
        What::Lockout(input) => Some(InputEvent::Command(Cmd::Lockout(place_of(ids, input)?))),
        What::Unlock(input) => Some(InputEvent::Command(Cmd::Unlock(place_of(ids, input)?))),
        What::Forced(input) => Some(InputEvent::Command(Cmd::Forced(place_of(ids, input)?))),
        What::Manual(input) => Some(InputEvent::Command(Cmd::Manual(place_of(ids, input)?))),
        What::ClearWtr(input) => Some(InputEvent::ClearWtr(place_of(ids, input)?)),
        What::Clear(other) if element == other => Some(InputEvent::Command(Cmd::Clear)),
        _ => None,
    }
}

/// The place of an input among those of the element, if it is nominated there.
fn place_of(ids: &[InputId], input: InputId) -> Option<u32>
    requires ids { length ids.now ≤ MOST_INPUTS }
    ensures { result ≡ place_in ids.now input }
{
    match place_among(ids, input) {
        Some(place) => Some(place as u32),
        None => None,
    }
}

fn place_among(ids: &[InputId], input: InputId) -> Option<usize>
    ensures { result ≡ place_in ids.now input }
{
    ids.iter().position(|other| is_same_input(input, *other))
}

fn tell_inputs(told: &mut Rows<InputEvent>, inputs: &[InputNow]) -> Result<(), NoMemory>
    requires few { length inputs.now ≤ MOST_INPUTS }
    ensures { OnOk result (told.new ≡ told.old ++ told_from 0 inputs.now) }
{
    for (place, input) in inputs.iter().enumerate() {
        tell_input(told, place as u32, *input)?;
    }
    Ok(())
}

fn tell_input(told: &mut Rows<InputEvent>, place: u32, input: InputNow) -> Result<(), NoMemory>
    ensures { OnOk result (told.new ≡ told.old ++ told_from place (input ∷ [])) }
{
    told.push(InputEvent::Signal(place, input.up))?;
    told.push(InputEvent::Heard(place, input.level))
}

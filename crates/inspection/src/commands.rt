//! The commands, each with whether it was taken.

ghost use Rattle.std.specs.Prelude.{◌≡◌, ◌<◌, ◌+◌, ◌++◌, length, take, IfSome, OnOk};
ghost use Rattle.std.specs.List.{All};
ghost use Rattle.sync_topo.specs.Events.{Fits};
ghost use Rattle.sync_topo.specs.Lines.{IsInput};
ghost use Rattle.inspection.specs.Commands.{answer_word, command_row, name_or_nothing, row_at};
ghost use Rattle.inspection.specs.private.Tables.{AreTables, IsAskedIn, commands_told, table_at};

use crate::asked::{Asked, asked_of, command_by, order_word};
use crate::tables::{apply, new_tables};
use operator_cmds::Cmds;
use std::alloc::Global;
use sync_text::{NoMemory, Text};
use sync_topo::{Event, InputId, Plan};

/// Puts the commands among some events.
pub(crate) fn put_commands(
    alloc: Global,
    text: &mut Text,
    plan: &Plan,
    events: &[Event],
) -> Result<(), NoMemory>
    requires fit { All (Fits plan.now) events.now }
    ensures put { OnOk result (text.new ≡ text.old ++ commands_told plan.now events.now) }
{
    text.put(b"commands\n")?;
    let mut tables = new_tables(alloc, plan)?;
    for place in 0..events.len() {
        put_event(alloc, text, plan, &mut tables, events, place)?;
    }
    Ok(())
}

/// Puts the event at a place, where it is a command, and lets its element carry it out.
fn put_event(
    alloc: Global,
    text: &mut Text,
    plan: &Plan,
    tables: &mut Vec<Cmds>,
    events: &[Event],
    place: usize,
) -> Result<(), NoMemory>
    requires place { place < length events.now }
    requires fit { All (Fits plan.now) events.now }
    requires tables { AreTables plan.now (take place events.now) tables.old.items }
    ensures put { OnOk result (text.new ≡ text.old
        ++ row_at plan.now events.now (table_at plan.now events.now) place) }
    ensures tables { OnOk result (AreTables plan.now (take (place + 1) events.now) tables.new.items) }
{
    let event = events[place];
    let Some(asked) = asked_of(plan, event.what) else {
        return Ok(());
    };
    let taken = apply(tables, asked.element, command_by(plan, asked));
    put_row(alloc, text, plan, event.at, asked, taken)
}

/// Puts the row of a command.
fn put_row(
    alloc: Global,
    text: &mut Text,
    plan: &Plan,
    at: u64,
    asked: Asked,
    taken: bool,
) -> Result<(), NoMemory>
    requires within { IsAskedIn plan.now asked }
    ensures put { OnOk result (text.new ≡ text.old ++ command_row plan.now at asked taken) }
{
    text.put_number(at)?;
    text.put(b",")?;
    text.put(plan.element(asked.element).name.bytes())?;
    text.put(b",")?;
    text.put(order_word(asked.order))?;
    text.put(b",")?;
    put_name(alloc, text, plan, asked.input)?;
    text.put(b",")?;
    text.put(answer_word(taken))?;
    text.put(b"\n")
}

/// Puts the name of the input that a command names, if it names one.
fn put_name(
    alloc: Global,
    text: &mut Text,
    plan: &Plan,
    input: Option<InputId>,
) -> Result<(), NoMemory>
    requires within { IfSome input (IsInput plan.now) }
    ensures put { OnOk result (text.new ≡ text.old ++ name_or_nothing plan.now input) }
{
    match input {
        Some(input) => plan.put_input_name(alloc, text, input),
        None => Ok(()),
    }
}

/// The word for what became of a command.
fn answer_word(taken: bool) -> &'static [u8]
    ensures { result.now ≡ answer_word taken }
{
    if taken { b"taken" } else { b"rejected" }
}

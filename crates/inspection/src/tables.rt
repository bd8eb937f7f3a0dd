//! The command tables of all elements.

ghost use Rattle.std.specs.Prelude.{◌≡◌, ◌≢◌, ◌<◌, ℕ, [], IfOk, IfSome, length, slice_index_or};
ghost use Rattle.sync_ql.specs.Switches.{Switches, NamesInput};
ghost use Rattle.inspection.specs.Commands.{is_taken};
ghost use Rattle.inspection.specs.private.Tables.{AreTables, after_asked, is_taken_by};

use operator_cmds::{Applied, Cmd, Cmds};
use std::alloc::Global;
use sync_text::{NoMemory, Rows};
use sync_topo::Plan;

/// The tables of the elements of a plan before any command.
pub(crate) fn new_tables(alloc: Global, plan: &Plan) -> Result<Vec<Cmds>, NoMemory>
    ensures { IfOk result (λ tables. AreTables plan.now [] tables.items) }
{
    let mut tables = Rows::with_capacity(alloc, plan.elements() as usize)?;
    for element in 0..plan.elements() {
        tables.push(Cmds::new(plan.inputs(element).len() as u32))?;
    }
    Ok(tables.into_vec())
}

/// Carries a command to an element out, or rejects it; no command is one that it rejects.
pub(crate) fn apply(tables: &mut Vec<Cmds>, element: u32, command: Option<Cmd>) -> bool
    requires element { element < length tables.old.items }
    requires place { (other : Switches) → IfSome command
        (NamesInput (length (slice_index_or tables.old.items element other).locked)) }
    ensures taken { (other : Switches) →
        result ≡ is_taken (slice_index_or tables.old.items element other) command }
    ensures count { length tables.new.items ≡ length tables.old.items }
    ensures here { (other : Switches) → slice_index_or tables.new.items element other
        ≡ after_asked (slice_index_or tables.old.items element other) command }
    ensures others { (place : ℕ) (other : Switches) → place ≢ element →
        slice_index_or tables.new.items place other ≡ slice_index_or tables.old.items place other }
{
    let Some(command) = command else {
        return false;
    };
    let applied = tables[element as usize].apply(command);
    is_taken(applied)
}

fn is_taken(applied: Applied) -> bool
    ensures { result ≡ is_taken_by applied }
{
    match applied {
        Applied::Taken => true,
        Applied::Rejected => false,
    }
}

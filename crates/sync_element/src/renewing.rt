//! Which inputs a step renews: those that an event touches, and those whose running time ends.

ghost use Rattle.std.specs.Prelude.{◌≡◌, ◌≤◌, ◌<◌, ℕ, List, [], length, All, IfSome, Some};
ghost use Rattle.sync_ql.specs.declared.rules.Candidate.{Candidate};
ghost use Rattle.sync_ql.specs.Told.{IsOfOption};
ghost use Rattle.sync_element.specs.declared.watched.Watched.{Watched};
ghost use Rattle.agenda.specs.DueTimes.{due_in};
ghost use Rattle.sync_element.specs.private.Telling.{Fits};
ghost use Rattle.sync_element.specs.private.Renewing.{touched_by, CanRenew, AreRenewed, AreTaken, AreKept, IsTouched};
ghost use Rattle.sync_element.specs.Whole.{inputs_kept};

use crate::config::Config;
use crate::inputs::{Inputs, renew};
use crate::watched::ends_at;
use operator_cmds::Cmds;
use sync_ql::limits::LAST_MILLISECOND;
use sync_ql::rules::{Cmd, InputEvent};

/// Renews each input that an event touches.
pub(crate) fn renew_told(
    inputs: &mut Inputs,
    told: &[InputEvent],
    now: u64,
    commands: &Cmds,
    config: &Config,
)
    requires can { CanRenew now config.now.own.option (inputs_kept inputs.old) }
    requires fits { All (Fits (length inputs.old.watched.items)) told.now }
    requires in_range { now ≤ LAST_MILLISECOND }
    requires locked_length { length commands.now.locked ≡ length inputs.old.watched.items }
    requires floor { IsOfOption config.now.own.option config.now.floor }
    ensures can { CanRenew now config.now.own.option (inputs_kept inputs.new) }
    ensures count { length inputs.new.watched.items ≡ length inputs.old.watched.items }
    ensures taken { (watched : List Watched) (before : List Candidate) →
        AreRenewed (record { now = now; switches = commands.now; floor = config.now.floor })
        watched before (inputs_kept inputs.old) →
        AreTaken (record { now = now; switches = commands.now; floor = config.now.floor })
        watched before told.now [] (inputs_kept inputs.new) }
{
    for event in told {
        renew_if_touched(inputs, *event, now, commands, config);
    }
}

fn renew_if_touched(
    inputs: &mut Inputs,
    event: InputEvent,
    now: u64,
    commands: &Cmds,
    config: &Config,
)
    requires can { CanRenew now config.now.own.option (inputs_kept inputs.old) }
    requires fits { Fits (length inputs.old.watched.items) event }
    requires in_range { now ≤ LAST_MILLISECOND }
    requires locked_length { length commands.now.locked ≡ length inputs.old.watched.items }
    requires floor { IsOfOption config.now.own.option config.now.floor }
    ensures { IsTouched (record { now = now; switches = commands.now; floor = config.now.floor })
        config.now.own.option event (inputs_kept inputs.old) (inputs_kept inputs.new) }
{
    if let Some(i) = touched_by(event) {
        renew(inputs, i, now, commands, config);
    }
}

/// The input that an event touches: which it names, except as that of a switch.
fn touched_by(event: InputEvent) -> Option<u32>
    ensures { result ≡ touched_by event }
{
    match event {
        InputEvent::Signal(i, _)
        | InputEvent::Heard(i, _)
        | InputEvent::ClearWtr(i)
        | InputEvent::Command(Cmd::Lockout(i) | Cmd::Unlock(i)) => Some(i),
        InputEvent::Command(_) => None,
    }
}

/// Renews each input whose running time ends now.
pub(crate) fn renew_due(inputs: &mut Inputs, now: u64, commands: &Cmds, config: &Config)
    requires can { CanRenew now config.now.own.option (inputs_kept inputs.old) }
    requires in_range { now ≤ LAST_MILLISECOND }
    requires locked_length { length commands.now.locked ≡ length inputs.old.watched.items }
    requires floor { IsOfOption config.now.own.option config.now.floor }
    ensures can { CanRenew now config.now.own.option (inputs_kept inputs.new) }
    ensures count { length inputs.new.watched.items ≡ length inputs.old.watched.items }
    ensures later { (i : ℕ) → i < length inputs.new.watched.items →
        IfSome (due_in (inputs_kept inputs.new).dues i) (λ due. now < due) }
    ensures renewed { (watched : List Watched) (before : List Candidate) →
        AreRenewed (record { now = now; switches = commands.now; floor = config.now.floor })
        watched before (inputs_kept inputs.old) →
        AreKept (record { now = now; switches = commands.now; floor = config.now.floor })
        watched before (inputs_kept inputs.old) (inputs_kept inputs.new) }
{
    let count = inputs.watched.len();
    for i in 0..count {
        renew_if_due(inputs, i as u32, now, commands, config);
    }
}

/// Renews an input if its running time ends now.
fn renew_if_due(inputs: &mut Inputs, i: u32, now: u64, commands: &Cmds, config: &Config)
    requires place { i < length inputs.old.watched.items }
    requires can { CanRenew now config.now.own.option (inputs_kept inputs.old) }
    requires in_range { now ≤ LAST_MILLISECOND }
    requires locked_length { length commands.now.locked ≡ length inputs.old.watched.items }
    requires floor { IsOfOption config.now.own.option config.now.floor }
    ensures can { CanRenew now config.now.own.option (inputs_kept inputs.new) }
    ensures count { length inputs.new.watched.items ≡ length inputs.old.watched.items }
    ensures here { IfSome (due_in (inputs_kept inputs.new).dues i) (λ due. now < due) }
    ensures others { (k : ℕ) → ¬ (k ≡ i) →
        due_in (inputs_kept inputs.new).dues k ≡ due_in (inputs_kept inputs.old).dues k }
    ensures kept { (watched : List Watched) (before : List Candidate) →
        AreRenewed (record { now = now; switches = commands.now; floor = config.now.floor })
        watched before (inputs_kept inputs.old) →
        AreKept (record { now = now; switches = commands.now; floor = config.now.floor })
        watched before (inputs_kept inputs.old) (inputs_kept inputs.new) }
{
    if ends_at(&inputs.watched.as_slice()[i as usize], now) {
        renew(inputs, i, now, commands, config);
    }
}

//! The lines that are called in a millisecond are told what they are, and what is heard on them is
//! passed on.

ghost use Rattle.std.specs.Prelude.{◌≡◌, ◌≤◌, ◌<◌, ◌+◌, ℕ, true, nat_eq, length, IfOk, OnOk, IsSomeAnd};
ghost use Rattle.std.specs.List.{list_any};
ghost use Rattle.sync_ql.specs.Told.{IsOfOption};
ghost use Rattle.sync_topo.specs.Lines.{line_count, IsNominated};
ghost use Rattle.sync_topo.specs.WellFormed.{IsWellFormed};
ghost use Rattle.sync_net.specs.NetState.{line_in};
ghost use Rattle.sync_net.specs.private.Noting.{line_at};
ghost use Rattle.sync_net.specs.private.Hearing.{AreTold, IsPassedOn, IsLineToldIn, CanTell};

use crate::shared_line::SharedLine;
use crate::signals::LineSignal;
use agenda::Marks;
use net_words::{Tellings, input_place};
use sync_element::InputEvent;
use sync_ql::limits::LAST_MILLISECOND;
use sync_ql::{Level, NetOption, is_same_heard};
use sync_text::NoMemory;
use sync_topo::{InputId, LineId, Plan};

/// Keeps the level that is heard on a line, and tells it to the line's element, if it is another.
fn pass_on(
    plan: &Plan,
    line: LineId,
    level: Option<Level>,
    heards: &mut [Option<Level>],
    tellings: &mut Tellings,
) -> Result<(), NoMemory>
    requires well_formed { IsWellFormed plan.now }
    requires line { line.0 < line_count plan.now }
    requires nominated { IsNominated plan.now line.0 }
    requires heards { length heards.old ≡ line_count plan.now }
    requires lists { length tellings.old.changes.items ≡ length plan.now.elements }
    requires flags { length tellings.old.active.flags ≡ length plan.now.elements }
    requires option { IsOfOption plan.now.option level }
    ensures { OnOk result (IsPassedOn plan.now line.0 level heards.old heards.new
        tellings.old.changes.items tellings.new.changes.items
        tellings.old.active.flags tellings.new.active.flags) }
{
    if is_same_heard(level, heards[line.0 as usize]) {
        return Ok(());
    }
    heards[line.0 as usize] = level;
    let Some(there) = input_place(plan, InputId::Line(line)) else {
        unreachable!()
    };
    tellings.tell(there.element, InputEvent::Heard(there.place, level))?;
    Ok(())
}

/// Tells each marked line what it is, takes what arrives, and passes on what is heard.
pub(crate) fn hear_lines(
    plan: &Plan,
    signals: &[LineSignal],
    called: &Marks,
    lines: &mut [Option<SharedLine<'_>>],
    heards: &mut [Option<Level>],
    tellings: &mut Tellings,
    now: u64,
) -> Result<(), NoMemory>
    requires in_range { now ≤ LAST_MILLISECOND }
    requires well_formed { IsWellFormed plan.now }
    requires signals { length signals.now ≡ line_count plan.now }
    requires marks { length called.now.flags ≡ line_count plan.now }
    requires lines { length lines.old ≡ line_count plan.now }
    requires heards { length heards.old ≡ line_count plan.now }
    requires lists { length tellings.old.changes.items ≡ length plan.now.elements }
    requires flags { length tellings.old.active.flags ≡ length plan.now.elements }
    requires can_tell { (l : ℕ) → list_any (nat_eq l) called.now.listed ≡ true →
        IsNominated plan.now l × IsSomeAnd (line_in lines.old l) (CanTell plan.now.option now) }
    ensures { OnOk result (AreTold plan.now now (line_at signals.now)
        (λ l. list_any (nat_eq l) called.now.listed)
        (record { lines = lines.old; heards = heards.old; changes = tellings.old.changes.items; active = tellings.old.active.flags })
        (record { lines = lines.new; heards = heards.new; changes = tellings.new.changes.items; active = tellings.new.active.flags })) }
{
    for place in called.listed() {
        let signal = signal_of(signals, *place);
        hear(plan, LineId(*place), signal, lines, heards, tellings, now)?;
    }
    Ok(())
}

/// Tells one line what it is, takes what arrives, and passes on what is heard.
fn hear(
    plan: &Plan,
    line: LineId,
    signal: LineSignal,
    lines: &mut [Option<SharedLine<'_>>],
    heards: &mut [Option<Level>],
    tellings: &mut Tellings,
    now: u64,
) -> Result<(), NoMemory>
    requires in_range { now ≤ LAST_MILLISECOND }
    requires well_formed { IsWellFormed plan.now }
    requires line { line.0 < line_count plan.now }
    requires nominated { IsNominated plan.now line.0 }
    requires lines { length lines.old ≡ line_count plan.now }
    requires heards { length heards.old ≡ line_count plan.now }
    requires lists { length tellings.old.changes.items ≡ length plan.now.elements }
    requires flags { length tellings.old.active.flags ≡ length plan.now.elements }
    requires can_tell { IsSomeAnd (line_in lines.old line.0) (CanTell plan.now.option now) }
    ensures { OnOk result (AreTold plan.now now (λ _. signal) (λ l. nat_eq l line.0)
        (record { lines = lines.old; heards = heards.old; changes = tellings.old.changes.items; active = tellings.old.active.flags })
        (record { lines = lines.new; heards = heards.new; changes = tellings.new.changes.items; active = tellings.new.active.flags })) }
{
    let level = tell(lines, line, signal, plan.option(), now)?;
    pass_on(plan, line, level, heards, tellings)?;
    Ok(())
}

/// Tells one line what it is, takes what arrives, and answers what is heard.
fn tell(
    lines: &mut [Option<SharedLine<'_>>],
    line: LineId,
    signal: LineSignal,
    option: NetOption,
    now: u64,
) -> Result<Option<Level>, NoMemory>
    requires in_range { now ≤ LAST_MILLISECOND }
    requires line { line.0 < length lines.old }
    requires can_tell { IsSomeAnd (line_in lines.old line.0) (CanTell option now) }
    ensures told { IfOk result (λ level. IsLineToldIn now signal line.0 level lines.old lines.new) }
    ensures option { IfOk result (IsOfOption option) }
{
    let Some(wire) = &mut lines[line.0 as usize] else {
        unreachable!()
    };
    let level = wire.tell(now, signal)?;
    Ok(level)
}

/// What comes to a line from outside.
fn signal_of(signals: &[LineSignal], line: u32) -> LineSignal
    requires { line < length signals.now }
    ensures { result ≡ line_at signals.now line }
{
    signals[line as usize]
}

//! The lines that are called in a millisecond are given the levels that their senders have then.

ghost use Rattle.std.specs.Prelude.{◌≡◌, ◌≤◌, ◌<◌, ◌+◌, ◌^◌, ℕ, length, slice_index_or, true, nat_eq, IfSome, IsSomeAnd, OnOk};
ghost use Rattle.std.specs.List.{list_any};
ghost use Rattle.sync_element.specs.ElementState.{ElementState};
ghost use Rattle.sync_element.specs.StandsFor as ElementPast;
ghost use Rattle.sync_topo.specs.Lines.{line_count, sender_of, IsInput};
ghost use Rattle.net_rules.specs.History.{settings_of, is_way_back};
ghost use Rattle.sync_net.specs.NetState.{line_in};
ghost use Rattle.sync_net.specs.private.Stages.{IsLevelSent, AreSent, CanSay, IsOnlyGiven};

use crate::shared_element::SharedElement;
use crate::shared_line::SharedLine;
use agenda::{DueTimes, Marks};
use net_words::input_at;
use sync_element::Element;
use sync_ql::limits::LAST_MILLISECOND;
use sync_ql::{Level, do_not_use};
use sync_text::NoMemory;
use sync_topo::{InputId, LineId, Plan};

/// Whether a line leads back to where its sender takes its timing from.
fn is_way_back(plan: &Plan, taken: Option<InputId>, line: LineId) -> bool
    requires taken { IfSome taken (IsInput plan.now) }
    requires line { line.0 < line_count plan.now }
    ensures { result ≡ is_way_back plan.now taken line.0 }
{
    match taken {
        Some(InputId::Line(taken)) => {
            plan.to(taken) == plan.from(line) && plan.bundle(taken.0 / 2) == plan.bundle(line.0 / 2)
        }
        _ => false,
    }
}

/// The level that a line's sender gives it: do-not-use where the line leads back to where the sender
/// takes its timing from, and else the sender's own.
pub(crate) fn level_sent(plan: &Plan, line: LineId, sender: &Element) -> Level
    requires line { line.0 < line_count plan.now }
    requires settings { sender.now.settings ≡ settings_of plan.now (sender_of plan.now line.0) }
    ensures { IsLevelSent plan.now line.0 sender.now result }
{
    let taken = input_at(plan, plan.from(line), sender.selected());
    let level = sender.level();
    if is_way_back(plan, taken, line) {
        return do_not_use(plan.option());
    }
    level
}

/// Gives each marked line the level that its sender has.
pub(crate) fn send_lines(
    plan: &Plan,
    called: &Marks,
    elements: &[SharedElement<'_>],
    lines: &mut [Option<SharedLine<'_>>],
    dues: &mut DueTimes,
    now: u64,
) -> Result<(), NoMemory>
    requires in_range { now ≤ LAST_MILLISECOND }
    requires elements { length elements.now ≡ length plan.now.elements }
    requires lines { length lines.old ≡ line_count plan.now }
    requires dues { length dues.old ≡ length plan.now.elements + line_count plan.now }
    requires marks { length called.now.flags ≡ line_count plan.now }
    requires settings { (e : ℕ) (other : ElementState) → e < length plan.now.elements →
        (slice_index_or elements.now e other).settings ≡ settings_of plan.now e }
    requires can_say { (l : ℕ) → list_any (nat_eq l) called.now.listed ≡ true →
        IsSomeAnd (line_in lines.old l) (CanSay now) }
    ensures sent { OnOk result (AreSent plan.now elements.now now
        (λ l. list_any (nat_eq l) called.now.listed)
        (record { lines = lines.old; dues = dues.old }) (record { lines = lines.new; dues = dues.new })) }
{
    for place in called.listed() {
        send(plan, LineId(*place), elements, lines, dues, now)?;
    }
    Ok(())
}

/// Gives one line the level that its sender has.
fn send(
    plan: &Plan,
    line: LineId,
    elements: &[SharedElement<'_>],
    lines: &mut [Option<SharedLine<'_>>],
    dues: &mut DueTimes,
    now: u64,
) -> Result<(), NoMemory>
    requires in_range { now ≤ LAST_MILLISECOND }
    requires line { line.0 < line_count plan.now }
    requires elements { length elements.now ≡ length plan.now.elements }
    requires lines { length lines.old ≡ line_count plan.now }
    requires dues { length dues.old ≡ length plan.now.elements + line_count plan.now }
    requires settings { (e : ℕ) (other : ElementState) → e < length plan.now.elements →
        (slice_index_or elements.now e other).settings ≡ settings_of plan.now e }
    requires can_say { IsSomeAnd (line_in lines.old line.0) (CanSay now) }
    ensures sent { OnOk result (AreSent plan.now elements.now now (λ l. nat_eq l line.0)
        (record { lines = lines.old; dues = dues.old }) (record { lines = lines.new; dues = dues.new })) }
{
    let sender = elements[plan.from(line) as usize].get();
    let level = level_sent(plan, line, sender);
    give(lines, dues, plan.elements(), line.0, level, now)?;
    Ok(())
}

/// Gives a line a level, and keeps when it is due.
fn give(
    lines: &mut [Option<SharedLine<'_>>],
    dues: &mut DueTimes,
    elements: u32,
    line: u32,
    level: Level,
    now: u64,
) -> Result<(), NoMemory>
    requires in_range { now ≤ LAST_MILLISECOND }
    requires line { line < length lines.old }
    requires few { elements + length lines.old < 2 ^ 32 }
    requires dues { length dues.old ≡ elements + length lines.old }
    requires can_say { IsSomeAnd (line_in lines.old line) (CanSay now) }
    ensures given { OnOk result (IsOnlyGiven now elements line level
        (record { lines = lines.old; dues = dues.old }) (record { lines = lines.new; dues = dues.new })) }
{
    let Some(wire) = &mut lines[line as usize] else {
        unreachable!()
    };
    let due = wire.say(now, level)?;
    dues.set(elements + line, due);
    Ok(())
}

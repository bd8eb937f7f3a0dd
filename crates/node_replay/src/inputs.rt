//! What is kept of the element's inputs.

ghost use Rattle.std.specs.Prelude.{◌≡◌, ◌≤◌, ◌<◌, ℕ, map, IfSome};
ghost use Rattle.std.specs.Prelude.{if◌then◌else◌, None, Some};
ghost use Rattle.node_file.specs.NodeRow.{frames_on};
ghost use Rattle.node_rules.specs.Replay.{last_of};
ghost use Rattle.node_replay.specs.Keeping.{word_or, said_in};
ghost use Rattle.node_replay.specs.private.Keeping.{heard_of, said_or, last_after, level_after, input_after};

use crate::last_rows::{last_frame, level_said, up_after};
use node_file::NodeRow;
use sync_ql::Level;
use sync_ql::limits::{HEARING_TIME, LAST_MILLISECOND};
use sync_topo::{InputId, LineId};

/// A level, or none, and the millisecond in which it was said.
#[derive(Clone, Copy, Debug, Drop)]
pub(crate) struct LastLevel {
    pub(crate) at: u64,
    pub(crate) level: Option<Level>,
}

/// An input at the end of a millisecond.
#[derive(Clone, Copy, Debug, Drop)]
pub(crate) struct InputNow {
    pub(crate) id: InputId,
    /// Whether it is up.
    pub(crate) up: bool,
    /// The level that it has: that which is heard, or the source's own.
    pub(crate) level: Option<Level>,
    /// The last frame that counts, or what was last said of the source.
    pub(crate) last: Option<LastLevel>,
}

/// The level of a word, while it is heard.
#[tactic(auto, unfolding(crate::specs::private::Keeping::heard_of))]
fn heard_of(last: Option<LastLevel>, now: u64) -> Option<Level>
    ensures { result ≡ heard_of last now }
{
    match last {
        Some(word) if now.saturating_sub(word.at) < HEARING_TIME => word.level,
        _ => None,
    }
}

/// The first later millisecond in which a word that is heard is heard no more.
#[tactic(auto, unfolding(crate::specs::private::Keeping::heard_of))]
pub(crate) fn loss_of(last: Option<LastLevel>, now: u64) -> Option<u64>
    requires in_range { now ≤ LAST_MILLISECOND }
    ensures later { IfSome result (λ loss. now < loss) }
    ensures heard { (m : ℕ) → now ≤ m → IfSome result (λ loss. m < loss) →
        heard_of last m ≡ heard_of last now }
{
    match last {
        Some(word) => word_loss(word, now),
        None => None,
    }
}

fn word_loss(word: LastLevel, now: u64) -> Option<u64>
    requires in_range { now ≤ LAST_MILLISECOND }
    ensures later { IfSome result (λ loss. now < loss) }
    ensures heard { (m : ℕ) → now ≤ m → IfSome result (λ loss. m < loss) →
        heard_of (Some word) m ≡ heard_of (Some word) now }
{
    let age = now.saturating_sub(word.at);
    if age < HEARING_TIME {
        return Some(now + (HEARING_TIME - age));
    }
    None
}

/// The last word on the level of an input.
fn last_after(
    id: InputId,
    up: bool,
    last: Option<LastLevel>,
    here: &[NodeRow],
    now: u64,
) -> Option<LastLevel>
    ensures { result ≡ last_after id up last here.now now }
{
    match id {
        InputId::Line(line) => word_or(counted(line, up, here), last, now),
        InputId::Source(source) => said_or(level_said(source, here), last, now),
    }
}

/// What the last frame on a line says, where the line is up.
fn counted(line: LineId, up: bool, here: &[NodeRow]) -> Option<Option<Level>>
    ensures { result ≡ (if up then last_of (frames_on line.0 here.now) else None) }
{
    if !up {
        return None;
    }
    last_frame(line, here)
}

/// A word that comes now, or else the last one.
fn word_or(word: Option<Option<Level>>, last: Option<LastLevel>, now: u64) -> Option<LastLevel>
    ensures { result ≡ word_or word last now }
{
    match word {
        Some(level) => Some(LastLevel { at: now, level }),
        None => last,
    }
}

fn said_or(said: Option<Level>, last: Option<LastLevel>, now: u64) -> Option<LastLevel>
    ensures { result ≡ said_or said last now }
{
    match said {
        Some(level) => Some(LastLevel {
            at: now,
            level: Some(level),
        }),
        None => last,
    }
}

/// The level of an input: what is heard, or what was last said while the source is up.
fn level_after(
    id: InputId,
    up: bool,
    last: Option<LastLevel>,
    level: Option<Level>,
    now: u64,
) -> Option<Level>
    ensures { result ≡ level_after id up last level now }
{
    match id {
        InputId::Line(_) => heard_of(last, now),
        InputId::Source(_) => said_while(up, last, level),
    }
}

fn said_while(up: bool, last: Option<LastLevel>, level: Option<Level>) -> Option<Level>
    ensures { result ≡ (if up then said_in last else level) }
{
    if up { said_in(last) } else { level }
}

fn said_in(last: Option<LastLevel>) -> Option<Level>
    ensures { result ≡ said_in last }
{
    match last {
        Some(word) => word.level,
        None => None,
    }
}

/// An input after the rows of a millisecond.
#[tactic(auto, unfolding(crate::specs::private::Keeping::input_after))]
fn input_after(here: &[NodeRow], now: u64, input: InputNow) -> InputNow
    ensures { result ≡ input_after here.now now input }
{
    let up = up_after(input.id, input.up, here);
    let last = last_after(input.id, up, input.last, here, now);
    InputNow {
        id: input.id,
        up,
        level: level_after(input.id, up, last, input.level, now),
        last,
    }
}

/// Takes in the rows of a millisecond.
pub(crate) fn note_inputs(inputs: &mut [InputNow], here: &[NodeRow], now: u64)
    ensures { inputs.new ≡ map (input_after here.now now) inputs.old }
{
    for input in inputs.iter_mut() {
        *input = input_after(here, now, *input);
    }
}

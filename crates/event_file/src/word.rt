// The words for what happens, and what they are said of.

ghost use Rattle.std.specs.Prelude.{◌≡◌, IfSome};
ghost use Rattle.sync_ql.specs.declared.levels.NetOption.{NetOption};
ghost use Rattle.sync_topo.specs.Topology.{Topology};
ghost use Rattle.sync_topo.specs.Events.{IsPart, MayHappen};
ghost use Rattle.event_file.specs.Words.{word_of, part_of_name, said_of, what_of, IsSaid};

use sync_ql::{NetOption, level_of_name};
use sync_topo::{LineId, Part, Plan, What};

/// A word for what happens. This project's own.
#[derive(Clone, Copy, Debug, PartialEq, Eq)]
pub enum Word {
    /// `down`.
    Down,
    /// `up`.
    Up,
    /// `esmc-off`.
    EsmcOff,
    /// `esmc-on`.
    EsmcOn,
    /// `level`.
    Level,
    /// `lockout`.
    Lockout,
    /// `unlock`.
    Unlock,
    /// `forced`.
    Forced,
    /// `manual`.
    Manual,
    /// `clear`.
    Clear,
    /// `clear-wtr`.
    ClearWtr,
}

/// What a word says of its target, before the value is looked at. This project's own.
#[derive(Clone, Copy, Debug, PartialEq, Eq, Drop)]
pub enum WordTarget {
    /// This happens, and there is nothing more to say.
    Happens(What),
    /// The source of this number gets a level, which the value names.
    GetsLevel(u32),
}

impl Word {
    /// The word that some bytes are, after G.781 and G.8264; how it is spelled is this project's own.
    pub fn of(bytes: &[u8]) -> Option<Word>
        ensures { result ≡ word_of bytes.now }
    {
        if bytes == b"down".as_slice() {
            Some(Word::Down)
        } else if bytes == b"up".as_slice() {
            Some(Word::Up)
        } else if bytes == b"esmc-off".as_slice() {
            Some(Word::EsmcOff)
        } else if bytes == b"esmc-on".as_slice() {
            Some(Word::EsmcOn)
        } else if bytes == b"level".as_slice() {
            Some(Word::Level)
        } else if bytes == b"lockout".as_slice() {
            Some(Word::Lockout)
        } else if bytes == b"unlock".as_slice() {
            Some(Word::Unlock)
        } else if bytes == b"forced".as_slice() {
            Some(Word::Forced)
        } else if bytes == b"manual".as_slice() {
            Some(Word::Manual)
        } else if bytes == b"clear".as_slice() {
            Some(Word::Clear)
        } else if bytes == b"clear-wtr".as_slice() {
            Some(Word::ClearWtr)
        } else {
            None
        }
    }

    /// What the word says of the target of a name.
    ///
    /// `None` where the plan has nothing of this name that the word is said of. This project's own.
    pub fn said_of(self, plan: &Plan, name: &[u8]) -> Option<WordTarget>
        ensures said { result ≡ said_of plan.now self name.now }
        ensures fits { IfSome result (IsSaid plan.now) }
    {
        let what = match self {
            Word::Down => What::Down(part_of_name(plan, name)?),
            Word::Up => What::Up(part_of_name(plan, name)?),
            Word::EsmcOff => What::EsmcOff(plan.line_of_name(name)?),
            Word::EsmcOn => What::EsmcOn(plan.line_of_name(name)?),
            Word::Level => return Some(WordTarget::GetsLevel(plan.source_of_name(name)?)),
            Word::Lockout => What::Lockout(plan.input_of_name(name)?),
            Word::Unlock => What::Unlock(plan.input_of_name(name)?),
            Word::Forced => What::Forced(plan.input_of_name(name)?),
            Word::Manual => What::Manual(plan.input_of_name(name)?),
            Word::Clear => What::Clear(plan.element_of_name(name)?),
            Word::ClearWtr => What::ClearWtr(plan.input_of_name(name)?),
        };
        Some(WordTarget::Happens(what))
    }
}

impl WordTarget {
    /// What happens, by the value: an empty one, or the name of a level of the option.
    ///
    /// `None` where the value is another. This project's own.
    pub fn with_value(self, option: NetOption, value: &[u8]) -> Option<What>
        ensures what { result ≡ what_of option self value.now }
        ensures fits { (plan : Topology) → plan.option ≡ option → IsSaid plan self → IfSome result (MayHappen plan) }
    {
        match self {
            WordTarget::Happens(what) => { if value.is_empty() { Some(what) } else { None } }
            WordTarget::GetsLevel(source) => {
                let level = level_of_name(option, value)?;
                Some(What::SourceLevel(source, level))
            }
        }
    }
}

/// The link of a name, or the line, or the source: no two of them share one.
fn part_of_name(plan: &Plan, name: &[u8]) -> Option<Part>
    ensures part { result ≡ part_of_name plan.now name.now }
    ensures within { IfSome result (IsPart plan.now) }
{
    if let Some(link) = plan.link_of_name(name) {
        return Some(Part::Link(link));
    }
    if let Some(line) = plan.line_of_name(name) {
        return Some(Part::Line(line));
    }
    let source = plan.source_of_name(name)?;
    Some(Part::Source(source))
}

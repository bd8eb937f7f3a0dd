//! For how long each element is worse than it was, counted by what changes: the milliseconds in between
//! cost nothing, and no more does an element that is left alone.

ghost use Rattle.std.specs.Prelude.{◌≡◌, ◌<◌, ◌≤◌, ◌+◌, ℕ, false, cond, nat_eq, length, slice_index_or, IfOk};
ghost use Rattle.std.specs.List.{All, list_any};
ghost use Rattle.sync_ql.specs.declared.levels.Level.{Level};
ghost use Rattle.sync_net.specs.NetState.{NetState};
ghost use Rattle.sync_sweep.specs.private.ShownNow.{AreAlikeBut};
ghost use Rattle.sync_sweep.specs.private.Spells.{no_spell, worse_in, IsWorseNow, AreWorseNow, IsNotedAt, AreNotedAt, AreNone, AreNoneBut, IsWithSpell, IsWayOf, is_darker, no_way};

use crate::counted_levels::CountedLevels;
use crate::on_way::OnWay;
use crate::shown::level_of;
use std::alloc::Global;
use sync_element::Element;
use sync_net::Net;
use sync_text::NoMemory;

/// For how long an element is worse than it was.
///
/// It is written anew only where the element turns worse or well again: then the milliseconds up to there
/// in which it was otherwise are all those in which it was as it was until now.
#[derive(Clone, Copy, Debug, PartialEq, Eq, Drop)]
pub struct Spell {
    /// Whether it is worse now.
    pub worse: bool,
    /// In how many of all milliseconds so far it was otherwise than it is now.
    pub otherwise: u64,
}

/// No element is worse, or ever was.
pub(crate) fn no_spells(alloc: Global, elements: u32) -> Result<Vec<Spell>, NoMemory>
    ensures { IfOk result (λ spells. AreNone elements spells.items) }
{
    let spells = vec![in alloc; spell_of_none(); elements as usize]?;
    Ok(spells)
}

fn spell_of_none() -> Spell
    ensures { result ≡ no_spell }
{
    Spell {
        worse: false,
        otherwise: 0,
    }
}

/// In how many of so many milliseconds an element was worse.
fn milliseconds(spell: Spell, next: u64) -> u64
    ensures { result ≡ worse_in spell next }
{
    if spell.worse {
        return next.saturating_sub(spell.otherwise);
    }
    spell.otherwise
}

/// From a millisecond on an element is worse, or it isn't.
fn noted(spell: Spell, worse: bool, now: u64) -> Spell
    ensures worse { result.worse ≡ worse }
    ensures noted { IsNotedAt now spell result }
{
    if spell.worse == worse {
        return spell;
    }
    Spell {
        worse,
        otherwise: now.saturating_sub(spell.otherwise),
    }
}

/// Notes in a millisecond, of the elements at some places, whether they are worse than the levels that
/// are kept.
pub(crate) fn note_worse(
    net: &Net<'_>,
    levels: &CountedLevels,
    now: u64,
    spells: &mut [Spell],
    places: &[u32],
)
    requires live { net.now.spent ≡ false }
    requires within { All (λ e. e < length net.now.plan.elements) places.now }
    requires levels { length levels.now ≡ length net.now.plan.elements }
    requires count { length spells.old ≡ length net.now.plan.elements }
    ensures count { length spells.new ≡ length spells.old }
    ensures noted { AreNotedAt now spells.old spells.new }
    ensures left { (k : ℕ) (other : Spell) → list_any (nat_eq k) places.now ≡ false →
        slice_index_or spells.new k other ≡ slice_index_or spells.old k other }
    ensures worse { (base : NetState) → base.plan ≡ net.now.plan → AreWorseNow base levels.now spells.old →
        AreAlikeBut places.now net.now base → AreWorseNow net.now levels.now spells.new }
{
    for place in places {
        let before = levels.place(*place);
        let spell = spells[*place as usize];
        spells[*place as usize] = note_one(net.element(*place), before, spell, now);
    }
}

/// Notes in a millisecond whether an element is worse than a level at a place of the table.
fn note_one(element: &Element, before: u8, spell: Spell, now: u64) -> Spell
    ensures noted { IsNotedAt now spell result }
    ensures worse { (level : Level) → level.place ≡ before → IsWorseNow element.now level result }
{
    let level = level_of(element);
    noted(spell, before < level.place, now)
}

/// What the elements at some places cost on the way up to a millisecond. All of it is forgotten.
pub(crate) fn take_way(spells: &mut [Spell], places: &[u32], next: u64) -> OnWay
    requires within { All (λ e. e < length spells.old) places.now }
    requires few { length spells.old < 4294967295 }
    ensures count { length spells.new ≡ length spells.old }
    ensures none { AreNoneBut places.now spells.old → AreNone (length spells.old) spells.new }
    ensures way { AreNoneBut places.now spells.old → IsWayOf spells.old next result }
{
    let mut way = no_way();
    for place in places {
        way = with_spell(way, *place, spells[*place as usize], next);
        spells[*place as usize] = spell_of_none();
    }
    way
}

fn no_way() -> OnWay
    ensures { result ≡ no_way }
{
    OnWay {
        hurt: 0,
        dark: 0,
        darkest: None,
        still: 0,
    }
}

/// What it costs with one more element, of which nothing was counted.
fn with_spell(way: OnWay, place: u32, spell: Spell, next: u64) -> OnWay
    requires hurt { way.hurt < 4294967295 }
    requires still { way.still < 4294967295 }
    ensures { IsWithSpell way place spell next result }
{
    let dark = milliseconds(spell, next);
    let hurt = one_more(way.hurt, 0 < dark);
    let still = one_more(way.still, spell.worse);
    if is_darker(way.darkest, way.dark, place, dark) {
        return OnWay {
            hurt,
            dark,
            darkest: Some(place),
            still,
        };
    }
    OnWay {
        hurt,
        dark: way.dark,
        darkest: way.darkest,
        still,
    }
}

/// Whether an element is worse for longer than the one that was worse for longest so far, or for as long
/// and comes before it.
fn is_darker(darkest: Option<u32>, longest: u64, place: u32, dark: u64) -> bool
    ensures { result ≡ is_darker darkest longest place dark }
{
    match darkest {
        Some(first) => longest < dark || (dark == longest && place < first),
        None => 0 < dark,
    }
}

/// A number, or one more.
fn one_more(count: u32, more: bool) -> u32
    requires room { count < 4294967295 }
    ensures { result ≡ count + cond more 1 0 }
{
    if more {
        return count + 1;
    }
    count
}

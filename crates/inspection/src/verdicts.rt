//! Why an element takes an input, or doesn't.

ghost use Rattle.std.specs.Prelude.{◌≡◌, ◌<◌, ℕ, List};
ghost use Rattle.sync_ql.specs.Selection.{SameOption};
ghost use Rattle.sync_ql.specs.Moment.{Moment};
ghost use Rattle.sync_ql.specs.Told.{moments_until};
ghost use Rattle.sync_element.specs.ElementState.{inputs_of, IsInTime};
ghost use Rattle.sync_element.specs.StandsFor.{StandsFor};
ghost use Rattle.inspection.specs.Verdict.{is_place, level_verdict, verdict_of, verdict_at, verdict_word};
ghost use Rattle.inspection.specs.private.Verdict.{is_failed_in};

use sync_element::Element;
use sync_ql::rules::Cond;
use sync_ql::{Level, better, do_not_use};

/// Why an element takes an input, or doesn't: the first of these that holds.
///
/// After G.781, selected input, lockout, signal fail and quality level; the floor, and the order,
/// are this project's own.
#[derive(Clone, Copy, Debug, PartialEq, Eq)]
pub enum InputVerdict {
    /// It is taken.
    Taken,
    /// It is locked out.
    LockedOut,
    /// It is failed.
    Failed,
    /// It has no level.
    Silent,
    /// Its level isn't better than do-not-use.
    DoNotUse,
    /// The element's floor is better than its level.
    BelowFloor,
    /// It could be taken, and isn't.
    Reserve,
}

/// The word for it.
pub(crate) fn verdict_word(verdict: InputVerdict) -> &'static [u8]
    ensures { result.now ≡ verdict_word verdict }
{
    match verdict {
        InputVerdict::Taken => b"taken",
        InputVerdict::LockedOut => b"locked-out",
        InputVerdict::Failed => b"failed",
        InputVerdict::Silent => b"silent",
        InputVerdict::DoNotUse => b"do-not-use",
        InputVerdict::BelowFloor => b"below-floor",
        InputVerdict::Reserve => b"reserve",
    }
}

/// Why an element takes the input at a place or doesn't, as from its last step up to but not at
/// `due`, if nothing is told.
pub(crate) fn verdict_of(element: &Element, place: u32) -> InputVerdict
    requires place { place < inputs_of element.now }
    ensures verdict { (past : List Moment) (n : ℕ) → StandsFor element.now past →
        IsInTime element.now n → 0 < n → result ≡ verdict_at element.now.settings
        (moments_until element.now.settings n past) place }
{
    first_reason(
        is_place(element.selected(), place),
        element.locked(place),
        is_failed_in(element.cond(place)),
        element.floor(),
        element.level_of(place),
    )
}

/// The first reason that holds.
fn first_reason(
    taken: bool,
    locked: bool,
    failed: bool,
    floor: Option<Level>,
    level: Option<Level>,
) -> InputVerdict
    requires options { SameOption floor level }
    ensures { result ≡ verdict_of taken locked failed floor level }
{
    if taken {
        return InputVerdict::Taken;
    }
    if locked {
        return InputVerdict::LockedOut;
    }
    if failed {
        return InputVerdict::Failed;
    }
    level_verdict(floor, level)
}

/// What its level says of an input that is free and good.
fn level_verdict(floor: Option<Level>, level: Option<Level>) -> InputVerdict
    requires options { SameOption floor level }
    ensures { result ≡ level_verdict floor level }
{
    let Some(level) = level else {
        return InputVerdict::Silent;
    };
    if !better(level, do_not_use(level.option)) {
        return InputVerdict::DoNotUse;
    }
    match floor {
        Some(floor) if better(floor, level) => InputVerdict::BelowFloor,
        _ => InputVerdict::Reserve,
    }
}

/// Whether a place is the one that is taken.
fn is_place(taken: Option<u32>, place: u32) -> bool
    ensures { result ≡ is_place taken place }
{
    match taken {
        Some(taken) => taken == place,
        None => false,
    }
}

/// Whether an input is failed in a condition.
fn is_failed_in(condition: Cond) -> bool
    ensures { result ≡ is_failed_in condition }
{
    match condition {
        Cond::Failed | Cond::Restoring(_) => true,
        Cond::Good | Cond::HoldOff(_) => false,
    }
}

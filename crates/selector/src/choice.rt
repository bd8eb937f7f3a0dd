ghost use Rattle.std.specs.Prelude.{◌≡◌, ◌≤◌, ◌<◌, ◌⊎◌, ◌↔◌, ℕ, ◌&&◌, not, false, None, IsNone, IfSome, length};
ghost use Rattle.sync_ql.specs.Selection.{manual_stands, best_choice, candidate, is_eligible, beats, AreOfOneOption};
ghost use Rattle.selector.specs.Choices.{IsChoice};
ghost use Rattle.selector.specs.private.Scanned.{IsFirstBest};

use crate::best::{beats, first_best, has_better_level, is_eligible};
use sync_ql::limits::MOST_INPUTS;
use sync_ql::rules::Candidate;

/// The input that is taken, and whether the manual switch stands.
///
/// After G.781, the selected input and manual switch.
#[derive(Clone, Copy, Debug, PartialEq, Eq)]
pub struct Choice {
    /// The place of the input that is taken; `None` exactly where none can be.
    pub input: Option<u32>,
    /// Whether there is a manual switch and its input is good enough.
    pub manual_stands: bool,
}

/// The input to take, of at most 64, by place: the forced one if it may be taken, and else none;
/// without one the manual one if its switch stands; else a best one, of which the one taken
/// stays, and otherwise the first is taken.
///
/// An input may be taken where it is usable and has a level better than do-not-use. A manual
/// switch stands while its input may be taken and no other that may be has a better level.
/// After G.781, selection by quality level and priority, forced switch and manual switch; the
/// least place is this project's own.
pub fn choose(
    inputs: &[Candidate],
    forced: Option<u32>,
    manual: Option<u32>,
    taken: Option<u32>,
) -> Choice
    requires few { length inputs.now ≤ MOST_INPUTS }
    requires one_option { AreOfOneOption inputs.now }
    requires forced_place { IfSome forced (λ i. i < length inputs.now) }
    requires manual_place { IfSome manual (λ i. i < length inputs.now) }
    requires taken_place { IfSome taken (λ i. i < length inputs.now) }
    requires one_switch { IsNone forced ⊎ IsNone manual }
    ensures { IsChoice inputs.now forced manual taken result }
{
    let best = first_best(inputs);
    let manual_stands = stands(inputs, best, manual);
    let input = match forced {
        Some(forced) if is_eligible(&inputs[forced as usize]) => Some(forced),
        Some(_) => None,
        None if manual_stands => manual,
        None => stay_or_take(inputs, best, taken),
    };
    Choice {
        input,
        manual_stands,
    }
}

/// Whether there is a manual switch that stands. No level is better than that of a best input.
fn stands(inputs: &[Candidate], best: Option<u32>, manual: Option<u32>) -> bool
    requires place { IfSome manual (λ i. i < length inputs.now) }
    requires one_option { AreOfOneOption inputs.now }
    requires best { IsFirstBest inputs.now (length inputs.now) best }
    ensures { result ≡ manual_stands inputs.now manual }
{
    match (manual, best) {
        (Some(manual), Some(best)) => {
            let manual = &inputs[manual as usize];
            is_eligible(manual) && !has_better_level(&inputs[best as usize], manual)
        }
        (_, None) | (None, _) => false,
    }
}

/// The input taken so far stays where no input that may be taken beats it.
pub(crate) fn stay_or_take(
    inputs: &[Candidate],
    best: Option<u32>,
    taken: Option<u32>,
) -> Option<u32>
    requires place { IfSome taken (λ i. i < length inputs.now) }
    requires one_option { AreOfOneOption inputs.now }
    requires best { IsFirstBest inputs.now (length inputs.now) best }
    ensures { result ≡ best_choice inputs.now taken }
{
    match (taken, best) {
        (Some(taken), Some(best)) if is_as_good(inputs, taken, best) => Some(taken),
        _ => best,
    }
}

fn is_as_good(inputs: &[Candidate], taken: u32, best: u32) -> bool
    requires taken { taken < length inputs.now }
    requires best { best < length inputs.now }
    requires one_option { AreOfOneOption inputs.now }
    ensures { result ≡ (is_eligible (candidate inputs.now taken)
        && not (beats (candidate inputs.now best) (candidate inputs.now taken))) }
{
    let taken = &inputs[taken as usize];
    is_eligible(taken) && !beats(&inputs[best as usize], taken)
}

//! The best of an element's inputs, without any switch.

ghost use Rattle.std.specs.Prelude.{◌≡◌, ◌≤◌, ◌<◌, ◌+◌, length};
ghost use Rattle.sync_ql.specs.Selection.{candidate, is_eligible, is_better, beats, SameOption, AreOfOneOption};
ghost use Rattle.selector.specs.private.Scanned.{IsFirstBest};

use sync_ql::limits::MOST_INPUTS;
use sync_ql::rules::Candidate;
use sync_ql::{better, do_not_use};

/// The first of the inputs that no other beats.
pub(crate) fn first_best(inputs: &[Candidate]) -> Option<u32>
    requires few { length inputs.now ≤ MOST_INPUTS }
    requires one_option { AreOfOneOption inputs.now }
    ensures { IsFirstBest inputs.now (length inputs.now) result }
{
    let mut best = None;
    for place in 0..inputs.len() {
        best = best_so_far(inputs, best, place);
    }
    best
}

/// The best input up to a place, where the best one before it is known.
fn best_so_far(inputs: &[Candidate], before: Option<u32>, place: usize) -> Option<u32>
    requires few { length inputs.now ≤ MOST_INPUTS }
    requires place { place < length inputs.now }
    requires one_option { AreOfOneOption inputs.now }
    requires before { IsFirstBest inputs.now place before }
    ensures { IsFirstBest inputs.now (place + 1) result }
{
    let candidate = &inputs[place];
    if !is_eligible(candidate) {
        return before;
    }
    match before {
        Some(best) if !beats(candidate, &inputs[best as usize]) => before,
        _ => Some(place as u32),
    }
}

/// Usable, and of a level better than do-not-use.
pub(crate) fn is_eligible(candidate: &Candidate) -> bool
    ensures { result ≡ is_eligible candidate.now }
{
    match candidate.level {
        Some(level) => candidate.usable && better(level, do_not_use(level.option)),
        None => false,
    }
}

/// By a better level, or at the same level by a smaller priority number.
pub(crate) fn beats(candidate: &Candidate, other: &Candidate) -> bool
    requires one_option { SameOption candidate.now.level other.now.level }
    ensures { result ≡ beats candidate.now other.now }
{
    match (candidate.level, other.level) {
        (Some(level), Some(than)) => {
            better(level, than) || level.place == than.place && candidate.priority < other.priority
        }
        _ => false,
    }
}

pub(crate) fn has_better_level(candidate: &Candidate, other: &Candidate) -> bool
    requires one_option { SameOption candidate.now.level other.now.level }
    ensures { result ≡ is_better candidate.now.level other.now.level }
{
    match (candidate.level, other.level) {
        (Some(level), Some(than)) => better(level, than),
        _ => false,
    }
}

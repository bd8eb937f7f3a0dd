//! Whence the elements of a network have their timing, counted.

ghost use Rattle.std.specs.Prelude.{◌≡◌, ◌≤◌, ◌<◌, ◌+◌, ◌^◌, false, ℕ, List, [], ◌∷◌, ◌++◌, length, map, Some};
ghost use Rattle.std.specs.List.{count_by, position};
ghost use Rattle.net_rules.specs.Settling.{IsGreatest};
ghost use Rattle.closed_walks.specs.declared.traced.Ending.{Ending};
ghost use Rattle.closed_walks.specs.private.Known.{IsKnown};
ghost use Rattle.timings.specs.Timing.{has_ended, is_lost, IsCounted, IsLengthIn};

use closed_walks::{End, Ending};

/// Whence the elements of a network have their timing, counted over their traces.
///
/// This project's own.
#[derive(Clone, Copy, Debug, PartialEq, Eq, Drop)]
pub struct Timing {
    /// How many elements have a trace that doesn't end at a source.
    pub lost: u32,
    /// The first of these, by its number.
    pub first: Option<u32>,
    /// The greatest number of lines of a trace that ends at a source or at an own clock, and 0 where
    /// none does.
    pub longest: u32,
}

/// What is counted of some traces, all of which are known.
pub(crate) fn counted(known: &[Option<Ending>]) -> Timing
    requires few { length known.now < 2 ^ 32 }
    requires known { (element : ℕ) → element < length known.now → IsKnown known.now element }
    ensures { (endings : List Ending) → map Some endings ≡ known.now → IsCounted endings result }
{
    let mut timing = Timing {
        lost: 0,
        first: None,
        longest: 0,
    };
    for (element, ending) in known.iter().enumerate() {
        match ending {
            Some(ending) => {
                timing.longest = longest_with(timing.longest, ending);
                timing.first = first_with(timing.first, element as u32, ending);
                timing.lost = lost_with(timing.lost, ending);
            }
            None => unreachable!(),
        }
    }
    timing
}

/// How many don't end at a source, with one more trace.
fn lost_with(lost: u32, ending: &Ending) -> u32
    requires few { lost < 4294967295 }
    ensures counted { (front : List Ending) → lost ≡ count_by is_lost front →
        result ≡ count_by is_lost (front ++ ending.now ∷ []) }
    ensures few { result ≤ lost + 1 }
{
    if is_lost(ending) { lost + 1 } else { lost }
}

/// The first that doesn't end at a source, with one more trace, of this element.
fn first_with(first: Option<u32>, element: u32, ending: &Ending) -> Option<u32>
    ensures { (front : List Ending) → element ≡ length front → first ≡ position is_lost front →
        result ≡ position is_lost (front ++ ending.now ∷ []) }
{
    if first.is_none() && is_lost(ending) {
        return Some(element);
    }
    first
}

/// The most lines of a trace that ends, with one more trace.
fn longest_with(longest: u32, ending: &Ending) -> u32
    ensures { (front : List Ending) → IsGreatest (IsLengthIn front) longest →
        IsGreatest (IsLengthIn (front ++ ending.now ∷ [])) result }
{
    if has_ended(ending) && longest < ending.lines {
        return ending.lines;
    }
    longest
}

/// Whether a trace doesn't end at a source.
pub(crate) fn is_lost(ending: &Ending) -> bool
    ensures { result ≡ is_lost ending.now }
{
    match ending.end {
        End::Source(_) => false,
        End::OwnClock(_) | End::Loop(_) => true,
    }
}

/// Whether a trace ends at a source or an own clock.
fn has_ended(ending: &Ending) -> bool
    ensures { result ≡ has_ended ending.now.end }
{
    match ending.end {
        End::Source(_) | End::OwnClock(_) => true,
        End::Loop(_) => false,
    }
}

//! Marks of what is due, and the marked places in order.

ghost use Rattle.std.specs.Prelude.{◌≡◌, ◌≤◌, ◌<◌, ℕ, true, length, IfOk, IfSome};
ghost use Rattle.agenda.specs.DueTimes.{due_in, AreLater};
ghost use Rattle.agenda.specs.Called.{is_marked, AreDueMarked, AreInOrder};

use crate::due_times::DueTimes;
use crate::marks::Marks;
use std::alloc::Global;
use sync_text::NoMemory;

/// Marks the places from 0 up to a count, where there are so many.
///
/// This project's own.
pub fn mark_all(marks: &mut Marks, count: u32)
    requires count { length marks.old.flags ≡ count }
    ensures count { length marks.new.flags ≡ count }
    ensures all { (k : ℕ) → k < count → is_marked marks.new.flags k ≡ true }
{
    for place in 0..count {
        marks.mark(place);
    }
}

/// Takes out what is due at `now` or before it, and marks it; what is due later stays as it was. It
/// takes the time of `set` for each, and no memory.
///
/// This project's own.
pub fn mark_due(dues: &mut DueTimes, marks: &mut Marks, now: u64)
    requires count { length dues.old ≡ length marks.old.flags }
    ensures marked { AreDueMarked now dues.old dues.new marks.old.flags marks.new.flags }
    ensures later { AreLater now dues.new }
{
    while let Some(place) = dues.take(now) {
        marks.mark(place);
    }
}

/// The marked places, from the lowest on. It takes time and memory by their number.
///
/// This project's own.
pub fn in_order(alloc: Global, marks: &Marks) -> Result<Vec<u32>, NoMemory>
    ensures { IfOk result (λ order. AreInOrder marks.now.flags order.items) }
{
    let Ok(mut order) = Vec::from_slice(alloc, marks.listed()) else {
        return Err(NoMemory);
    };
    order.sort_unstable();
    Ok(order)
}

/// The first time at which an object is due, and `None` where none is.
///
/// This project's own.
pub fn first_due(dues: &DueTimes) -> Option<u64>
    ensures until { (n : ℕ) → IfSome result (λ first. n ≤ first) → (k : ℕ) →
        IfSome (due_in dues.now k) (λ due. n ≤ due) }
    ensures from { (n : ℕ) → ((k : ℕ) → k < length dues.now →
        IfSome (due_in dues.now k) (λ due. n ≤ due)) → IfSome result (λ first. n ≤ first) }
{
    dues.first_time()
}

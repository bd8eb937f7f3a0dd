//! The timing of a plan's elements in one millisecond after another.

ghost use Rattle.std.specs.Prelude.{◌≡◌, ◌<◌, length, IfOk, IfSome};
ghost use Rattle.closed_walks.specs.Taking.{taken_in_list, AreTaken};
ghost use Rattle.timings.specs.Timing.{IsTiming};

use crate::counted::{Timing, counted};
use crate::ends::{Ends, no_ends, timing_along};
use closed_walks::{Ending, find_endings};
use std::alloc::Global;
use sync_text::NoMemory;
use sync_topo::{InputId, Plan};

/// By so much the number of a key's lines counts more than that of its element.
const ELEMENT: u64 = 1 << 32;

/// Tells whence the elements of a plan have their timing, again and again, and keeps the memory for it.
///
/// It is quick where each time most elements take what they took the first time. This project's own.
#[derive(Debug)]
pub struct Timings {
    /// The elements, those with the shortest traces the first time before the others.
    order: Vec<u32>,
    /// The memory in which endings are found along the order.
    ends: Ends,
    /// That in which they are found where the order doesn't tell them.
    met: Vec<bool>,
    known: Vec<Option<Ending>>,
}

// Written out, so that a way out of a function drops the whole in one step and not field by field.
impl Drop for Timings {
    fn drop(self) {
        let Timings {
            order,
            ends,
            met,
            known,
        } = self;
        drop(order);
        drop(ends);
        drop(met);
        drop(known);
    }
}

impl Timings {
    /// Nothing was told yet. It takes no memory.
    ///
    /// This project's own.
    pub fn new(alloc: Global) -> Timings {
        Timings {
            order: Vec::new(alloc),
            ends: no_ends(alloc),
            met: Vec::new(alloc),
            known: Vec::new(alloc),
        }
    }

    /// The timing of all elements of a plan, by what each takes, as a list by the elements' numbers.
    ///
    /// It takes time by the number of elements and lines of the plan, however long the traces are.
    /// `NoMemory` comes only when out of memory. This project's own.
    pub fn timing(
        &mut self,
        alloc: Global,
        plan: &Plan,
        taken: &[Option<InputId>],
    ) -> Result<Timing, NoMemory>
        requires taken { AreTaken plan.now taken.now }
        ensures timing { IfOk result (IsTiming plan.now (taken_in_list taken.now)) }
    {
        let along = timing_along(plan, taken, self.order.as_slice(), &mut self.ends)?;
        if let Some(timing) = along {
            return Ok(timing);
        }
        find_endings(
            alloc,
            plan,
            taken,
            self.order.as_slice(),
            &mut self.met,
            &mut self.known,
        )?;
        let timing = counted(self.known.as_slice());
        if self.order.is_empty() {
            self.order = shortest_first(alloc, self.known.as_slice())?;
        }
        Ok(timing)
    }
}

/// The elements, by their numbers, those with the shortest traces first.
fn shortest_first(alloc: Global, known: &[Option<Ending>]) -> Result<Vec<u32>, NoMemory>
    requires few { length known.now < 4294967296 }
    ensures { IfOk result (λ order. length order.items ≡ length known.now) }
{
    let mut keys = Vec::with_capacity(alloc, known.len())?;
    for (element, ending) in known.iter().enumerate() {
        keys.push(u64::from(lines_of(ending)) * ELEMENT + element as u64)?;
    }
    keys.sort_unstable();
    let mut order = Vec::with_capacity(alloc, known.len())?;
    for key in keys.as_slice() {
        order.push((*key % ELEMENT) as u32)?;
    }
    Ok(order)
}

/// The lines of a trace, where it is known.
fn lines_of(ending: &Option<Ending>) -> u32
    ensures { IfSome ending.now (λ ending. result ≡ ending.lines) }
{
    match ending {
        Some(ending) => ending.lines,
        None => 0,
    }
}

//! Which objects of a network are due when, and which are marked for work.
//!
//! Objects are told apart by their places, from 0 up to a count. Neither type looks at all of them.
//!
//! - [`DueTimes`] keeps when each object is due. Contracts see the times, by place, with `None` where
//!   an object isn't due (`due_in`). The first of them is at hand (`IsFirst`), and an object whose
//!   time has come is taken out (`IsTaken`).
//! - [`Marks`] keeps which objects are marked, in the order of marking. Contracts see a flag for each
//!   place beside the places that are listed (`Marked`): just those with a flag, none of them twice
//!   (`AreListed`).
//!
//! [`mark_due`] marks what is due and takes it out, and [`in_order`] gives the marked places from the
//! lowest on (`Called`). Only that list, `new` and `try_clone` take memory. [`walks::walk_law`] is of a
//! walk over listed places, and `limits` has how many places there may be. This project's own. The tests
//! show that memory is found, and go through orders of taking and of marking that are written by hand.
#![tactic(auto)]

mod called;
mod due_times;
pub mod limits;
mod marks;
pub mod walks;

pub use called::{first_due, in_order, mark_all, mark_due};
pub use due_times::{Due, DueTimes};
pub use marks::Marks;

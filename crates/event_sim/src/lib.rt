//! A run of a network in time, with the changes on the way.
//!
//! A [`Sim`] is made of a plan, and told events up to one millisecond after another. It goes from a
//! millisecond in which something happens to the next, and passes over the others. Whatever the
//! plan and the events are, its network stands for them, and where changes are watched, what it
//! noted are the rows of the definition: for each millisecond and each element that shows something
//! else than before it, what it shows. More rows than the plan may have are not kept: then it stops
//! at the last millisecond up to which all fit.
//!
//! | who asks | what |
//! |---|---|
//! | the one who makes a run | [`run_to`], or [`Sim::new`] and [`Sim::advance`] |
//! | who reads what came of it | [`Sim::changes`], [`Sim::reached`], [`Sim::net`] |
//! | who has events for longer | [`events_until`] |
//! | who proves something of a run in several advances | [`later_events_law`] |
//!
//! Which rows there are is `Rows`, what a simulator stands for is `Standing`, what an advance
//! answers is `Answers`, and what it may cost is `Bounds`: a step of the network for each busy
//! millisecond and one for the end, and a step of an element for each millisecond in which it is
//! active. After a step only the elements that it evaluated are looked at.
//!
//! That memory is found is tested, over runs whose rows are written by hand.
#![tactic(auto)]

mod change;
mod crossing;
mod laws;
mod noting;
mod running;
mod runs;
mod shown;
mod sim;

pub use change::{Change, Reach, Watch};
pub use event_times::events_until;
pub use laws::later_events_law;
pub use runs::run_to;
pub use sim::Sim;

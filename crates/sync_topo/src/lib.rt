//! Plans: the elements of a network, the links between them, the sources at them, and the lines that
//! carry timing.
//!
//! [`PlanRows`] is what a plan file says, and [`Plan::sized`] gives the [`Plan`] of it in a [`Size`],
//! or tells the first rule that the rows break and where. A plan has a size by its counts, and what it
//! may have beside it, as events and the rows of a report, goes by that. Contracts see a plan as a `Topology`: its option, its
//! elements, its links and its sources.
//!
//! Each link is two lines. Which lines and inputs there are and their names is `Lines`, which links
//! go back together is `Bundles`, which line goes on over which is `Hops`, and which events a plan
//! may have is `Events`. The rules for one row are `Rules`, the plan of rows or the first refusal is
//! `plan_of_rows`, and what holds of every plan is `IsWellFormed`.
//!
//! Tested here are look-ups, events, hops and printed texts; whole plans are tested in plan_file.
#![tactic(auto)]

mod bundles;
mod crossing;
mod element;
mod error;
mod event;
mod input;
mod laws;
mod link;
mod names;
mod outputs;
mod parts;
mod place;
mod plan;
mod returns;
mod rows;
mod sizes;
mod source;
mod values;
mod wiring;

pub use element::Element;
pub use error::PlanErr;
pub use event::{Case, Event, Part, What};
pub use input::{InputId, LineId, is_same_input};
pub use laws::{bundle_law, goes_back_law};
pub use link::Link;
pub use names::{MOST_NAME_BYTES, Names, is_name};
pub use outputs::all_lines_out;
pub use place::{Place, Section};
pub use plan::Plan;
pub use returns::ReturnRule;
pub use rows::{ElementRow, LinkRow, PlanRows, SourceRow};
pub use sizes::{
    LARGE_EVENTS, LARGE_ROWS, MOST_ELEMENTS, MOST_LINKS, MOST_SOURCES, STANDARD_ELEMENTS,
    STANDARD_EVENTS, STANDARD_LINKS, STANDARD_ROWS, STANDARD_SOURCES, Size,
};
pub use source::Source;

//! Least ranks of a plan as a certificate or, where no ranks rise, the first cycle of lines; and
//! how long chains of timing in it may become.
//!
//! [`rank_plan`] is the planner, and [`rank_with`] the same where returns may be allowed
//! ([`ReturnRule`](sync_topo::ReturnRule)); [`settling_bound`] says from when on a network of the plan
//! is settled, and [`agree`] for how long it may change where links are nominated at both ends, after
//! any events and after failures alone, or which lines clash. What a least rank and the first cycle are stands in sync_topo, `AreLeastRanks` and
//! `IsFirstCycle`; [`first_cycle_law`] and [`least_rank_law`] say that there is one first cycle,
//! which lines it has, and why the ranks are the least.
//!
//! [`chains`] counts the longest chains into each element: what is counted stands in reach_rules,
//! `Chains`, and what follows for a network is its `chain_law`.
//!
//! Lines get their ranks one after another, each once all lines that hop to it have theirs; an
//! element's inputs are looked at anew only from where they had ranks before. Where lines are
//! left over, one goes back from line to line until a cycle closes. Chains are counted in the
//! order in which lines got their ranks, and of each element the greatest counts alone are kept.
//!
//! The tests are worked plans.
#![tactic(auto)]

mod agreement;
mod bound;
mod chain_rows;
mod chaining;
mod failures;
mod filters;
mod first_cycle;
mod greatest;
mod inputs;
mod laws;
mod numbers;
mod ranked;
mod ranking;
mod reach;
mod times;
mod top;

pub use agreement::{Agreement, Bounds, agree};
pub use bound::settling_bound;
pub use chain_rows::Chains;
pub use chaining::{Chained, chain_plan, chains};
pub use laws::{first_cycle_law, least_rank_law};
pub use ranked::{Ranked, rank_plan, rank_with};

//! How far timing goes in a network: how long chains of timing become, how far levels reach, whom
//! a failure cuts off, when it comes to rest, and what a failure leaves.
//!
//! A chain is a list of nominated lines, each of which hops to the next: `Chains` says which
//! chains lead into an element, which elements are filters, and what is counted of a chain. The
//! greatest of these counts are the element's row, a [`Chain`]. [`chain_law`] ties them to what
//! elements take: a trace to a source or an own clock, read backwards, is a chain, so it is
//! within the row.
//!
//! A way is a list of lines from a source to an element, each of which ends where the next begins
//! (`Ways`). [`reach_law`] says how far the level of a source comes over ways on which nothing
//! keeps it out (`Reaching`): nobody there has a worse level.
//!
//! After a [`Failure`] an element is in reach where any way of lines that are left leads to it from
//! a clock that remains, and served where a way of nominated ones does (`Protection`).
//! [`protection_law`] says what those who are served have, and how one line tells that somebody is
//! cut off who needn't be. Beside a plan [`Group`]s of parts may be told that fail together, and each
//! of them is a failure too.
//!
//! Where links are nominated at both ends a network may swing for ever. `Agreement` says when
//! priorities agree with the ways of timing, so that it can't, and [`agree_law`] from when on it is
//! at rest. A plan that is protected and agrees survives each single failure (`Survival`):
//! [`survival_law`] puts the two together, so that who is in reach has come to rest on a clock. Out
//! of a settled millisecond that takes no wait-to-restore time (`Failing`): [`failure_law`] says how
//! soon after failures the network is at rest.
//!
//! The laws are the contracts of functions that do nothing. They hold no simulator and no planner:
//! the crates that make rows, and the program that prints them, cite them.
//!
//! Filters and the numbers to hold chains against are after ITU-T G.803, the synchronization
//! reference chain; which chains count, ways, failures and
//! agreement are this project's own.
#![tactic(auto)]

mod agreeing;
mod chain;
mod chains;
mod failing;
mod failure;
mod group;
mod protecting;
mod reaching;
mod surviving;

pub use agreeing::agree_law;
pub use chain::Chain;
pub use chains::chain_law;
pub use failing::failure_law;
pub use failure::Failure;
pub use group::Group;
pub use protecting::protection_law;
pub use reaching::reach_law;
pub use surviving::survival_law;

//! Priorities by fewest hops: a plan that has links and clocks but no priorities gets some with
//! which no timing loop can form.
//!
//! [`least_hops`] counts over how few links each element is reached from one with a clock, and
//! [`hops_ok`] tests a list of counts by looking at each element and each link once. [`nominate`]
//! gives the plan with the new priorities, and [`order_cert`] the certificate that
//! [`check`](rank_cert::check) accepts for it. [`with_priorities`] gives the plan with any other
//! priorities of its lines.
//!
//! What a count is stands in `HopCount`, the facts that are tested in `LocalFacts`, and the order
//! of elements, the candidates and their priorities in `Nomination`.
//!
//! That memory is found is tested, on worked plans.
#![tactic(auto)]

mod certificate;
mod facts;
mod hops;
mod nominated;
mod numbering;
mod placing;
mod renumbered;
mod rows;
mod search;

pub use certificate::order_cert;
pub use facts::{hops_ok, is_one_less};
pub use hops::{Hops, least_hops};
pub use nominated::nominate;
pub use renumbered::with_priorities;

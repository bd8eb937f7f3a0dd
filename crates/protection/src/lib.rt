//! Whom one failure cuts off that needn't be.
//!
//! [`protected`] looks at a plan after each single failure: of a link, a bundle, a source or an
//! element, and of nothing. An element that is in reach of a clock over the links that are left,
//! and to which no way of nominated lines leads from one, is cut off for want of a nomination. What
//! failures take away, who is in reach and who is served stands in reach_rules (`Protection`), the
//! rows in `Gaps`.
//!
//! [`protected_with`] looks at groups of parts too, each after all of them fail together.
//!
//! Of most failures the crate clearing tells at once whom they cut off. For each other one search over
//! nominated lines finds those who are served, and one look at all lines tells whether anybody is cut
//! off; only then a second search finds those who are in reach. Marks and lists are made once.
//!
//! [`protect`] gives a plan other priorities, by which no failure cuts anybody off. The search of
//! the crate ears proposes them, of which nothing is promised; what it finds is tried, and what the
//! trials leave of it stands in `Orderly`. Where they leave nothing, the tree of fewest hops stands in
//! its place.
#![tactic(auto)]

mod closed;
mod fewest;
mod gap;
mod gone;
mod guarding;
mod kind;
mod marks;
mod orderly;
mod parts;
mod protecting;
mod serving;
mod tally;
mod ways;

pub use gap::Gap;
pub use guarding::{Protected, protect};
pub use protecting::{protected, protected_with};
pub use reach_rules::{Failure, Group};

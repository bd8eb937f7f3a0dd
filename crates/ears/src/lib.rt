//! A search for priorities by which no single failure cuts anybody off.
//!
//! A bundle is one edge of a graph, and a source an edge from a root above all clocks. Over the
//! tree of fewest hops from the root the other edges lie as ears: paths between two elements of
//! earlier ears, of which one survives each failure. [`choose`] has each element take its timing
//! from both its neighbours on its ear, the one in the tree first: no line of an ear leads out of
//! it but to later ears, so that no lines hop round.
//!
//! Nothing of this is proved but that the search is safe and ends: whoever uses what it finds has
//! to try it.
#![tactic(auto)]

mod choosing;
mod laying;
mod tree;

pub use choosing::{EarChoice, choose};

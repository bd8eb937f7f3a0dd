//! How many objects there can be. This project's own.

/// The most objects of which the due times are kept.
pub const MOST_PLACES: usize = 2_147_483_648;

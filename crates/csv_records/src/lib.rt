//! The records of a text of comma-separated fields.
//!
//! [`Records`] gives the records of some bytes one after another, each a [`Record`], which a clause
//! sees as the list of its fields. Which records a text has is `records_of`, which is what the crate
//! `csv` promises of its reader. Every reader of comma-separated files stands on these.
//!
//! That a text of bytes from outside gives the records that one expects is tested.
#![tactic(auto)]

mod record;
mod stream;

pub use record::Record;
pub use stream::Records;

//! Rows of a plain plan text, line by line.
//!
//! [`plain_rows`] gives the rows that the TOML document of the text says, without that document: each token
//! is read as TOML's grammar reads it, and each value goes into the slot of its key at once. Most texts of
//! plans are plain; what isn't, or breaks a rule for tables, is left to the document, which tells what is
//! refused and where.
#![tactic(auto)]

mod entry;
mod glance;
mod plain;
mod tokens;

pub use plain::plain_rows;
pub use tokens::Stop;

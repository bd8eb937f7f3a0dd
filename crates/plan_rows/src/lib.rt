//! Rows of the tables of a plan file.
//!
//! [`rows_of`] gives the rows that a TOML document says, or tells which rule its tables break first, and
//! where. The value at each key of a table stands in a slot of its section ([`ElementValues`] and the like),
//! and the slots say the row ([`element_by`] and the like); who reads values without a document fills the
//! same slots.
#![tactic(auto)]

mod error;
mod head;
mod kinds;
mod rows;
mod values;
mod version;

pub use error::PlanFileErr;
pub use head::{fits_option, fits_version, option_in, option_of_text, version_in};
pub use rows::{element_by, link_by, rows_of, source_by};
pub use values::{ElementValues, HeadValues, LinkValues, SourceValues, keep};
pub use version::Version;

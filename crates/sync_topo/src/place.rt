//! Where in a plan file something stands.

use std::fmt;

/// A part of a plan file.
///
/// This project's own.
#[derive(Clone, Copy, Debug, PartialEq, Eq)]
pub enum Section {
    /// What stands before all rows.
    Head,
    /// The rows of the elements.
    Elements,
    /// The rows of the links.
    Links,
    /// The rows of the sources.
    Sources,
}

/// A row of a section.
///
/// Rows count from 1, and the head is row 0. This project's own.
#[derive(Clone, Copy, Debug, PartialEq, Eq)]
pub struct Place {
    /// The section.
    pub section: Section,
    /// The row in it.
    pub row: u64,
}

impl fmt::Display for Place {
    fn fmt<W: fmt::Write>(&self, f: &mut fmt::Formatter<W>) -> fmt::Result {
        match self.section {
            Section::Head => f.write_str("head"),
            Section::Elements => write!(f, "element {}", self.row),
            Section::Links => write!(f, "link {}", self.row),
            Section::Sources => write!(f, "source {}", self.row),
        }
    }
}

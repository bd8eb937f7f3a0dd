//! How large a plan may be, and what it may have beside it.
//!
//! A plan has a size by its counts, and who reads one allows a size. This project's own.

ghost use Rattle.std.specs.Prelude.{◌≡◌, ◌<◌, ◌^◌};
ghost use Rattle.sync_topo.specs.Sizes.{most_elements, most_links, most_sources};

/// The most elements of a plan of standard size.
pub const STANDARD_ELEMENTS: usize = 2000;

/// The most links of a plan of standard size.
pub const STANDARD_LINKS: usize = 4000;

/// The most sources of a plan of standard size.
pub const STANDARD_SOURCES: usize = 2000;

/// The most elements that any plan may have.
pub const MOST_ELEMENTS: usize = 100_000;

/// The most links that any plan may have.
pub const MOST_LINKS: usize = 200_000;

/// The most sources that any plan may have.
pub const MOST_SOURCES: usize = 100_000;

/// The most rows of a report, or frames of an element, for a plan of standard size.
pub const STANDARD_ROWS: usize = 200_000;

/// The most rows of a report, or frames of an element, for a large plan.
pub const LARGE_ROWS: usize = 10_000_000;

/// The most rows of a file of events, or of cases, for a plan of standard size.
pub const STANDARD_EVENTS: usize = 100_000;

/// The most rows of a file of events, or of cases, for a large plan.
pub const LARGE_EVENTS: usize = 5_000_000;

/// How large a plan is, or may be.
#[derive(Clone, Copy, Debug, PartialEq, Eq)]
pub enum Size {
    /// At most 2,000 elements, 4,000 links and 2,000 sources.
    Standard,
    /// At most 100,000 elements, 200,000 links and 100,000 sources.
    Large,
}

impl Size {
    /// The most elements of a plan of this size.
    pub fn most_elements(self) -> usize
        ensures most { result ≡ most_elements self }
        ensures small { result < 2 ^ 31 }
    {
        match self {
            Size::Standard => STANDARD_ELEMENTS,
            Size::Large => MOST_ELEMENTS,
        }
    }

    /// The most links of a plan of this size.
    pub fn most_links(self) -> usize
        ensures most { result ≡ most_links self }
        ensures small { result < 2 ^ 31 }
    {
        match self {
            Size::Standard => STANDARD_LINKS,
            Size::Large => MOST_LINKS,
        }
    }

    /// The most sources of a plan of this size.
    pub fn most_sources(self) -> usize
        ensures most { result ≡ most_sources self }
        ensures small { result < 2 ^ 31 }
    {
        match self {
            Size::Standard => STANDARD_SOURCES,
            Size::Large => MOST_SOURCES,
        }
    }
}

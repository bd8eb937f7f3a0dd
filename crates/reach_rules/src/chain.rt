// How long the chains of timing into an element are.

/// The longest chains of timing into one element, whatever faults and commands bring about.
///
/// Each number is that of a plan's chains, at most that of its lines. G.803's synchronization
/// reference chain has at most 60 elements in all, 20 of them between two filtering clocks, and 10
/// filtering clocks.
#[derive(Clone, Copy, Debug, PartialEq, Eq)]
pub struct Chain {
    /// The lines in all.
    pub links: u64,
    /// The lines since the last one that begins at a filter, this one included.
    pub since: u64,
    /// The lines that begin at a filter.
    pub clocks: u64,
}

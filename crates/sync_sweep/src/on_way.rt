//! What a case costs on the way.

/// What a case costs on the way: whose level is worse than it was before the first event that the case
/// has for itself, in the milliseconds after that.
///
/// This project's own.
#[derive(Clone, Copy, Debug, PartialEq, Eq, Drop)]
pub struct OnWay {
    /// How many elements are worse in some millisecond.
    pub hurt: u32,
    /// In how many milliseconds the element is that is worse for longest, all together.
    pub dark: u64,
    /// The first element that is worse for so long, where one is.
    pub darkest: Option<u32>,
    /// How many elements are worse at the end.
    pub still: u32,
}

/// Whether what a line brings to an element may go back over the line's own link or bundle.
///
/// This project's own.
#[derive(Clone, Copy, Debug, PartialEq, Eq, Drop)]
pub enum ReturnRule {
    /// It may not: do-not-use is sent there. After G.781, do not use in the reverse direction.
    Barred,
    /// It may, since nothing tells: in networks without quality levels.
    Allowed,
    /// It may not from a last resort, and may from every other line: whether a way back is preferred
    /// to what an element has depends on its priorities. This project's own.
    BarredFromLast,
}

/// A version of the format of plan files.
///
/// This project's own.
#[derive(Clone, Copy, Debug, PartialEq, Eq)]
pub enum Version {
    /// The first.
    One,
    /// The second: a link may name its bundle.
    Two,
}

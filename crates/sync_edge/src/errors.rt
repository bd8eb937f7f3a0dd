use thiserror::Error;

/// A call of a folder or of a sink failed; its count of faults rose in that call.
#[derive(Clone, Copy, Debug, PartialEq, Eq, Error)]
#[error("the outside failed")]
pub struct Failed;

/// Not all bytes were written; what was written is a front of them.
#[derive(Clone, Copy, Debug, PartialEq, Eq, Error)]
#[error("write fault")]
pub struct WriteFailed;

/// Why a file was not read.
#[derive(Clone, Copy, Debug, PartialEq, Eq, Error)]
pub enum ReadErr {
    /// A call of the folder failed.
    #[error("read fault")]
    Failed,

    /// The file has more bytes than the limit.
    #[error("too long")]
    TooLong,

    /// Out of memory.
    #[error("out of memory")]
    NoMemory,
}

//! The edge of the program: files and output.
//!
//! All that reads or writes stands on this crate, and it alone touches the outside. Its texts and
//! lists are those of sync_text, which it hands on.
//!
//! - [`Folder`] and [`Sink`] are where the program reads and writes. Their contracts speak of what a
//!   folder holds (`Contents`), of what a sink was given, and of counts of faults (`Rose`, `HasCause`).
//! - [`read_all`] reads a whole file and [`write_all`] writes all bytes. Each answers a fault only where
//!   a count of faults rose.
//! - [`MemFolder`] and [`MemSink`] stand in memory, and fail exactly where they are told to.
//!   [`RealFolder`] and [`RealSink`] are the system's files and standard output; they tell no content,
//!   so that what they read and write is only tested.
#![tactic(auto)]

mod crossing;
mod errors;
mod memory_folder;
mod memory_sink;
mod outside;
mod real;
mod transfers;

pub use errors::{Failed, ReadErr, WriteFailed};
pub use memory_folder::{MemFile, MemFolder};
pub use memory_sink::MemSink;
pub use outside::{Folder, Sink};
pub use real::{RealFolder, RealSink};
pub use sync_text::{NoMemory, Rows, Steps, Text, read_number};
pub use transfers::{read_all, write_all};

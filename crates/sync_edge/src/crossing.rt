//! What may be sent to another thread, and what may be shared between threads.

use crate::errors::{Failed, ReadErr, WriteFailed};

fn crosses<T: Send + Sync>() {}

fn all_cross() {
    crosses::<Failed>();
    crosses::<ReadErr>();
    crosses::<WriteFailed>();
}

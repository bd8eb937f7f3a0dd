//! What may be sent to another thread, and what may be shared between threads.

use crate::levels::{Level, NetOption};

fn crosses<T: Send + Sync>() {}

fn all_cross() {
    crosses::<NetOption>();
    crosses::<Level>();
}

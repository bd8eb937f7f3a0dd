//! What may be sent to another thread, and what may be shared between threads.

use crate::row::SweepRow;
use crate::studying::StudyRow;

fn crosses<T: Send + Sync>() {}

fn all_cross() {
    crosses::<SweepRow>();
    crosses::<StudyRow>();
}

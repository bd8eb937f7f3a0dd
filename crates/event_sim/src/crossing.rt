//! What may be sent to another thread, and what may be shared between threads.

use crate::sim::Sim;

fn crosses<T: Send + Sync>() {}

fn all_cross<'a>() {
    crosses::<Sim<'a>>();
}

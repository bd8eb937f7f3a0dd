//! What may be sent to another thread, and what may be shared between threads.

use crate::errors::NoMemory;
use crate::lists::{Rows, Text};

fn crosses<T: Send + Sync>() {}

fn sends<T: Send>() {}

fn shares<T: Sync>() {}

fn all_cross() {
    crosses::<NoMemory>();
    crosses::<Text>();
}

fn rows_are_sent<T: Send>() {
    sends::<Rows<T>>();
}

fn rows_are_shared<T: Sync>() {
    shares::<Rows<T>>();
}

//! Tests of the program's call over files and output that fail. No code stands here.
#![tactic(auto)]

#[cfg(test)]
mod sync_top_tests;

//! Tests of one element that is fed the bytes of what it received, over what their crates make public. No code stands here.
#![tactic(auto)]

#[cfg(test)]
mod node_file_tests;
#[cfg(test)]
mod node_replay_tests;

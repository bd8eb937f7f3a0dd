//! Tests of nomination and of networks over time, over what their crates make public. No code stands
//! here.
#![tactic(auto)]

#[cfg(test)]
mod event_sim_tests;
#[cfg(test)]
mod nominate_tests;
#[cfg(test)]
mod sync_sweep_tests;

//! Tests of the rules of one line and of the choice among inputs, and what these stand on, over what their crates make public. No code stands here.
#![tactic(auto)]

#[cfg(test)]
mod agenda_tests;
#[cfg(test)]
mod link_model_tests;
#[cfg(test)]
mod operator_cmds_tests;
#[cfg(test)]
mod selector_tests;
#[cfg(test)]
mod sync_ql_tests;

//! Tests of texts, files, captures, plans and certificates, over what their crates make public. No code stands here.
#![tactic(auto)]

#[cfg(test)]
mod capture_text_tests;
#[cfg(test)]
mod csv_records_tests;
#[cfg(test)]
mod esmc_frame_tests;
#[cfg(test)]
mod event_file_tests;
#[cfg(test)]
mod pcap_file_tests;
#[cfg(test)]
mod plan_file_tests;
#[cfg(test)]
mod plan_lines_tests;
#[cfg(test)]
mod rank_cert_tests;
#[cfg(test)]
mod sync_edge_tests;
#[cfg(test)]
mod sync_topo_tests;

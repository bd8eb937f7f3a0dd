//! Certificates: a rank for each nominated line of a plan.
//!
//! [`Cert`] holds the ranks, and contracts see a list with one optional rank for each line.
//! [`read_cert`] reads a certificate of a plan, or names the first rule that its text breaks,
//! [`check`] tests that the rank is greater after every hop, and [`write_cert`] writes a
//! certificate so that it is read back as the same. Which certificate a text gives is
//! `certificate_of`, what is written is `certificate_text`, and what the test finds is `Judges`.
//!
//! That memory is found, and the texts of the errors, are tested.
#![tactic(auto)]

mod cert;
mod error;
mod reading;
mod rising;
mod writing;

pub use cert::Cert;
pub use error::CertErr;
pub use reading::read_cert;
pub use rising::{Verdict, check, check_with};
pub use writing::write_cert;

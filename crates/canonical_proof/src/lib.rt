//! Canonical certificates of equality: the evaluation of both sides, written down as a certificate.
#![tactic(auto)]

pub mod laws;

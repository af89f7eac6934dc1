//! Behaviours, derivations, logs, and the inference rules as definitions; and what a client wishes to offer.
#![tactic(auto)]

pub mod action;
pub mod beh;
pub mod log;
pub mod offer;
pub mod parts;
pub mod reply;
pub mod rules;
pub mod sorts;
pub mod view;
pub mod wish;

//! The session of clients and workers in threads: one board behind a lock, round which they take turns.
#![tactic(auto)]

pub mod calls;
pub mod closing;
pub mod desk;
pub mod pass;
pub mod session;
pub mod waiting;
pub mod waiting_pass;
pub mod work_pass;

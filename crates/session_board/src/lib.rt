//! The board of a session behind a lock, which clients and workers share: what each of them does in its turn.
#![tactic(auto)]

mod answers;
pub mod fixed;
pub mod line;
pub mod shared;
pub mod spot;
pub mod turning;

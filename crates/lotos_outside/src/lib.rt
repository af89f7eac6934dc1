//! What lies outside the program: a shelf of files to fetch, a source of bytes to read, and a sink of bytes to write.
//!
//! Each of the three is a trait with an object in memory, which tells its bytes, and an adapter over real files and
//! streams, which tells none.
#![tactic(auto)]

pub mod file_shelf;
pub mod memory_shelf;
pub mod memory_sink;
pub mod memory_source;
pub mod shelf;
pub mod sink;
pub mod source;
pub mod stream_sink;
pub mod stream_source;

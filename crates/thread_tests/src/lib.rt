//! Tests of what runs in threads: turns of a lock, and drives over a desk.
#![tactic(auto)]

#[cfg(test)]
mod drives;
#[cfg(test)]
mod turns;

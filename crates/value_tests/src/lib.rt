//! Tests of the machine that remembers what it has evaluated.
#![tactic(auto)]

#[cfg(test)]
mod engine;

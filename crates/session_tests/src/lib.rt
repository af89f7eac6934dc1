//! Tests of what no command shows of sessions in threads.
#![tactic(auto)]

#[cfg(test)]
mod calls;
#[cfg(test)]
mod workers;

//! Tests of the whole call that no command can show: reads and writes that fail, and input in pieces, over objects in memory; and real files.
#![tactic(auto)]

#[cfg(test)]
mod call;
#[cfg(test)]
mod faults;
#[cfg(test)]
mod lines;
#[cfg(test)]
mod real_files;

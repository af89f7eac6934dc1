//! Tests of searches among the trees of composites, whose finds were worked out by hand.
#![tactic(auto)]

#[cfg(test)]
mod data;
#[cfg(test)]
mod finds;
#[cfg(test)]
mod lines;
#[cfg(test)]
mod samples;
#[cfg(test)]
mod sizes;

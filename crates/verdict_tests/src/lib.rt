//! Tests of what trees show, of nodes and by trees of rules, worked out by hand.
#![tactic(auto)]

#[cfg(test)]
mod data;
#[cfg(test)]
mod judged_shows;
#[cfg(test)]
mod keeping;
#[cfg(test)]
mod known_shows;
#[cfg(test)]
mod lines;
#[cfg(test)]
mod program;
#[cfg(test)]
mod samples;
#[cfg(test)]
mod trees;
#[cfg(test)]
mod values;

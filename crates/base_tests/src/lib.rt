//! Tests of the base: names and data, evaluation, windows, and what lies outside the program.
#![tactic(auto)]

#[cfg(test)]
mod asked;
#[cfg(test)]
mod copies;
#[cfg(test)]
mod evaluation;
#[cfg(test)]
mod generated;
#[cfg(test)]
mod partial;
#[cfg(test)]
mod polish;
#[cfg(test)]
mod samples;
#[cfg(test)]
mod sets;
#[cfg(test)]
mod shelves;
#[cfg(test)]
mod signatures;
#[cfg(test)]
mod sinks;
#[cfg(test)]
mod sources;
#[cfg(test)]
mod terms;
#[cfg(test)]
mod truth;
#[cfg(test)]
mod values;
#[cfg(test)]
mod windows;

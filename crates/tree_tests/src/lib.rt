//! Tests of calls that judge terms and expand behaviours, and of the board's tree: steps by each rule over small trees, with the
//! generations that end and begin, and large trees. Worked out by hand from the rules of the operators.
#![tactic(auto)]

#[cfg(test)]
mod equality;
#[cfg(test)]
mod expansions;
#[cfg(test)]
mod large;
#[cfg(test)]
mod printing;
#[cfg(test)]
mod program;
#[cfg(test)]
mod rules;
#[cfg(test)]
mod steps;

//! Tests of calls of the front end whose answers no command prints. What a command prints is shown by the cases of conformance/.
#![tactic(auto)]

#[cfg(test)]
mod codes;
#[cfg(test)]
mod data_text;
#[cfg(test)]
mod equations;
#[cfg(test)]
mod orders;
#[cfg(test)]
mod parsing;
#[cfg(test)]
mod texts;
#[cfg(test)]
mod tokens;

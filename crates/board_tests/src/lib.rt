//! Tests of what no command shows of the board of a session: jobs that are handed out, work that comes late, refusals, two clients at once,
//! actions that are made ready, and the index of its tree. Worked out by hand from the rules of sessions.
#![tactic(auto)]

#[cfg(test)]
mod index;
#[cfg(test)]
mod late;
#[cfg(test)]
mod ready;
#[cfg(test)]
mod sessions;
#[cfg(test)]
mod steps;
#[cfg(test)]
mod telling;
#[cfg(test)]
mod working;

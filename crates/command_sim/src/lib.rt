//! A simulation by hand: each line of an input is answered at once.
#![tactic(auto)]

mod answering;
mod end;
mod reading;
mod text;

pub use end::End;
pub use reading::simulate;

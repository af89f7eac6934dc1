// What comes of a generated specification and script.

use lotos_ast::refusal::Refusal;
use spec_core::code::Checked;

/// What comes of a generated specification and script.
#[derive(Drop)]
pub enum Answer {
    /// The specification is accepted, and this comes of the script.
    Accepted(Checked, command_run::Answer),
    /// The specification is refused.
    Refused(Refusal),
}

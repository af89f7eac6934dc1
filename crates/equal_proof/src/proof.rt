// Certificates of equality.

use spec_core::items::Op;
use spec_core::value::Value;

/// A step of a certificate. It takes equations from the top of a stack and puts one there; terms are ground, as the lists of their
/// operations in preorder.
#[derive(Drop)]
pub enum ProofStep {
    /// Puts `t = t`.
    Same(Value),
    /// Takes `t = u`, puts `u = t`.
    Turn,
    /// Takes `t = u` and, above it, `u = w`; puts `t = w`.
    Chain,
    /// Takes an equation for each argument of the operation, the last one topmost; puts the operation over both sides.
    Inside(Op),
    /// Takes the instances of the premises of an equation, the last one topmost; puts the instance of the equation by these terms for the
    /// variables of its left side, in the order of their first occurrences.
    Use { equation: u32, terms: Vec<Value> },
}

/// A certificate: steps that run one after another from an empty stack.
#[derive(Drop)]
pub struct Proof {
    pub steps: Vec<ProofStep>,
}

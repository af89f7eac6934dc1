// What an expression may speak of.

use crate::variables::Variables;
use spec_core::signature::Signature;

/// The sorts and operations, and the variables, of which a later one hides an earlier one of its name.
#[derive(Drop)]
pub struct Scope {
    /// Sorts and operations.
    pub signature: Signature,
    /// Variables, the outermost first.
    pub vars: Variables,
}

// Declarations of variables, and lists of gates.

use crate::place::Place;
use crate::token::Token;

/// Variables with their sorts.
#[derive(Drop)]
pub struct Declarations {
    /// The place of its first token.
    pub place: Place,
    /// The declarations, at least one.
    pub list: Vec<Declaration>,
}

/// Variables of one sort.
#[derive(Drop)]
pub struct Declaration {
    /// The place of its first token.
    pub place: Place,
    /// The variables, at least one.
    pub names: Vec<Token>,
    /// Their sort.
    pub sort: Token,
}

/// Gates in brackets.
#[derive(Drop)]
pub struct GateList {
    /// The place of the bracket.
    pub place: Place,
    /// The gates, at least one.
    pub gates: Vec<Token>,
}

/// What a behaviour gives when it ends.
#[derive(Drop)]
pub enum Functionality {
    /// It doesn't end.
    NoExit {
        /// The place of its token.
        place: Place,
    },
    /// It ends with values of these sorts.
    Exit {
        /// The place of its first token.
        place: Place,
        /// The sorts, where there are parentheses; at least one.
        sorts: Option<Vec<Token>>,
    },
}

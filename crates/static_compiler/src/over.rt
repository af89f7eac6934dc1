// Constructs over one part.

use lotos_ast::behaviour::{Binding, GateChoice, Offer, Operator};
use lotos_ast::declaration::Declaration;
use lotos_ast::expression::Premiss;
use lotos_ast::token::Token;

/// A construct over one part, without the part. What it holds is that of the syntax tree.
#[derive(Drop)]
pub enum Over<'a> {
    Inner,
    Act {
        gate: &'a Token,
        offers: &'a [Offer],
        predicate: Option<&'a Premiss>,
    },
    Guard(&'a Premiss),
    Let(&'a [Binding]),
    Values(&'a [Declaration]),
    Gates(&'a [GateChoice]),
    Hide(&'a [Token]),
    Par {
        gate: &'a Token,
        gates: &'a [Token],
        operator: &'a Operator,
    },
}

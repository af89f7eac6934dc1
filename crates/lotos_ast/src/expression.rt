// Expressions and premisses.

ghost use Rattle.std.specs.Prelude.{◌≡◌, IfOk, map};
ghost use Rattle.lotos_ast.specs.Reads.{leaf, both, left, right, node};
ghost use Rattle.lotos_ast.specs.ListTrees.{repeated_tree, between};
ghost use Rattle.lotos_ast.specs.ExpressionTrees.{expr_tree, infix_tree, simple_tree, head_tree, infixes_tree, of_sort, values_tree};

use crate::place::Place;
use crate::token::Token;
use spec_core::memory::Memory;
use std::alloc::Global;

/// An expression: operands with operations between them, all of one level, grouped to the left (profile).
#[derive(Drop)]
#[cycle(expression)]
pub struct Expr {
    /// The place of its first token.
    pub place: Place,
    /// The first operand.
    pub first: Simple,
    /// The operations behind it, each with its right operand.
    pub rest: Vec<Infix>,
}

/// An operation between its arguments, and the argument behind it.
#[derive(Drop)]
#[cycle(expression)]
pub struct Infix {
    /// The place of its first token.
    pub place: Place,
    /// The operation's name.
    pub name: Token,
    /// The argument behind it.
    pub right: Simple,
}

/// An operand, and the sorts that it is said to have.
#[derive(Drop)]
#[cycle(expression)]
pub struct Simple {
    /// The place of its first token.
    pub place: Place,
    /// The operand.
    pub head: Head,
    /// The sorts, each behind an `of`.
    pub sorts: Vec<Token>,
}

/// An operand.
#[derive(Drop)]
#[cycle(expression)]
pub enum Head {
    /// A variable, a constant, or an operation before its arguments.
    Applied {
        /// The place of its first token.
        place: Place,
        /// The name.
        name: Token,
        /// The arguments, where there are parentheses; at least one.
        arguments: Option<Vec<Expr>>,
    },
    /// An expression in parentheses.
    Grouped {
        /// The place of the parenthesis.
        place: Place,
        /// The expression.
        inner: Box<Expr>,
    },
}

/// A condition: two expressions that are to be equal, or one that is to be true.
#[derive(Drop)]
pub struct Premiss {
    /// The place of its first token.
    pub place: Place,
    /// The expression, or the left one of two.
    pub left: Expr,
    /// The right one of two.
    pub right: Option<Expr>,
}

impl Expr {
    /// The expression with these parts. It takes no memory.
    pub fn new(place: Place, first: Simple, rest: Vec<Infix>) -> Expr
        ensures tree { expr_tree result ≡ node place (both (simple_tree first) (infixes_tree (map infix_tree rest.items))) }
    {
        Expr { place, first, rest }
    }
}

impl Infix {
    /// The operation with its right operand. It takes no memory.
    pub fn new(place: Place, name: Token, right: Simple) -> Infix
        ensures tree { infix_tree result ≡ node place (both (leaf name) (simple_tree right)) }
    {
        Infix { place, name, right }
    }
}

impl Simple {
    /// The operand with these sorts. It takes no memory.
    pub fn new(place: Place, head: Head, sorts: Vec<Token>) -> Simple
        ensures tree { simple_tree result ≡ node place (both (head_tree head) (repeated_tree (map of_sort sorts.items))) }
    {
        Simple { place, head, sorts }
    }
}

impl Head {
    /// A name with its arguments. It takes no memory.
    pub fn applied(place: Place, name: Token, arguments: Option<Vec<Expr>>) -> Head
        ensures tree { head_tree result ≡ node place (right (both (leaf name) (values_tree arguments))) }
    {
        Head::Applied {
            place,
            name,
            arguments,
        }
    }

    /// An expression in parentheses.
    pub fn grouped(alloc: Global, place: Place, inner: Expr) -> Result<Head, Memory>
        ensures tree { IfOk result (λ head. head_tree head ≡ node place (left (between (expr_tree inner)))) }
    {
        Ok(Head::Grouped {
            place,
            inner: Box::new(alloc, inner)?,
        })
    }
}

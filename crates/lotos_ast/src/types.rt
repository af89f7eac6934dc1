// Types of data.

use crate::declaration::Declarations;
use crate::expression::{Expr, Premiss};
use crate::place::Place;
use crate::token::Token;

/// Types of the library, or the definition of one type.
#[derive(Drop)]
pub enum TypeDef {
    /// Types of the library that are taken in.
    Library {
        /// The place of its first token.
        place: Place,
        /// The names of the types, at least one.
        names: Vec<Token>,
    },
    /// The definition of a type.
    Definition {
        /// The place of its first token.
        place: Place,
        /// The type's name.
        name: Token,
        /// How the type is made.
        body: TypeBody,
    },
}

/// How a type is made.
#[derive(Drop)]
pub enum TypeBody {
    /// By what it imports and what it declares.
    Declared {
        /// The place of its first token, or of the next token where it has none.
        place: Place,
        /// The types that it imports; at least one where there are any.
        imports: Option<Vec<Token>>,
        /// What is left open in it.
        formals: Formals,
        /// Its sorts.
        sorts: Option<SortPart>,
        /// Its operations.
        operations: Option<OperationPart>,
        /// Its equations.
        equations: Option<EquationPart>,
    },
    /// As a copy of a type with other names.
    Renamed {
        /// The place of its first token.
        place: Place,
        /// The type that is copied.
        source: Token,
        /// The new names.
        pairs: Pairs,
    },
    /// As a copy of a type whose formals are replaced by items of other types.
    Actualized {
        /// The place of its first token.
        place: Place,
        /// The type that is copied.
        source: Token,
        /// The types whose items replace the formals, at least one.
        actuals: Vec<Token>,
        /// What replaces each formal.
        pairs: Pairs,
    },
}

/// Formal sorts, operations and equations.
#[derive(Drop)]
pub struct Formals {
    /// The place of its first token, or of the next token where it has none.
    pub place: Place,
    /// The formal sorts.
    pub sorts: Option<SortList>,
    /// The formal operations.
    pub operations: Option<Vec<OperationDecl>>,
    /// The formal equations.
    pub equations: Option<EquationBody>,
}

/// The sorts that a type declares.
#[derive(Drop)]
pub struct SortPart {
    /// The place of its first token.
    pub place: Place,
    /// The sorts.
    pub sorts: SortList,
}

/// Sorts.
#[derive(Drop)]
pub struct SortList {
    /// The place of its first token.
    pub place: Place,
    /// The names, at least one.
    pub names: Vec<Token>,
}

/// The operations that a type declares.
#[derive(Drop)]
pub struct OperationPart {
    /// The place of its first token.
    pub place: Place,
    /// The declarations.
    pub operations: Vec<OperationDecl>,
}

/// Operations with one list of argument sorts and one result sort.
#[derive(Drop)]
pub struct OperationDecl {
    /// The place of its first token.
    pub place: Place,
    /// The operations, at least one.
    pub names: Vec<DeclaredName>,
    /// The argument sorts, where there are any. There are two where a name stands between its arguments.
    pub arguments: Option<Vec<Token>>,
    /// The result sort.
    pub result: Token,
}

/// An operation as it is declared.
#[derive(Drop)]
pub struct DeclaredName {
    /// The place of its first token.
    pub place: Place,
    /// Its name.
    pub name: OperationName,
    /// The comment that marks it as a constructor.
    pub mark: Option<Token>,
}

/// An operation's name, with the place that its arguments take.
#[derive(Drop)]
pub enum OperationName {
    /// It stands before its arguments.
    Prefix {
        /// The place of its first token.
        place: Place,
        /// The name.
        name: Token,
    },
    /// It stands between its two arguments.
    Infix {
        /// The place of its first token.
        place: Place,
        /// The name, without the low lines round it.
        name: Token,
    },
}

/// The equations that a type declares.
#[derive(Drop)]
pub struct EquationPart {
    /// The place of its first token.
    pub place: Place,
    /// The equations.
    pub body: EquationBody,
}

/// Equations, by sorts.
#[derive(Drop)]
pub struct EquationBody {
    /// The place of its first token, or of the next token where it has none.
    pub place: Place,
    /// Variables for all of them.
    pub variables: Vec<ForAll>,
    /// The equations of one sort each.
    pub parts: Vec<SortEquations>,
}

/// Variables of equations.
#[derive(Drop)]
pub struct ForAll {
    /// The place of its first token.
    pub place: Place,
    /// The variables.
    pub declarations: Declarations,
}

/// Equations of one sort.
#[derive(Drop)]
pub struct SortEquations {
    /// The place of its first token.
    pub place: Place,
    /// The sort of both sides.
    pub sort: Token,
    /// Variables for these equations alone.
    pub variables: Vec<ForAll>,
    /// The equations.
    pub equations: Vec<Equation>,
}

/// An equation.
#[derive(Drop)]
pub struct Equation {
    /// The place of its first token.
    pub place: Place,
    /// What has to hold, where it has premisses; at least one.
    pub premisses: Option<Vec<Premiss>>,
    /// The left side.
    pub left: Expr,
    /// The right side.
    pub right: Expr,
}

/// New names for items of a type.
#[derive(Drop)]
pub struct Pairs {
    /// The place of its first token, or of the next token where it has none.
    pub place: Place,
    /// The sorts; at least one where there are any.
    pub sorts: Option<Vec<SortPair>>,
    /// The operations; at least one where there are any.
    pub operations: Option<Vec<OperationPair>>,
}

/// A new sort for an old one.
#[derive(Drop)]
pub struct SortPair {
    /// The place of its first token.
    pub place: Place,
    /// The new sort.
    pub new: Token,
    /// The old sort.
    pub old: Token,
}

/// A new operation for an old one.
#[derive(Drop)]
pub struct OperationPair {
    /// The place of its first token.
    pub place: Place,
    /// The new operation.
    pub new: OperationName,
    /// The old operation.
    pub old: OperationName,
}
